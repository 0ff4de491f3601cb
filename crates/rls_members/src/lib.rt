//! A group as code: a file in memory for each member, the messages that were sent, and calls that run the program for a member.
#![tactic(auto)]

mod member;
mod members;
mod words;

pub use members::Members;
