//! Tests of undo, also by steps, of cursors, and of what changes in the text: of what an editor calls beside a replica.
#![tactic(auto)]

#[cfg(test)]
mod tests;
