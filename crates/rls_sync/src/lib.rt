//! Messages by bytes.
#![tactic(auto)]

mod sync;

pub use sync::{TakeBytesError, message_bytes, message_bytes_told, take_bytes, take_bytes_watched};
