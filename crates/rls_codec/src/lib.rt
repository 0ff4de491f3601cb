//! Operations and messages as bytes, with the exact place of a fault.
#![tactic(auto)]

mod fault;
mod fields;
mod giving;
mod idents;
pub mod laws;
mod lists;
mod messages;
mod puts;
mod reading;
mod writing;

pub use fault::{DecodeError, ReadError};
pub use fields::{byte, epoch_name, i32_at, text, text_slice, u32_at, u64_at, vector};
pub use giving::give_back;
pub use idents::{ident, inner, last, run, runs, tuple_count};
pub use messages::{decode_message, magic, member, member_count};
pub use puts::{
    put_byte, put_i32, put_ident, put_name, put_run, put_runs, put_text, put_u32, put_u64,
    put_vector,
};
pub use reading::{decode_op, op, op_fields, ops};
pub use writing::{encode_message, encode_op, put_head, put_op, put_ops};
