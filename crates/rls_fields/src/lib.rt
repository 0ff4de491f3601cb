//! The fields of a snapshot file: the parts of a replica, read from bytes, and what a replica keeps, written as such.
//!
//! Each call that writes appends the bytes of its part. Where memory runs out, some of them may stand there.
//! Why: CHOICES.md, 59, 63.
#![tactic(auto)]

mod lists;
mod place;
mod read_epochs;
mod read_rows;
mod read_snapshot;
mod read_stems;
mod read_text;
mod sizes;
mod write_epochs;
mod write_ops;
mod write_rows;
mod write_stems;
mod write_text;

pub use place::place_of_broken;
pub use read_snapshot::snapshot;
pub use write_epochs::{kept_epochs_len, put_epochs};
pub use write_ops::{put_missing, put_waiting, waiting_len};
pub use write_rows::{left_count, other_rows_len, put_left, put_rows};
pub use write_stems::{put_stems, stems_len};
pub use write_text::{put_text_runs, tree_len};
