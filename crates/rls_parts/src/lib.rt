//! The parts of a replica, as a snapshot holds them: read from what the replica keeps, and the rules that they have to keep, tested. The
//! stems are such a part, and tell where an own identifier goes on.
//! Why: CHOICES.md, 17, 19, 92, 123.
#![tactic(auto)]

mod epochs;
mod held;
mod kept_epochs;
pub mod laws;
mod line;
mod lists;
mod log;
mod maximal_runs;
mod neighbour;
mod own;
mod places;
mod retained;
mod rows;
mod stems;
mod table;
mod tested;
mod text;

pub use kept_epochs::epoch_parts;
pub use lists::{left_members, other_rows, waiting};
pub use maximal_runs::text_runs;
pub use neighbour::Neighbour;
pub use places::Places;
pub use table::StemTable;
pub use tested::{PartsError, Tested, test_all};
