//! A replica: what one member of a group has of the text, and all that may become of it
//! (RenamableLogootSplit: Nicolas, Oster and Perrin).
//! Why: CHOICES.md, 54, 83, 103, 176, 177, 178, 186.
#![tactic(auto)]

mod applying;
mod bounds;
mod counting;
mod editing;
mod gone;
mod hints;
mod keeping;
mod known;
mod looking;
mod marks;
mod naming;
mod reading;
mod receiving;
mod renaming_box;
mod renaming_text;
mod replica;
mod restoring;
mod taking;
mod translating;
mod uniting;
mod watching;

pub use counting::Kept;
pub use replica::{NewError, Replica};
pub use rls_model::{Counts, Edit, EditError, Parts, Receipt, Refusal, Refusals, Release, Taken};
pub use rls_parts::{PartsError, Tested, test_all};
pub use taking::{SendError, TakeError};
pub use translating::PastError;
pub use watching::{Nobody, Watcher};
