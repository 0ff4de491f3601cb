//! Tuples, identifiers, names of epochs and vectors.
#![tactic(auto)]

/// Marks a look at a value that changes nothing and is there for the prover alone: by it the rest of the function knows what the value's type
/// promises. Whoever takes it out makes a proof fail. It costs what the look costs, which is mostly that of a field.
#[macro_export]
macro_rules! rely {
    ($($look:tt)*) => {
        $($look)*;
    };
}

mod epoch_name;
mod ident;
pub mod laws;
pub mod limits;
mod making;
mod tuple;
mod vector;

pub use epoch_name::EpochName;
pub use ident::{Ident, IdentError};
pub use making::between;
pub use tuple::{Spot, Tuple};
pub use vector::Vector;
