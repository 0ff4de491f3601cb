//! What steps consist of.

ghost use Rattle.std.specs.Prelude.{◌≡◌, length, IfOk};

use rls_runs::Text;
use std::alloc::AllocError;
use std::marker::Model;

/// Labels of characters, in the order of these. They are seen as a list of numbers.
#[derive(Drop)]
pub struct Labels {
    numbers: Vec<u64>,
}

impl Model for Labels {
    ghost use Rattle.std.specs.Prelude.{List, ℕ};

    ghost Value = { List ℕ };

    ghost view = { λ l. l.numbers.items };
}

impl Labels {
    /// These labels. It takes no memory.
    pub fn from_vec(numbers: Vec<u64>) -> Labels
        ensures labels { result ≡ numbers.items }
    {
        Labels { numbers }
    }

    /// The labels. It takes no memory.
    pub fn as_slice(&self) -> &[u64]
        ensures labels { result.now ≡ self.now }
    {
        &self.numbers
    }

    /// The same again.
    pub fn copy(&self) -> Result<Labels, AllocError>
        ensures copy { IfOk result (λ l. l ≡ self.now) }
    {
        Ok(Labels {
            numbers: Vec::from_slice(*self.numbers.allocator(), &self.numbers)?,
        })
    }
}

/// What a member did at one place. Characters are told by labels, which stay when a character goes and comes back under another
/// identifier.
#[derive(Drop)]
pub enum Piece {
    /// It put characters in.
    Put {
        labels: Labels,
    },
    /// It cut these characters out, after a left neighbour and before a right one, but for the ends of the text.
    Cut {
        labels: Labels,
        text: Text,
        left: Option<u64>,
        right: Option<u64>,
    },
}

/// A piece, and the number of the group that it belongs to.
#[derive(Drop)]
pub struct Step {
    pub group: u64,
    pub piece: Piece,
}
