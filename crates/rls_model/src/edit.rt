//! Edits, and why they are refused.

ghost use Rattle.rls_model.specs.WellFormed.{IsEdit};

use rls_ident::rely;
use rls_runs::Text;

/// What a member may do to its text, or with itself. Places and counts are in characters.
#[derive(Drop)]
pub enum Edit {
    /// Puts a text before the character at this place, or at the end.
    Insert { at: u64, text: Text },
    /// Takes this many characters out, from this place on.
    Delete { at: u64, count: u64 },
    /// Opens an epoch in which the identifiers of the text are one run.
    Rename,
    /// Ends the member's own part.
    Leave,
}

impl Edit {
    /// What its fields promise: numbers in range and a text that is well formed.
    pub fn fits(&self)
        ensures whole { IsEdit self.now }
    {
        match self {
            Edit::Insert { at, text } => {
                rely!(let _at = *at);
                rely!(let _len = text.len());
            }
            Edit::Delete { at, count } => {
                rely!(let _at = *at);
                rely!(let _count = *count);
            }
            Edit::Rename | Edit::Leave => {}
        }
    }
}

/// Why an edit is refused. Of several reasons the first in this order counts. A refused edit changes nothing.
#[derive(Clone, Copy, Debug, PartialEq, Eq)]
pub enum EditError {
    /// The member has left.
    Left,
    /// The text is empty, or the count is 0.
    EmptyEdit,
    /// The place, or the end of what is to be deleted, lies past the end of the text, which has this total.
    Range { at: u64, total: u64 },
    /// A rename where there is no text.
    EmptyDocument,
    /// An insertion of more than 1,048,576 characters, a deletion of more than 4,194,304, or a rename of a text of more than
    /// 4,194,304; the total is that number.
    TooManyChars { total: u64 },
    /// The member's numbers are spent: it has made 4,294,967,295 operations.
    NumbersSpent,
    /// The operation would have more than 16,777,216 bytes.
    OpTooLarge { bytes: u64 },
    /// There is no memory. This may be answered to any edit.
    OutOfMemory,
}
