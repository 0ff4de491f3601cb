//! Lines of a script.
//! Why: docs/DECISIONS.md, 211.

ghost use Rattle.std.specs.Prelude.{◌≡◌, ◌<◌, ◌↔◌, IsTrue, [], length, slice_get, Some};

use rls_runs::Text;
use std::marker::Model;

/// A line of a script. Positions and counts are of characters.
#[derive(Drop)]
pub enum Line {
    /// Inserts the text at a position.
    Insert { at: u64, text: Text },
    /// Deletes this many characters from a position on.
    Delete { at: u64, count: u64 },
    /// Deletes the grapheme cluster that ends at a position.
    Back { at: u64 },
    /// Renames all identifiers.
    Rename,
}

/// The lines of a script, in order.
#[derive(Drop)]
pub struct Lines {
    lines: Vec<Line>,
}

impl Model for Lines {
    ghost use Rattle.std.specs.Prelude.{List};
    ghost use Rattle.rls_script.specs.declared.lines.Line.{Line};

    ghost Value = { List Line };

    ghost view = { λ a. a.lines.items };
}

impl Lines {
    /// The list of these lines.
    pub(crate) fn from_vec(lines: Vec<Line>) -> Lines
        ensures lines { result ≡ lines.items }
    {
        Lines { lines }
    }

    /// How many lines there are.
    pub fn len(&self) -> usize
        ensures len { result ≡ length self.now }
    {
        self.lines.len()
    }

    /// Whether there is no line.
    pub fn is_empty(&self) -> bool
        ensures empty { IsTrue result ↔ (self.now ≡ []) }
    {
        self.lines.is_empty()
    }

    /// The lines, to be taken one by one.
    pub fn into_vec(self) -> Vec<Line>
        ensures lines { result.items ≡ self }
    {
        let Lines { lines } = self;
        lines
    }

    /// The line of this number, counted from 0.
    pub fn get(&self, i: usize) -> &Line
        requires { i < length self.now }
        ensures line { slice_get self.now i ≡ Some result.now }
    {
        &self.lines[i]
    }
}
