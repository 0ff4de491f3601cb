//! The stems of one author.

ghost use Rattle.std.specs.Prelude.{◌≡◌, ◌<◌, Some, length, slice_get};
ghost use Rattle.rls_parts.specs.Own.{own_of};

use crate::table::StemTable;
use rls_model::Stem;

impl StemTable {
    /// How many stems an author has. It takes no memory.
    pub fn count_of(&self, author: u32) -> usize
        requires author { author < self.now.members }
        ensures count { result ≡ length (own_of author self.now.stems) }
    {
        self.lines[author as usize].count()
    }

    /// An author's stem at a place, counted from 0 by number. It takes no memory.
    pub fn nth(&self, author: u32, i: usize) -> Stem
        requires author { author < self.now.members }
        requires place { i < length (own_of author self.now.stems) }
        ensures stem { slice_get (own_of author self.now.stems) i ≡ Some result }
    {
        self.lines[author as usize].nth(author, i)
    }
}
