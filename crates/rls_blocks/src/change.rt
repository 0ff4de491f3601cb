//! How one block changes in its place.

ghost use Rattle.std.specs.Prelude.{◌≡◌, ◌+◌, ◌≤◌, length, OnOk, OnErr};
ghost use Rattle.rls_blocks.specs.Edits.{changed, gain, MayChange};

use crate::block::Block;
use rls_ident::rely;
use rls_runs::Text;
use std::alloc::AllocError;

/// How a block changes.
#[derive(Clone, Copy)]
pub(crate) enum Change<'a> {
    /// These characters come before its own, with the identifiers right before its first one.
    GrowFront(&'a Text),
    /// These characters come after its own, with the identifiers that go on with its last one.
    GrowBehind(&'a Text),
    /// It keeps this many characters at its front.
    KeepFront(u32),
    /// It keeps its characters from this place on.
    KeepBack(u32),
}

impl Block {
    /// The block after a change. It costs the characters that come, or those that go.
    pub(crate) fn change(&mut self, change: Change<'_>) -> Result<(), AllocError>
        requires may { MayChange change self.old }
        ensures ok { OnOk result (self.new ≡ changed change.entry self.old) }
        ensures err { OnErr result (self.new ≡ self.old) }
        ensures chars { length self.new.1 ≤ length self.old.1 + gain change.entry }
    {
        rely!(let _len = self.len());
        match change {
            Change::GrowFront(text) => self.lengthen_front(text),
            Change::GrowBehind(text) => self.lengthen(text),
            Change::KeepFront(at) => {
                self.keep_front(at);
                Ok(())
            }
            Change::KeepBack(from) => self.keep_back(from),
        }
    }
}
