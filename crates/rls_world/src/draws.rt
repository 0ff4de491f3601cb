//! Numbers, letters and edits that a seed decides.

ghost use Rattle.std.specs.Prelude.{◌≡◌, ◌<◌, ◌-◌, ◌^◌, IfOk, OnOk};
ghost use Rattle.rls_world.specs.Draws.{next_draw, drawn, letters, after_draws};
ghost use Rattle.rls_world.specs.Trial.{drawn_insertion, drawn_deletion, after_insertion};

use rls_model::Edit;
use rls_runs::Text;
use std::alloc::{AllocError, Global};

/// The state of the draws. It begins as the seed.
#[derive(Drop)]
pub(crate) struct Draws {
    pub(crate) state: u32,
}

impl Draws {
    /// The next number, below this one.
    pub(crate) fn draw(&mut self, n: u64) -> u64
        requires some { 0 < n }
        ensures state { self.new.state ≡ next_draw self.old.state }
        ensures drawn { result ≡ drawn n (next_draw self.old.state) }
        ensures below { result < n }
    {
        self.state = ((self.state as u64 * 1_103_515_245 + 12_345) % 2_147_483_648) as u32;
        (self.state as u64 / 4096) % n
    }

    // So many small letters.
    fn letters(&mut self, alloc: Global, count: u64) -> Result<Text, AllocError>
        ensures letters { IfOk result (λ cs. cs ≡ letters count self.old.state) }
        ensures state { OnOk result (self.new.state ≡ after_draws count self.old.state) }
    {
        let mut text = Text::new(alloc);
        for _ in 0..count {
            let letter = b'a' + self.draw(26) as u8;
            text.push(letter as char)?;
        }
        Ok(text)
    }

    /// An insertion into a text of this many characters.
    pub(crate) fn insertion(&mut self, alloc: Global, total: u64) -> Result<Edit, AllocError>
        requires room { total < 2 ^ 64 - 1 }
        ensures edit { IfOk result (λ edit. edit ≡ drawn_insertion total self.old.state) }
        ensures state { OnOk result (self.new.state ≡ after_insertion self.old.state) }
    {
        let at = self.draw(total + 1);
        let count = 1 + self.draw(8);
        let text = self.letters(alloc, count)?;
        Ok(Edit::Insert { at, text })
    }

    /// A deletion of at most 8 characters from a text of this many.
    pub(crate) fn deletion(&mut self, total: u64) -> Edit
        requires some { 0 < total }
        ensures edit { result ≡ drawn_deletion total self.old.state }
        ensures state { self.new.state ≡ after_draws 2 self.old.state }
    {
        let at = self.draw(total);
        let count = 1 + self.draw((total - at).min(8));
        Edit::Delete { at, count }
    }
}
