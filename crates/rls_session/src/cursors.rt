//! The cursors of a session, by their numbers.

ghost use Rattle.std.specs.Prelude.{◌≡◌, [], List, ℕ, map, IfOk, IfSome, IfNone, OnOk, OnErr, IsErrOf, option_map};
ghost use Rattle.rls_ident.specs.declared.epoch_name.EpochName.{EpochName};
ghost use Rattle.rls_anchor.specs.Anchors.{place_over, settled_over};
ghost use Rattle.rls_replica.specs.declared.translating.PastError.TheVariants as past;
ghost use Rattle.rls_session.specs.Cursors.{cursor_in, cursors_with, cursors_moved, moved, unput, AreAnchored, AreOthers, IsAt};
ghost use Rattle.rls_seen.specs.Seen.{Seen};

use rls_anchor::Anchor;
use rls_replica::{PastError, Replica};
use std::alloc::{AllocError, Global};
use std::marker::Model;

/// A cursor that was put, with its number.
#[derive(Drop)]
pub struct Cursor {
    pub number: u8,
    pub anchor: Anchor,
}

/// The cursors that were put, each number once. Number 0 is at the beginning until it is put.
#[derive(Drop)]
pub(crate) struct Cursors {
    all: Vec<Cursor>,
}

impl Model for Cursors {
    ghost use Rattle.std.specs.Prelude.{List};
    ghost use Rattle.rls_session.specs.declared.cursors.Cursor.{Cursor};

    ghost Value = { List Cursor };

    ghost view = { λ c. c.all.items };
}

impl Cursors {
    /// None was put. It takes no memory.
    pub(crate) fn new(alloc: Global) -> Cursors
        ensures none { result ≡ [] }
    {
        Cursors {
            all: Vec::new(alloc),
        }
    }

    // Where the one with this number stands.
    fn find(&self, number: u8) -> Option<usize>
        ensures some { IfSome result (λ i. IsAt self.now number i) }
        ensures none { IfNone result (AreOthers self.now number) }
    {
        'cursors: for i in 0..self.all.len() {
            if self.all[i].number == number {
                return Some(i);
            }
        }
        None
    }

    /// Puts the cursor with this number. After an error all is as before.
    pub(crate) fn put(&mut self, number: u8, anchor: Anchor) -> Result<(), AllocError>
        ensures ok { OnOk result (self.new ≡ cursors_with self.old number anchor) }
        ensures err { OnErr result (self.new ≡ self.old) }
    {
        match self.find(number) {
            None => {
                self.all.push(Cursor { number, anchor })?;
                Ok(())
            }
            Some(i) => {
                self.all[i] = Cursor { number, anchor };
                Ok(())
            }
        }
    }

    /// Takes the cursor with this number to the greatest epoch, if it was put. After an error all is as before.
    pub(crate) fn settle(&mut self, replica: &Replica, number: u8) -> Result<(), PastError>
        ensures settled { OnOk result (self.new ≡ cursors_moved (settled_over replica.now) self.old number) }
        ensures there { OnOk result (option_map (place_over replica.now) (cursor_in self.new number) ≡ option_map (place_over replica.now) (cursor_in self.old number)) }
        ensures stays { OnErr result (self.new ≡ self.old) }
        ensures kept { (e : EpochName) → IsErrOf result (past.Dropped e) → AreAnchored replica.now self.old → ⊥ }
    {
        match self.find(number) {
            None => Ok(()),
            Some(i) => self.all[i].anchor.settle(replica),
        }
    }

    /// Takes all cursors to the greatest epoch. After an error some of them are there.
    pub(crate) fn settle_all(&mut self, replica: &Replica) -> Result<(), PastError>
        ensures settled { OnOk result (self.new ≡ map (moved (settled_over replica.now)) self.old) }
        ensures anchored { AreAnchored replica.now self.old → AreAnchored replica.now self.new }
        ensures kept { (e : EpochName) → IsErrOf result (past.Dropped e) → AreAnchored replica.now self.old → ⊥ }
    {
        'cursors: for i in 0..self.all.len() {
            if let Err(error) = self.all[i].anchor.settle(replica) {
                return Err(error);
            }
        }
        Ok(())
    }

    /// The place of the cursor with this number, if it was put.
    pub(crate) fn place(&self, replica: &Replica, number: u8) -> Result<Option<u64>, PastError>
        ensures place { IfOk result (λ p. p ≡ option_map (place_over replica.now) (cursor_in self.now number)) }
        ensures kept { (e : EpochName) → IsErrOf result (past.Dropped e) → AreAnchored replica.now self.now → ⊥ }
    {
        match self.find(number) {
            None => Ok(place_of_unput(number)),
            Some(i) => match self.all[i].anchor.place(replica) {
                Err(error) => Err(error),
                Ok(at) => Ok(Some(at)),
            },
        }
    }
}

// The place of a cursor that was never put, if it has one.
fn place_of_unput(number: u8) -> Option<u64>
    ensures place { (s : Seen) → result ≡ option_map (place_over s) (unput number) }
{
    if number == 0 { Some(0) } else { None }
}
