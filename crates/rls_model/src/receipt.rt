//! What becomes of operations that arrive or wait.

ghost use Rattle.std.specs.Prelude.{◌≡◌, ◌-◌, ◌<◌, ◌^◌, ◌++◌, ◌∷◌, ◌==◌, [], Some, OnOk, OnErr, length, slice_get};
ghost use Rattle.rls_model.specs.Answers.{answer_of, reason_in, reason_of};
ghost use Rattle.rls_model.specs.Machine.{no_counts, with_reason, with_receipt, HasRoom};

use rls_ident::{EpochName, Ident, Vector};
use rls_ops::{Op, Shape};
use std::alloc::{AllocError, Global};
use std::marker::Model;
use std::sync::Arc;

/// Why an operation is refused. Of several reasons the first in this order counts. A refused operation changes nothing.
pub enum Refusal {
    /// Its shape is wrong.
    Shape(Shape),
    /// It is said to be this replica's own; its number.
    Own { seq: u32 },
    /// A different operation waits under its author and number; that one. All refusals for its sake share one copy.
    Forked { held: Arc<Op> },
    /// Its author has left; the number of the leave.
    Left { seq: u32 },
    /// Its context is older than what its author is known to have accepted; that vector.
    Backward { known: Vector },
    /// It wasn't made in the greatest epoch that its author knew; that epoch.
    WrongEpoch { due: EpochName },
    /// The offsets of an insertion don't go on where their stem ends or begins; the next offset of the stem, where the author has it.
    WrongStem { due: Option<u32> },
    /// A target of a deletion is no character's identifier; the first such target.
    UnknownTarget { id: Ident },
}

// Written out, and not derived, so that the proof of a caller sees one call and not the drop of each case.
impl Drop for Refusal {
    fn drop(self) {
        match self {
            Refusal::Shape(_) => {}
            Refusal::Own { seq: _ } => {}
            Refusal::Forked { held: _held } => {}
            Refusal::Left { seq: _ } => {}
            Refusal::Backward { known: _known } => {}
            Refusal::WrongEpoch { due: _ } => {}
            Refusal::WrongStem { due: _ } => {}
            Refusal::UnknownTarget { id: _id } => {}
        }
    }
}

/// What became of an operation that arrived.
#[derive(Drop)]
pub enum Receipt {
    /// It was accepted.
    Applied,
    /// It was accepted before, or one with its number was.
    Repeated,
    /// It waits for operations that it stands on.
    Held,
    /// It was refused.
    Refused(Refusal),
}

/// What became of an operation that waited.
#[derive(Drop)]
pub struct Release {
    pub author: u32,
    pub seq: u32,
    /// Why it was refused, or nothing where it was accepted.
    pub refusal: Option<Refusal>,
}

/// Refused operations, each with its author and number, in the order in which they were refused.
#[derive(Drop)]
pub struct Refusals {
    refusals: Vec<(u32, u32, Refusal)>,
}

impl Model for Refusals {
    ghost use Rattle.std.specs.Prelude.{List, ℕ, map};
    ghost use Rattle.rls_model.specs.Answers.{Reason, reason_of};

    ghost Value = { List (ℕ × ℕ × Reason) };

    ghost view = { λ a. map (λ r. (r.0, r.1, reason_of r.2)) a.refusals.items };
}

impl Refusals {
    /// The empty list. It takes no memory.
    pub fn new(alloc: Global) -> Refusals
        ensures empty { result ≡ [] }
    {
        Refusals {
            refusals: Vec::new(alloc),
        }
    }

    /// Puts a refused operation after the last one. After an error the refusal is given up, and the list is as before.
    pub fn push(&mut self, author: u32, seq: u32, refusal: Refusal) -> Result<(), AllocError>
        ensures ok { OnOk result (self.new ≡ self.old ++ (author, seq, reason_of refusal) ∷ []) }
        ensures err { OnErr result (self.new ≡ self.old) }
    {
        self.refusals.push((author, seq, refusal))?;
        Ok(())
    }

    /// The number of refused operations.
    pub fn len(&self) -> usize
        ensures len { result ≡ length self.now }
    {
        self.refusals.len()
    }

    /// Whether there is none.
    pub fn is_empty(&self) -> bool
        ensures empty { result ≡ (length self.now == 0) }
    {
        self.refusals.is_empty()
    }

    /// The author, the number and the reason at a place, counted from 0.
    pub fn get(&self, i: usize) -> (u32, u32, &Refusal)
        requires place { i < length self.now }
        ensures refusal { slice_get self.now i ≡ Some (result.0, result.1, reason_of result.2.now) }
    {
        let (author, seq, refusal) = &self.refusals[i];
        (*author, *seq, refusal)
    }
}

/// What came of taking a message.
#[derive(Drop)]
pub struct Taken {
    /// How many operations of the message were accepted when they arrived.
    pub applied: u64,
    /// How many operations that waited were accepted.
    pub released: u64,
    /// How many operations of the message had been accepted before.
    pub repeated: u64,
    /// How many operations of the message wait.
    pub held: u64,
    /// Those that were refused when they arrived or were released, in order.
    pub refused: Refusals,
}

impl Taken {
    /// Nothing is counted yet. It takes no memory.
    pub fn new(alloc: Global) -> Taken
        ensures nothing { result ≡ no_counts }
    {
        Taken {
            applied: 0,
            released: 0,
            repeated: 0,
            held: 0,
            refused: Refusals::new(alloc),
        }
    }

    /// Counts the operation of an author that arrived, or puts it after the other refused ones. After an error nothing is counted.
    pub fn count_receipt(
        &mut self,
        author: u32,
        seq: u32,
        receipt: Receipt,
    ) -> Result<(), AllocError>
        requires room { HasRoom self.old }
        ensures ok { OnOk result (self.new ≡ with_receipt self.old author seq (answer_of receipt)) }
        ensures err { OnErr result (self.new ≡ self.old) }
    {
        match receipt {
            Receipt::Applied => self.applied += 1,
            Receipt::Repeated => self.repeated += 1,
            Receipt::Held => self.held += 1,
            Receipt::Refused(refusal) => self.refused.push(author, seq, refusal)?,
        }
        Ok(())
    }

    /// Counts an operation that was released, or puts it after the other refused ones. After an error nothing is counted.
    pub fn count_release(&mut self, release: Release) -> Result<(), AllocError>
        requires room { self.old.released < 2 ^ 64 - 1 }
        ensures ok { OnOk result (self.new ≡ with_reason self.old release.author release.seq (reason_in release.refusal)) }
        ensures err { OnErr result (self.new ≡ self.old) }
    {
        let Release {
            author,
            seq,
            refusal,
        } = release;
        match refusal {
            None => self.released += 1,
            Some(refusal) => self.refused.push(author, seq, refusal)?,
        }
        Ok(())
    }
}
