//! What a member knows of what each member has accepted, with the least of it at hand.

ghost use Rattle.std.specs.Prelude.{◌≡◌, ◌<◌, ◌-◌, ◌^◌, length, slice_index, IfOk, replicate};
ghost use Rattle.rls_ops.specs.Rows.{AcksSeen, AreRows, row_of, left, counts, acknowledged, raised, parted, starting_at, stable_of};

use crate::rows::Rows;
use rls_ident::Vector;
use std::alloc::{AllocError, Global};
use std::marker::Model;

/// The rows of all members, and who has left.
///
/// A member's row is the vector of what it is known to have accepted. The least of the awaited
/// rows is kept beside them: asking for it costs nothing. A change finds it anew, in time for the
/// square of the members, but for one: where some awaited row counts fewer operations of a member
/// than one's own, one more of that member changes nothing of it.
pub struct Acks {
    rows: Rows,
    stable: Vector,
}

impl Model for Acks {
    ghost use Rattle.rls_ops.specs.Rows.{AcksSeen};
    ghost use Rattle.rls_stable.specs.Keeping.{IsKept};

    ghost Value = { AcksSeen };

    ghost view = { λ a. a.rows };

    ghost invariant = { λ a. IsKept a.rows a.stable };
}

// Written out, and not derived, so that the proof of a caller sees one call and not the drop of each field.
impl Drop for Acks {
    fn drop(self) {
        let Acks {
            rows: _rows,
            stable: _stable,
        } = self;
    }
}

impl Acks {
    /// The rows of this many members before anything was accepted. They take memory for the square
    /// of the members.
    pub fn new(alloc: Global, members: u32, me: u32) -> Result<Acks, AllocError>
        requires member { me < members }
        ensures fresh { IfOk result (λ a. a ≡ starting_at me (replicate members 0)) }
    {
        Acks::starting_at(alloc, me, Vector::zero(alloc, members)?)
    }

    /// The rows of a member that has accepted this much and knows nothing of the others.
    pub fn starting_at(alloc: Global, me: u32, mine: Vector) -> Result<Acks, AllocError>
        requires member { me < length mine }
        ensures start { IfOk result (λ a. a ≡ starting_at me mine) }
    {
        let mut stable = mine.copy()?;
        let rows = Rows::starting_at(alloc, me, mine)?;
        rows.find_stable(&mut stable);
        Ok(Acks { rows, stable })
    }

    /// These rows and marks, of which there is one for each member. The own place among the others isn't used.
    pub fn given(
        me: u32,
        mine: Vector,
        others: Vec<Vector>,
        left: Vec<bool>,
    ) -> Result<Acks, AllocError>
        requires rows { AreRows (record { me = me; mine = mine; others = others.items; left = left.items }) }
        ensures given { IfOk result (λ a. a ≡ record { me = me; mine = mine; others = others.items; left = left.items }) }
    {
        let mut stable = mine.copy()?;
        let rows = Rows::given(me, mine, others, left);
        rows.find_stable(&mut stable);
        Ok(Acks { rows, stable })
    }

    /// One's own number.
    pub fn me(&self) -> u32
        ensures me { result ≡ self.now.me }
        ensures rows { AreRows self.now }
    {
        self.rows.me()
    }

    /// One's own row: what was accepted here.
    pub fn mine(&self) -> &Vector
        ensures mine { result.now ≡ self.now.mine }
        ensures rows { AreRows self.now }
    {
        self.rows.mine()
    }

    /// A member's row. The own member's is `mine`.
    pub fn row(&self, member: u32) -> &Vector
        requires member { member < length self.now.mine }
        ensures row { result.now ≡ row_of self.now member }
        ensures len { length result.now ≡ length self.now.mine }
    {
        self.rows.row(member as usize)
    }

    /// Member by member, the least count of one's own row and the rows of all other members that
    /// haven't left.
    pub fn stable(&self) -> &Vector
        ensures stable { result.now ≡ stable_of self.now }
        ensures len { length result.now ≡ length self.now.mine }
    {
        &self.stable
    }

    /// Whether a member has left.
    pub fn left(&self, member: u32) -> bool
        requires member { member < length self.now.mine }
        ensures left { result ≡ left self.now member }
    {
        self.rows.left(member)
    }

    /// Counts one more accepted operation of a member in one's own row.
    pub fn raise(&mut self, author: u32)
        requires member { author < length self.old.mine }
        requires room { slice_index self.old.mine author < 2 ^ 32 - 1 }
        ensures raised { self.new ≡ raised self.old author }
    {
        let is_behind = self.stable.get(author) < self.rows.mine().get(author);
        self.rows.raise(author);
        if is_behind {
            return;
        }
        self.rows.find_stable(&mut self.stable);
    }

    /// Marks a member as having left: its row is no longer waited for, unless it is one's own.
    pub fn leave(&mut self, member: u32)
        requires member { member < length self.old.mine }
        ensures parted { self.new ≡ parted self.old member }
    {
        self.rows.leave(member);
        self.rows.find_stable(&mut self.stable);
    }

    /// Joins an acknowledgement to its member's row where it counts, and answers whether it does:
    /// it is another member's, says no more of that member's operations than were accepted here,
    /// and says something new. If it doesn't count, nothing changes.
    pub fn note(&mut self, from: u32, vector: &Vector) -> bool
        requires member { from < length self.old.mine }
        requires counts { length vector.now ≡ length self.old.mine }
        ensures answer { result ≡ counts self.old from vector.now }
        ensures after { self.new ≡ acknowledged self.old from vector.now }
    {
        if !self.rows.counts(from, vector) {
            return false;
        }
        self.rows.note(from, vector);
        self.rows.find_stable(&mut self.stable);
        true
    }
}
