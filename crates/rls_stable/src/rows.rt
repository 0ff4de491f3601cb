//! Rows, without the least of them.

ghost use Rattle.std.specs.Prelude.{◌≡◌, ◌<◌, ◌-◌, ◌^◌, length, slice_index, IfOk, replicate};
ghost use Rattle.rls_ops.specs.Rows.{AcksSeen, AreRows, row_of, left, awaits, counts, raised, parted, noted, starting_at, stable_of};

use rls_ident::Vector;
use std::alloc::{AllocError, Global};
use std::marker::Model;

// The own number, the own row, the rows of the others, and who has left. The own place among the
// others isn't used.
pub(crate) struct Rows {
    me: u32,
    mine: Vector,
    others: Vec<Vector>,
    left: Vec<bool>,
}

impl Model for Rows {
    ghost use Rattle.rls_ops.specs.Rows.{AcksSeen, AreRows};

    ghost Value = { AcksSeen };

    ghost view = { λ r. record { me = r.me; mine = r.mine; others = r.others.items; left = r.left.items } };

    ghost invariant = { λ r. AreRows (record { me = r.me; mine = r.mine; others = r.others.items; left = r.left.items }) };
}

// Written out, and not derived, so that the proof of a caller sees one call and not the drop of each field.
impl Drop for Rows {
    fn drop(self) {
        let Rows {
            me: _,
            mine: _mine,
            others: _others,
            left: _left,
        } = self;
    }
}

impl Rows {
    // Those of a member that has accepted this much and knows nothing of the others.
    pub(crate) fn starting_at(alloc: Global, me: u32, mine: Vector) -> Result<Rows, AllocError>
        requires member { me < length mine }
        ensures start { IfOk result (λ r. r ≡ starting_at me mine) }
    {
        let others = zero_rows(alloc, mine.len())?;
        let left = Vec::from_elem(alloc, false, mine.len())?;
        Ok(Rows {
            me,
            mine,
            others,
            left,
        })
    }

    // Those of these rows and marks, of which there is one for each member.
    pub(crate) fn given(me: u32, mine: Vector, others: Vec<Vector>, left: Vec<bool>) -> Rows
        requires rows { AreRows (record { me = me; mine = mine; others = others.items; left = left.items }) }
        ensures given { result ≡ record { me = me; mine = mine; others = others.items; left = left.items } }
    {
        Rows {
            me,
            mine,
            others,
            left,
        }
    }

    pub(crate) fn me(&self) -> u32
        ensures me { result ≡ self.now.me }
        ensures rows { AreRows self.now }
    {
        self.me
    }

    pub(crate) fn mine(&self) -> &Vector
        ensures mine { result.now ≡ self.now.mine }
        ensures rows { AreRows self.now }
    {
        &self.mine
    }

    pub(crate) fn row(&self, member: usize) -> &Vector
        requires member { member < length self.now.mine }
        ensures row { result.now ≡ row_of self.now member }
        ensures len { length result.now ≡ length self.now.mine }
    {
        if member == self.me as usize {
            &self.mine
        } else {
            &self.others[member]
        }
    }

    pub(crate) fn left(&self, member: u32) -> bool
        requires member { member < length self.now.mine }
        ensures left { result ≡ left self.now member }
    {
        self.left[member as usize]
    }

    // Whether the member's row is waited for.
    fn awaits(&self, member: usize) -> bool
        requires member { member < length self.now.mine }
        ensures awaits { result ≡ awaits self.now member }
    {
        member == self.me as usize || !self.left[member]
    }

    // Whether an acknowledgement counts.
    pub(crate) fn counts(&self, from: u32, vector: &Vector) -> bool
        requires member { from < length self.now.mine }
        requires counts { length vector.now ≡ length self.now.mine }
        ensures counts { result ≡ counts self.now from vector.now }
    {
        from != self.me
            && vector.get(from) <= self.mine.get(from)
            && !vector.at_most(self.row(from as usize))
    }

    pub(crate) fn raise(&mut self, author: u32)
        requires member { author < length self.old.mine }
        requires room { slice_index self.old.mine author < 2 ^ 32 - 1 }
        ensures raised { self.new ≡ raised self.old author }
    {
        self.mine.raise(author);
    }

    pub(crate) fn leave(&mut self, member: u32)
        requires member { member < length self.old.mine }
        ensures parted { self.new ≡ parted self.old member }
    {
        self.left[member as usize] = true;
    }

    // Joins an acknowledgement to its member's row.
    pub(crate) fn note(&mut self, from: u32, vector: &Vector)
        requires member { from < length self.old.mine }
        requires counts { length vector.now ≡ length self.old.mine }
        ensures noted { self.new ≡ noted self.old from vector.now }
    {
        self.others[from as usize].join_in(vector);
    }

    // Writes the least of the awaited rows into the vector.
    pub(crate) fn find_stable(&self, stable: &mut Vector)
        requires place { length stable.old ≡ length self.now.mine }
        ensures place { length stable.new ≡ length self.now.mine }
        ensures least { stable.new ≡ stable_of self.now }
    {
        // Whatever stood there, this leaves the own row.
        stable.join_in(&self.mine);
        stable.meet_in(&self.mine);
        for member in 0..self.mine.len() {
            if !self.awaits(member) {
                continue;
            }
            stable.meet_in(self.row(member));
        }
    }
}

// So many rows of as many zeros.
fn zero_rows(alloc: Global, members: usize) -> Result<Vec<Vector>, AllocError>
    ensures zero { IfOk result (λ rows. rows.items ≡ replicate members (replicate members 0)) }
{
    let mut rows = Vec::with_capacity(alloc, members)?;
    for _ in 0..members {
        rows.push(Vector::from_vec(Vec::from_elem(alloc, 0, members)?))?;
    }
    Ok(rows)
}
