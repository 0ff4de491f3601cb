//! Rows, and who has left.

ghost use Rattle.std.specs.Prelude.{◌≡◌, ◌<◌, length, replicate, IfOk};
ghost use Rattle.rls_ident.specs.declared.limits.TheConstants.{MEMBERS};
ghost use Rattle.rls_parts.specs.Given.{AreGiven};
ghost use Rattle.rls_parts.specs.Reading.{member_at};
ghost use Rattle.rls_parts.specs.Restored.{with_own, marks_of, acks_of};
ghost use Rattle.rls_parts.specs.Rules.{is_row_of, row_fault};

use crate::log::has_member;
use rls_ident::Vector;
use rls_model::Parts;
use rls_stable::Acks;
use std::alloc::{AllocError, Global};

// The member whose row stands at a place.
fn member_at(me: u32, i: u32) -> u32
    requires small { i < MEMBERS }
    ensures member { result ≡ member_at me i }
{
    if i < me { i } else { i + 1 }
}

// Whether the row tells no more of its own member than was accepted.
fn is_row_of(vector: &Vector, member: u32, row: &Vector) -> bool
    requires member { member < length vector.now }
    requires counts { length row.now ≡ length vector.now }
    ensures fits { result ≡ is_row_of vector.now member row.now }
{
    row.get(member) <= vector.get(member)
}

/// Rule 1: the place of the first row that counts more of its own member than was accepted.
pub fn row_fault(parts: &Parts) -> Option<u64>
    requires given { AreGiven parts.now }
    ensures fault { result ≡ row_fault parts.now 0 parts.now.rows }
{
    let rows = parts.rows.as_slice();
    for i in 0..rows.len() {
        let member = member_at(parts.me, i as u32);
        if !is_row_of(&parts.vector, member, &rows[i]) {
            return Some(i as u64);
        }
    }
    None
}

// For each member whether it has left.
fn marks(alloc: Global, parts: &Parts) -> Result<Vec<bool>, AllocError>
    ensures marks { IfOk result (λ marks. marks.items ≡ marks_of parts.now.left parts.now.members) }
{
    let mut marks = Vec::with_capacity(alloc, parts.members as usize)?;
    for member in 0..parts.members {
        marks.push(has_member(&parts.left, member))?;
    }
    Ok(marks)
}

// The rows, with zero as the one at the own place.
fn others(alloc: Global, parts: &Parts) -> Result<Vec<Vector>, AllocError>
    requires given { AreGiven parts.now }
    ensures rows { IfOk result (λ rows. rows.items ≡ with_own parts.now.me (replicate parts.now.members 0) parts.now.rows) }
{
    let rows = parts.rows.as_slice();
    let mut others = Vec::with_capacity(alloc, rows.len() + 1)?;
    for row in rows {
        others.push(row.copy()?)?;
    }
    others.insert(parts.me as usize, Vector::zero(alloc, parts.members)?)?;
    Ok(others)
}

/// The rows, with zero as the one at the own place, and who has left.
pub fn acks(alloc: Global, parts: &Parts) -> Result<Acks, AllocError>
    requires given { AreGiven parts.now }
    ensures acks { IfOk result (λ acks. acks ≡ acks_of parts.now) }
{
    let rows = others(alloc, parts)?;
    let left = marks(alloc, parts)?;
    Acks::given(parts.me, parts.vector.copy()?, rows, left)
}
