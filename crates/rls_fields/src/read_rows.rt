//! Rows, and the members that have left.

ghost use Rattle.std.specs.Prelude.{◌≡◌, option_copied};
ghost use Rattle.rls_codec.specs.Gives.{Gives};
ghost use Rattle.rls_codec.specs.Reading.{many_at, counted_at, vector_at};
ghost use Rattle.rls_fields.specs.ReadingFields.{is_above, left_at, lefts_at};

use crate::lists::{Found, Items, list};
use rls_codec::{ReadError, u32_at, vector};
use rls_ident::Vector;
use rls_model::{Members, Rows};
use std::alloc::Global;

/// The form that has the members that have left.
const WITH_LEFT: u8 = 4;

// Vectors, each with a count for each member.
#[derive(Drop)]
struct RowItems {
    alloc: Global,
    members: u32,
}

impl Items for RowItems {
    type Item = Vector;

    ghost item_at = { λ r before. vector_at r.members };

    fn next<'a>(&self, _before: Option<&Vector>, bytes: &'a [u8]) -> Found<'a, Vector> {
        vector(self.alloc, self.members, bytes)
    }
}

/// So many vectors, each with a count for each member.
pub(crate) fn rows(alloc: Global, members: u32, count: u32, bytes: &[u8]) -> Found<'_, Rows>
    ensures read { Gives (λ x. (x.0, x.1.now)) result (many_at (vector_at members) count bytes.now) }
{
    list(alloc, &RowItems { alloc, members }, count, bytes)
}

// Whether the member is above the one before, where there is one.
fn is_above(before: Option<&u32>, member: u32) -> bool
    ensures above { result ≡ is_above (option_copied before.entry) member }
{
    match before {
        None => true,
        Some(before) => *before < member,
    }
}

// Members that have left, each above the one before.
#[derive(Drop)]
struct LeftItems {
    members: u32,
}

impl Items for LeftItems {
    type Item = u32;

    ghost item_at = { λ r. left_at r.members };

    fn next<'a>(&self, before: Option<&u32>, bytes: &'a [u8]) -> Found<'a, u32> {
        let (member, rest) = u32_at(bytes)?;
        if member >= self.members || !is_above(before, member) {
            return Err(ReadError::Fault { left: bytes.len() });
        }
        Ok((member, rest))
    }
}

// The members that have left, after their number.
fn counted_members(alloc: Global, members: u32, bytes: &[u8]) -> Found<'_, Members>
    ensures read { Gives (λ x. (x.0, x.1.now)) result (counted_at (left_at members) bytes.now) }
{
    let (count, rest) = u32_at(bytes)?;
    let (left, rest) = list(alloc, &LeftItems { members }, count, rest)?;
    Ok((left, rest))
}

/// The members that have left, each above the one before. The forms before 4 have no such field: then nobody has.
pub(crate) fn left_members(
    alloc: Global,
    form: u8,
    members: u32,
    bytes: &[u8],
) -> Found<'_, Members>
    ensures read { Gives (λ x. (x.0, x.1.now)) result (lefts_at form members bytes.now) }
{
    if form != WITH_LEFT {
        return Ok((Members::new(alloc), bytes));
    }
    counted_members(alloc, members, bytes)
}
