//! Stems, by author.
//! Why: CHOICES.md, 60.

ghost use Rattle.std.specs.Prelude.{None};
ghost use Rattle.rls_codec.specs.Gives.{Gives};
ghost use Rattle.rls_codec.specs.Reading.{counted_at, chain_at};
ghost use Rattle.rls_fields.specs.Listed.{behind};
ghost use Rattle.rls_fields.specs.ReadingFields.{low_at, stem_at, stems_at};

use crate::lists::Found;
use rls_codec::{ReadError, i32_at, u32_at};
use rls_model::{Stem, Stems};
use std::alloc::Global;

/// The form whose stems have no low.
const WITHOUT_LOW: u8 = 2;

// The low of a stem, which is 0 in the form that doesn't have it.
fn low(form: u8, bytes: &[u8]) -> Found<'_, i32>
    ensures read { Gives (λ x. (x.0, x.1.now)) result (low_at form bytes.now) }
{
    if form == WITHOUT_LOW {
        return Ok((0, bytes));
    }
    i32_at(bytes)
}

// A stem of this author.
#[tactic(auto, unfolding(crate::specs::ReadingFields::stem_at))]
fn stem(form: u8, author: u32, bytes: &[u8]) -> Found<'_, Stem>
    ensures read { Gives (λ x. (x.0, x.1.now)) result (stem_at form author bytes.now) }
{
    let (s0, rest) = u32_at(bytes)?;
    let (low, rest) = low(form, rest)?;
    let (next, rest) = u32_at(rest)?;
    let stem = Stem {
        author,
        s0,
        low,
        next,
    };
    Ok((stem, rest))
}

// So many stems of this author, put after others.
fn stem_list<'a>(
    form: u8,
    author: u32,
    count: u32,
    stems: &mut Stems,
    bytes: &'a [u8],
) -> Result<&'a [u8], ReadError>
    ensures read { Gives (λ rest. (stems.new, rest.now)) result (behind stems.old (chain_at (λ before. stem_at form author) None count bytes.now)) }
{
    let mut rest = bytes;
    for _ in 0..count {
        let (found, after) = stem(form, author, rest)?;
        stems.push(found)?;
        rest = after;
    }
    Ok(rest)
}

// The stems of this author after their number, put after others.
fn own_stems<'a>(
    form: u8,
    author: u32,
    stems: &mut Stems,
    bytes: &'a [u8],
) -> Result<&'a [u8], ReadError>
    ensures read { Gives (λ rest. (stems.new, rest.now)) result (behind stems.old (counted_at (λ before. stem_at form author) bytes.now)) }
{
    let (count, rest) = u32_at(bytes)?;
    let rest = stem_list(form, author, count, stems, rest)?;
    Ok(rest)
}

/// The stems of so many members, member by member.
pub(crate) fn stems(alloc: Global, form: u8, members: u32, bytes: &[u8]) -> Found<'_, Stems>
    ensures read { Gives (λ x. (x.0, x.1.now)) result (stems_at form 0 members bytes.now) }
{
    let mut stems = Stems::new(alloc);
    let mut rest = bytes;
    for author in 0..members {
        let after = own_stems(form, author, &mut stems, rest)?;
        rest = after;
    }
    Ok((stems, rest))
}
