//! The new identifiers, and the maps of the gaps between them.

ghost use Rattle.std.specs.Prelude.{◌≡◌, ◌+◌, ◌<◌, IfOk, IsTrue, pos, negsuc};
ghost use Rattle.std.specs.declared.cmp.Ordering.TheVariants.{Less};
ghost use Rattle.rls_ident.specs.declared.limits.TheConstants.{IDENTIFIERS};
ghost use Rattle.rls_ident.specs.Tuples.{at_offset};
ghost use Rattle.rls_ident.specs.Identifiers.{ident_cmp, is_inner_bounded};
ghost use Rattle.rls_rename.specs.Stretches.{GoesAlong};
ghost use Rattle.rls_rename.specs.Renaming.{new_at, new_below, new_between, new_above, new_below_inverse, new_between_inverse, new_above_inverse};

use crate::gap_maps::{high, high_inverse, low, low_inverse};
use crate::stretch::Stretch;
use rls_ident::{Ident, Spot, Tuple, rely};
use std::alloc::{AllocError, Global};

// The new identifier at a place, by the tuple of the first one.
pub(crate) fn new_at(alloc: Global, first: Spot, i: u64) -> Ident
    requires place { i < IDENTIFIERS }
    ensures new { result ≡ new_at first i }
{
    Ident::ending(
        Vec::new(alloc),
        Spot {
            offset: i as i32,
            ..first
        },
    )
}

// Its tuple.
pub(crate) fn tuple_at(first: Spot, i: u64) -> Tuple
    requires place { i < IDENTIFIERS }
    ensures tuple { result ≡ at_offset first (pos i) }
    ensures inner { IsTrue (is_inner_bounded result) }
{
    Tuple::At {
        pos: first.pos,
        replica: first.replica,
        seq: first.seq,
        offset: i as i32,
    }
}

// The tuple before the first one.
pub(crate) fn tuple_before(first: Spot) -> Tuple
    ensures tuple { result ≡ at_offset first (negsuc 0) }
    ensures inner { IsTrue (is_inner_bounded result) }
{
    Tuple::At {
        pos: first.pos,
        replica: first.replica,
        seq: first.seq,
        offset: -1,
    }
}

// The new map below the first one.
pub(crate) fn new_below(first: Spot, y: Stretch) -> Result<Stretch, AllocError>
    ensures new { IfOk result (λ z. GoesAlong (new_below first) y.first y.len z.first z.len) }
{
    high(&[tuple_before(first)], y)
}

// The new map between two neighbours.
pub(crate) fn new_between(first: Spot, i: u64, y: Stretch) -> Result<Stretch, AllocError>
    requires place { i < IDENTIFIERS }
    ensures new { IfOk result (λ z. GoesAlong (new_between first i) y.first y.len z.first z.len) }
{
    y.prefixed(&[tuple_at(first, i)])
}

// The new map above the last one.
pub(crate) fn new_above(first: Spot, i: u64, y: Stretch) -> Result<Stretch, AllocError>
    requires place { i < IDENTIFIERS }
    ensures new { IfOk result (λ z. GoesAlong (new_above first i) y.first y.len z.first z.len) }
{
    low(&[tuple_at(first, i)], y)
}

// The inverse of the new map below the first one.
pub(crate) fn new_below_inverse(first: Spot, z: Stretch) -> Result<Stretch, AllocError>
    requires less { ident_cmp z.first (new_at first 0) ≡ Less }
    ensures new { IfOk result (λ y. GoesAlong (new_below_inverse first) z.first z.len y.first y.len) }
{
    rely!(let _len = z.first.len());
    high_inverse(&[tuple_before(first)], z)
}

// The inverse of the new map between the neighbours at the places i and i + 1.
#[tactic(auto, using(crate::proofs::Patterns::new_between_longer))]
pub(crate) fn new_between_inverse(first: Spot, i: u64, z: Stretch) -> Result<Stretch, AllocError>
    requires place { i < IDENTIFIERS }
    requires above { ident_cmp (new_at first i) z.first ≡ Less }
    requires below { ident_cmp z.first (new_at first (i + 1)) ≡ Less }
    ensures new { IfOk result (λ y. GoesAlong new_between_inverse z.first z.len y.first y.len) }
{
    rely!(let _len = z.first.len());
    z.stripped(1)
}

// The inverse of the new map above the last one.
pub(crate) fn new_above_inverse(first: Spot, i: u64, z: Stretch) -> Result<Stretch, AllocError>
    requires place { i < IDENTIFIERS }
    requires less { ident_cmp (new_at first i) z.first ≡ Less }
    ensures new { IfOk result (λ y. GoesAlong (new_above_inverse first i) z.first z.len y.first y.len) }
{
    rely!(let _len = z.first.len());
    low_inverse(&[tuple_at(first, i)], z)
}
