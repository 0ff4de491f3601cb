//! The maps of a gap between former identifiers, or between new ones. Each takes as much of a stretch
//! along as lies on one side of its patterns.

ghost use Rattle.std.specs.Prelude.{◌≡◌, ◌<◌, length, true, false, [], ◌∷◌, ◌++◌, IfOk, IsTrue};
ghost use Rattle.std.specs.List.{All};
ghost use Rattle.std.specs.declared.cmp.Ordering.TheVariants.{Less};
ghost use Rattle.rls_ident.specs.Tuples.{tuple_cmp, at_spot, tuple_pred};
ghost use Rattle.rls_ident.specs.Maps.{under, low, high, low_inverse, high_inverse};
ghost use Rattle.rls_ident.specs.Identifiers.{ident_cmp, pred, is_inner_bounded, is_last_bounded};
ghost use Rattle.rls_rename.specs.Stretches.{GoesAlong};
ghost use Rattle.rls_rename.specs.Renaming.{old_below, old_between, old_above, old_below_inverse, old_between_inverse, old_above_inverse};

use crate::stretch::Stretch;
use rls_ident::{Ident, Spot, Tuple, rely};
use std::alloc::{AllocError, Global};

// An identifier's tuples and `Low`.
pub(crate) fn above_pattern(alloc: Global, a: &Ident) -> Result<Vec<Tuple>, AllocError>
    ensures pattern { IfOk result (λ p. p.items ≡ a.now ++ Tuple.Low ∷ []) }
    ensures bounded { IfOk result (λ p. All (λ t. IsTrue (is_inner_bounded t)) p.items) }
{
    ended(alloc, a.front(), a.last().as_tuple(), Tuple::Low)
}

// The tuples of an identifier's predecessor and `High`.
#[tactic(auto, using(crate::proofs::Patterns::pred_is))]
pub(crate) fn below_pattern(alloc: Global, a: &Ident) -> Result<Vec<Tuple>, AllocError>
    ensures pattern { IfOk result (λ p. p.items ≡ pred a.now ++ Tuple.High ∷ []) }
    ensures bounded { IfOk result (λ p. All (λ t. IsTrue (is_inner_bounded t)) p.items) }
{
    ended(alloc, a.front(), just_before(a.last()), Tuple::High)
}

// The tuple with the offset less one.
fn just_before(spot: Spot) -> Tuple
    requires last { IsTrue (is_last_bounded (at_spot spot)) }
    ensures before { result ≡ tuple_pred (at_spot spot) }
    ensures inner { IsTrue (is_inner_bounded result) }
{
    Tuple::At {
        pos: spot.pos,
        replica: spot.replica,
        seq: spot.seq,
        offset: spot.offset - 1,
    }
}

// These tuples and two more.
fn ended(alloc: Global, front: &[Tuple], last: Tuple, mark: Tuple) -> Result<Vec<Tuple>, AllocError>
    requires front { All (λ t. IsTrue (is_inner_bounded t)) front.now }
    requires last { IsTrue (is_inner_bounded last) }
    requires mark { IsTrue (is_inner_bounded mark) }
    ensures ended { IfOk result (λ p. p.items ≡ (front.now ++ last ∷ []) ++ mark ∷ []) }
    ensures bounded { IfOk result (λ p. All (λ t. IsTrue (is_inner_bounded t)) p.items) }
{
    let mut tuples = Vec::with_capacity(alloc, front.len() + 2)?;
    tuples.extend_from_slice(front)?;
    tuples.push(last)?;
    tuples.push(mark)?;
    Ok(tuples)
}

// The pattern in front of what is under it.
pub(crate) fn low(pattern: &[Tuple], y: Stretch) -> Result<Stretch, AllocError>
    requires some { 0 < length pattern.now }
    requires bounded { All (λ t. IsTrue (is_inner_bounded t)) pattern.now }
    ensures low { IfOk result (λ x. GoesAlong (low tuple_cmp pattern.now) y.first y.len x.first x.len) }
{
    let (is_under, front) = y.on_one_side(pattern)?;
    front.prefixed_if(is_under, pattern)
}

// The pattern in front of what isn't under it.
pub(crate) fn high(pattern: &[Tuple], y: Stretch) -> Result<Stretch, AllocError>
    requires some { 0 < length pattern.now }
    requires bounded { All (λ t. IsTrue (is_inner_bounded t)) pattern.now }
    ensures high { IfOk result (λ x. GoesAlong (high tuple_cmp pattern.now) y.first y.len x.first x.len) }
{
    let (is_under, front) = y.on_one_side(pattern)?;
    front.prefixed_if(!is_under, pattern)
}

// What is under the pattern, without it.
pub(crate) fn low_inverse(pattern: &[Tuple], x: Stretch) -> Result<Stretch, AllocError>
    requires some { 0 < length pattern.now }
    requires longer { under tuple_cmp x.first pattern.now ≡ true → length pattern.now < length x.first }
    ensures low_inverse { IfOk result (λ y. GoesAlong (low_inverse tuple_cmp pattern.now) x.first x.len y.first y.len) }
{
    let (is_under, front) = x.on_one_side(pattern)?;
    front.stripped_if(is_under, pattern.len())
}

// What isn't under the pattern, without it.
pub(crate) fn high_inverse(pattern: &[Tuple], x: Stretch) -> Result<Stretch, AllocError>
    requires some { 0 < length pattern.now }
    requires longer { under tuple_cmp x.first pattern.now ≡ false → length pattern.now < length x.first }
    ensures high_inverse { IfOk result (λ y. GoesAlong (high_inverse tuple_cmp pattern.now) x.first x.len y.first y.len) }
{
    let (is_under, front) = x.on_one_side(pattern)?;
    front.stripped_if(!is_under, pattern.len())
}

// The old map below a.
pub(crate) fn old_below(alloc: Global, a: &Ident, y: Stretch) -> Result<Stretch, AllocError>
    ensures old { IfOk result (λ x. GoesAlong (old_below a.now) y.first y.len x.first x.len) }
{
    high(&below_pattern(alloc, a)?, y)
}

// The old map above a.
pub(crate) fn old_above(alloc: Global, a: &Ident, y: Stretch) -> Result<Stretch, AllocError>
    ensures old { IfOk result (λ x. GoesAlong (old_above a.now) y.first y.len x.first x.len) }
{
    low(&above_pattern(alloc, a)?, y)
}

// The identifier that the old map above a takes to b.
pub(crate) fn inner_end(alloc: Global, a: &Ident, b: Ident) -> Result<Ident, AllocError>
    requires less { ident_cmp a.now b ≡ Less }
    ensures inner { IfOk result (λ c. c ≡ old_above_inverse a.now b) }
{
    let Stretch { first, .. } = old_above_inverse(alloc, a, Stretch::one(b))?;
    Ok(first)
}

// The old map between a and b.
pub(crate) fn old_between(
    alloc: Global,
    a: &Ident,
    b: Ident,
    y: Stretch,
) -> Result<Stretch, AllocError>
    requires less { ident_cmp a.now b ≡ Less }
    ensures old { IfOk result (λ x. GoesAlong (old_between a.now b) y.first y.len x.first x.len) }
{
    let inner = inner_end(alloc, a, b)?;
    old_above(alloc, a, old_below(alloc, &inner, y)?)
}

// The inverse of the old map below a.
pub(crate) fn old_below_inverse(alloc: Global, a: &Ident, x: Stretch) -> Result<Stretch, AllocError>
    requires less { ident_cmp x.first a.now ≡ Less }
    ensures old { IfOk result (λ y. GoesAlong (old_below_inverse a.now) x.first x.len y.first y.len) }
{
    rely!(let _lens = (a.len(), x.first.len()));
    high_inverse(&below_pattern(alloc, a)?, x)
}

// The inverse of the old map above a.
pub(crate) fn old_above_inverse(alloc: Global, a: &Ident, x: Stretch) -> Result<Stretch, AllocError>
    requires less { ident_cmp a.now x.first ≡ Less }
    ensures old { IfOk result (λ y. GoesAlong (old_above_inverse a.now) x.first x.len y.first y.len) }
{
    rely!(let _len = x.first.len());
    low_inverse(&above_pattern(alloc, a)?, x)
}

// The inverse of the old map between a and b.
pub(crate) fn old_between_inverse(
    alloc: Global,
    a: &Ident,
    b: Ident,
    x: Stretch,
) -> Result<Stretch, AllocError>
    requires order { ident_cmp a.now b ≡ Less }
    requires above { ident_cmp a.now x.first ≡ Less }
    requires below { ident_cmp x.first b ≡ Less }
    ensures old { IfOk result (λ y. GoesAlong (old_between_inverse a.now b) x.first x.len y.first y.len) }
{
    rely!(let _lens = (b.len(), x.first.len()));
    let inner = inner_end(alloc, a, b)?;
    old_below_inverse(alloc, &inner, old_above_inverse(alloc, a, x)?)
}
