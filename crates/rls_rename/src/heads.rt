//! Heads: the first tuples of an identifier. Often they alone decide what a renaming does to it, so that the rest needn't be looked at.

ghost use Rattle.std.specs.List.{All};
ghost use Rattle.std.specs.Prelude.{◌≡◌, ◌<◌, ◌≤◌, length, drop, true, Some, Err, IfOk, IfSome, IsTrue};
ghost use Rattle.std.specs.declared.cmp.Ordering.TheVariants.{Less};
ghost use Rattle.rls_ident.specs.declared.limits.TheConstants.{IDENTIFIERS};
ghost use Rattle.rls_ident.specs.Tuples.{tuple_cmp};
ghost use Rattle.rls_ident.specs.Maps.{low, high, low_inverse, high_inverse};
ghost use Rattle.rls_ident.specs.Identifiers.{ident_cmp, is_inner_bounded};
ghost use Rattle.rls_runs.specs.Runs.{place_of};
ghost use Rattle.rls_rename.specs.Heads.{head_less, Replaces};
ghost use Rattle.rls_rename.specs.Renaming.{forward_by, new_above, new_below, old_above_inverse, old_below_inverse, old_between_inverse};

use crate::gap_maps::{above_pattern, below_pattern, inner_end};
use crate::new_maps::{tuple_at, tuple_before};
use crate::pairing::Pairing;
use rls_ident::{Ident, Spot, Tuple};
use std::alloc::{AllocError, Global};
use std::cmp::Ordering;

impl Pairing {
    // What forward puts in the place of the head, if the head alone decides it.
    pub(crate) fn forward_head(&self, head: &Ident) -> Result<Option<Ident>, AllocError>
        ensures replaces { IfOk result (λ z. IfSome z (λ z. Replaces (forward_by self.now.first self.now.former) head.now z)) }
    {
        let Err(gap) = self.former.find(head) else {
            return Ok(None);
        };
        let total = self.former.total();
        if gap == 0 {
            return self.forward_head_below(head);
        }
        if gap == total {
            return self.forward_head_above(gap, head);
        }
        self.forward_head_between(gap, head)
    }

    // The same, below all former identifiers.
    fn forward_head_below(&self, head: &Ident) -> Result<Option<Ident>, AllocError>
        ensures replaces { IfOk result (λ z. IfSome z (λ z. Replaces (forward_by self.now.first self.now.former) head.now z)) }
    {
        let a = self.former.get(0)?;
        let Some(moved) = head_below(self.alloc, self.first, &a, head)? else {
            return Ok(None);
        };
        Ok(Some(moved))
    }

    // The same, above all former identifiers.
    fn forward_head_above(&self, gap: u64, head: &Ident) -> Result<Option<Ident>, AllocError>
        requires gap { place_of head.now self.now.former ≡ Err gap }
        requires some { 0 < gap }
        requires end { gap ≡ length self.now.former }
        ensures replaces { IfOk result (λ z. IfSome z (λ z. Replaces (forward_by self.now.first self.now.former) head.now z)) }
    {
        let a = self.former.get(gap - 1)?;
        let Some(moved) = head_above(self.alloc, self.first, gap - 1, &a, head)? else {
            return Ok(None);
        };
        Ok(Some(moved))
    }

    // The same, between two former identifiers.
    fn forward_head_between(&self, gap: u64, head: &Ident) -> Result<Option<Ident>, AllocError>
        requires gap { place_of head.now self.now.former ≡ Err gap }
        requires some { 0 < gap }
        requires within { gap < length self.now.former }
        ensures replaces { IfOk result (λ z. IfSome z (λ z. Replaces (forward_by self.now.first self.now.former) head.now z)) }
    {
        let a = self.former.get(gap - 1)?;
        let b = self.former.get(gap)?;
        let Some(inner) = head_between(self.alloc, &a, b, head)? else {
            return Ok(None);
        };
        Ok(Some(inner.prefixed(&[tuple_at(self.first, gap - 1)])?))
    }
}

// What forward puts in the place of a head below the first former identifier a, if the head alone decides it, and that it is below a.
fn head_below(
    alloc: Global,
    first: Spot,
    a: &Ident,
    head: &Ident,
) -> Result<Option<Ident>, AllocError>
    ensures below { IfOk result (λ z. IfSome z (λ z. head_less head.now a.now ≡ Some true)) }
    ensures replaces { IfOk result (λ z. IfSome z (λ z. Replaces (λ x. new_below first (old_below_inverse a.now x)) head.now z)) }
{
    if !is_less(alloc, head, a)? {
        return Ok(None);
    }
    let Some(rest) = rest_below(alloc, a, head.copy()?)? else {
        return Ok(None);
    };
    let Some(moved) = high_put(&[tuple_before(first)], rest)? else {
        return Ok(None);
    };
    Ok(Some(moved))
}

// What forward puts in the place of a head above the last former identifier a, which is at this place, if the head alone decides it.
fn head_above(
    alloc: Global,
    first: Spot,
    i: u64,
    a: &Ident,
    head: &Ident,
) -> Result<Option<Ident>, AllocError>
    requires place { i < IDENTIFIERS }
    ensures replaces { IfOk result (λ z. IfSome z (λ z. Replaces (λ x. new_above first i (old_above_inverse a.now x)) head.now z)) }
{
    let Some(rest) = rest_above(alloc, a, head)? else {
        return Ok(None);
    };
    let Some(moved) = low_put(&[tuple_at(first, i)], rest)? else {
        return Ok(None);
    };
    Ok(Some(moved))
}

// What the inverse of the old map between a and b puts in the place of the head, if the head alone decides it, and that it is below b.
fn head_between(
    alloc: Global,
    a: &Ident,
    b: Ident,
    head: &Ident,
) -> Result<Option<Ident>, AllocError>
    requires less { ident_cmp a.now b ≡ Less }
    ensures below { IfOk result (λ z. IfSome z (λ z. head_less head.now b ≡ Some true)) }
    ensures replaces { IfOk result (λ z. IfSome z (λ z. Replaces (old_between_inverse a.now b) head.now z)) }
{
    if !is_less(alloc, head, &b)? {
        return Ok(None);
    }
    let Some(rest) = rest_above(alloc, a, head)? else {
        return Ok(None);
    };
    let end = inner_end(alloc, a, b)?;
    rest_below(alloc, &end, rest)
}

// Whether the head alone says that it is less than an identifier.
fn is_less(alloc: Global, head: &Ident, id: &Ident) -> Result<bool, AllocError>
    ensures less { IfOk result (λ b. IsTrue b → head_less head.now id.now ≡ Some true) }
{
    let tuples = tuples_of(alloc, id)?;
    match less(head, &tuples) {
        Some(true) => Ok(true),
        _ => Ok(false),
    }
}

// What the inverse of the old map above a puts in the place of the head, if the head alone decides it.
fn rest_above(alloc: Global, a: &Ident, head: &Ident) -> Result<Option<Ident>, AllocError>
    ensures replaces { IfOk result (λ z. IfSome z (λ z. Replaces (old_above_inverse a.now) head.now z)) }
{
    let pattern = above_pattern(alloc, a)?;
    low_rest(&pattern, head.copy()?)
}

// What the inverse of the old map below a puts in the place of the head, if the head alone decides it.
fn rest_below(alloc: Global, a: &Ident, head: Ident) -> Result<Option<Ident>, AllocError>
    ensures replaces { IfOk result (λ z. IfSome z (λ z. Replaces (old_below_inverse a.now) head z)) }
{
    let pattern = below_pattern(alloc, a)?;
    high_rest(&pattern, head)
}

// What the inverse of the low map puts in the place of the head, if the head alone decides it.
#[tactic(auto, using(crate::proofs::Replacing::low_strips, crate::proofs::Replacing::low_stays))]
fn low_rest(pattern: &[Tuple], head: Ident) -> Result<Option<Ident>, AllocError>
    ensures replaces { IfOk result (λ z. IfSome z (λ z. Replaces (low_inverse tuple_cmp pattern.now) head z)) }
{
    match less(&head, pattern) {
        None => Ok(None),
        Some(true) => behind(&head, pattern.len()),
        Some(false) => Ok(Some(head)),
    }
}

// What the inverse of the high map puts in the place of the head, if the head alone decides it.
#[tactic(auto, using(crate::proofs::Replacing::high_strips, crate::proofs::Replacing::high_stays))]
fn high_rest(pattern: &[Tuple], head: Ident) -> Result<Option<Ident>, AllocError>
    ensures replaces { IfOk result (λ z. IfSome z (λ z. Replaces (high_inverse tuple_cmp pattern.now) head z)) }
{
    match less(&head, pattern) {
        None => Ok(None),
        Some(true) => Ok(Some(head)),
        Some(false) => behind(&head, pattern.len()),
    }
}

// What the low map puts in the place of the head, if the head alone decides it.
#[tactic(auto, using(crate::proofs::Replacing::low_puts, crate::proofs::Replacing::low_keeps))]
fn low_put(pattern: &[Tuple], head: Ident) -> Result<Option<Ident>, AllocError>
    requires bounded { All (λ t. IsTrue (is_inner_bounded t)) pattern.now }
    ensures replaces { IfOk result (λ z. IfSome z (λ z. Replaces (low tuple_cmp pattern.now) head z)) }
{
    match less(&head, pattern) {
        None => Ok(None),
        Some(true) => Ok(Some(head.prefixed(pattern)?)),
        Some(false) => Ok(Some(head)),
    }
}

// What the high map puts in the place of the head, if the head alone decides it.
#[tactic(auto, using(crate::proofs::Replacing::high_puts, crate::proofs::Replacing::high_keeps))]
fn high_put(pattern: &[Tuple], head: Ident) -> Result<Option<Ident>, AllocError>
    requires bounded { All (λ t. IsTrue (is_inner_bounded t)) pattern.now }
    ensures replaces { IfOk result (λ z. IfSome z (λ z. Replaces (high tuple_cmp pattern.now) head z)) }
{
    match less(&head, pattern) {
        None => Ok(None),
        Some(true) => Ok(Some(head)),
        Some(false) => Ok(Some(head.prefixed(pattern)?)),
    }
}

// The head without its first n tuples, if it has more.
fn behind(head: &Ident, n: usize) -> Result<Option<Ident>, AllocError>
    ensures rest { IfOk result (λ z. IfSome z (λ z. z ≡ drop n head.now)) }
    ensures within { IfOk result (λ z. IfSome z (λ z. n ≤ length head.now)) }
{
    if head.len() <= n {
        return Ok(None);
    }
    Ok(Some(head.stripped(n)?))
}

// Whether the head is less than the other tuples at the first place where they differ, if there is one within both.
fn less(head: &Ident, other: &[Tuple]) -> Option<bool>
    ensures less { result ≡ head_less head.now other.now }
{
    for i in 0..head.len().min(other.len()) {
        match head.tuple(i).compare(&other[i]) {
            Ordering::Less => return Some(true),
            Ordering::Greater => return Some(false),
            Ordering::Equal => {}
        }
    }
    None
}

fn tuples_of(alloc: Global, id: &Ident) -> Result<Vec<Tuple>, AllocError>
    ensures tuples { IfOk result (λ tuples. tuples.items ≡ id.now) }
{
    let mut tuples = Vec::with_capacity(alloc, id.len())?;
    tuples.extend_from_slice(id.front())?;
    tuples.push(id.last().as_tuple())?;
    Ok(tuples)
}
