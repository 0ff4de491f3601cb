//! A new identifier between two.

ghost use Rattle.std.specs.Prelude.{◌≡◌, ℕ, length, drop, max, ◌+◌, ◌<◌, ◌≤◌, [], ◌∷◌, ◌++◌, Some, IfOk, IfSome, IsTrue, option_copied, negsuc};
ghost use Rattle.std.specs.List.{All};
ghost use Rattle.rls_ident.specs.Tuples.{at_spot, raised};
ghost use Rattle.rls_ident.specs.Identifiers.{is_ident, is_inner_bounded, is_last_bounded};
ghost use Rattle.rls_ident.specs.Between.{lower_number, upper_number, middle, below, between, bound_tuples, are_bounds};

use crate::ident::Ident;
use crate::limits::GREATEST_NUMBER;
use crate::tuple::{Spot, Tuple};
use std::alloc::{AllocError, Global};
use std::cmp::Ordering;

/// A new identifier between two bounds, of which each may be missing, with this replica and number
/// in its last tuple and the offset 0: at the first place with room it takes the middle position.
/// (In LogootSplit, by André and others, 2013, the position there is random.)
///
/// The result lies strictly between the bounds, and has at most one tuple more than the longer one.
pub fn between(
    alloc: Global,
    lo: Option<&Ident>,
    hi: Option<&Ident>,
    replica: u32,
    seq: u32,
) -> Result<Ident, AllocError>
    requires order { IsTrue (are_bounds (option_copied lo) (option_copied hi)) }
    ensures between { IfOk result (λ ident. ident ≡ between (bound_tuples (option_copied lo.entry)) (bound_tuples (option_copied hi.entry)) replica seq) }
    ensures above { IfOk result (λ ident. IsTrue (are_bounds (option_copied lo.entry) (Some ident))) }
    ensures below { IfOk result (λ ident. IsTrue (are_bounds (Some ident) (option_copied hi.entry))) }
    ensures length { IfOk result (λ ident. length ident ≤ max (length (bound_tuples (option_copied lo.entry))) (length (bound_tuples (option_copied hi.entry))) + 1) }
{
    make(alloc, lo, hi, replica, seq)
}

// The new identifier, whatever the order of the bounds.
fn make(
    alloc: Global,
    lo: Option<&Ident>,
    hi: Option<&Ident>,
    replica: u32,
    seq: u32,
) -> Result<Ident, AllocError>
    ensures between { IfOk result (λ ident. ident ≡ between (bound_tuples (option_copied lo.entry)) (bound_tuples (option_copied hi.entry)) replica seq) }
    ensures ident { IfSome (option_copied hi.entry) (λ x. IsTrue (is_ident x)) }
{
    match (lo, hi) {
        (None, None) => Ok(Ident::ending(
            Vec::new(alloc),
            middle(0, GREATEST_NUMBER, replica, seq),
        )),
        (None, Some(hi)) => under(Vec::new(alloc), hi, replica, seq),
        (Some(lo), None) => over(Vec::new(alloc), lo, replica, seq),
        (Some(lo), Some(hi)) => inside(alloc, lo, hi, replica, seq),
    }
}

// The number of a bound's tuple.
fn number(tuple: Tuple) -> u32
    ensures lower { result ≡ lower_number (tuple ∷ []) }
    ensures upper { result ≡ upper_number (tuple ∷ []) }
{
    match tuple {
        Tuple::Low => 0,
        Tuple::At { pos, .. } => pos,
        Tuple::High => GREATEST_NUMBER,
    }
}

fn middle(lower: u32, upper: u32, replica: u32, seq: u32) -> Spot
    ensures middle { at_spot result ≡ middle lower upper replica seq }
    ensures last { IsTrue (is_last_bounded (at_spot result)) }
{
    Spot {
        pos: ((lower as u64 + upper as u64) / 2) as u32,
        replica,
        seq,
        offset: 0,
    }
}

// While both bounds have tuples.
fn inside(
    alloc: Global,
    lo: &Ident,
    hi: &Ident,
    replica: u32,
    seq: u32,
) -> Result<Ident, AllocError>
    ensures between { IfOk result (λ ident. ident ≡ between lo.now hi.now replica seq) }
    ensures ident { IsTrue (is_ident hi.now) }
{
    let mut front = Vec::new(alloc);
    for i in 0..lo.len().min(hi.len()) {
        let (low, high) = (lo.tuple(i), hi.tuple(i));
        let (lower, upper) = (number(low), number(high));
        if lower as u64 + 2 <= upper as u64 {
            return Ok(Ident::ending(front, middle(lower, upper, replica, seq)));
        }
        front.push(low)?;
        match low.compare(&high) {
            Ordering::Equal => {}
            _ => return over(front, lo, replica, seq),
        }
    }
    if front.len() < lo.len() {
        over(front, lo, replica, seq)
    } else {
        under(front, hi, replica, seq)
    }
}

// Goes on after tuples that are fixed, where no upper bound is left.
fn over(mut front: Vec<Tuple>, lo: &Ident, replica: u32, seq: u32) -> Result<Ident, AllocError>
    requires inner { All (λ t. IsTrue (is_inner_bounded t)) front.items }
    ensures over { IfOk result (λ ident. ident ≡ front.items ++ between (drop (length front.items) lo.now) [] replica seq) }
{
    for i in front.len()..lo.len() {
        let tuple = lo.tuple(i);
        let lower = number(tuple);
        if lower as u64 + 2 <= GREATEST_NUMBER as u64 {
            return Ok(Ident::ending(front, middle(lower, GREATEST_NUMBER, replica, seq)));
        }
        front.push(tuple)?;
    }
    Ok(Ident::ending(front, middle(0, GREATEST_NUMBER, replica, seq)))
}

// Goes on after tuples that are fixed, where no lower bound is left.
fn under(mut front: Vec<Tuple>, hi: &Ident, replica: u32, seq: u32) -> Result<Ident, AllocError>
    requires inner { All (λ t. IsTrue (is_inner_bounded t)) front.items }
    ensures under { IfOk result (λ ident. ident ≡ front.items ++ below (drop (length front.items) hi.now) replica seq) }
    ensures ident { IsTrue (is_ident hi.now) }
{
    for i in front.len()..hi.len() {
        let upper = number(hi.tuple(i));
        if 2 <= upper {
            return Ok(Ident::ending(front, middle(0, upper, replica, seq)));
        }
        front.push(kept_upper(hi, i))?;
    }
    Ok(Ident::ending(front, middle(0, GREATEST_NUMBER, replica, seq)))
}

// What is copied of the upper bound where its tuple leaves no room: that tuple, or at the end the one before it.
fn kept_upper(hi: &Ident, i: usize) -> Tuple
    requires place { i < length hi.now }
    ensures inner { IsTrue (is_inner_bounded result) }
    ensures below { (replica seq : ℕ) → upper_number (drop i hi.now) < 2 → below (drop i hi.now) replica seq ≡ result ∷ below (drop (i + 1) hi.now) replica seq }
{
    let (len, tuple) = (hi.len(), hi.tuple(i));
    if i + 1 < len {
        tuple
    } else {
        just_before(tuple)
    }
}

// The tuple with its offset less one.
fn just_before(tuple: Tuple) -> Tuple
    requires last { IsTrue (is_last_bounded tuple) }
    ensures before { result ≡ raised (negsuc 0) tuple }
    ensures inner { IsTrue (is_inner_bounded result) }
{
    match tuple {
        Tuple::At {
            pos,
            replica,
            seq,
            offset,
        } => Tuple::At {
            pos,
            replica,
            seq,
            offset: offset - 1,
        },
        other => other,
    }
}
