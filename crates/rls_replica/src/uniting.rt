//! The identifiers of two lists, as one list.

ghost use Rattle.std.specs.Prelude.{◌≡◌, ◌+◌, ◌<◌, ◌≤◌, ◌⊎◌, ℕ, List, Some, length, slice_get, IfOk, IsTrue, IsFalse};
ghost use Rattle.rls_ident.specs.declared.tuple.Tuple.{Tuple};
ghost use Rattle.rls_ident.specs.Identifiers.{ident_lt};
ghost use Rattle.rls_ident.specs.Lists.{IsIn};
ghost use Rattle.rls_replica.specs.Unions.{Stands, AreBelow, IsPut};

use rls_ident::rely;
use rls_runs::Runs;
use std::alloc::{AllocError, Global};

// The identifiers that are in one list or in both. It costs a few searches for each run of the answer.
pub(crate) fn union(alloc: Global, a: &Runs, b: &Runs) -> Result<Runs, AllocError>
    ensures first { IfOk result (λ both. (x : List Tuple) → IsIn x a.now → IsIn x both) }
    ensures second { IfOk result (λ both. (x : List Tuple) → IsIn x b.now → IsIn x both) }
    ensures only { IfOk result (λ both. (x : List Tuple) → IsIn x both → IsIn x a.now ⊎ IsIn x b.now) }
{
    let mut both = Runs::new(alloc);
    let (mut i, mut j) = (0, 0);
    while i < a.total() || j < b.total() {
        let next = put_next(&mut both, a, i, b, j)?;
        i = next.0;
        j = next.1;
    }
    Ok(both)
}

// Puts the identifiers that come next, in one run, after others. Answers the places in both lists after them.
fn put_next(both: &mut Runs, a: &Runs, i: u64, b: &Runs, j: u64) -> Result<(u64, u64), AllocError>
    requires more { (i < length a.now) ⊎ (j < length b.now) }
    requires first { IsPut a.now i both.old }
    requires second { IsPut b.now j both.old }
    ensures first { IfOk result (λ next. IsPut a.now next.0 both.new) }
    ensures second { IfOk result (λ next. IsPut b.now next.1 both.new) }
    ensures later { IfOk result (λ next. i + j < next.0 + next.1) }
    ensures only { IfOk result (λ next. (x : List Tuple) → IsIn x both.new → IsIn x both.old ⊎ (IsIn x a.now ⊎ IsIn x b.now)) }
{
    rely!(let (_a, _b) = (a.total(), b.total()));
    let end = below(a, b, j)?;
    if i < end {
        let next = put_part(both, a, i, end)?;
        return Ok((next, j));
    }
    let end = below(b, a, i)?;
    if j < end {
        let next = put_part(both, b, j, end)?;
        return Ok((i, next));
    }
    let count = a.count_common(i, b, j);
    let next = put_part(both, a, i, i + count)?;
    Ok((next, j + (next - i)))
}

// How many identifiers of a list are less than the one at a place of another: all if there is none.
pub(crate) fn below(ids: &Runs, others: &Runs, at: u64) -> Result<u64, AllocError>
    ensures within { IfOk result (λ n. n ≤ length ids.now) }
    ensures all { IfOk result (λ n. length others.now ≤ at → n ≡ length ids.now) }
    ensures less { IfOk result (λ n. (y : List Tuple) → slice_get others.now at ≡ Some y → (x : List Tuple) → Stands ids.now 0 n x → IsTrue (ident_lt x y)) }
    ensures rest { IfOk result (λ n. (k : ℕ) (x y : List Tuple) → n ≤ k → slice_get others.now at ≡ Some y → slice_get ids.now k ≡ Some x → IsFalse (ident_lt x y)) }
{
    if at >= others.total() {
        return Ok(ids.total());
    }
    rely!(let _total = ids.total());
    let other = others.get(at)?;
    Ok(ids.count_below(&other))
}

// Puts identifiers of a list after others: those from a place on that are in one run there, at most up to an end. Answers the place
// after them.
pub(crate) fn put_part(both: &mut Runs, ids: &Runs, from: u64, end: u64) -> Result<u64, AllocError>
    requires some { from < end }
    requires within { end ≤ length ids.now }
    requires above { (x : List Tuple) → slice_get ids.now from ≡ Some x → AreBelow both.old x }
    ensures later { IfOk result (λ next. from < next) }
    ensures within { IfOk result (λ next. next ≤ end) }
    ensures all { IfOk result (λ next. (x : List Tuple) → IsIn x both.old ⊎ Stands ids.now from next x → IsIn x both.new) }
    ensures only { IfOk result (λ next. (x : List Tuple) → IsIn x both.new → IsIn x both.old ⊎ Stands ids.now from next x) }
{
    let (run, place) = ids.locate(from);
    let most = (end - from).min(u32::MAX as u64) as u32;
    let count = most.min(run.len() - place);
    let part = run.part(place, count)?;
    if both.total().checked_add(count as u64).is_none() {
        return Err(AllocError);
    }
    both.append(part)?;
    Ok(from + count as u64)
}
