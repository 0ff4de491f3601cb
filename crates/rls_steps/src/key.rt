//! Identifiers, as they are looked up.

ghost use Rattle.std.specs.Prelude.{◌≡◌, List, length, Some, refl};
ghost use Rattle.std.specs.Ordering.{is_eq};
ghost use Rattle.std.specs.Cmp.{on_total, on_equiv, partial_equiv_from_equiv, partial_order_from_agreeing_total, eq_by_cmp_equiv, then_total, nat_cmp_total};
ghost use Rattle.rls_ident.specs.declared.tuple.Tuple.{Tuple};
ghost use Rattle.rls_ident.specs.Tuples.{seq_of};
ghost use Rattle.rls_ident.specs.Identifiers.{last_of};
ghost use Rattle.rls_steps.specs.NameRuns.{long_cmp, wide_cmp};
ghost use Rattle.rls_ident.proofs.Tuples.{ident_total};

use rls_ident::Ident;
use std::cmp::Ordering;

/// An identifier, as it is looked up: by the seq of its last tuple, which tells most identifiers apart at once, and then shorter ones
/// first. Identifiers between two of a run are of that run then, which isn't so in the order of a text.
#[derive(Drop)]
pub(crate) struct Key {
    pub(crate) ident: Ident,
}

impl PartialEq for Key {
    ghost eq = { λ a b. is_eq (wide_cmp a.ident b.ident) };

    ghost laws = { partial_equiv_from_equiv (on_equiv (λ k. k.ident) (eq_by_cmp_equiv (then_total (on_total (λ (x : List Tuple). seq_of (last_of x)) nat_cmp_total) (then_total (on_total (λ (x : List Tuple). length x) nat_cmp_total) ident_total)))) };

    fn eq(&self, other: &Key) -> bool {
        self.cmp(other).is_eq()
    }
}

impl Eq for Key {
    ghost laws = { on_equiv (λ k. k.ident) (eq_by_cmp_equiv (then_total (on_total (λ (x : List Tuple). seq_of (last_of x)) nat_cmp_total) (then_total (on_total (λ (x : List Tuple). length x) nat_cmp_total) ident_total))) };
}

impl PartialOrd for Key {
    ghost partial_cmp = { λ a b. Some (wide_cmp a.ident b.ident) };

    ghost laws = { partial_order_from_agreeing_total (λ a b. wide_cmp a.ident b.ident) (on_total (λ k. k.ident) (then_total (on_total (λ (x : List Tuple). seq_of (last_of x)) nat_cmp_total) (then_total (on_total (λ (x : List Tuple). length x) nat_cmp_total) ident_total))) (λ a b. refl) (λ a b. refl) };

    fn partial_cmp(&self, other: &Key) -> Option<Ordering> {
        Some(self.cmp(other))
    }
}

impl Ord for Key {
    ghost cmp = { λ a b. wide_cmp a.ident b.ident };

    ghost total = { on_total (λ k. k.ident) (then_total (on_total (λ (x : List Tuple). seq_of (last_of x)) nat_cmp_total) (then_total (on_total (λ (x : List Tuple). length x) nat_cmp_total) ident_total)) };

    ghost matches_partial_cmp = { λ a b. refl };

    ghost matches_eq = { λ a b. refl };

    fn cmp(&self, other: &Key) -> Ordering {
        match self.ident.last().seq.cmp(&other.ident.last().seq) {
            Ordering::Equal => long_order(&self.ident, &other.ident),
            order => order,
        }
    }
}

// Shorter ones first.
fn long_order(a: &Ident, b: &Ident) -> Ordering
    ensures order { result ≡ long_cmp a.now b.now }
{
    match a.len().cmp(&b.len()) {
        Ordering::Equal => a.compare(b),
        order => order,
    }
}
