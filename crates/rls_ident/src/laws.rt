//! Laws of identifiers. A law is a function that takes nothing and runs nothing: its contract states a fact for all values.

ghost use Rattle.std.specs.Prelude.{◌≡◌, List};
ghost use Rattle.std.specs.Cmp.{IsTotalOrder};
ghost use Rattle.rls_ident.specs.declared.tuple.Tuple.{Tuple};
ghost use Rattle.rls_ident.specs.Identifiers.{ident_cmp};

use std::cmp::Ordering;

/// The order of identifiers is total, and only equal ones compare as equal.
#[tactic(auto, using(crate::proofs::Tuples::ident_total, crate::proofs::Tuples::ident_same))]
pub fn total_order()
    ensures total { IsTotalOrder ident_cmp }
    ensures same { (x y : List Tuple) → ident_cmp x y ≡ Ordering.Equal → x ≡ y }
{}
