//! Stems.

ghost use Rattle.std.specs.Prelude.{◌≡◌, None, option_copied, length, IfOk};
ghost use Rattle.rls_parts.specs.Rules.{is_stem_of, stands_behind, stem_fault};

use crate::StemTable;
use rls_ident::limits::{LEAST_OFFSET, OFFSETS_END};
use rls_model::{Parts, Stem};
use std::alloc::{AllocError, Global};

// Whether the stem is a member's, its number was accepted, and its offsets are in range.
fn is_stem_of(parts: &Parts, stem: &Stem) -> bool
    requires counts { length parts.now.vector ≡ parts.now.members }
    ensures fits { result ≡ is_stem_of parts.now stem.now }
{
    stem.author < parts.members
        && stem.s0 > 0
        && stem.s0 <= parts.vector.get(stem.author)
        && stem.low >= LEAST_OFFSET
        && stem.low <= 0
        && stem.next > 0
        && stem.next <= OFFSETS_END
}

// Whether the stem stands after the one before, where there is one, by author and number.
fn stands_behind(before: Option<&Stem>, stem: &Stem) -> bool
    ensures behind { result ≡ stands_behind (option_copied before.entry) stem.now }
{
    match before {
        None => true,
        Some(before) => {
            before.author < stem.author || (before.author == stem.author && before.s0 < stem.s0)
        }
    }
}

/// Rule 2: the place of the first stem that isn't an accepted number's with offsets in range, or doesn't come after the one before.
pub fn stem_fault(parts: &Parts) -> Option<u64>
    requires counts { length parts.now.vector ≡ parts.now.members }
    ensures fault { result ≡ stem_fault parts.now None 0 parts.now.stems }
{
    let stems = parts.stems.as_slice();
    let mut before: Option<&Stem> = None;
    for i in 0..stems.len() {
        let stem = &stems[i];
        if !is_stem_of(parts, stem) || !stands_behind(before, stem) {
            return Some(i as u64);
        }
        before = Some(stem);
    }
    None
}

/// The table of stems that keep the rule. It costs a step for each.
pub fn table(alloc: Global, parts: &Parts) -> Result<StemTable, AllocError>
    requires counts { length parts.now.vector ≡ parts.now.members }
    requires rule { stem_fault parts.now None 0 parts.now.stems ≡ None }
    ensures stems { IfOk result (λ table. table.stems ≡ parts.now.stems) }
    ensures members { IfOk result (λ table. table.members ≡ parts.now.members) }
{
    let mut all = StemTable::new(alloc, parts.members)?;
    let stems = parts.stems.as_slice();
    for i in 0..stems.len() {
        all.push(&stems[i])?;
    }
    Ok(all)
}
