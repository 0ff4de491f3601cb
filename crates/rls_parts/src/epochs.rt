//! Epochs.

ghost use Rattle.std.specs.Prelude.{◌≡◌, ◌+◌, ◌^◌, ◌<◌, ◌≤◌, Some, length, slice_get, take, IfOk, OnOk, IsTrue};
ghost use Rattle.rls_ident.specs.declared.limits.TheConstants.{IDENTIFIERS};
ghost use Rattle.rls_parts.specs.Given.{AreGiven};
ghost use Rattle.rls_parts.specs.Rules.{is_new, is_opened, may_be_top, is_former_count, is_covered_by, is_greater, is_place_below};
ghost use Rattle.rls_parts.specs.Building.{IsTreeBefore, opens};
ghost use Rattle.rls_parts.specs.Tested.{AreTested};

use crate::StemTable;
use rls_epoch::Epochs;
use rls_ident::EpochName;
use rls_ident::limits::IDENTIFIERS;
use rls_model::{EpochPart, Parts};
use rls_rename::{Renaming, RenamingError};
use rls_runs::Runs;
use std::alloc::{AllocError, Global};

// Whether the epoch was opened by an operation that was accepted.
fn is_opened(parts: &Parts, name: EpochName) -> bool
    requires counts { length parts.now.vector ≡ parts.now.members }
    ensures opened { result ≡ is_opened parts.now name }
{
    match name {
        EpochName::Origin => false,
        EpochName::Of { replica, seq } => {
            replica < parts.members && seq > 0 && seq <= parts.vector.get(replica)
        }
    }
}

// Whether it may be the topmost.
fn may_be_top(parts: &Parts, name: EpochName) -> bool
    requires counts { length parts.now.vector ≡ parts.now.members }
    ensures may { result ≡ may_be_top parts.now name }
{
    match name {
        EpochName::Origin => true,
        EpochName::Of { .. } => is_opened(parts, name),
    }
}

// Whether so many offsets of the stem of the epoch's rename were used.
fn is_covered_by(stems: &StemTable, name: EpochName, count: u64) -> bool
    ensures covered { result ≡ is_covered_by stems.now.stems name count }
{
    match name {
        EpochName::Origin => false,
        EpochName::Of { replica, seq } => match stems.get(replica, seq) {
            None => false,
            Some(stem) => count <= stem.next as u64,
        },
    }
}

// Whether the entry at this place keeps its rule but for its order: its name is new and was accepted, its parent stands before it, and
// it has a former list whose new identifiers were used.
fn opens(parts: &Parts, stems: &StemTable, tree: &Epochs, i: usize, entry: &EpochPart) -> bool
    requires counts { length parts.now.vector ≡ parts.now.members }
    requires stems_are { stems.now.stems ≡ parts.now.stems }
    requires place { i ≤ length parts.now.epochs }
    requires tree_is { IsTreeBefore parts.now i tree.now.epochs }
    ensures opens { result ≡ opens parts.now (take i parts.now.epochs) entry.now }
{
    let total = entry.former.total();
    is_new(parts, tree, i, entry.name)
        && is_opened(parts, entry.name)
        && is_place_below(parts, i, entry.parent)
        && is_former_count(total)
        && is_covered_by(stems, entry.name, total)
}

// Whether none of the entries before this place has the name.
fn is_new(parts: &Parts, tree: &Epochs, i: usize, name: EpochName) -> bool
    requires tree_is { IsTreeBefore parts.now i tree.now.epochs }
    ensures new { result ≡ is_new (take i parts.now.epochs) name }
{
    !tree.kept(name)
}

// Whether a rename may have so many former identifiers.
fn is_former_count(count: u64) -> bool
    ensures may { result ≡ is_former_count count }
{
    count > 0 && count <= IDENTIFIERS
}

// Whether the parent stands before this place.
fn is_place_below(parts: &Parts, i: usize, parent: Option<u64>) -> bool
    requires place { i ≤ length parts.now.epochs }
    ensures below { result ≡ is_place_below (length (take i parts.now.epochs)) parent }
{
    match parent {
        None => false,
        Some(place) => place < i as u64,
    }
}

// The renaming of a former list that isn't empty and isn't too long.
fn renaming_of(alloc: Global, former: &Runs, replica: u32, seq: u32) -> Result<Renaming, AllocError>
    requires some { 0 < length former.now }
    requires few { length former.now ≤ IDENTIFIERS }
    ensures renaming { IfOk result (λ r. r ≡ record { former = former.now; replica = replica; seq = seq }) }
{
    match Renaming::new(alloc, former.copy()?, replica, seq) {
        Ok(renaming) => Ok(renaming),
        Err(RenamingError::EmptyList) => unreachable!(),
        Err(RenamingError::TooMany { .. }) => unreachable!(),
    }
}

// Puts the entry at this place, which keeps its rule but for its order, into the tree of those before it.
fn add(
    alloc: Global,
    parts: &Parts,
    tree: &mut Epochs,
    i: usize,
    entry: &EpochPart,
) -> Result<(), AllocError>
    requires few { length parts.now.epochs < 2 ^ 32 }
    requires entry_is { slice_get parts.now.epochs i ≡ Some entry.now }
    requires tree_is { IsTreeBefore parts.now i tree.old.epochs }
    requires opens { IsTrue (opens parts.now (take i parts.now.epochs) entry.now) }
    ensures ok { OnOk result (IsTreeBefore parts.now (i + 1) tree.new.epochs) }
{
    let (EpochName::Of { replica, seq }, Some(place)) = (entry.name, entry.parent) else {
        unreachable!()
    };
    let parent = parts.epochs.get(place as usize).name;
    let renaming = renaming_of(alloc, &entry.former, replica, seq)?;
    tree.reserve()?;
    tree.add(replica, seq, parent, renaming);
    Ok(())
}

// Whether the entry at this place, which stands in the tree, is greater than the one before.
fn is_greater(parts: &Parts, tree: &Epochs, i: usize, entry: &EpochPart) -> bool
    requires some { 0 < i }
    requires entry_is { slice_get parts.now.epochs i ≡ Some entry.now }
    requires tree_is { IsTreeBefore parts.now (i + 1) tree.now.epochs }
    ensures greater { result ≡ is_greater (take i parts.now.epochs) entry.now }
{
    let last = parts.epochs.get(i - 1).name;
    tree.compare(last, entry.name).is_lt()
}

/// Rule 3: the tree of the epochs, or the place of the first entry that breaks the rule. An entry costs a few comparisons of names for
/// each halving of those before it, and a step for each epoch on the way to the one before.
pub fn tree(
    alloc: Global,
    parts: &Parts,
    stems: &StemTable,
) -> Result<Result<Epochs, u64>, AllocError>
    requires given { AreGiven parts.now }
    requires stems_are { stems.now.stems ≡ parts.now.stems }
    ensures tested { IfOk result (AreTested parts.now) }
{
    let list = parts.epochs.as_slice();
    let first = list[0].name;
    if !may_be_top(parts, first) {
        return Ok(Err(0));
    }
    let mut epochs = Epochs::starting_at(alloc, first)?;
    for i in 1..list.len() {
        let entry = &list[i];
        if !opens(parts, stems, &epochs, i, entry) {
            return Ok(Err(i as u64));
        }
        add(alloc, parts, &mut epochs, i, entry)?;
        if !is_greater(parts, &epochs, i, entry) {
            return Ok(Err(i as u64));
        }
    }
    Ok(Ok(epochs))
}
