//! The places at which runs go in.

ghost use Rattle.std.specs.Prelude.{◌≡◌, ◌+◌, ◌-◌, ◌<◌, ◌≤◌, ◌++◌, length, take, drop, IfOk, IfSome, IsTrue};
ghost use Rattle.rls_ident.specs.Identifiers.{ident_lt};
ghost use Rattle.rls_runs.specs.Runs.{run_idents, run_last, is_run, is_increasing};
ghost use Rattle.rls_runs.specs.Entries.{idents_in};
ghost use Rattle.rls_runs.specs.Places.{below_count};
ghost use Rattle.rls_runs.proofs.Gaps.{AreBelow};
ghost use Rattle.rls_blocks.specs.Trees.{entries_of};
ghost use Rattle.rls_tree.specs.Gaps.{gap_end};

use crate::tree::BlockTree;
use rls_ident::{Ident, rely};
use rls_runs::Run;
use std::alloc::AllocError;

impl BlockTree {
    // How many identifiers of a run stand in front of the one at a place of the tree, if there is one.
    pub(crate) fn end_of_gap(&self, i: u64, run: &Run) -> Result<u32, AllocError>
        requires place { i ≤ length (entries_of self.now.blocks) }
        ensures end { IfOk result (λ end. end ≡ gap_end (run_idents run.now.0 run.now.1) (drop i (idents_in (entries_of self.now.blocks)))) }
    {
        if i == self.chars() {
            return Ok(run.len());
        }
        match run.find(&self.ident(i)?) {
            Ok(place) => Ok(place),
            Err(below) => Ok(below),
        }
    }

    // The place where all of this many identifiers, from the first one on, stand in front of the next identifier of the tree, if there is
    // one. It costs a comparison of identifiers for each level and one more, and takes memory only if the place is within a block.
    pub(crate) fn gap_for(&self, first: &Ident, len: u32) -> Result<Option<u64>, AllocError>
        requires run { IsTrue (is_run (first.now, len)) }
        ensures place { IfOk result (λ gap. IfSome gap (λ i. i ≤ length (entries_of self.now.blocks))) }
        ensures rises { IfOk result (λ gap. IfSome gap (λ i. IsTrue (is_increasing (take i (idents_in (entries_of self.now.blocks)) ++ (run_idents first.now len ++ drop i (idents_in (entries_of self.now.blocks))))))) }
    {
        rely!(let _blocks = self.blocks());
        let Err(i) = self.place(first) else {
            return Ok(None);
        };
        if self.ends_at(i, first, len)? {
            return Ok(Some(i));
        }
        Ok(None)
    }

    // Whether all of this many identifiers, from the first one on, are less than the one at a place, if there is one. It costs a step for
    // each level and a comparison of identifiers, and takes memory only if the place is within a block.
    fn ends_at(&self, i: u64, first: &Ident, len: u32) -> Result<bool, AllocError>
        requires place { i ≤ length (entries_of self.now.blocks) }
        requires run { IsTrue (is_run (first.now, len)) }
        ensures less { IfOk result (λ is. IsTrue is → AreBelow (run_idents first.now len) (drop i (idents_in (entries_of self.now.blocks)))) }
    {
        rely!(let _blocks = self.blocks());
        if i == self.chars() {
            return Ok(true);
        }
        let (block, at) = self.locate(i);
        if at == 0 {
            return Ok(are_below(first, len, block.run().first()));
        }
        let next = self.ident(i)?;
        Ok(are_below(first, len, &next))
    }

    // How many identifiers of the tree are less than this one.
    pub(crate) fn count_below(&self, id: &Ident) -> u64
        ensures count { result ≡ below_count (idents_in (entries_of self.now.blocks)) id.now }
    {
        rely!(let _blocks = self.blocks());
        match self.place(id) {
            Ok(i) => i,
            Err(i) => i,
        }
    }
}

// Whether all of this many identifiers, from the first one on, are less than another one. It takes no memory.
fn are_below(first: &Ident, len: u32, id: &Ident) -> bool
    requires run { IsTrue (is_run (first.now, len)) }
    ensures below { result ≡ ident_lt (run_last (first.now, len)) id.now }
{
    first.compare_shifted(len - 1, id).is_lt()
}
