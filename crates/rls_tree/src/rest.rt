//! Characters taken out of one block at several places.

ghost use Rattle.std.specs.Prelude.{◌≡◌, ◌+◌, ◌-◌, ◌^◌, ◌<◌, ◌≤◌, length, take, drop, true, false, IfSome, IfOk};
ghost use Rattle.rls_runs.specs.Entries.{idents_in, without_all};
ghost use Rattle.rls_blocks.specs.Trees.{entries_of};
ghost use Rattle.rls_blocks.specs.Edits.{located, Shows};
ghost use Rattle.rls_blocks.specs.Patches.{IsBetween};
ghost use Rattle.rls_blocks.specs.Rests.{parts_in, rested, AreParts, IsRest};
ghost use Rattle.rls_tree.specs.Targets.{AreMembers};

use crate::tree::BlockTree;
use rls_blocks::{Part, Rest};
use rls_ident::rely;
use rls_runs::Runs;
use std::alloc::AllocError;

impl BlockTree {
    /// What stays of the block from which the targets go, and the place where it begins, if all that are there go from one block, and
    /// not all of it. It costs a few comparisons of identifiers for each level and each stretch of targets that are adjacent, and the
    /// characters of the block that stay, but for its longest part.
    pub(crate) fn rest_without(&self, targets: &Runs) -> Result<Option<(u64, Rest)>, AllocError>
        ensures between { IfOk result (λ found. IfSome found (λ r. IsBetween r.0 self.now.blocks)) }
        ensures within { IfOk result (λ found. IfSome found (λ r. r.0 < length (entries_of self.now.blocks))) }
        ensures is_rest { IfOk result (λ found. IfSome found (λ r. IfSome (located self.now.blocks r.0) (λ p. IsRest r.1 p.0))) }
        ensures shows { IfOk result (λ found. IfSome found (λ r. Shows (without_all targets.now (entries_of self.now.blocks)) (rested r.1 self.now.blocks r.0))) }
    {
        rely!(let _blocks = self.blocks());
        let total = self.chars();
        let first = self.next_target(targets, 0)?;
        if first == total {
            return Ok(None);
        }
        let (block, at) = self.locate(first);
        let start = first - at as u64;
        let end = start + block.len() as u64;
        let later = self.next_target(targets, end)?;
        if later < total {
            return Ok(None);
        }
        let parts = self.parts_without(targets, start, end)?;
        if parts.is_empty() {
            return Ok(None);
        }
        let rest = Rest::new(self.alloc(), block, &parts)?;
        Ok(Some((start, rest)))
    }

    // The parts that stay of the characters between two places, counted from the first of these places.
    fn parts_without(&self, targets: &Runs, start: u64, end: u64) -> Result<Vec<Part>, AllocError>
        requires order { start ≤ end }
        requires within { end ≤ length (entries_of self.now.blocks) }
        requires short { end < start + 2 ^ 32 }
        ensures parts { IfOk result (λ parts. AreParts 0 parts.items (end - start)) }
        ensures stay { IfOk result (λ parts. parts_in parts.items (drop start (entries_of self.now.blocks)) ≡ without_all targets.now (take (end - start) (drop start (entries_of self.now.blocks)))) }
    {
        let mut parts = Vec::new(self.alloc());
        let mut at = start;
        while at < end {
            let (next, behind) = self.next_stretch(targets, at, end)?;
            if at < next {
                parts.push(Part {
                    at: (at - start) as u32,
                    len: (next - at) as u32,
                })?;
            }
            at = behind;
        }
        Ok(parts)
    }

    // The first stretch of targets, from a place on and in front of another: the place of its first one, and the place behind its last
    // one. Where there is none, both are the other place.
    fn next_stretch(&self, targets: &Runs, at: u64, end: u64) -> Result<(u64, u64), AllocError>
        requires order { at < end }
        requires within { end ≤ length (entries_of self.now.blocks) }
        ensures first { IfOk result (λ gone. at ≤ gone.0) }
        ensures order { IfOk result (λ gone. gone.0 ≤ gone.1) }
        ensures later { IfOk result (λ gone. at < gone.1) }
        ensures within { IfOk result (λ gone. gone.1 ≤ end) }
        ensures some { IfOk result (λ gone. gone.0 < end → gone.0 < gone.1) }
        ensures stay { IfOk result (λ gone. AreMembers false targets.now (idents_in (entries_of self.now.blocks)) at gone.0) }
        ensures gone { IfOk result (λ gone. AreMembers true targets.now (idents_in (entries_of self.now.blocks)) gone.0 gone.1) }
    {
        rely!(let _chars = self.chars());
        let next = self.next_target(targets, at)?;
        if next >= end {
            return Ok((end, end));
        }
        let count = self.targets_at(targets, next)?;
        Ok((next, (next + count).min(end)))
    }
}
