//! The replica that has given parts.

ghost use Rattle.std.specs.Prelude.{◌≡◌, ◌^◌, ◌<◌, ℕ, None, Some, length, map, IfOk, OnOk, IsErrOf, IsTrue};
ghost use Rattle.std.specs.List.{list_all};
ghost use Rattle.rls_runs.specs.Runs.{are_apart, is_run};
ghost use Rattle.rls_ops.specs.Waiting.{is_in_order};
ghost use Rattle.rls_model.specs.Legal.{IsLegal};
ghost use Rattle.rls_model.specs.WellFormed.{IsLarge};
ghost use Rattle.rls_model.specs.Parts.{parts as parts_of};
ghost use Rattle.rls_model.specs.Receiving.{State};
ghost use Rattle.rls_seen.specs.Kept.{parts_over};
ghost use Rattle.rls_seen.specs.Stands.{StandsFor};
ghost use Rattle.rls_blocks.specs.Trees.{entries_of};
ghost use Rattle.rls_parts.specs.Given.{AreGiven, AreRanged, HaveTexts};
ghost use Rattle.rls_parts.specs.Restored.{entries_of as entries_in, seen_of};
ghost use Rattle.rls_parts.specs.Rules.{broken};
ghost use Rattle.rls_parts.specs.Whole.{IsMade};
ghost use Rattle.rls_replica.specs.Fitting.{HaveFormer, AreFit};

use crate::replica::Replica;
use rls_causal::Held;
use rls_ident::rely;
use rls_model::{EpochPart, Parts, TextRun, TextRuns};
use rls_ops::{Op, Ops};
use rls_parts::{PartsError, Tested, test_all};
use rls_tree::{Block, BlockTree};
use std::alloc::{AllocError, Global};
use std::cell::Cell;

impl Replica {
    /// The replica that has these parts. Its text is made a tree in one pass, and rules 3 and 4 cost as `rls_parts` says.
    ///
    /// # Errors
    ///
    /// `Broken` with the first rule that is broken, and its first entry that breaks it, exactly where a rule is broken, unless
    /// memory runs out.
    pub fn from_parts(alloc: Global, parts: Parts) -> Result<Replica, PartsError>
        requires given { AreGiven parts }
        ensures replica { IfOk result (λ r. r ≡ seen_of parts) }
        ensures unbroken { OnOk result (broken parts ≡ None) }
        ensures broken { (rule index : ℕ) → IsErrOf result (PartsError.Broken rule index) → broken parts ≡ Some (record { rule = rule; index = index }) }
        ensures back { IfOk result (λ r. parts_over r ≡ parts) }

        // For every history and waiting operations of which these are the parts.
        ensures stands { IfOk result (λ r. (t : State) → IsLegal t.history → parts_of t ≡ parts → StandsFor r t) }
    {
        let tested = test_all(alloc, &parts)?;
        let replica = Replica::from_tested(alloc, parts, tested)?;
        Ok(replica)
    }

    /// The replica that has these parts, which break no rule: this was made of them where they were tested. Its text is made a tree in
    /// one pass.
    pub fn from_tested(alloc: Global, parts: Parts, tested: Tested) -> Result<Replica, AllocError>
        requires given { AreGiven parts }
        requires made { IsMade parts tested }
        ensures replica { IfOk result (λ r. r ≡ seen_of parts) }
        ensures back { IfOk result (λ r. parts_over r ≡ parts) }

        // For every history and waiting operations of which these are the parts.
        ensures stands { IfOk result (λ r. (t : State) → IsLegal t.history → parts_of t ≡ parts → StandsFor r t) }
    {
        rely!(fit(&parts));
        let Tested {
            acks,
            stems,
            epochs,
        } = tested;
        let Parts {
            group,
            text,
            log,
            held: waiting,
            ..
        } = parts;
        let (document, held) = text_and_waiting(alloc, text, &waiting)?;
        Ok(Replica {
            alloc,
            group,
            acks,
            stems,
            epochs,
            document,
            held,
            log,
            hints: Cell::new(None),
            gone: None,
            wanted: Cell::new(false),
            known: None,
        })
    }
}

// What the types of the parts promise.
fn fit(parts: &Parts)
    ensures ranged { AreRanged parts.now }
{
    rely!(large(parts.group));
    rely!(let _len = parts.vector.len());
    rely!(former_fit(parts.epochs.as_slice()));
    rely!(runs_fit(parts.text.as_slice()));
    rely!(parts.log.fits());
    rely!(ops_fit(parts.held.as_slice()));
}

fn large(n: u64)
    ensures large { IsLarge n }
{
    rely!(let _n = n);
}

fn former_fit(list: &[EpochPart])
    ensures former { HaveFormer list.now }
{
    for entry in list {
        rely!(let _total = entry.former.total());
    }
}

fn runs_fit(runs: &[TextRun])
    ensures runs { IsTrue (list_all is_run (map (λ r. r.run) runs.now)) }
{
    for entry in runs {
        rely!(let _len = entry.run.len());
    }
}

fn ops_fit(ops: &[Op])
    ensures ops { AreFit ops.now }
{
    for op in ops {
        rely!(op.fits());
    }
}

// The tree of these runs, and these waiting operations, which stand in order.
fn text_and_waiting(
    alloc: Global,
    text: TextRuns,
    waiting: &Ops,
) -> Result<(BlockTree, Held), AllocError>
    requires texts { HaveTexts text }
    requires apart { IsTrue (are_apart None (map (λ r. r.run) text)) }
    requires few { length text < 2 ^ 32 }
    requires order { IsTrue (is_in_order waiting.now) }
    ensures text { IfOk result (λ both. entries_of (both.0).blocks ≡ entries_in text) }
    ensures held { IfOk result (λ both. both.1 ≡ waiting.now) }
{
    let document = document(alloc, text.into_vec())?;
    let held = held(alloc, waiting.as_slice())?;
    Ok((document, held))
}

// The tree of these runs.
fn document(alloc: Global, runs: Vec<TextRun>) -> Result<BlockTree, AllocError>
    requires texts { HaveTexts runs.items }
    requires apart { IsTrue (are_apart None (map (λ r. r.run) runs.items)) }
    requires few { length runs.items < 2 ^ 32 }
    ensures text { IfOk result (λ tree. entries_of tree.blocks ≡ entries_in runs.items) }
{
    rely!(runs_fit(&runs));
    let mut blocks = Vec::with_capacity(alloc, runs.len())?;
    for entry in runs {
        let TextRun { run, text } = entry;
        blocks.push(Block::new(run, text))?;
    }
    BlockTree::of_blocks(alloc, blocks)
}

// These waiting operations, which stand in order.
fn held(alloc: Global, ops: &[Op]) -> Result<Held, AllocError>
    requires order { IsTrue (is_in_order ops.now) }
    ensures held { IfOk result (λ held. held ≡ ops.now) }
{
    let mut held = Held::new(alloc);
    for op in ops {
        held.put(op.copy()?)?;
    }
    Ok(held)
}
