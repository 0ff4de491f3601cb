//! Names of the characters that an operation inserts.

ghost use Rattle.std.specs.Prelude.{◌≡◌, ◌<◌, ◌++◌, ◌∷◌, [], length, take, reverse, zip, IfOk, IfSome, OnOk};
ghost use Rattle.rls_runs.specs.Runs.{run_idents};
ghost use Rattle.rls_steps.specs.Labelled.{inserted_by};
ghost use Rattle.rls_steps.specs.Marks.{numbers_from};

use crate::finding::rising;
use crate::name_run::NameRun;
use crate::names::Names;
use crate::pending::{add_pending, push_pending};
use rls_ident::{Ident, rely};
use rls_ops::{Body, Op};
use rls_runs::{Run, Runs};
use std::alloc::{AllocError, Global};

/// Names the characters that an operation inserts. It costs a few searches among the names for each run of labels that follow one another,
/// and for each run that had some of these labels before.
pub(crate) fn name_inserted(names: &mut Names, op: &Op, labels: &[u64]) -> Result<(), AllocError>
    ensures ok { OnOk result (reverse names.new ≡ zip (inserted_by op.now.body) labels.now ++ reverse names.old) }
    ensures front { take (length names.old) names.new ≡ names.old }
{
    match &op.body {
        Body::Insert { first, text } => {
            if text.len() == 1 && labels.len() == 1 {
                return name_one(names, first, labels);
            }
            let run = run_of(first, text.len())?;
            match rising_from(labels, run.len()) {
                Some(label) => name_run(names, &run, label),
                None => name_apart(names, run, labels),
            }
        }
        _ => Ok(()),
    }
}

// Names the identifier of one character.
fn name_one(names: &mut Names, first: &Ident, labels: &[u64]) -> Result<(), AllocError>
    requires one { length labels.now ≡ 1 }
    ensures ok { OnOk result (reverse names.new ≡ zip (run_idents first.now 1) labels.now ++ reverse names.old) }
    ensures front { take (length names.old) names.new ≡ names.old }
{
    names.push(first, labels[0])?;
    Ok(())
}

// The run of so many identifiers. There is always one, where an insertion has them.
fn run_of(first: &Ident, count: usize) -> Result<Run, AllocError>
    ensures run { IfOk result (λ run. run ≡ (first.now, count)) }
{
    let Ok(len) = u32::try_from(count) else {
        return Err(AllocError);
    };
    let first = first.copy()?;
    match Run::new(first, len) {
        Ok(run) => Ok(run),
        Err(_) => Err(AllocError),
    }
}

// The first of so many labels, if they follow one another.
fn rising_from(labels: &[u64], count: u32) -> Option<u64>
    ensures rising { IfSome result (λ l. labels.now ≡ numbers_from l count) }
{
    if count == 0 || labels.len() != count as usize {
        return None;
    }
    if rising(labels, 0, count) < count {
        return None;
    }
    Some(labels[0])
}

// Gives the identifiers of a run labels that follow one another from this one on, the first identifier last.
fn name_run(names: &mut Names, run: &Run, label: u64) -> Result<(), AllocError>
    ensures ok { OnOk result (reverse names.new ≡ zip (run_idents run.now.0 run.now.1) (numbers_from label run.now.1) ++ reverse names.old) }
    ensures front { take (length names.old) names.new ≡ names.old }
{
    let more = run.len() - 1;
    let Some(top) = label.checked_add(more as u64) else {
        return Err(AllocError);
    };
    let first = run.first();
    rely!(let _first = first.last());
    let last = first.shifted(more)?;
    rely!(let _last = last.last());
    names.push_run(NameRun::new(last, top, true, run.len()))?;
    Ok(())
}

// Gives the identifiers of a run any labels, the first identifier last.
fn name_apart(names: &mut Names, run: Run, labels: &[u64]) -> Result<(), AllocError>
    ensures ok { OnOk result (reverse names.new ≡ zip (run_idents run.0 run.1) labels.now ++ reverse names.old) }
    ensures front { take (length names.old) names.new ≡ names.old }
{
    let ids = ids_of(names.alloc(), run)?;
    match name_all(names, &ids, labels) {
        Err(_) => Err(AllocError),
        Ok(()) => Ok(()),
    }
}

// The identifiers of a run.
fn ids_of(alloc: Global, run: Run) -> Result<Runs, AllocError>
    ensures ids { IfOk result (λ xs. xs ≡ run_idents run.0 run.1) }
{
    let mut ids = Runs::new(alloc);
    ids.append(run)?;
    Ok(ids)
}

// Gives these identifiers these labels, the first one last.
fn name_all(names: &mut Names, ids: &Runs, labels: &[u64]) -> Result<(), AllocError>
    ensures ok { OnOk result (reverse names.new ≡ zip ids.now labels.now ++ reverse names.old) }
    ensures front { take (length names.old) names.new ≡ names.old }
{
    let mut i = ids.total().min(labels.len() as u64) as usize;
    let mut last = None;
    'names: while i > 0 {
        i -= 1;
        last = Some(add_pending(names, last, ids.get(i as u64)?, labels[i])?);
    }
    push_pending(names, last)?;
    Ok(())
}
