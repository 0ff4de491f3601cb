//! Trials as they are printed, and as they are summed up in a run of their own.

use crate::members::{Member, Step};
use rls_report::trial_report;
use rls_world::{Summary, trial};
use std::alloc::{AllocError, Global};
use std::test::Fail;

#[test]
fn trials_of_no_step_and_of_one(rt: HostRuntime) -> Result<(), Fail> {
    let steps: &[Step<'_>] = &[
        (
            "trial 42 0",
            b"",
            0,
            "trial 42 0\naccepted 0 0 0\nmember 0 total 0 runs 0\nmember 1 total 0 runs 0\nmember 2 total 0 runs 0\nepochs 1 former 0\n",
            "",
        ),
        (
            "trial 42 1",
            b"",
            0,
            "trial 42 1\naccepted 0 1 0\nmember 0 total 8 runs 1\nmember 1 total 8 runs 1\nmember 2 total 8 runs 1\nepochs 1 former 0\n",
            "",
        ),
        ("text", b"", 2, "", "no replica\n"),
    ];
    assert_eq!(rt; Member::new().fault_among(rt.alloc(), steps)?, None);
    Ok(())
}

/// Whether a trial ends with three equal texts, and nothing is kept of older epochs.
fn ends_well(summary: &Summary) -> bool {
    let [first, second, third] = summary.totals;
    let [one, two, three] = summary.runs;
    let same_totals = first == second && second == third && first > 0;
    let same_runs = one == two && two == three;
    same_totals && same_runs && summary.epochs == 1 && summary.former == 0
}

/// The report of a trial of this many steps.
fn report(alloc: Global, steps: u32, summary: &Summary) -> Result<String, AllocError> {
    let ([first, second, third], [one, two, three]) = (summary.totals, summary.runs);
    let members = [(first, one), (second, two), (third, three)];
    let (accepted, epochs, former) = (summary.accepted, summary.epochs, summary.former);
    trial_report(alloc, 42, steps, &accepted, &members, epochs, former)
}

/// Whether the trial ends well, and the command writes what a second run gives.
fn is_written(alloc: Global, words: &str, steps: u32) -> Result<bool, Fail> {
    let summary = trial(alloc, 42, steps)?;
    let report = report(alloc, steps, &summary)?;
    let answer = Member::new().command(alloc, words, b"")?;
    Ok(ends_well(&summary) && answer.status == 0 && answer.output.as_slice() == report.as_bytes())
}

#[test]
fn a_trial_of_300_steps(rt: HostRuntime) -> Result<(), Fail> {
    assert!(rt; is_written(rt.alloc(), "trial 42 300", 300)?);
    Ok(())
}

#[test]
fn a_trial_of_20000_steps(rt: HostRuntime) -> Result<(), Fail> {
    assert!(rt; is_written(rt.alloc(), "trial 42 20000", 20_000)?);
    Ok(())
}
