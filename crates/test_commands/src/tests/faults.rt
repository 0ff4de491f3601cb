//! Devices that fail, call by call.

use super::files::{FRESH_SECOND, HELLO, keeps, member_with};
use crate::members::{Member, Step};
use std::alloc::Global;
use std::test::Fail;
use test_steps::bytes::HELLO_FILE;
use test_steps::rows::{all_go, all_go_within, first_fault};

/// Calls of the keeper, of the input, of the output and of the errors that fail.
type Failing = [&'static [u64]; 4];

/// A member's file, if there is one, the words of a command, and its input.
type Command = (Option<&'static str>, &'static str, &'static [u8]);

const COMMANDS: &[Command] = &[
    (None, "new 7 1 2", b""),
    (Some(FRESH_SECOND), "edit", b"i 0 hello\ni 5 !\n"),
    (Some(FRESH_SECOND), "take", HELLO),
    (Some(FRESH_SECOND), "leave", b""),
    (Some(FRESH_SECOND), "text", b""),
    (Some(FRESH_SECOND), "ids", b""),
    (Some(FRESH_SECOND), "stat", b""),
    (Some(FRESH_SECOND), "send 0", b""),
];

/// A call that fails, the status that tells it, and whether each command makes this call.
type Call = (Failing, u8, bool);

/// The first calls of the keeper, of the input and of the output.
const CALLS: &[Call] = &[
    ([&[0], &[], &[], &[]], 7, true),
    ([&[1], &[], &[], &[]], 7, false),
    ([&[2], &[], &[], &[]], 7, false),
    ([&[3], &[], &[], &[]], 7, false),
    ([&[], &[0], &[], &[]], 8, false),
    ([&[], &[1], &[], &[]], 8, false),
    ([&[], &[2], &[], &[]], 8, false),
    ([&[], &[3], &[], &[]], 8, false),
    ([&[], &[], &[0], &[]], 9, false),
    ([&[], &[], &[1], &[]], 9, false),
    ([&[], &[], &[2], &[]], 9, false),
    ([&[], &[], &[3], &[]], 9, false),
];

/// The status of a command while these calls fail.
fn status_of(
    alloc: Global,
    member: &mut Member,
    command: &Command,
    failing: Failing,
) -> Result<u8, Fail> {
    let (_, words, input) = command;
    Ok(member.under_faults(alloc, words, input, failing)?.status)
}

/// Whether a member has the file that it has to have after this status: the one of a member that is done with the command, if just the
/// output is amiss or nothing is, and else the one that it had.
fn is_left(
    alloc: Global,
    member: &Member,
    status: u8,
    done: &Member,
    before: Option<&str>,
) -> Result<bool, Fail> {
    match status {
        0 | 9 => Ok(member.file.as_deref() == done.file.as_deref()),
        _ => keeps(alloc, member, before),
    }
}

/// Whether a command tells by its status that a call fails, and leaves the file that it has to.
fn is_told(alloc: Global, command: &Command, done: &Member, call: &Call) -> Result<bool, Fail> {
    let (failing, due, is_made) = call;
    let mut member = member_with(alloc, command.0)?;
    let status = status_of(alloc, &mut member, command, *failing)?;
    let is_due = status == *due || (status == 0 && !*is_made);
    Ok(is_due && is_left(alloc, &member, status, done, command.0)?)
}

/// The first call that isn't told.
fn fault_among(alloc: Global, command: &Command, done: &Member) -> Result<Option<usize>, Fail> {
    first_fault(CALLS, |call| is_told(alloc, command, done, call))
}

/// The first call of a command that isn't told.
fn fault_of(alloc: Global, command: &Command) -> Result<Option<usize>, Fail> {
    let (file, words, input) = command;
    let mut done = member_with(alloc, *file)?;
    let _answer = done.command(alloc, words, input)?;
    fault_among(alloc, command, &done)
}

#[test]
fn each_call_of_a_device_fails_in_turn(rt: HostRuntime) -> Result<(), Fail> {
    all_go_within(COMMANDS, |command| fault_of(rt.alloc(), command))
}

/// A member's file, if there is one, calls that fail, and a step, which leaves the file as it is.
type Case = (Option<&'static str>, Failing, Step<'static>);

/// No line can be written on errors.
const NO_ERRORS: Failing = [&[], &[], &[], &[0]];

const CASES: &[Case] = &[
    (
        Some(HELLO_FILE),
        [&[0], &[], &[], &[]],
        ("text", b"", 7, "", "keeper fault\n"),
    ),
    (
        Some(HELLO_FILE),
        [&[], &[], &[0], &[]],
        ("text", b"", 9, "", "sink fault\n"),
    ),
    // A status needs no errors.
    (Some(FRESH_SECOND), NO_ERRORS, ("text 1", b"", 1, "", "")),
    (None, NO_ERRORS, ("text", b"", 2, "", "")),
    (Some("524c5346"), NO_ERRORS, ("text", b"", 3, "", "")),
    (None, NO_ERRORS, ("new 7 2 2", b"", 4, "", "")),
    (
        Some(FRESH_SECOND),
        NO_ERRORS,
        ("edit", b"i 9 x\n", 6, "", ""),
    ),
];

/// Whether the step goes as it has to, and leaves the file.
fn goes(alloc: Global, case: &Case) -> Result<bool, Fail> {
    let (file, failing, step) = case;
    let mut member = member_with(alloc, *file)?;
    let goes = member.goes_under_faults(alloc, step, *failing)?;
    Ok(goes && keeps(alloc, &member, *file)?)
}

#[test]
fn commands_fail(rt: HostRuntime) -> Result<(), Fail> {
    all_go(CASES, |case| goes(rt.alloc(), case))
}
