//! Reports of commands.

ghost use Rattle.std.specs.Prelude.{◌≡◌, ◌++◌, IfOk, OnOk, length, string_bytes};
ghost use Rattle.rls_report.specs.Reports.{new_text, edit_text, take_text, stat_text, accepted_line, itself_lines, held_lines, retained_lines, member_line, member_lines, epochs_line, trial_text};

use crate::pieces::put_spaced;
use rls_ident::Vector;
use rls_model::{Counts, Taken};
use std::alloc::{AllocError, Global};

/// The report of a new replica.
pub fn new_report(alloc: Global, group: u64, me: u32, members: u32) -> Result<String, AllocError>
    ensures text { IfOk result (λ text. string_bytes text ≡ new_text group me members) }
{
    format!(in alloc; "new {group} {me} {members}\n")
}

/// The report of edits, of a leave too: how many edits were made, how many operations that waited were
/// applied, and how many of them were refused.
pub fn edit_report(
    alloc: Global,
    edits: u64,
    released: u64,
    refused: u64,
) -> Result<String, AllocError>
    ensures text { IfOk result (λ text. string_bytes text ≡ edit_text edits released refused) }
{
    format!(in alloc; "edits {edits} released {released} refused {refused}\n")
}

/// The report of a message that was taken: how many of its operations were applied, how many that
/// waited were, how many of its operations came again and how many wait, and how many of all were
/// refused.
pub fn take_report(
    alloc: Global,
    applied: u64,
    released: u64,
    repeated: u64,
    held: u64,
    refused: u64,
) -> Result<String, AllocError>
    ensures text { IfOk result (λ text. string_bytes text ≡ take_text applied released repeated held refused) }
{
    format!(in alloc;
        "applied {applied} released {released} repeated {repeated} held {held} refused {refused}\n"
    )
}

/// The report of a message of which this was counted.
pub fn taken_report(alloc: Global, taken: &Taken) -> Result<String, AllocError>
    ensures text { IfOk result (λ text. string_bytes text ≡ take_text taken.now.applied taken.now.released taken.now.repeated taken.now.held (length taken.now.refused)) }
{
    take_report(
        alloc,
        taken.applied,
        taken.released,
        taken.repeated,
        taken.held,
        taken.refused.len() as u64,
    )
}

// How many operations of each member were accepted.
fn put_accepted(text: &mut String, accepted: &[u32]) -> Result<(), AllocError>
    ensures ok { OnOk result (string_bytes text.new ≡ string_bytes text.old ++ accepted_line accepted.now) }
{
    text.push_str("accepted")?;
    put_spaced(text, accepted)?;
    text.push('\n')
}

// The lines on the replica itself.
fn itself_report(alloc: Global, group: u64, me: u32, members: u32) -> Result<String, AllocError>
    ensures text { IfOk result (λ text. string_bytes text ≡ itself_lines group me members) }
{
    let text = format!(in alloc; "group {group}\nme {me}\nmembers {members}\n")?;
    Ok(text)
}

// The lines on what the replica holds.
fn put_held(text: &mut String, counts: &Counts) -> Result<(), AllocError>
    ensures ok { OnOk result (string_bytes text.new ≡ string_bytes text.old ++ held_lines counts.now) }
{
    let (total, runs, held) = (counts.total, counts.runs, counts.held);
    write!(text, "total {total}\nruns {runs}\nheld {held}\n")
}

// The lines on what it retains.
fn put_retained(text: &mut String, counts: &Counts) -> Result<(), AllocError>
    ensures ok { OnOk result (string_bytes text.new ≡ string_bytes text.old ++ retained_lines counts.now) }
{
    let (unstable, epochs, former) = (counts.unstable, counts.epochs, counts.former);
    write!(
        text,
        "unstable {unstable}\nepochs {epochs}\nformer {former}\n"
    )
}

// The lines after those on the replica itself.
fn put_numbers(text: &mut String, accepted: &Vector, counts: &Counts) -> Result<(), AllocError>
    ensures ok { OnOk result (string_bytes text.new ≡ string_bytes text.old ++ accepted_line accepted.now ++ held_lines counts.now ++ retained_lines counts.now) }
{
    put_accepted(text, accepted.counts())?;
    put_held(text, counts)?;
    put_retained(text, counts)
}

/// The ten lines on a replica of this group, number and count of members, with these accepted
/// operations of each member and these numbers.
pub fn stat_report(
    alloc: Global,
    group: u64,
    me: u32,
    members: u32,
    accepted: &Vector,
    counts: &Counts,
) -> Result<String, AllocError>
    ensures text { IfOk result (λ text. string_bytes text ≡ stat_text group me members accepted.now counts.now) }
{
    let mut text = itself_report(alloc, group, me, members)?;
    put_numbers(&mut text, accepted, counts)?;
    Ok(text)
}

fn put_member(text: &mut String, member: usize, total: u64, runs: u64) -> Result<(), AllocError>
    ensures ok { OnOk result (string_bytes text.new ≡ string_bytes text.old ++ member_line member total runs) }
{
    write!(text, "member {member} total {total} runs {runs}\n")
}

// A line for each of these members, counted from 0, with its total and its runs.
fn put_members(text: &mut String, members: &[(u64, u64)]) -> Result<(), AllocError>
    ensures ok { OnOk result (string_bytes text.new ≡ string_bytes text.old ++ member_lines 0 members.now) }
{
    for (member, (total, runs)) in members.iter().enumerate() {
        put_member(text, member, *total, *runs)?;
    }
    Ok(())
}

// The lines of a trial after the first.
fn put_trial(
    text: &mut String,
    accepted: &[u32],
    members: &[(u64, u64)],
    epochs: u64,
    former: u64,
) -> Result<(), AllocError>
    ensures ok { OnOk result (string_bytes text.new ≡ string_bytes text.old ++ accepted_line accepted.now ++ member_lines 0 members.now ++ epochs_line epochs former) }
{
    put_accepted(text, accepted)?;
    put_members(text, members)?;
    write!(text, "epochs {epochs} former {former}\n")
}

/// The summary of a trial from this seed of this many steps: the accepted operations of member 0, the
/// total and the runs of each member, and the epochs and the former identifiers of member 0.
pub fn trial_report(
    alloc: Global,
    seed: u32,
    steps: u32,
    accepted: &[u32],
    members: &[(u64, u64)],
    epochs: u64,
    former: u64,
) -> Result<String, AllocError>
    ensures text { IfOk result (λ text. string_bytes text ≡ trial_text seed steps accepted.now members.now epochs former) }
{
    let mut text = format!(in alloc; "trial {seed} {steps}\n")?;
    put_trial(&mut text, accepted, members, epochs, former)?;
    Ok(text)
}
