//! Worlds of members that are led from event to event.

use crate::answers::tally;
use crate::rows::{change_of, cut, first_fault, number, word};
use crate::steps::{Change, edit_of};
use rls_model::{Event, Outcome, StepError};
use rls_replica::Replica;
use rls_report::ids_json;
use rls_world::World;
use std::alloc::{AllocError, Global};
use std::test::Fail;

/// What happens in a world.
#[derive(Clone, Copy)]
pub enum Happening {
    Edit(u32, Change),
    Send(u32, u32),
    Deliver(u64, u32),
    Drop(u32),
}

/// What happens, what comes of it, and how the member in question is afterwards: its text, its counts, how many operations wait, and
/// how many operations are unstable and how many epochs and former identifiers are retained; then how many of these it keeps. These
/// are four parts with ` | ` between them, as in `edit 0 insert 0 hello | 1 | hello [1, 0] 0 of 1 1 0 | 1 1 0`.
pub type Row = &'static str;

/// The edit of this member, as in `insert 2 XY`.
fn edit_in(member: u32, words: &'static str) -> Result<Happening, Fail> {
    Ok(Happening::Edit(member, change_of(words)?))
}

/// The member that a message is for.
fn receiver_in(words: &'static str) -> Result<u32, Fail> {
    Ok(number(words)?.0)
}

/// The message that this member sends.
fn send_in(from: u32, words: &'static str) -> Result<Happening, Fail> {
    Ok(Happening::Send(from, receiver_in(words)?))
}

/// The arrival of this message.
fn delivery_in(message: u32, words: &'static str) -> Result<Happening, Fail> {
    Ok(Happening::Deliver(u64::from(message), receiver_in(words)?))
}

/// What happens: `edit 0 insert 2 XY`, `send 0 1`, `deliver 0 1` or `drop 1`.
fn happening_of(words: &'static str) -> Result<Happening, Fail> {
    let (verb, rest) = word(words);
    let (first, rest) = number(rest)?;
    match verb {
        "edit" => edit_in(first, rest),
        "send" => send_in(first, rest),
        "deliver" => delivery_in(first, rest),
        "drop" => Ok(Happening::Drop(first)),
        _ => Err(Fail::new(words)),
    }
}

/// The event.
pub fn event_of(alloc: Global, happening: Happening) -> Result<Event, AllocError> {
    Ok(match happening {
        Happening::Edit(member, change) => Event::Edit {
            member,
            edit: edit_of(alloc, change)?,
        },
        Happening::Send(from, to) => Event::Send { from, to },
        Happening::Deliver(message, to) => Event::Deliver { message, to },
        Happening::Drop(member) => Event::Drop { member },
    })
}

/// The member whose replica a row speaks of.
fn member_of(happening: Happening) -> u32 {
    match happening {
        Happening::Edit(member, _) => member,
        Happening::Send(from, _) => from,
        Happening::Deliver(_, to) => to,
        Happening::Drop(member) => member,
    }
}

/// What came of an event: the number of an operation or a message, a tally, or why nothing happened.
fn outcome(alloc: Global, answer: &Result<Outcome, StepError>) -> Result<String, AllocError> {
    match answer {
        Ok(Outcome::Made { seq }) => format!(in alloc; "{seq}"),
        Ok(Outcome::Sent { message }) => format!(in alloc; "{message}"),
        Ok(Outcome::Took(taken)) => tally(alloc, taken),
        Ok(Outcome::Dropped) => String::from_str(alloc, "dropped"),
        Err(error) => format!(in alloc; "{error:?}"),
    }
}

/// How a replica is.
fn state(alloc: Global, replica: &Replica) -> Result<String, AllocError> {
    let text = replica.text()?.to_utf8()?;
    let (counts, held) = (replica.vector().counts(), replica.held().len());
    let retained = text_of(alloc, retained(replica)?)?;
    format!(in alloc; "{text} {counts:?} {held} of {retained}")
}

/// How many operations are unstable, and how many epochs and former identifiers are retained.
fn retained(replica: &Replica) -> Result<[u64; 3], AllocError> {
    let numbers = replica.counts()?;
    Ok([numbers.unstable, numbers.epochs, numbers.former])
}

/// How many of them the replica keeps.
fn kept(replica: &Replica) -> [u64; 3] {
    let numbers = replica.kept();
    [numbers.operations, numbers.epochs, numbers.former]
}

/// Three numbers, with spaces between them.
fn text_of(alloc: Global, [operations, epochs, former]: [u64; 3]) -> Result<String, AllocError> {
    format!(in alloc; "{operations} {epochs} {former}")
}

/// The replica of a member.
pub fn replica(world: &World, member: u32) -> Result<&Replica, Fail> {
    if member as usize >= world.members() {
        return Err(Fail::new("member"));
    }
    Ok(world.replica(member))
}

/// Whether a member is so. If there is none, it is `none`.
fn stands(alloc: Global, world: &World, member: u32, stand: &str) -> Result<bool, Fail> {
    if member as usize >= world.members() {
        return Ok(stand == "none");
    }
    Ok(state(alloc, world.replica(member))?.as_str() == stand)
}

/// Whether a member keeps this much.
fn keeps(alloc: Global, world: &World, member: u32, expected: &str) -> Result<bool, Fail> {
    if member as usize >= world.members() {
        return Ok(expected == "none");
    }
    Ok(text_of(alloc, kept(world.replica(member)))?.as_str() == expected)
}

/// Whether a replica keeps just what is retained.
fn keeps_just(replica: &Replica) -> Result<bool, AllocError> {
    Ok(kept(replica) == retained(replica)?)
}

/// Whether a member that drops what is stable keeps just what is retained.
fn drops(world: &mut World, member: u32) -> Result<bool, Fail> {
    let dropped = world.step(&Event::Drop { member }).is_ok();
    if member as usize >= world.members() {
        return Ok(!dropped);
    }
    match dropped {
        true => Ok(keeps_just(world.replica(member))?),
        false => Ok(false),
    }
}

/// What happens, and its answer.
fn answer_of(alloc: Global, world: &mut World, happening: Happening) -> Result<String, Fail> {
    let event = event_of(alloc, happening)?;
    Ok(outcome(alloc, &world.step(&event))?)
}

/// Whether what happens is answered so.
fn happens(
    alloc: Global,
    world: &mut World,
    happening: Happening,
    expected: &str,
) -> Result<bool, Fail> {
    Ok(answer_of(alloc, world, happening)?.as_str() == expected)
}

/// Whether a member keeps this much; if it drops what is stable before, just what is retained.
fn keeps_it(
    alloc: Global,
    world: &mut World,
    member: u32,
    kept: &str,
    dropping: bool,
) -> Result<bool, Fail> {
    match dropping {
        true => drops(world, member),
        false => keeps(alloc, world, member, kept),
    }
}

/// Whether a member keeps this much, and is so then.
fn ends(
    alloc: Global,
    world: &mut World,
    member: u32,
    (stand, kept): (&str, &str),
    dropping: bool,
) -> Result<bool, Fail> {
    match keeps_it(alloc, world, member, kept, dropping)? {
        true => stands(alloc, world, member, stand),
        false => Ok(false),
    }
}

/// The parts of a row.
fn parts_of(row: Row) -> Result<(Happening, &'static str, (&'static str, &'static str)), Fail> {
    let (words, rest) = cut(row)?;
    let (expected, rest) = cut(rest)?;
    Ok((happening_of(words)?, expected, cut(rest)?))
}

/// Whether the event goes as it has to. If the member in question drops what is stable after it, what it keeps is just what is
/// retained, and all else is as without.
fn goes(alloc: Global, world: &mut World, row: Row, dropping: bool) -> Result<bool, Fail> {
    let (happening, expected, end) = parts_of(row)?;
    match happens(alloc, world, happening, expected)? {
        true => ends(alloc, world, member_of(happening), end, dropping),
        false => Ok(false),
    }
}

/// The first row that goes otherwise than it has to.
fn fault(
    alloc: Global,
    world: &mut World,
    rows: &[Row],
    dropping: bool,
) -> Result<Option<usize>, Fail> {
    first_fault(rows, |row| goes(alloc, world, *row, dropping))
}

/// Leads a world of group 7 through the rows.
fn fault_in(
    alloc: Global,
    members: u32,
    rows: &[Row],
    dropping: bool,
) -> Result<Option<usize>, Fail> {
    let mut world = World::new(alloc, 7, members)?;
    fault(alloc, &mut world, rows, dropping)
}

/// Leads a world of group 7 with this count of members through the rows, and answers the first that goes otherwise than it has to.
pub fn fault_among(alloc: Global, members: u32, rows: &[Row]) -> Result<Option<usize>, Fail> {
    fault_in(alloc, members, rows, false)
}

/// The same, but after each event the member in question drops what is stable. What it keeps is then just what is retained, and
/// all else has to be as the row says.
pub fn fault_with_drops(alloc: Global, members: u32, rows: &[Row]) -> Result<Option<usize>, Fail> {
    fault_in(alloc, members, rows, true)
}

/// Whether a member lists these identifiers.
fn lists(alloc: Global, world: &World, member: u32, ids: &str) -> Result<bool, Fail> {
    let replica = replica(world, member)?;
    Ok(ids_json(alloc, replica)?.as_str() == ids)
}

/// Whether all of this many members list these identifiers.
fn agree(alloc: Global, world: &World, members: u32, ids: &str) -> Result<bool, Fail> {
    for member in 0..members {
        if !lists(alloc, world, member, ids)? {
            return Ok(false);
        }
    }
    Ok(true)
}

/// Whether the rows go as they have to in this world, and all of its members list these identifiers afterwards.
fn leads_to(
    alloc: Global,
    world: &mut World,
    members: u32,
    rows: &[Row],
    ids: &str,
) -> Result<bool, Fail> {
    match fault(alloc, world, rows, false)? {
        None => agree(alloc, world, members, ids),
        Some(_) => Ok(false),
    }
}

/// Whether the rows go as they have to, and all members list these identifiers afterwards.
pub fn all_list(alloc: Global, members: u32, rows: &[Row], ids: &str) -> Result<bool, Fail> {
    let mut world = World::new(alloc, 7, members)?;
    leads_to(alloc, &mut world, members, rows, ids)
}
