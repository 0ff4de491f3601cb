//! Scenes of three members, who perform commands one after another, and take messages of each other.

use crate::members::{Member, Step};
use std::alloc::Global;
use std::test::Fail;
use test_steps::bytes::bytes;
use test_steps::rows::{all_go_within, first_fault};

/// What happens. Messages are written in hexadecimal digits.
#[derive(Clone, Copy)]
pub enum Scene {
    /// A member performs a step.
    Does(u32, Step<'static>),
    /// A member performs a command without an input, and writes this.
    Writes(u32, &'static str, &'static str),
    /// A member performs a script, and reports this.
    Edits(u32, &'static [u8], &'static str),
    /// A member refuses a script with this status and this line.
    Fails(u32, &'static [u8], u8, &'static str),
    /// A member has this text and this listing.
    Shows(u32, &'static str, &'static str),
    /// A member makes a message for another one, which takes it and reports this.
    Tells(u32, u32, &'static str),
    /// A member makes this message for another one.
    Sends(u32, u32, &'static str),
    /// A member takes a message with this status, this report and these errors.
    Takes(u32, &'static str, u8, &'static str, &'static str),
    /// A member takes a message that it took before, and keeps the file that it had.
    Repeats(u32, &'static str),
}

/// What three members without a file have to do first, and what they do then.
pub type Table = (&'static [Scene], &'static [Scene]);

/// The reports of a message with one operation, with none, with one that is refused, and with one that was accepted before.
pub const APPLIED: &str = "applied 1 released 0 repeated 0 held 0 refused 0\n";

pub const TOOK_NONE: &str = "applied 0 released 0 repeated 0 held 0 refused 0\n";

pub const REFUSED: &str = "applied 0 released 0 repeated 0 held 0 refused 1\n";

pub const REPEATED: &str = "applied 0 released 0 repeated 1 held 0 refused 0\n";

/// The members 0, 1 and 2.
#[derive(Drop)]
struct Group {
    first: Member,
    second: Member,
    third: Member,
}

/// Whether the member of this number performs a step as it has to; those above 2 are 2.
fn performs(alloc: Global, group: &mut Group, who: u32, step: &Step<'_>) -> Result<bool, Fail> {
    match who {
        0 => group.first.goes(alloc, step),
        1 => group.second.goes(alloc, step),
        _ => group.third.goes(alloc, step),
    }
}

/// The message that a member makes by this command.
fn message(alloc: Global, group: &mut Group, from: u32, words: &str) -> Result<Vec<u8>, Fail> {
    match from {
        0 => group.first.message(alloc, words),
        1 => group.second.message(alloc, words),
        _ => group.third.message(alloc, words),
    }
}

/// The file of a member.
fn file(group: &Group, who: u32) -> Option<&[u8]> {
    match who {
        0 => group.first.file.as_deref(),
        1 => group.second.file.as_deref(),
        _ => group.third.file.as_deref(),
    }
}

/// The command that makes a message for the member of this number; those above 2 are 2.
fn send_to(number: u32) -> &'static str {
    match number {
        0 => "send 0",
        1 => "send 1",
        _ => "send 2",
    }
}

/// Whether the member has this text and this listing.
fn shows(alloc: Global, group: &mut Group, who: u32, text: &str, ids: &str) -> Result<bool, Fail> {
    let shown = performs(alloc, group, who, &("text", b"", 0, text, ""))?;
    Ok(shown && performs(alloc, group, who, &("ids", b"", 0, ids, ""))?)
}

/// Whether the message that a member makes for another one is taken so.
fn tells(alloc: Global, group: &mut Group, from: u32, to: u32, report: &str) -> Result<bool, Fail> {
    let message = message(alloc, group, from, send_to(to))?;
    performs(alloc, group, to, &("take", &message, 0, report, ""))
}

/// Whether this is the message that a member makes for another one.
fn sends(alloc: Global, group: &mut Group, from: u32, to: u32, digits: &str) -> Result<bool, Fail> {
    let message = message(alloc, group, from, send_to(to))?;
    Ok(message == bytes(alloc, digits)?)
}

/// Whether a member takes a message with this status, this report and these errors.
fn takes(
    alloc: Global,
    group: &mut Group,
    who: u32,
    digits: &str,
    (status, report, errors): (u8, &str, &str),
) -> Result<bool, Fail> {
    let message = bytes(alloc, digits)?;
    performs(
        alloc,
        group,
        who,
        &("take", &message, status, report, errors),
    )
}

/// Whether a member takes a message that it took before, and keeps the file that it had.
fn repeats(alloc: Global, group: &mut Group, who: u32, digits: &str) -> Result<bool, Fail> {
    let before = Member::with_file(alloc, file(group, who))?;
    let is_repeated = takes(alloc, group, who, digits, (0, REPEATED, ""))?;
    Ok(is_repeated && file(group, who) == before.file.as_deref())
}

/// Whether the scene goes as it has to.
fn goes(alloc: Global, group: &mut Group, scene: &Scene) -> Result<bool, Fail> {
    match scene {
        Scene::Does(who, step) => performs(alloc, group, *who, step),
        Scene::Writes(who, words, output) => {
            performs(alloc, group, *who, &(words, b"", 0, output, ""))
        }
        Scene::Edits(who, script, report) => {
            performs(alloc, group, *who, &("edit", script, 0, report, ""))
        }
        Scene::Fails(who, script, status, line) => {
            performs(alloc, group, *who, &("edit", script, *status, "", line))
        }
        Scene::Shows(who, text, ids) => shows(alloc, group, *who, text, ids),
        Scene::Tells(from, to, report) => tells(alloc, group, *from, *to, report),
        Scene::Sends(from, to, digits) => sends(alloc, group, *from, *to, digits),
        Scene::Takes(who, digits, status, report, errors) => {
            takes(alloc, group, *who, digits, (*status, report, errors))
        }
        Scene::Repeats(who, digits) => repeats(alloc, group, *who, digits),
    }
}

/// The first scene that goes otherwise than it has to.
fn fault_among(alloc: Global, group: &mut Group, scenes: &[Scene]) -> Result<Option<usize>, Fail> {
    first_fault(scenes, |scene| goes(alloc, group, scene))
}

/// The first scene that goes otherwise than it has to at fresh members after this beginning, which has to go as it says.
pub fn fault_after(
    alloc: Global,
    beginning: &[Scene],
    scenes: &[Scene],
) -> Result<Option<usize>, Fail> {
    let mut group = Group {
        first: Member::new(),
        second: Member::new(),
        third: Member::new(),
    };
    match fault_among(alloc, &mut group, beginning)? {
        Some(_) => Err(Fail::new("beginning")),
        None => fault_among(alloc, &mut group, scenes),
    }
}

/// Plays the tables, and fails if a scene goes otherwise than it has to.
pub fn play(alloc: Global, tables: &[Table]) -> Result<(), Fail> {
    all_go_within(tables, |(beginning, scenes)| {
        fault_after(alloc, beginning, scenes)
    })
}
