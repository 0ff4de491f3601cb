//! A long course of two members who edit, undo, redo, rename and take each other's messages. Each has a copy of its text on which only
//! changes are played.

use rls_changes::{Change, push_own, take_bytes, undo};
use rls_replica::{Edit, Replica};
use rls_runs::Text;
use rls_steps::{StepError, Steps, Turn};
use rls_sync::message_bytes;
use rls_undo::{Undo, UndoError};
use std::alloc::{AllocError, Global};
use std::test::Fail;

/// Numbers that look random, from a first one.
#[derive(Drop)]
struct Dice {
    state: u64,
}

impl Dice {
    /// A number below this one, or 0.
    fn roll(&mut self, below: u64) -> u64 {
        self.state = (self.state % 65_537 * 75 + 74) % 65_537;
        self.state % below.max(1)
    }
}

/// A member, what it keeps to take back, and its copy.
#[derive(Drop)]
struct Side {
    replica: Replica,
    copy: Text,
    entries: Undo,
    steps: Steps,
}

fn fresh(alloc: Global, me: u32) -> Result<Side, Fail> {
    Ok(Side {
        replica: Replica::new(alloc, 7, me, 2)?,
        copy: Text::new(alloc),
        entries: Undo::new(alloc),
        steps: Steps::new(alloc),
    })
}

// ---- the copy

fn put_in(copy: &mut Text, at: usize, text: &Text) -> Result<(), Fail> {
    if at > copy.len() {
        return Err(Fail::new("place of an insertion"));
    }
    let rest = copy.split_off(at)?;
    copy.append(text)?;
    copy.append(&rest)?;
    Ok(())
}

fn cut_out(copy: &mut Text, at: usize, count: usize) -> Result<(), Fail> {
    if at > copy.len() || count > copy.len() - at {
        return Err(Fail::new("range of a deletion"));
    }
    let mut rest = copy.split_off(at)?;
    rest.drop_front(count);
    copy.append(&rest)?;
    Ok(())
}

fn play(copy: &mut Text, change: &Change) -> Result<(), Fail> {
    match change {
        Change::Insert { at, text } => put_in(copy, *at as usize, text),
        Change::Delete { at, count } => cut_out(copy, *at as usize, *count as usize),
    }
}

/// Whether both show the same text.
fn same(replica: &Replica, copy: &Text) -> Result<bool, AllocError> {
    let text = replica.text()?.to_utf8()?;
    Ok(copy.to_utf8()?.as_str() == text.as_str())
}

/// Whether the copy shows the text after these changes.
fn follows(side: &mut Side, changes: &[Change]) -> Result<bool, Fail> {
    for change in changes {
        play(&mut side.copy, change)?;
    }
    Ok(same(&side.replica, &side.copy)?)
}

// ---- what a member does

fn word(roll: u64) -> &'static str {
    match roll {
        0 => "a",
        1 => "xy",
        2 => "pqr",
        _ => "klmno",
    }
}

fn insertion(alloc: Global, dice: &mut Dice, total: u64) -> Result<Edit, AllocError> {
    let at = dice.roll(total.saturating_add(1));
    let text = Text::from_str(alloc, word(dice.roll(4)))?;
    Ok(Edit::Insert { at, text })
}

fn deletion(dice: &mut Dice, total: u64) -> Edit {
    let at = dice.roll(total);
    let count = dice.roll(total.saturating_sub(at).min(4)).saturating_add(1);
    Edit::Delete { at, count }
}

/// An own edit, as a step or with an entry.
fn edit(
    side: &mut Side,
    dice: &mut Dice,
    edit: &Edit,
    changes: &mut Vec<Change>,
) -> Result<(), Fail> {
    if dice.roll(2) == 0 {
        side.entries.edit(&mut side.replica, edit)?;
    } else {
        side.steps.edit(&mut side.replica, edit)?;
    }
    push_own(changes, edit)?;
    Ok(())
}

/// A deletion, where there is something to delete.
fn deletes(side: &mut Side, dice: &mut Dice, changes: &mut Vec<Change>) -> Result<(), Fail> {
    let total = side.replica.total();
    if total == 0 {
        return Ok(());
    }
    let made = deletion(dice, total);
    edit(side, dice, &made, changes)
}

fn undoes(side: &mut Side, changes: &mut Vec<Change>) -> Result<(), Fail> {
    match undo(&mut side.entries, &mut side.replica, changes) {
        Ok(_) | Err(UndoError::Nothing) => Ok(()),
        Err(error) => Err(Fail::from(error)),
    }
}

fn goes_back(side: &mut Side, changes: &mut Vec<Change>) -> Result<(), Fail> {
    match side.steps.turn(&mut side.replica, Turn::Back, changes) {
        Ok(_) | Err(StepError::Nothing) => Ok(()),
        Err(error) => Err(Fail::from(error)),
    }
}

fn goes_again(side: &mut Side, changes: &mut Vec<Change>) -> Result<(), Fail> {
    match side.steps.turn(&mut side.replica, Turn::Again, changes) {
        Ok(_) | Err(StepError::Nothing) => Ok(()),
        Err(error) => Err(Fail::from(error)),
    }
}

/// One of all this, or a rename, which an empty text refuses.
fn acts(
    alloc: Global,
    side: &mut Side,
    dice: &mut Dice,
    changes: &mut Vec<Change>,
) -> Result<(), Fail> {
    match dice.roll(12) {
        0 | 1 | 2 | 3 => {
            let made = insertion(alloc, dice, side.replica.total())?;
            edit(side, dice, &made, changes)
        }
        4 | 5 => deletes(side, dice, changes),
        6 => undoes(side, changes),
        7 => goes_back(side, changes),
        8 => goes_again(side, changes),
        9 => {
            let _renamed = side.replica.edit(&Edit::Rename).is_ok();
            Ok(())
        }
        _ => {
            side.steps.close();
            Ok(())
        }
    }
}

/// The message of the one is taken by the other.
fn takes(
    alloc: Global,
    from: &Replica,
    to: &mut Replica,
    changes: &mut Vec<Change>,
) -> Result<(), Fail> {
    let bytes = message_bytes(alloc, from, to.me())?;
    take_bytes(alloc, to, &bytes, changes)?;
    Ok(())
}

/// Whether the copy of who does something follows.
fn turn(alloc: Global, one: &mut Side, other: &Side, dice: &mut Dice) -> Result<bool, Fail> {
    let mut changes = Vec::new(alloc);
    if dice.roll(5) == 0 {
        takes(alloc, &other.replica, &mut one.replica, &mut changes)?;
    } else {
        acts(alloc, one, dice, &mut changes)?;
    }
    follows(one, &changes)
}

/// The first of so many turns after which a copy doesn't follow.
fn fault(
    alloc: Global,
    turns: usize,
    first: &mut Side,
    second: &mut Side,
    dice: &mut Dice,
) -> Result<Option<usize>, Fail> {
    for i in 0..turns {
        let followed = match dice.roll(2) {
            0 => turn(alloc, first, second, dice)?,
            _ => turn(alloc, second, first, dice)?,
        };
        if !followed {
            return Ok(Some(i));
        }
    }
    Ok(None)
}

/// The first of so many turns, from this number on, that goes otherwise than it has to.
fn course(alloc: Global, turns: usize, state: u64) -> Result<Option<usize>, Fail> {
    let mut first = fresh(alloc, 0)?;
    let mut second = fresh(alloc, 1)?;
    fault(alloc, turns, &mut first, &mut second, &mut Dice { state })
}

#[test]
fn copies_follow(rt: HostRuntime) -> Result<(), Fail> {
    let alloc = rt.alloc();
    for state in [1, 2, 3, 500, 60_000] {
        if let Some(turn) = course(alloc, 400, state)? {
            return Err(Fail::new(&format!(in alloc; "{state}: turn {turn}")?));
        }
    }
    Ok(())
}
