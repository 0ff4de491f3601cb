//! Own edits, undos and redos in random order, against an editor that keeps a copy of each text.

use rls_replica::{Edit, Replica};
use rls_runs::Text;
use rls_steps::{Steps, Turn};
use std::alloc::{AllocError, Global};
use std::test::Fail;
use test_steps::steps::{letter, takes};

/// What is inserted.
const WORDS: [&str; 4] = ["a", "bc", "def", "ghij"];

/// Numbers in an order that looks random: the same first number gives the same ones.
#[derive(Drop)]
struct Dice {
    state: u64,
}

impl Dice {
    /// The next number that is below this one, or 0.
    fn below(&mut self, bound: usize) -> usize {
        self.state = self
            .state
            .wrapping_mul(6364136223846793005)
            .wrapping_add(1442695040888963407);
        if bound == 0 {
            return 0;
        }
        (self.state >> 33) as usize % bound
    }
}

/// The text with a range gone and new characters in its place.
fn spliced(
    alloc: Global,
    text: &[u8],
    at: usize,
    gone: usize,
    new: &[u8],
) -> Result<Vec<u8>, AllocError> {
    let mut after = Vec::new(alloc);
    for i in 0..text.len() {
        if i == at {
            after.extend_from_slice(new)?;
        }
        if i < at || i - at >= gone {
            after.push(text[i])?;
        }
    }
    if at >= text.len() {
        after.extend_from_slice(new)?;
    }
    Ok(after)
}

/// An editor that keeps each text whole: the text now, those before each group, and those that an undo left.
#[derive(Drop)]
struct Copies {
    now: Vec<u8>,
    before: Vec<Vec<u8>>,
    after: Vec<Vec<u8>>,
    open: bool,
}

impl Copies {
    fn new(alloc: Global) -> Copies {
        Copies {
            now: Vec::new(alloc),
            before: Vec::new(alloc),
            after: Vec::new(alloc),
            open: false,
        }
    }

    fn edit(&mut self, text: Vec<u8>) -> Result<(), AllocError> {
        let old = std::mem::replace(&mut self.now, text);
        if !self.open {
            self.before.push(old)?;
        }
        self.open = true;
        self.after.clear();
        Ok(())
    }

    /// Whether there was a group.
    fn undo(&mut self) -> Result<bool, AllocError> {
        let is_turned = turn(&mut self.now, &mut self.before, &mut self.after)?;
        self.open = self.open && !is_turned;
        Ok(is_turned)
    }

    /// The same the other way.
    fn redo(&mut self) -> Result<bool, AllocError> {
        let is_turned = turn(&mut self.now, &mut self.after, &mut self.before)?;
        self.open = self.open && !is_turned;
        Ok(is_turned)
    }
}

/// The last text of the one list is the text now, and the text now the last of the other, if the one has any.
fn turn(
    now: &mut Vec<u8>,
    from: &mut Vec<Vec<u8>>,
    to: &mut Vec<Vec<u8>>,
) -> Result<bool, AllocError> {
    let Some(text) = from.pop() else {
        return Ok(false);
    };
    to.push(std::mem::replace(now, text))?;
    Ok(true)
}

/// A member and its steps, a member that only renames, and the editor.
#[derive(Drop)]
struct Course {
    replica: Replica,
    steps: Steps,
    other: Replica,
    copies: Copies,
    dice: Dice,
}

fn course_of(alloc: Global, seed: u64) -> Result<Course, Fail> {
    Ok(Course {
        replica: Replica::new(alloc, 7, 0, 2)?,
        steps: Steps::new(alloc),
        other: Replica::new(alloc, 7, 1, 2)?,
        copies: Copies::new(alloc),
        dice: Dice { state: seed },
    })
}

/// A word is inserted somewhere.
fn insert(alloc: Global, course: &mut Course) -> Result<bool, Fail> {
    let at = course.dice.below(course.copies.now.len().saturating_add(1));
    let word = WORDS[course.dice.below(WORDS.len()) % WORDS.len()];
    let edit = Edit::Insert {
        at: at as u64,
        text: Text::from_str(alloc, word)?,
    };
    let text = spliced(alloc, &course.copies.now, at, 0, word.as_bytes())?;
    course.copies.edit(text)?;
    Ok(course.steps.edit(&mut course.replica, &edit).is_ok())
}

/// Some characters are deleted, if there are any.
fn delete(alloc: Global, course: &mut Course) -> Result<bool, Fail> {
    let len = course.copies.now.len();
    let at = course.dice.below(len);
    let count = course
        .dice
        .below(len.saturating_sub(at).min(5))
        .saturating_add(1);
    if at >= len {
        return Ok(true);
    }
    let edit = Edit::Delete {
        at: at as u64,
        count: count as u64,
    };
    let text = spliced(alloc, &course.copies.now, at, count, &[])?;
    course.copies.edit(text)?;
    Ok(course.steps.edit(&mut course.replica, &edit).is_ok())
}

/// The other member renames, if there is text, at the same time as this one, if it does.
fn rename(course: &mut Course) -> Result<bool, Fail> {
    let message = letter(&course.replica, &course.other)?;
    let first = takes(&mut course.other, message)?.is_ok();
    if course.dice.below(2) == 0 {
        let _own = course.replica.edit(&Edit::Rename);
    }
    let _renamed = course.other.edit(&Edit::Rename);
    let message = letter(&course.other, &course.replica)?;
    let second = takes(&mut course.replica, message)?.is_ok();
    Ok(first && second)
}

/// The next move, and whether it went as it had to.
fn moves(alloc: Global, course: &mut Course) -> Result<bool, Fail> {
    let mut changes = Vec::new(alloc);
    match course.dice.below(13) {
        0..=3 => insert(alloc, course),
        4..=5 => delete(alloc, course),
        6..=7 => {
            let went = course
                .steps
                .turn(&mut course.replica, Turn::Back, &mut changes)
                .is_ok();
            Ok(course.copies.undo()? == went)
        }
        8..=9 => {
            let went = course
                .steps
                .turn(&mut course.replica, Turn::Again, &mut changes)
                .is_ok();
            Ok(course.copies.redo()? == went)
        }
        10 => {
            course.steps.close();
            course.copies.open = false;
            Ok(true)
        }
        11 => rename(course),
        _ => Ok(
            course
                .steps
                .keep_within(&course.replica, 9999, 9999)
                .is_ok(),
        ),
    }
}

/// Whether the member has what the editor has.
fn is_same(course: &Course) -> Result<bool, Fail> {
    let text = course.replica.text()?.to_utf8()?;
    Ok(
        text.as_bytes() == course.copies.now.as_slice()
            && course.steps.undoable() == course.copies.before.len()
            && course.steps.redoable() == course.copies.after.len(),
    )
}

/// Whether the moves go as they have to, of which there are this number.
fn goes(alloc: Global, seed: u64, count: usize) -> Result<bool, Fail> {
    let mut course = course_of(alloc, seed)?;
    for _ in 0..count {
        if !moves(alloc, &mut course)? || !is_same(&course)? {
            return Ok(false);
        }
    }
    Ok(true)
}

#[test]
fn courses_are_copied(rt: HostRuntime) -> Result<(), Fail> {
    for seed in 0..40 {
        if !goes(rt.alloc(), seed, 150)? {
            return Err(Fail::new("a course"));
        }
    }
    Ok(())
}

/// Inserts this number of characters at the end, as no step.
fn append(alloc: Global, replica: &mut Replica, count: usize) -> Result<bool, Fail> {
    let mut text = Text::new(alloc);
    for _ in 0..count {
        text.push('a')?;
    }
    let at = replica.total();
    Ok(replica.edit(&Edit::Insert { at, text }).is_ok())
}

/// Deletes all but the first and the last character, of which there are more than one insertion may have.
fn deletes_at_once(course: &mut Course) -> bool {
    let edit = Edit::Delete {
        at: 1,
        count: 1048577,
    };
    course.steps.edit(&mut course.replica, &edit).is_ok() && course.replica.total() == 2
}

/// Whether two insertions bring them back.
fn comes_back(alloc: Global, course: &mut Course) -> bool {
    let mut changes = Vec::new(alloc);
    let back = course
        .steps
        .turn(&mut course.replica, Turn::Back, &mut changes);
    back == Ok(2) && course.replica.total() == 1048579
}

/// More characters than one insertion may have are deleted at once, and come back.
#[test]
fn long_deletions_come_back(rt: HostRuntime) -> Result<(), Fail> {
    let mut course = course_of(rt.alloc(), 0)?;
    let first = append(rt.alloc(), &mut course.replica, 1048576)?;
    let second = append(rt.alloc(), &mut course.replica, 3)?;
    let deleted = deletes_at_once(&mut course);
    match first && second && deleted && comes_back(rt.alloc(), &mut course) {
        true => Ok(()),
        false => Err(Fail::new("long")),
    }
}
