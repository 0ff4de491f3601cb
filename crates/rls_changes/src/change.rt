//! Changes, and changes that go on with one another.

ghost use Rattle.std.specs.Prelude.{◌≡◌, ◌+◌, ◌<◌, ◌^◌, ◌++◌, OnOk, OnErr};
ghost use Rattle.rls_changes.specs.declared.change.Change.TheVariants.{Insert, Delete};
ghost use Rattle.rls_changes.specs.Changes.{deleted_by, joined, with_change};

use rls_runs::Text;
use std::alloc::AllocError;

/// What changes in a text. Places count the characters of the text as it is when the change is played.
#[derive(Drop)]
pub enum Change {
    /// These characters go in at this place.
    Insert { at: u64, text: Text },
    /// So many characters go out from this place on.
    Delete { at: u64, count: u64 },
}

/// One insertion more after the others, as one with the last change if it goes on with that.
pub(crate) fn push_insertion(
    changes: &mut Vec<Change>,
    at: u64,
    text: Text,
) -> Result<(), AllocError>
    ensures ok { OnOk result (changes.new.items ≡ with_change changes.old.items (Insert at text)) }
{
    let Some(last) = changes.pop() else {
        changes.push(Change::Insert { at, text })?;
        return Ok(());
    };
    match last {
        Change::Insert {
            at: first,
            text: before,
        } => {
            push_both(changes, first, before, at, text)?;
            Ok(())
        }
        Change::Delete { at: first, count } => {
            changes.push(Change::Delete { at: first, count })?;
            changes.push(Change::Insert { at, text })?;
            Ok(())
        }
    }
}

// Two insertions, as one if the second goes on with the first.
fn push_both(
    changes: &mut Vec<Change>,
    first: u64,
    before: Text,
    at: u64,
    text: Text,
) -> Result<(), AllocError>
    ensures ok { OnOk result (changes.new.items ≡ changes.old.items ++ joined (Insert first before) (Insert at text)) }
{
    let mut before = before;
    if at >= first && at - first == before.len() as u64 {
        before.append(&text)?;
        changes.push(Change::Insert {
            at: first,
            text: before,
        })?;
        return Ok(());
    }
    changes.push(Change::Insert {
        at: first,
        text: before,
    })?;
    changes.push(Change::Insert { at, text })?;
    Ok(())
}

/// One deletion more after the others, as one with the last change if it goes on with that.
pub(crate) fn push_deletion(
    changes: &mut Vec<Change>,
    at: u64,
    count: u64,
) -> Result<(), AllocError>
    requires room { deleted_by changes.old.items + count < 2 ^ 64 }
    ensures ok { OnOk result (changes.new.items ≡ with_change changes.old.items (Delete at count)) }
{
    let Some(last) = changes.pop() else {
        changes.push(Change::Delete { at, count })?;
        return Ok(());
    };
    match last {
        Change::Insert { at: first, text } => {
            changes.push(Change::Insert { at: first, text })?;
            changes.push(Change::Delete { at, count })?;
            Ok(())
        }
        Change::Delete {
            at: first,
            count: before,
        } => {
            if first == at {
                changes.push(Change::Delete {
                    at,
                    count: before + count,
                })?;
                return Ok(());
            }
            changes.push(Change::Delete {
                at: first,
                count: before,
            })?;
            changes.push(Change::Delete { at, count })?;
            Ok(())
        }
    }
}

/// Moves these after the others. After an error nothing has changed.
pub(crate) fn push_all(changes: &mut Vec<Change>, fresh: Vec<Change>) -> Result<(), AllocError>
    ensures ok { OnOk result (changes.new.items ≡ changes.old.items ++ fresh.items) }
    ensures err { OnErr result (changes.new.items ≡ changes.old.items) }
{
    let mut fresh = fresh;
    changes.append(&mut fresh)?;
    Ok(())
}
