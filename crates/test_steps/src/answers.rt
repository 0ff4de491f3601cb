//! What a replica answers, as text.

use rls_model::{EditError, Receipt, Refusal, Release, Taken};
use rls_ops::{Body, Message, Op};
use rls_replica::{SendError, TakeError};
use std::alloc::{AllocError, Global};

/// The text of an insertion.
fn inserted(alloc: Global, op: &Op) -> Result<String, AllocError> {
    match &op.body {
        Body::Insert { text, .. } => text.to_utf8(),
        _ => String::from_str(alloc, "none"),
    }
}

/// An operation that waits: its author, its number and its text.
fn waiting(alloc: Global, op: &Op) -> Result<String, AllocError> {
    let (author, seq, text) = (op.author, op.seq, inserted(alloc, op)?);
    format!(in alloc; "forked {author} {seq} {text}")
}

/// Why an operation is refused, with what the refusal carries.
fn reason(alloc: Global, refusal: &Refusal) -> Result<String, AllocError> {
    match refusal {
        Refusal::Shape(shape) => format!(in alloc; "{shape:?}"),
        Refusal::Own { seq } => format!(in alloc; "own {seq}"),
        Refusal::Forked { held } => waiting(alloc, held),
        Refusal::Left { seq } => format!(in alloc; "left {seq}"),
        Refusal::Backward { known } => {
            let counts = known.counts();
            format!(in alloc; "backward {counts:?}")
        }
        Refusal::WrongEpoch { due } => format!(in alloc; "wrong epoch {due:?}"),
        Refusal::WrongStem { due } => format!(in alloc; "wrong stem {due:?}"),
        Refusal::UnknownTarget { id } => {
            let (len, last) = (id.len(), id.last());
            format!(in alloc; "unknown target {len} {last:?}")
        }
    }
}

/// What became of an operation that arrived.
pub fn received(alloc: Global, receipt: &Receipt) -> Result<String, AllocError> {
    match receipt {
        Receipt::Applied => String::from_str(alloc, "applied"),
        Receipt::Repeated => String::from_str(alloc, "repeated"),
        Receipt::Held => String::from_str(alloc, "held"),
        Receipt::Refused(refusal) => reason(alloc, refusal),
    }
}

/// What became of the first ready operation.
pub fn released(alloc: Global, release: &Option<Release>) -> Result<String, AllocError> {
    let Some(release) = release else {
        return String::from_str(alloc, "none");
    };
    let text = match &release.refusal {
        None => String::from_str(alloc, "applied")?,
        Some(refusal) => reason(alloc, refusal)?,
    };
    let (author, seq) = (release.author, release.seq);
    format!(in alloc; "{author} {seq} {text}")
}

/// The number of an edit's operation, or why there is none.
pub fn edited(alloc: Global, answer: Result<u32, EditError>) -> Result<String, AllocError> {
    match answer {
        Ok(seq) => format!(in alloc; "{seq}"),
        Err(error) => format!(in alloc; "{error:?}"),
    }
}

/// Whether the operation that an edit makes is this one, or why there is none.
pub fn made(
    alloc: Global,
    answer: &Result<Op, EditError>,
    expected: &Op,
) -> Result<String, AllocError> {
    match answer {
        Ok(op) if op.same(expected) => String::from_str(alloc, "same"),
        Ok(_) => String::from_str(alloc, "other"),
        Err(error) => format!(in alloc; "{error:?}"),
    }
}

/// How many operations were accepted as they arrived, released, accepted before, made to wait, and refused.
pub fn tally(alloc: Global, taken: &Taken) -> Result<String, AllocError> {
    let (applied, released, repeated) = (taken.applied, taken.released, taken.repeated);
    let (held, refused) = (taken.held, taken.refused.len());
    format!(in alloc; "{applied} {released} {repeated} {held} {refused}")
}

/// What came of taking a message.
pub fn taken(alloc: Global, answer: &Result<Taken, TakeError>) -> Result<String, AllocError> {
    match answer {
        Ok(taken) => tally(alloc, taken),
        Err(error) => format!(in alloc; "{error:?}"),
    }
}

/// A message: its group, the count of members, its sender, what this one has accepted, and the number of operations.
pub fn sent(alloc: Global, answer: &Result<Message, SendError>) -> Result<String, AllocError> {
    match answer {
        Ok(message) => {
            let (group, members, from) = (message.group, message.members, message.from);
            let (counts, len) = (message.vector.counts(), message.ops.len());
            format!(in alloc; "{group} {members} {from} {counts:?} {len}")
        }
        Err(error) => format!(in alloc; "{error:?}"),
    }
}
