//! What a session answers, in words.

ghost use Rattle.std.specs.Prelude.{◌≡◌, length, None, IfOk};
ghost use Rattle.rls_report.specs.Reports.{take_text};
ghost use Rattle.rls_session.specs.Replies.{ok_text, undone_text, back_text, again_text, groups_text, nothing_text, cursor_text, anchor_text, located_text, no_cursor_text, noted_text, telling_text, bytes_text, refused_text, failed_text, bad_text, version_text};

use rls_anchor::Anchor;
use rls_model::Taken;
use rls_places::place_word;
use rls_report::{CommandError, Failure, LineFault, failure_line, fault_text, taken_report};
use std::alloc::{AllocError, Global};

/// The edit with this number was accepted.
pub(crate) fn ok(alloc: Global, seq: u32) -> Result<Vec<u8>, AllocError>
    ensures text { IfOk result (λ text. text.items ≡ ok_text seq) }
{
    Ok(format!(in alloc; "ok {seq}\n")?.into_bytes())
}

/// How many edits took one back, and how many characters they inserted or deleted.
pub(crate) fn undone(alloc: Global, edits: u32, chars: u64) -> Result<Vec<u8>, AllocError>
    ensures text { IfOk result (λ text. text.items ≡ undone_text edits chars) }
{
    Ok(format!(in alloc; "undone {edits} {chars}\n")?.into_bytes())
}

/// How many steps were taken back.
pub(crate) fn back(alloc: Global, steps: usize) -> Result<Vec<u8>, AllocError>
    ensures text { IfOk result (λ text. text.items ≡ back_text steps) }
{
    Ok(format!(in alloc; "back {steps}\n")?.into_bytes())
}

/// How many steps were done again.
pub(crate) fn again(alloc: Global, steps: usize) -> Result<Vec<u8>, AllocError>
    ensures text { IfOk result (λ text. text.items ≡ again_text steps) }
{
    Ok(format!(in alloc; "again {steps}\n")?.into_bytes())
}

/// How many groups can be taken back, and how many can be done again.
pub(crate) fn groups(alloc: Global, back: usize, again: usize) -> Result<Vec<u8>, AllocError>
    ensures text { IfOk result (λ text. text.items ≡ groups_text back again) }
{
    Ok(format!(in alloc; "groups {back} {again}\n")?.into_bytes())
}

/// There is nothing to undo.
pub(crate) fn nothing(alloc: Global) -> Result<Vec<u8>, AllocError>
    ensures text { IfOk result (λ text. text.items ≡ nothing_text) }
{
    Vec::from_slice(alloc, b"no nothing\n")
}

/// The cursor is at this place.
pub(crate) fn cursor(alloc: Global, at: u64) -> Result<Vec<u8>, AllocError>
    ensures text { IfOk result (λ text. text.items ≡ cursor_text at) }
{
    Ok(format!(in alloc; "cursor {at}\n")?.into_bytes())
}

/// No cursor was put with this number.
pub(crate) fn no_cursor(alloc: Global, number: u8) -> Result<Vec<u8>, AllocError>
    ensures text { IfOk result (λ text. text.items ≡ no_cursor_text number) }
{
    Ok(format!(in alloc; "no cursor {number}\n")?.into_bytes())
}

/// A place as a word.
pub(crate) fn anchor(alloc: Global, place: &Anchor) -> Result<Vec<u8>, AllocError>
    ensures text { IfOk result (λ text. text.items ≡ anchor_text place.now) }
{
    let word = place_word(alloc, place)?;
    Ok(format!(in alloc; "anchor {word}\n")?.into_bytes())
}

/// The place's epoch isn't one that must stay.
pub(crate) fn no_epoch(alloc: Global) -> Result<Vec<u8>, AllocError>
    ensures text { IfOk result (λ text. text.items ≡ located_text None) }
{
    Vec::from_slice(alloc, b"no epoch\n")
}

/// Whether changes are told from now on.
pub(crate) fn telling(alloc: Global, on: bool) -> Result<Vec<u8>, AllocError>
    ensures text { IfOk result (λ text. text.items ≡ telling_text on) }
{
    if on {
        Vec::from_slice(alloc, b"telling 1\n")
    } else {
        Vec::from_slice(alloc, b"telling 0\n")
    }
}

/// These bytes, after a line with this word and their number.
pub(crate) fn counted(alloc: Global, word: &str, bytes: &[u8]) -> Result<Vec<u8>, AllocError>
    ensures text { IfOk result (λ text. text.items ≡ bytes_text word.now bytes.now) }
{
    let len = bytes.len();
    let mut reply = format!(in alloc; "{word} {len}\n")?.into_bytes();
    reply.extend_from_slice(bytes)?;
    reply.push(b'\n')?;
    Ok(reply)
}

/// An edit was refused.
pub(crate) fn refused(alloc: Global, fault: LineFault) -> Result<Vec<u8>, AllocError>
    ensures text { IfOk result (λ text. text.items ≡ refused_text fault) }
{
    let fault = fault_text(alloc, fault)?;
    Ok(format!(in alloc; "no {fault}\n")?.into_bytes())
}

/// Something else was refused.
pub(crate) fn failed(alloc: Global, error: CommandError) -> Result<Vec<u8>, AllocError>
    ensures text { IfOk result (λ text. text.items ≡ failed_text error) }
{
    let line = failure_line(alloc, Failure::Command { error })?;
    Ok(format!(in alloc; "no {line}")?.into_bytes())
}

/// A message was taken, and this was counted.
pub(crate) fn taken(alloc: Global, found: &Taken) -> Result<Vec<u8>, AllocError>
    ensures text { IfOk result (λ text. text.items ≡ take_text found.now.applied found.now.released found.now.repeated found.now.held (length found.now.refused)) }
{
    Ok(taken_report(alloc, found)?.into_bytes())
}

/// A version of the protocol.
pub(crate) fn version(alloc: Global, number: u32) -> Result<Vec<u8>, AllocError>
    ensures text { IfOk result (λ text. text.items ≡ version_text number) }
{
    Ok(format!(in alloc; "version {number}\n")?.into_bytes())
}

/// The change was accepted.
pub(crate) fn noted(alloc: Global) -> Result<Vec<u8>, AllocError>
    ensures text { IfOk result (λ text. text.items ≡ noted_text) }
{
    Vec::from_slice(alloc, b"ok\n")
}

/// The line is nothing that a session knows.
pub(crate) fn bad(alloc: Global) -> Result<Vec<u8>, AllocError>
    ensures text { IfOk result (λ text. text.items ≡ bad_text) }
{
    Vec::from_slice(alloc, b"bad\n")
}
