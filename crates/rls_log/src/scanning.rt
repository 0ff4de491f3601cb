//! Operations, tested where they stand: of their bytes nothing is made that takes memory, but of several runs, since it depends on their
//! identifiers whether they may follow one another.
//!
//! Each call takes a part from the front of the bytes, and answers what is asked of it with the bytes after it.
//! Why: CHOICES.md, 153.

ghost use Rattle.std.specs.Prelude.{◌≡◌, IfOk, IsTrue, length};
ghost use Rattle.std.specs.Str.{chars};
ghost use Rattle.rls_ident.specs.Identifiers.{is_last_bounded};
ghost use Rattle.rls_ident.specs.Tuples.{at_spot};
ghost use Rattle.rls_codec.specs.Gives.{Gives};
ghost use Rattle.rls_log.specs.Scanned.{skipped_at, ident_end_at, run_len_at, idents_len_at, body_found_at, count_at, fits_as, head_at};

use crate::head::{OpHead, OpKind};
use rls_codec::{ReadError, byte, epoch_name, inner, last, runs, text_slice, tuple_count, u32_at};
use rls_ident::{Ident, Spot};
use rls_ops::Shape;
use rls_runs::Run;
use std::alloc::Global;

// The bytes after this many tuples, each before another.
fn skip_tuples(count: u32, bytes: &[u8]) -> Result<&[u8], ReadError>
    ensures read { Gives (λ x. (0, x.now)) result (skipped_at count bytes.now) }
{
    let mut rest = bytes;
    for _ in 0..count {
        let (_tuple, after) = inner(rest)?;
        rest = after;
    }
    Ok(rest)
}

// The last tuple of an identifier.
#[tactic(auto, unfolding(crate::specs::Scanned::ident_end_at))]
fn ident_end(bytes: &[u8]) -> Result<(Spot, &[u8]), ReadError>
    ensures read { Gives (λ x. (at_spot x.0, x.1.now)) result (ident_end_at bytes.now) }
    ensures bounded { IfOk result (λ x. IsTrue (is_last_bounded (at_spot x.0))) }
{
    let (count, rest) = tuple_count(bytes)?;
    let rest = skip_tuples(count - 1, rest)?;
    last(rest)
}

// How many identifiers a run has. Its rule is that of a run whose first identifier is the last tuple alone, which takes no memory.
#[tactic(auto, unfolding(crate::specs::Scanned::run_len_at))]
fn run_len(alloc: Global, bytes: &[u8]) -> Result<(u32, &[u8]), ReadError>
    ensures read { Gives (λ x. (x.0, x.1.now)) result (run_len_at bytes.now) }
{
    let (last, rest) = ident_end(bytes)?;
    let (len, after) = u32_at(rest)?;
    match Run::new(Ident::ending(Vec::new(alloc), last), len) {
        Ok(_run) => Ok((len, after)),
        Err(_) => Err(ReadError::Fault { left: rest.len() }),
    }
}

// How many identifiers a list of runs has. A run that stands alone isn't made.
fn idents_len(alloc: Global, bytes: &[u8]) -> Result<(u64, &[u8]), ReadError>
    ensures read { Gives (λ x. (x.0, x.1.now)) result (idents_len_at bytes.now) }
{
    let (count, rest) = u32_at(bytes)?;
    if count == 1 {
        let (len, after) = run_len(alloc, rest)?;
        return Ok((len as u64, after));
    }
    let (runs, after) = runs(alloc, bytes)?;
    Ok((runs.total(), after))
}

// How many characters a text has.
#[tactic(auto, using(std::proofs::lemmas::Str::chars_from_encodes))]
fn char_count(text: &str) -> u64
    ensures count { result ≡ length (chars text.now) }
{
    text.chars().count() as u64
}

// What a body does, and whether its shape is right.
#[tactic(auto, unfolding(crate::specs::Scanned::body_found_at))]
fn scan_body(alloc: Global, bytes: &[u8]) -> Result<((OpKind, bool), &[u8]), ReadError>
    ensures read { Gives (λ x. (x.0, x.1.now)) result (body_found_at bytes.now) }
{
    let (kind, rest) = byte(bytes)?;
    match kind {
        0 => {
            let (last, rest) = ident_end(rest)?;
            let (text, rest) = text_slice(rest)?;
            let fits = Shape::check_insertion(last, char_count(text)).is_ok();
            Ok(((OpKind::Insert, fits), rest))
        }
        1 => {
            let (n, rest) = idents_len(alloc, rest)?;
            Ok(((OpKind::Delete, Shape::check_idents(n).is_ok()), rest))
        }
        2 => {
            let (n, rest) = idents_len(alloc, rest)?;
            Ok(((OpKind::Rename, Shape::check_idents(n).is_ok()), rest))
        }
        3 => Ok(((OpKind::Leave, true), rest)),
        _ => Err(ReadError::Fault { left: bytes.len() }),
    }
}

// A vector's count of one member, or 0 if it has none.
fn count_of(members: u32, author: u32, bytes: &[u8]) -> Result<(u32, &[u8]), ReadError>
    ensures read { Gives (λ x. (x.0, x.1.now)) result (count_at members author bytes.now) }
{
    let (mut found, mut rest) = (0, bytes);
    for member in 0..members {
        let (count, after) = u32_at(rest)?;
        if member == author {
            found = count;
        }
        rest = after;
    }
    Ok((found, rest))
}

// Whether the shape is right, by author, number, the context's count of the author, and the body.
fn fits_as(members: u32, author: u32, seq: u32, own: u32, body: bool) -> bool
    ensures fits { result ≡ fits_as members author seq own body }
{
    author < members && seq > 0 && own == seq - 1 && body
}

/// What is known without its body of an operation among this many members, however many bytes it has.
#[tactic(auto, unfolding(crate::specs::Scanned::head_at))]
pub(crate) fn scan_op(
    alloc: Global,
    members: u32,
    bytes: &[u8],
) -> Result<(OpHead, &[u8]), ReadError>
    ensures read { Gives (λ x. (x.0, x.1.now)) result (head_at members bytes.now) }
{
    let (author, rest) = u32_at(bytes)?;
    let (seq, rest) = u32_at(rest)?;
    let (own, rest) = count_of(members, author, rest)?;
    let (epoch, rest) = epoch_name(rest)?;
    let ((kind, fits), rest) = scan_body(alloc, rest)?;
    let head = OpHead {
        author,
        seq,
        epoch,
        members,
        kind,
        is_shaped: fits_as(members, author, seq, own, fits),
    };
    Ok((head, rest))
}
