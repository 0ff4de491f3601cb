//! Operations, read.

ghost use Rattle.std.specs.Prelude.{◌≡◌, ◌≤◌, ◌<◌, ◌⊎◌, ℕ, length, None, IfOk};
ghost use Rattle.rls_ops.specs.declared.op.Op.{Op};
ghost use Rattle.rls_codec.specs.CodecLaws.{BeginsAt};
ghost use Rattle.rls_codec.specs.Reading.{body_at, op_fields_at, op_at, op_from, chain_at, counted_at};
ghost use Rattle.rls_codec.specs.Gives.{Gives, Decodes};

use crate::fault::{DecodeError, ReadError};
use crate::fields::{byte, epoch_name, text, u32_at, vector};
use crate::idents::{ident, runs};
use rls_ident::limits::OPERATION_BYTES;
use rls_ops::{Body, Op, Ops};
use std::alloc::Global;

/// A kind and a body.
#[tactic(auto, unfolding(crate::specs::Reading::body_at))]
fn body(alloc: Global, bytes: &[u8]) -> Result<(Body, &[u8]), ReadError>
    ensures read { Gives (λ x. (x.0, x.1.now)) result (body_at bytes.now) }
{
    let (kind, rest) = byte(bytes)?;
    match kind {
        0 => {
            let (first, rest) = ident(alloc, rest)?;
            let (text, rest) = text(alloc, rest)?;
            Ok((Body::Insert { first, text }, rest))
        }
        1 => {
            let (targets, rest) = runs(alloc, rest)?;
            Ok((Body::Delete { targets }, rest))
        }
        2 => {
            let (former, rest) = runs(alloc, rest)?;
            Ok((Body::Rename { former }, rest))
        }
        3 => Ok((Body::Leave, rest)),
        _ => Err(ReadError::Fault { left: bytes.len() }),
    }
}

/// An operation among this many members, however many bytes it has.
#[tactic(auto, unfolding(crate::specs::Reading::op_fields_at))]
pub fn op_fields(alloc: Global, members: u32, bytes: &[u8]) -> Result<(Op, &[u8]), ReadError>
    ensures read { Gives (λ x. (x.0, x.1.now)) result (op_fields_at members bytes.now) }
{
    let (author, rest) = u32_at(bytes)?;
    let (seq, rest) = u32_at(rest)?;
    let (context, rest) = vector(alloc, members, rest)?;
    let (epoch, rest) = epoch_name(rest)?;
    let (body, rest) = body(alloc, rest)?;
    let op = Op {
        author,
        seq,
        context,
        epoch,
        body,
    };
    Ok((op, rest))
}

/// An operation among this many members. As a whole it has at most 16,777,216 bytes.
#[tactic(auto, unfolding(crate::specs::Reading::op_at))]
pub fn op(alloc: Global, members: u32, bytes: &[u8]) -> Result<(Op, &[u8]), ReadError>
    ensures read { Gives (λ x. (x.0, x.1.now)) result (op_at members bytes.now) }
{
    let (op, rest) = op_fields(alloc, members, bytes)?;
    if rest.len() + (OPERATION_BYTES as usize) < bytes.len() {
        return Err(ReadError::Fault { left: bytes.len() });
    }
    Ok((op, rest))
}

fn op_list(alloc: Global, members: u32, count: u32, bytes: &[u8]) -> Result<(Ops, &[u8]), ReadError>
    ensures read { Gives (λ x. (x.0, x.1.now)) result (chain_at (λ before. op_at members) None count bytes.now) }
{
    let mut ops = Ops::new(alloc);
    let mut rest = bytes;
    for _ in 0..count {
        let (found, after) = op(alloc, members, rest)?;
        ops.push(found)?;
        rest = after;
    }
    Ok((ops, rest))
}

/// A number of operations, and the operations.
pub fn ops(alloc: Global, members: u32, bytes: &[u8]) -> Result<(Ops, &[u8]), ReadError>
    ensures read { Gives (λ x. (x.0, x.1.now)) result (counted_at (λ before. op_at members) bytes.now) }
{
    let (count, rest) = u32_at(bytes)?;
    op_list(alloc, members, count, rest)
}

#[tactic(auto, unfolding(crate::specs::Reading::op_from))]
fn placed_op(alloc: Global, bytes: &[u8], from: u64, members: u32) -> Result<(Op, u64), DecodeError>
    requires place { from ≤ length bytes.now }
    ensures decoded { Decodes result (op_from members bytes.now from) }
{
    let (_, rest) = bytes.split_at(from as usize);
    match op(alloc, members, rest) {
        Ok((op, after)) => Ok((op, (bytes.len() - after.len()) as u64)),
        Err(ReadError::Fault { left }) => Err(DecodeError::Malformed {
            at: (bytes.len() - left) as u64,
        }),
        Err(ReadError::OutOfMemory) => Err(DecodeError::OutOfMemory),
    }
}

/// The operation that begins at a place, and the place after it, where there are this many members. The cost is that of its bytes.
///
/// # Errors
///
/// `Malformed` with the place of the first fault exactly where no operation begins there, and `OutOfMemory` for running out of memory alone.
pub fn decode_op(
    alloc: Global,
    bytes: &[u8],
    from: u64,
    members: u32,
) -> Result<(Op, u64), DecodeError>
    requires place { from ≤ length bytes.now }
    ensures decoded { Decodes result (op_from members bytes.now from) }

    // It is Ok exactly where an operation begins, unless memory runs out.
    ensures op { IfOk result (λ x. BeginsAt members bytes.now from x.0 x.1) }
    ensures found { (o : Op) (next : ℕ) → BeginsAt members bytes.now from o next → (result ≡ Ok (o, next)) ⊎ (result ≡ Err DecodeError.OutOfMemory) }
{
    placed_op(alloc, bytes, from, members)
}
