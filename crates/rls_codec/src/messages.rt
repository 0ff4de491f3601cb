//! Messages, read.

ghost use Rattle.std.specs.Prelude.{◌≡◌, ◌⊎◌, IfOk, nat_lt};
ghost use Rattle.std.specs.Int.{w32};
ghost use Rattle.rls_ops.specs.declared.message.Message.{Message};
ghost use Rattle.rls_codec.specs.Reading.{magic_at, with_rule, byte_at, is_message_form, is_member_count, number_at, message_at, message_of};
ghost use Rattle.rls_codec.specs.Gives.{Gives, Decodes};
ghost use Rattle.rls_codec.specs.CodecLaws.{IsMessage};

use crate::fault::{DecodeError, ReadError};
use crate::fields::{byte, u32_at, u64_at, vector};
use crate::reading::ops;
use rls_ident::limits::MEMBERS;
use rls_ops::Message;
use std::alloc::Global;

/// These bytes.
pub fn magic<'a>(text: &[u8], bytes: &'a [u8]) -> Result<&'a [u8], ReadError>
    ensures read { Gives (λ x. (text.now, x.now)) result (magic_at text.now bytes.now) }
{
    if bytes.len() < text.len() {
        return Err(ReadError::Fault { left: bytes.len() });
    }
    let (front, rest) = bytes.split_at(text.len());
    if front != text {
        return Err(ReadError::Fault { left: bytes.len() });
    }
    Ok(rest)
}

fn form(bytes: &[u8]) -> Result<(u8, &[u8]), ReadError>
    ensures read { Gives (λ x. (x.0, x.1.now)) result (with_rule is_message_form byte_at bytes.now) }
{
    let (form, rest) = byte(bytes)?;
    if form < 1 || form > 3 {
        return Err(ReadError::Fault { left: bytes.len() });
    }
    Ok((form, rest))
}

/// A number of members, from 1 to 64.
pub fn member_count(bytes: &[u8]) -> Result<(u32, &[u8]), ReadError>
    ensures read { Gives (λ x. (x.0, x.1.now)) result (with_rule is_member_count (number_at w32) bytes.now) }
{
    let (members, rest) = u32_at(bytes)?;
    if members < 1 || members > MEMBERS {
        return Err(ReadError::Fault { left: bytes.len() });
    }
    Ok((members, rest))
}

/// A member's number, below the number of members.
pub fn member(members: u32, bytes: &[u8]) -> Result<(u32, &[u8]), ReadError>
    ensures read { Gives (λ x. (x.0, x.1.now)) result (with_rule (λ n. nat_lt n members) (number_at w32) bytes.now) }
{
    let (member, rest) = u32_at(bytes)?;
    if member >= members {
        return Err(ReadError::Fault { left: bytes.len() });
    }
    Ok((member, rest))
}

#[tactic(auto, unfolding(crate::specs::Reading::message_at, crate::specs::Reading::message_and_form_at))]
fn message(alloc: Global, bytes: &[u8]) -> Result<(Message, &[u8]), ReadError>
    ensures read { Gives (λ x. (x.0, x.1.now)) result (message_at bytes.now) }
{
    let rest = magic(b"RLSM", bytes)?;
    let (_, rest) = form(rest)?;
    let (group, rest) = u64_at(rest)?;
    let (members, rest) = member_count(rest)?;
    let (from, rest) = member(members, rest)?;
    let (vector, rest) = vector(alloc, members, rest)?;
    let (ops, rest) = ops(alloc, members, rest)?;
    let message = Message {
        group,
        members,
        from,
        vector,
        ops,
    };
    Ok((message, rest))
}

#[tactic(auto, unfolding(crate::specs::Reading::message_of))]
fn whole_message(alloc: Global, bytes: &[u8]) -> Result<Message, DecodeError>
    ensures decoded { Decodes result (message_of bytes.now) }
{
    match message(alloc, bytes) {
        Ok((message, rest)) => match rest {
            [] => Ok(message),
            [_, ..] => Err(DecodeError::Malformed {
                at: (bytes.len() - rest.len()) as u64,
            }),
        },
        Err(ReadError::Fault { left }) => Err(DecodeError::Malformed {
            at: (bytes.len() - left) as u64,
        }),
        Err(ReadError::OutOfMemory) => Err(DecodeError::OutOfMemory),
    }
}

/// The message that the bytes are, in the newest form or an older one. The cost is that of the bytes.
///
/// # Errors
///
/// `Malformed` with the place of the first fault exactly where the bytes are no message, and `OutOfMemory` for running out of memory alone.
pub fn decode_message(alloc: Global, bytes: &[u8]) -> Result<Message, DecodeError>
    ensures decoded { Decodes result (message_of bytes.now) }

    // It is Ok exactly where the bytes are a message, unless memory runs out.
    ensures message { IfOk result (IsMessage bytes.now) }
    ensures found { (m : Message) → IsMessage bytes.now m → (result ≡ Ok m) ⊎ (result ≡ Err DecodeError.OutOfMemory) }
{
    whole_message(alloc, bytes)
}
