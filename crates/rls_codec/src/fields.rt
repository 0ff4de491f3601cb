//! Single fields, and parts made of them.
//!
//! A reader takes its part from the front of the bytes, and answers it with the bytes after it. If a field is cut
//! off or breaks its rule, the fault tells how many bytes were left at that field's first byte.

ghost use Rattle.std.specs.Prelude.{◌≡◌, IfOk};
ghost use Rattle.std.specs.Str.{chars};
ghost use Rattle.std.specs.Int.{w32, w64};
ghost use Rattle.rls_codec.specs.Reading.{byte_at, number_at, signed_at, name_at, many_at, vector_at, text_at};
ghost use Rattle.rls_codec.specs.Gives.{Gives};

use crate::fault::ReadError;
use rls_ident::{EpochName, Vector};
use rls_runs::Text;
use std::alloc::{AllocError, Global};

/// One byte.
pub fn byte(bytes: &[u8]) -> Result<(u8, &[u8]), ReadError>
    ensures read { Gives (λ x. (x.0, x.1.now)) result (byte_at bytes.now) }
{
    match bytes {
        [byte, rest @ ..] => Ok((*byte, rest)),
        [] => Err(ReadError::Fault { left: 0 }),
    }
}

/// A number of four bytes, the highest first.
pub fn u32_at(bytes: &[u8]) -> Result<(u32, &[u8]), ReadError>
    ensures read { Gives (λ x. (x.0, x.1.now)) result (number_at w32 bytes.now) }
{
    if bytes.len() < 4 {
        return Err(ReadError::Fault { left: bytes.len() });
    }
    let (front, rest) = bytes.split_at(4);
    let number = u32::from_be_bytes([front[0], front[1], front[2], front[3]]);
    Ok((number, rest))
}

/// A number of eight bytes, the highest first.
pub fn u64_at(bytes: &[u8]) -> Result<(u64, &[u8]), ReadError>
    ensures read { Gives (λ x. (x.0, x.1.now)) result (number_at w64 bytes.now) }
{
    if bytes.len() < 8 {
        return Err(ReadError::Fault { left: bytes.len() });
    }
    let (front, rest) = bytes.split_at(8);
    let number = u64::from_be_bytes([
        front[0], front[1], front[2], front[3], front[4], front[5], front[6], front[7],
    ]);
    Ok((number, rest))
}

/// A signed number of four bytes in two's complement, the highest first.
pub fn i32_at(bytes: &[u8]) -> Result<(i32, &[u8]), ReadError>
    ensures read { Gives (λ x. (x.0, x.1.now)) result (signed_at bytes.now) }
{
    if bytes.len() < 4 {
        return Err(ReadError::Fault { left: bytes.len() });
    }
    let (front, rest) = bytes.split_at(4);
    let number = i32::from_be_bytes([front[0], front[1], front[2], front[3]]);
    Ok((number, rest))
}

/// The name of an epoch: a kind, 0 for the origin, or 1 and then two numbers.
#[tactic(auto, unfolding(crate::specs::Reading::name_at))]
pub fn epoch_name(bytes: &[u8]) -> Result<(EpochName, &[u8]), ReadError>
    ensures read { Gives (λ x. (x.0, x.1.now)) result (name_at bytes.now) }
{
    let (kind, rest) = byte(bytes)?;
    match kind {
        0 => Ok((EpochName::Origin, rest)),
        1 => {
            let (replica, rest) = u32_at(rest)?;
            let (seq, rest) = u32_at(rest)?;
            Ok((EpochName::Of { replica, seq }, rest))
        }
        _ => Err(ReadError::Fault { left: bytes.len() }),
    }
}

/// A number for each of this many members.
pub fn vector(alloc: Global, members: u32, bytes: &[u8]) -> Result<(Vector, &[u8]), ReadError>
    ensures read { Gives (λ x. (x.0, x.1.now)) result (vector_at members bytes.now) }
{
    let mut counts = Vector::new(alloc);
    let mut rest = bytes;
    for _ in 0..members {
        let (count, after) = u32_at(rest)?;
        counts.push(count)?;
        rest = after;
    }
    Ok((counts, rest))
}

#[tactic(auto, using(rls_runs::proofs::Texts::chars_are))]
fn text_of(alloc: Global, text: &str) -> Result<Text, AllocError>
    ensures chars { IfOk result (λ found. chars text.now ≡ found) }
{
    Text::from_str(alloc, text)
}

/// A text in UTF-8 after its number of bytes, where it stands. Bytes that aren't UTF-8 are a fault of the bytes, not of their number.
#[tactic(auto, using(rls_runs::proofs::Texts::utf8_from_text, rls_runs::proofs::Texts::no_utf8), unfolding(crate::specs::Reading::text_at))]
pub fn text_slice(bytes: &[u8]) -> Result<(&str, &[u8]), ReadError>
    ensures read { Gives (λ x. (chars x.0.now, x.1.now)) result (text_at bytes.now) }
{
    let (len, rest) = u32_at(bytes)?;
    let len = len as usize;
    if rest.len() < len {
        return Err(ReadError::Fault { left: rest.len() });
    }
    let (front, after) = rest.split_at(len);
    match str::from_utf8(front) {
        Ok(text) => Ok((text, after)),
        Err(_) => Err(ReadError::Fault { left: rest.len() }),
    }
}

/// A text in UTF-8 after its number of bytes, copied from where `text_slice` finds it.
pub fn text(alloc: Global, bytes: &[u8]) -> Result<(Text, &[u8]), ReadError>
    ensures read { Gives (λ x. (x.0, x.1.now)) result (text_at bytes.now) }
{
    let (found, after) = text_slice(bytes)?;
    let text = text_of(alloc, found)?;
    Ok((text, after))
}
