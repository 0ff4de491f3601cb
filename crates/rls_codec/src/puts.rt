//! Fields, and parts made of them, put after bytes.
//!
//! Each call appends the bytes of its part. If memory runs out, the bytes that stood there before still stand in
//! front, and some of the part's own may follow them.
//! Why: CHOICES.md, 204, 213, 225.

ghost use Rattle.std.specs.Prelude.{◌≡◌, ◌<◌, ◌≤◌, ◌+◌, ◌^◌, ◌++◌, [], ◌∷◌, length, take, drop, All, IsTrue, OnOk, encode_utf8, encode_utf8_all};
ghost use Rattle.std.specs.List.{flat_map};
ghost use Rattle.std.specs.Char.{IsScalar};
ghost use Rattle.rls_ident.specs.declared.tuple.Tuple.TheVariants.{At};
ghost use Rattle.rls_runs.specs.Runs.{runs_of, AreIdents};
ghost use Rattle.rls_ops.specs.Spelling.{four_bytes, eight_bytes, signed_bytes, tuple_bytes, ident_bytes, run_bytes, runs_bytes, vector_bytes, name_bytes, text_bytes};
ghost use Rattle.rls_ops.specs.WellFormed.{IsSmall};
ghost use Rattle.rls_codec.specs.Gives.{IsFrontOf};
ghost use Rattle.rls_codec.specs.Spelled.{IsSmallTuple, FitsIdent, FitsName, FitsText, FitsRun, FitRuns};

use crate::lists::{Part, put_list};
use rls_ident::{EpochName, Ident, Tuple, Vector};
use rls_runs::{Run, Runs, Text};
use std::alloc::AllocError;

/// One byte.
pub fn put_byte(out: &mut Vec<u8>, byte: u8) -> Result<(), AllocError>
    ensures ok { OnOk result (out.new.items ≡ out.old.items ++ byte ∷ []) }
    ensures keeps { IsFrontOf out.old.items out.new.items }
{
    out.push(byte)?;
    Ok(())
}

/// A number in four bytes, the highest first.
pub fn put_u32(out: &mut Vec<u8>, n: u32) -> Result<(), AllocError>
    ensures ok { OnOk result (out.new.items ≡ out.old.items ++ four_bytes n) }
    ensures keeps { IsFrontOf out.old.items out.new.items }
{
    out.extend_from_slice(&n.to_be_bytes())
}

// The bytes of two numbers, each in four, the highest first.
fn pair_bytes(one: u32, other: u32) -> [u8; 8]
    ensures bytes { result ≡ four_bytes one ++ four_bytes other }
{
    let mut bytes = [0; 8];
    bytes[0..4].copy_from_slice(&one.to_be_bytes());
    bytes[4..8].copy_from_slice(&other.to_be_bytes());
    bytes
}

/// Two numbers, each in four bytes, the highest first. It costs less than one after the other.
pub(crate) fn put_pair(out: &mut Vec<u8>, one: u32, other: u32) -> Result<(), AllocError>
    ensures ok { OnOk result (out.new.items ≡ out.old.items ++ (four_bytes one ++ four_bytes other)) }
    ensures keeps { IsFrontOf out.old.items out.new.items }
{
    out.extend_from_slice(&pair_bytes(one, other))
}

/// A number in eight bytes, the highest first.
pub fn put_u64(out: &mut Vec<u8>, n: u64) -> Result<(), AllocError>
    ensures ok { OnOk result (out.new.items ≡ out.old.items ++ eight_bytes n) }
    ensures keeps { IsFrontOf out.old.items out.new.items }
{
    out.extend_from_slice(&n.to_be_bytes())
}

/// A signed number in four bytes of two's complement, the highest first.
pub fn put_i32(out: &mut Vec<u8>, z: i32) -> Result<(), AllocError>
    ensures ok { OnOk result (out.new.items ≡ out.old.items ++ signed_bytes z) }
    ensures keeps { IsFrontOf out.old.items out.new.items }
{
    out.extend_from_slice(&z.to_be_bytes())
}

// The bytes of an `At`. Each number is copied in whole, so that the machine stores it at once.
fn spot_bytes(pos: u32, replica: u32, seq: u32, offset: i32) -> [u8; 17]
    ensures bytes { result ≡ tuple_bytes (At pos replica seq offset) }
{
    let mut bytes = [1; 17];
    bytes[1..5].copy_from_slice(&pos.to_be_bytes());
    bytes[5..9].copy_from_slice(&replica.to_be_bytes());
    bytes[9..13].copy_from_slice(&seq.to_be_bytes());
    bytes[13..17].copy_from_slice(&offset.to_be_bytes());
    bytes
}

fn put_spot(
    out: &mut Vec<u8>,
    pos: u32,
    replica: u32,
    seq: u32,
    offset: i32,
) -> Result<(), AllocError>
    ensures ok { OnOk result (out.new.items ≡ out.old.items ++ tuple_bytes (At pos replica seq offset)) }
    ensures keeps { IsFrontOf out.old.items out.new.items }
{
    out.extend_from_slice(&spot_bytes(pos, replica, seq, offset))?;
    Ok(())
}

#[inline(always)]
fn put_tuple(out: &mut Vec<u8>, tuple: &Tuple) -> Result<(), AllocError>
    ensures ok { OnOk result (out.new.items ≡ out.old.items ++ tuple_bytes tuple.now) }
    ensures keeps { IsFrontOf out.old.items out.new.items }
    ensures small { IsSmallTuple tuple.now }
{
    match tuple {
        Tuple::Low => put_byte(out, 0),
        Tuple::At {
            pos,
            replica,
            seq,
            offset,
        } => put_spot(out, *pos, *replica, *seq, *offset),
        Tuple::High => put_byte(out, 2),
    }
}

impl Part for Tuple {
    ghost bytes = { tuple_bytes };

    ghost IsShort = { λ t. Unit {0} };

    ghost Fits = { IsSmallTuple };

    fn put(&self, out: &mut Vec<u8>) -> Result<(), AllocError> {
        put_tuple(out, self)
    }
}

/// An identifier.
#[tactic(auto, using(crate::proofs::Appending::ident_parts, crate::proofs::Fits::ident_fits))]
pub fn put_ident(out: &mut Vec<u8>, ident: &Ident) -> Result<(), AllocError>
    requires { length ident.now < 2 ^ 32 }
    ensures ok { OnOk result (out.new.items ≡ out.old.items ++ ident_bytes ident.now) }
    ensures keeps { IsFrontOf out.old.items out.new.items }
    ensures fits { OnOk result (FitsIdent ident.now) }
{
    let front = ident.front();
    put_u32(out, front.len() as u32 + 1)?;
    put_list(out, front)?;
    put_tuple(out, &ident.last().as_tuple())
}

impl Part for u32 {
    ghost bytes = { four_bytes };

    ghost IsShort = { λ n. Unit {0} };

    ghost Fits = { IsSmall };

    fn put(&self, out: &mut Vec<u8>) -> Result<(), AllocError> {
        put_u32(out, *self)
    }
}

/// A vector.
pub fn put_vector(out: &mut Vec<u8>, vector: &Vector) -> Result<(), AllocError>
    ensures ok { OnOk result (out.new.items ≡ out.old.items ++ vector_bytes vector.now) }
    ensures keeps { IsFrontOf out.old.items out.new.items }
    ensures small { All IsSmall vector.now }
{
    put_list(out, vector.counts())
}

/// The name of an epoch.
pub fn put_name(out: &mut Vec<u8>, name: EpochName) -> Result<(), AllocError>
    ensures ok { OnOk result (out.new.items ≡ out.old.items ++ name_bytes name) }
    ensures keeps { IsFrontOf out.old.items out.new.items }
    ensures fits { FitsName name }
{
    match name {
        EpochName::Origin => put_byte(out, 0),
        EpochName::Of { replica, seq } => {
            put_byte(out, 1)?;
            put_pair(out, replica, seq)
        }
    }
}

fn put_char(out: &mut Vec<u8>, c: char) -> Result<(), AllocError>
    ensures ok { OnOk result (out.new.items ≡ out.old.items ++ encode_utf8 c) }
    ensures keeps { IsFrontOf out.old.items out.new.items }
{
    if c.is_ascii() {
        return put_byte(out, c as u8);
    }
    let mut buffer = [0; 4];
    out.extend_from_slice(c.encode_utf8(&mut buffer).as_bytes())
}

// Puts characters one after another.
#[tactic(auto, using(rls_runs::proofs::Texts::encodes_more))]
fn put_each(out: &mut Vec<u8>, chars: &[char]) -> Result<(), AllocError>
    ensures ok { OnOk result (out.new.items ≡ out.old.items ++ encode_utf8_all chars.now) }
    ensures keeps { IsFrontOf out.old.items out.new.items }
{
    for c in chars {
        put_char(out, *c)?;
    }
    Ok(())
}

// Whether all are ASCII. All are looked at, so that the machine can compare many at once.
fn are_ascii(chars: &[char]) -> bool
    ensures ascii { IsTrue result → All (λ c. c < 128) chars.now }
{
    let mut are = true;
    for c in chars {
        are &= c.is_ascii();
    }
    are
}

// Writes the code of each character over a byte.
fn fill_ascii(bytes: &mut [u8], chars: &[char])
    requires places { length bytes.old ≡ length chars.now }
    requires ascii { All (λ c. c < 128) chars.now }
    ensures codes { bytes.new ≡ chars.now }
{
    for i in 0..chars.len() {
        bytes[i] = chars[i] as u8;
    }
}

// Puts eight characters, of ASCII all at once.
#[tactic(auto, using(rls_runs::proofs::Texts::ascii_encodes))]
fn put_eight(out: &mut Vec<u8>, chars: &[char; 8]) -> Result<(), AllocError>
    ensures ok { OnOk result (out.new.items ≡ out.old.items ++ encode_utf8_all chars.now) }
    ensures keeps { IsFrontOf out.old.items out.new.items }
{
    if !are_ascii(chars) {
        return put_each(out, chars);
    }
    let mut bytes = [0; 8];
    fill_ascii(&mut bytes, chars);
    out.extend_from_slice(&bytes)
}

// Puts characters, eight at a time.
fn put_chars(out: &mut Vec<u8>, chars: &[char]) -> Result<(), AllocError>
    ensures ok { OnOk result (out.new.items ≡ out.old.items ++ encode_utf8_all chars.now) }
    ensures keeps { IsFrontOf out.old.items out.new.items }
{
    let mut rest = chars;
    while let Some((eight, others)) = rest.split_first_chunk::<8>() {
        put_eight(out, eight)?;
        rest = others;
    }
    put_each(out, rest)
}

fn put_text_chars(out: &mut Vec<u8>, text: &Text) -> Result<(), AllocError>
    ensures ok { OnOk result (out.new.items ≡ out.old.items ++ encode_utf8_all text.now) }
    ensures keeps { IsFrontOf out.old.items out.new.items }
    ensures scalars { All IsScalar text.now }
{
    let (front, back) = text.as_slices();
    put_chars(out, front)?;
    if !back.is_empty() {
        put_chars(out, back)?;
    }
    Ok(())
}

// Writes over the four bytes at this place how many stand behind them.
fn fill_len(out: &mut Vec<u8>, at: usize)
    requires places { at + 4 ≤ length out.old.items }
    requires few { length (drop (at + 4) out.old.items) < 2 ^ 32 }
    ensures len { out.new.items ≡ take at out.old.items ++ (four_bytes (length (drop (at + 4) out.old.items)) ++ drop (at + 4) out.old.items) }
{
    let len = (out.len() - at - 4) as u32;
    out[at..at + 4].copy_from_slice(&len.to_be_bytes());
}

/// A text: how many bytes it has in UTF-8, and these bytes.
#[tactic(auto, using(crate::proofs::Fits::text_fits, crate::proofs::Appending::ascii_text, crate::proofs::Appending::counted_after))]
pub fn put_text(out: &mut Vec<u8>, text: &Text) -> Result<(), AllocError>
    requires { length (encode_utf8_all text.now) < 2 ^ 32 }
    ensures ok { OnOk result (out.new.items ≡ out.old.items ++ text_bytes text.now) }
    ensures keeps { IsFrontOf out.old.items out.new.items }
    ensures fits { OnOk result (FitsText text.now) }
{
    if let ([c], []) = text.as_slices()
        && c.is_ascii()
    {
        return out.extend_from_slice(&[0, 0, 0, 1, *c as u8]);
    }
    let start = out.len();
    put_u32(out, 0)?;
    out.reserve(text.len())?;
    put_text_chars(out, text)?;
    fill_len(out, start);
    Ok(())
}

/// A run: its first identifier and its length.
#[tactic(auto, using(crate::proofs::Fits::run_fits))]
pub fn put_run(out: &mut Vec<u8>, run: &Run) -> Result<(), AllocError>
    requires { length run.now.0 < 2 ^ 32 }
    ensures ok { OnOk result (out.new.items ≡ out.old.items ++ run_bytes run.now) }
    ensures keeps { IsFrontOf out.old.items out.new.items }
    ensures fits { OnOk result (FitsRun run.now) }
{
    put_ident(out, run.first())?;
    put_u32(out, run.len())?;
    Ok(())
}

impl Part for Run {
    ghost bytes = { run_bytes };

    ghost IsShort = { λ r. length r.0 < 2 ^ 32 };

    ghost Fits = { FitsRun };

    fn put(&self, out: &mut Vec<u8>) -> Result<(), AllocError> {
        put_run(out, self)
    }
}

/// A list of identifiers, as the number of its maximal runs and these runs.
#[tactic(auto, using(crate::proofs::Fits::runs_fit))]
pub fn put_runs(out: &mut Vec<u8>, runs: &Runs) -> Result<(), AllocError>
    requires count { length (runs_of runs.now) < 2 ^ 32 }
    requires idents { All (λ r. length r.0 < 2 ^ 32) (runs_of runs.now) }
    ensures ok { OnOk result (out.new.items ≡ out.old.items ++ runs_bytes runs.now) }
    ensures keeps { IsFrontOf out.old.items out.new.items }
    ensures fits { OnOk result (AreIdents runs.now → FitRuns runs.now) }
{
    let list = runs.as_slice();
    put_u32(out, list.len() as u32)?;
    put_list(out, list)?;
    Ok(())
}
