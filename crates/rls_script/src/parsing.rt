//! Reading scripts.
//! Why: CHOICES.md, 224.

ghost use Rattle.std.specs.Prelude.{◌≡◌, ◌<◌, ◌≤◌, All, IsFalse, length, IfOk, IfSome, Option, Some, None, option_map};
ghost use Rattle.std.specs.List.{position, position_or_len, before_first, after_first};
ghost use Rattle.std.specs.Str.{chars};
ghost use Rattle.rls_script.specs.Scripts.{IsParsed, script_of, is_line_feed, line_of, line_of_text, insertion_of, deletion_of, backward_of, renaming_of, is_space, parts_of, begins_plainly, number_of, number_up_to, text_of, is_opening, meaning_of};
ghost use Rattle.rls_script.specs.declared.parsing.ScriptError.TheVariants.{OutOfMemory};

use crate::lines::{Line, Lines};
use rls_runs::Text;
use std::alloc::{AllocError, AllocFailed, Global};
use thiserror::Error;

/// Why a script could not be read.
#[derive(Clone, Copy, Debug, PartialEq, Eq, Error)]
pub enum ScriptError {
    /// The first line that isn't of the grammar, counted from 1.
    #[error("line {line} is bad")]
    BadLine { line: u64 },
    #[error("out of memory")]
    OutOfMemory,
}

impl From<AllocError> for ScriptError {
    ghost from_gives = { λ _ e. e ≡ OutOfMemory };

    fn from(_: AllocError) -> ScriptError {
        ScriptError::OutOfMemory
    }
}

impl<T: Drop> From<AllocFailed<T>> for ScriptError {
    ghost from_gives = { λ _ e. e ≡ OutOfMemory };

    fn from(_: AllocFailed<T>) -> ScriptError {
        ScriptError::OutOfMemory
    }
}

/// The lines of a script.
///
/// A line ends with a line feed, which the last may lack; a script of no bytes has no line. A line
/// is UTF-8 and one of `i POSITION TEXT`, `d POSITION COUNT`, `b POSITION` and `r`, with one space
/// between parts and `\n`, `\r` and `\\` in a text for a line feed, a carriage return and a
/// backslash. `BadLine` exactly where a line is anything else, with the first such, unless memory
/// runs out. The time is linear in the length of the script.
pub fn parse(alloc: Global, script: &[u8]) -> Result<Lines, ScriptError>
    ensures parsed { IsParsed result (script_of script.now) }
{
    let mut lines = Vec::new(alloc);
    let mut rest = script;
    while !rest.is_empty() {
        let (bytes, after) = first_line(rest);
        let Some(line) = line(alloc, bytes)? else {
            return Err(ScriptError::BadLine {
                line: lines.len() as u64 + 1,
            });
        };
        lines.push(line)?;
        rest = after;
    }
    Ok(Lines::from_vec(lines))
}

/// The place of the first line feed, or the length.
#[tactic(auto, using(crate::proofs::LineEnds::position_or_len_le, crate::proofs::LineEnds::none_in_front))]
pub fn line_end(bytes: &[u8]) -> usize
    ensures end { result ≡ position_or_len is_line_feed bytes.now }
{
    let (mut passed, mut rest) = (0, bytes);
    while let Some((eight, others)) = rest.split_first_chunk::<8>() {
        if has_line_feed(eight) {
            break;
        }
        passed += eight.len();
        rest = others;
    }
    passed + near_line_end(rest)
}

// Whether a line feed is among them. All are looked at, so that the machine compares them at once.
fn has_line_feed(bytes: &[u8; 8]) -> bool
    ensures none { IsFalse result → All (λ b. IsFalse (is_line_feed b)) bytes.now }
{
    let mut has = false;
    for byte in bytes {
        has |= *byte == b'\n';
    }
    has
}

// The place of the first line feed, or the length, found byte by byte.
fn near_line_end(bytes: &[u8]) -> usize
    ensures end { result ≡ position_or_len is_line_feed bytes.now }
{
    bytes
        .iter()
        .position(|byte| *byte == b'\n')
        .unwrap_or(bytes.len())
}

// The first line, without its line feed, and what stands after it.
fn first_line(script: &[u8]) -> (&[u8], &[u8])
    ensures front { result.0.now ≡ before_first is_line_feed script.now }
    ensures back { result.1.now ≡ after_first is_line_feed script.now }
{
    let (line, rest) = script.split_at(line_end(script));
    match rest.split_first() {
        Some((_, after)) => (line, after),
        None => (line, rest),
    }
}

// The line that these bytes are.
#[tactic(auto, using(rls_runs::proofs::Texts::utf8_from_text, rls_runs::proofs::Texts::no_utf8), unfolding(crate::specs::Scripts::line_of))]
fn line(alloc: Global, bytes: &[u8]) -> Result<Option<Line>, AllocError>
    ensures line { IfOk result (λ found. found ≡ line_of bytes.now) }
{
    match str::from_utf8(bytes) {
        Ok(text) => line_of(alloc, text),
        Err(_) => Ok(None),
    }
}

/// The line of the grammar that this text is, without its line feed, if it is one. The time is linear in its length.
pub fn line_of(alloc: Global, text: &str) -> Result<Option<Line>, AllocError>
    ensures line { IfOk result (λ found. found ≡ line_of_text text.now) }
{
    let Some((word, others)) = parts(text) else {
        return Ok(renaming(text));
    };
    match word.as_bytes() {
        [b'i'] => insertion(alloc, others),
        [b'd'] => Ok(deletion(others)),
        [b'b'] => Ok(backward(others)),
        _ => Ok(None),
    }
}

// The insertion of these parts.
fn insertion(alloc: Global, others: &str) -> Result<Option<Line>, AllocError>
    ensures line { IfOk result (λ found. found ≡ insertion_of others.now) }
{
    let Some((position, escaped)) = parts(others) else {
        return Ok(None);
    };
    let Some(at) = number(position) else {
        return Ok(None);
    };
    let Some(text) = text_of(alloc, escaped)? else {
        return Ok(None);
    };
    Ok(Some(Line::Insert { at, text }))
}

// The deletion of these parts.
fn deletion(others: &str) -> Option<Line>
    ensures line { result ≡ deletion_of others.now }
{
    let (position, count) = parts(others)?;
    let at = number(position)?;
    let count = number(count)?;
    Some(Line::Delete { at, count })
}

fn backward(position: &str) -> Option<Line>
    ensures line { result ≡ backward_of position.now }
{
    let at = number(position)?;
    Some(Line::Back { at })
}

fn renaming(text: &str) -> Option<Line>
    ensures line { result ≡ renaming_of text.now }
{
    if text == "r" {
        Some(Line::Rename)
    } else {
        None
    }
}

// The place of the first space.
fn first_space(bytes: &[u8]) -> Option<usize>
    ensures space { result ≡ position is_space bytes.now }
{
    bytes.iter().position(|byte| *byte == b' ')
}

// What stands before the first space and after it.
fn parts(text: &str) -> Option<(&str, &str)>
    ensures parts { option_map (λ x. (x.0.now, x.1.now)) result ≡ parts_of text.now }
{
    let at = first_space(text.as_bytes())?;
    Some((&text[..at], &text[at + 1..]))
}

// Whether neither a sign nor a leading zero stands in front.
fn is_plain(digits: &[u8]) -> bool
    ensures plain { result ≡ begins_plainly digits.now }
{
    match digits {
        [] => false,
        [b'0'] => true,
        [first, ..] => first.is_ascii_digit() && *first != b'0',
    }
}

/// The number that these are the decimal digits of, without a sign and without leading zeros, up to
/// 18446744073709551615; `None` exactly where they aren't such. The time is linear in their number.
pub fn number(digits: &str) -> Option<u64>
    ensures value { result ≡ number_of digits.now }
{
    if !is_plain(digits.as_bytes()) {
        return None;
    }
    digits.parse().ok()
}

/// The number that `number` reads, if it is at most this one.
pub fn number_up_to(most: u32, digits: &str) -> Option<u32>
    ensures value { result ≡ number_up_to most digits.now }
    ensures within { IfSome result (λ n. n ≤ most) }
{
    let n = number(digits)?;
    if n <= most as u64 {
        Some(n as u32)
    } else {
        None
    }
}

// Whether a character is a backslash that waits for the next one, after such a backslash or not.
fn is_opening(is_escaped: bool, character: char) -> bool
    ensures opening { result ≡ is_opening is_escaped character }
{
    !is_escaped && character == '\\'
}

// What a character stands for, after a backslash or not.
fn meaning(is_escaped: bool, character: char) -> Option<char>
    ensures meaning { result ≡ meaning_of is_escaped character }
{
    if !is_escaped {
        return Some(character);
    }
    match character {
        'n' => Some('\n'),
        'r' => Some('\r'),
        '\\' => Some('\\'),
        _ => None,
    }
}

// The text that these characters stand for.
fn text_of(alloc: Global, escaped: &str) -> Result<Option<Text>, AllocError>
    ensures text { IfOk result (λ found. found ≡ text_of (chars escaped.now)) }
{
    if escaped.as_bytes().contains(&b'\\') {
        return unescaped(alloc, escaped);
    }
    let text = Text::from_str(alloc, escaped)?;
    Ok(Some(text))
}

// The same, one character after another.
fn unescaped(alloc: Global, escaped: &str) -> Result<Option<Text>, AllocError>
    ensures text { IfOk result (λ found. found ≡ text_of (chars escaped.now)) }
{
    let mut plain = Text::for_utf8(alloc, escaped.len())?;
    let mut is_escaped = false;
    for character in escaped.chars() {
        if is_opening(is_escaped, character) {
            is_escaped = true;
            continue;
        }
        let Some(meant) = meaning(is_escaped, character) else {
            return Ok(None);
        };
        plain.push(meant)?;
        is_escaped = false;
    }
    if is_escaped {
        return Ok(None);
    }
    Ok(Some(plain))
}
