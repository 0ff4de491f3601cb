//! What the word of a place means.

ghost use Rattle.std.specs.Prelude.{◌≡◌, ◌≤◌, ◌+◌, IfOk, IfSome, option_map};
ghost use Rattle.rls_places.specs.Words.{distance_of, epoch_of_word, from_zero_of, ident_of, is_colon, is_point, is_slash, named_of, offset_of, opened_of, parts_by, place_of, sided, small_of, spot_of, tuple_of, tuples_of};

use rls_anchor::Anchor;
use rls_ident::limits::{GREATEST_NUMBER, OFFSETS_END};
use rls_ident::{EpochName, Ident, IdentError, Tuple};
use rls_script::number_up_to;
use std::alloc::{AllocError, Global};

/// The place that this word names, as `place_word` writes it; `None` exactly where it is no such word. The place need not be in any
/// text. The time is linear in the word's length.
pub fn place_of(alloc: Global, word: &str) -> Result<Option<Anchor>, AllocError>
    ensures place { IfOk result (λ place. place ≡ place_of word.now) }
{
    if word == "beginning" {
        return Ok(Some(Anchor::Beginning));
    }
    named(alloc, word)
}

// A side, an epoch and an identifier.
fn named(alloc: Global, word: &str) -> Result<Option<Anchor>, AllocError>
    ensures place { IfOk result (λ place. place ≡ named_of word.now) }
{
    let Some((side, others)) = at_colon(word) else {
        return Ok(None);
    };
    let Some((name, tuples)) = at_colon(others) else {
        return Ok(None);
    };
    let Some(epoch) = epoch(name) else {
        return Ok(None);
    };
    let Some(id) = ident(alloc, tuples)? else {
        return Ok(None);
    };
    Ok(sided(side, epoch, id))
}

fn sided(side: &str, epoch: EpochName, id: Ident) -> Option<Anchor>
    ensures place { result ≡ sided side.now epoch id }
{
    match side {
        "after" => Some(Anchor::After { epoch, id }),
        "before" => Some(Anchor::Before { epoch, id }),
        _ => None,
    }
}

fn epoch(word: &str) -> Option<EpochName>
    ensures epoch { result ≡ epoch_of_word word.now }
{
    match word {
        "origin" => Some(EpochName::Origin),
        _ => opened(word),
    }
}

// The epoch that a rename opened.
fn opened(word: &str) -> Option<EpochName>
    ensures epoch { result ≡ opened_of word.now }
{
    let (replica, seq) = at_point(word)?;
    let replica = small(replica)?;
    let seq = small(seq)?;
    Some(EpochName::Of { replica, seq })
}

fn ident(alloc: Global, word: &str) -> Result<Option<Ident>, AllocError>
    ensures ident { IfOk result (λ id. id ≡ ident_of word.now) }
{
    let Some(tuples) = tuples(alloc, word)? else {
        return Ok(None);
    };
    match Ident::from_tuples(alloc, &tuples) {
        Ok(id) => Ok(Some(id)),
        Err(IdentError::OutOfMemory) => Err(AllocError),
        Err(IdentError::Empty) => Ok(None),
        Err(IdentError::Shape { .. }) => Ok(None),
    }
}

// Tuples with a slash between two.
fn tuples(alloc: Global, word: &str) -> Result<Option<Vec<Tuple>>, AllocError>
    ensures tuples { IfOk result (λ found. option_map (λ v. v.items) found ≡ tuples_of word.now) }
{
    let mut tuples = Vec::new(alloc);
    let mut rest = word;
    while let Some((piece, others)) = at_slash(rest) {
        let Some(tuple) = tuple(piece) else {
            return Ok(None);
        };
        tuples.push(tuple)?;
        rest = others;
    }
    let Some(last) = tuple(rest) else {
        return Ok(None);
    };
    tuples.push(last)?;
    Ok(Some(tuples))
}

fn tuple(word: &str) -> Option<Tuple>
    ensures tuple { result ≡ tuple_of word.now }
{
    match word {
        "low" => Some(Tuple::Low),
        "high" => Some(Tuple::High),
        _ => spot(word),
    }
}

// Four numbers with points between.
fn spot(word: &str) -> Option<Tuple>
    ensures tuple { result ≡ spot_of word.now }
{
    let (pos, others) = at_point(word)?;
    let (replica, others) = at_point(others)?;
    let (seq, offset) = at_point(others)?;
    let pos = small(pos)?;
    let replica = small(replica)?;
    let seq = small(seq)?;
    let offset = signed(offset)?;
    Some(Tuple::At {
        pos,
        replica,
        seq,
        offset,
    })
}

// An offset, with a minus in front where it is less than 0.
fn signed(word: &str) -> Option<i32>
    ensures offset { result ≡ offset_of word.now }
{
    match word.strip_prefix('-') {
        None => from_zero(word),
        Some(digits) => match distance(digits)? {
            0 => None,
            n => Some(-(n as i32)),
        },
    }
}

// An offset that isn't less than 0.
fn from_zero(digits: &str) -> Option<i32>
    ensures offset { result ≡ from_zero_of digits.now }
{
    Some(distance(digits)? as i32)
}

// How far an offset is from 0.
fn distance(digits: &str) -> Option<u32>
    ensures distance { result ≡ distance_of digits.now }
    ensures bounded { IfSome result (λ n. n ≤ OFFSETS_END + 1) }
{
    number_up_to(OFFSETS_END + 1, digits)
}

// A number of a member, of an operation or of a position.
fn small(digits: &str) -> Option<u32>
    ensures small { result ≡ small_of digits.now }
{
    number_up_to(GREATEST_NUMBER, digits)
}

// What stands before the first colon and after it.
fn at_colon(text: &str) -> Option<(&str, &str)>
    ensures parts { option_map (λ x. (x.0.now, x.1.now)) result ≡ parts_by is_colon text.now }
{
    text.split_once(':')
}

// What stands before the first slash and after it.
fn at_slash(text: &str) -> Option<(&str, &str)>
    ensures parts { option_map (λ x. (x.0.now, x.1.now)) result ≡ parts_by is_slash text.now }
{
    text.split_once('/')
}

// What stands before the first point and after it.
fn at_point(text: &str) -> Option<(&str, &str)>
    ensures parts { option_map (λ x. (x.0.now, x.1.now)) result ≡ parts_by is_point text.now }
{
    text.split_once('.')
}
