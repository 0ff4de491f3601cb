//! The places of broken rules.

ghost use Rattle.std.specs.Prelude.{◌≡◌, ◌-◌, ◌^◌, min, take, slice_get};
ghost use Rattle.rls_fields.specs.Fields.{place_of_broken, stem_size};
ghost use Rattle.rls_fields.specs.FieldSizes.{before_rows, before_stems, before_epochs, before_text, before_log, before_held, left_size, stem_before};

use crate::sizes::entries_len;
use rls_model::{Members, Parts};

/// The form that has the members that have left.
const WITH_LEFT: u8 = 4;

/// The form whose stems have no low.
const WITHOUT_LOW: u8 = 2;

// The first entries, so many or all.
fn front<T>(list: &[T], count: u64) -> &[T]
    ensures front { result.now ≡ take count list.now }
{
    if count < list.len() as u64 {
        return list.split_at(count as usize).0;
    }
    list
}

fn stem_size(form: u8) -> u64
    ensures size { result ≡ stem_size form }
{
    if form == WITHOUT_LOW { 8 } else { 12 }
}

fn left_len(form: u8, left: &Members) -> u64
    ensures size { result ≡ min (left_size form left.now) (2 ^ 64 - 1) }
{
    if form != WITH_LEFT {
        return 0;
    }
    (left.len() as u64).saturating_mul(4).saturating_add(4)
}

fn before_rows(parts: &Parts) -> u64
    ensures before { result ≡ min (before_rows parts.now) (2 ^ 64 - 1) }
{
    (parts.vector.len() as u64)
        .saturating_mul(4)
        .saturating_add(21)
}

fn before_stems(form: u8, parts: &Parts) -> u64
    ensures before { result ≡ min (before_stems form parts.now) (2 ^ 64 - 1) }
{
    before_rows(parts)
        .saturating_add(entries_len(parts.rows.as_slice()))
        .saturating_add(left_len(form, &parts.left))
}

fn before_epochs(form: u8, parts: &Parts) -> u64
    ensures before { result ≡ min (before_epochs form parts.now) (2 ^ 64 - 1) }
{
    let stems = (parts.stems.len() as u64).saturating_mul(stem_size(form));
    before_stems(form, parts)
        .saturating_add(4 * parts.members as u64)
        .saturating_add(stems)
}

fn before_text(form: u8, parts: &Parts) -> u64
    ensures before { result ≡ min (before_text form parts.now) (2 ^ 64 - 1) }
{
    before_epochs(form, parts)
        .saturating_add(4)
        .saturating_add(entries_len(parts.epochs.as_slice()))
}

fn before_log(form: u8, parts: &Parts) -> u64
    ensures before { result ≡ min (before_log form parts.now) (2 ^ 64 - 1) }
{
    before_text(form, parts)
        .saturating_add(4)
        .saturating_add(entries_len(parts.text.as_slice()))
}

#[tactic(auto, using(std::proofs::lemmas::List::take_all))]
fn before_held(form: u8, parts: &Parts) -> u64
    ensures before { result ≡ min (before_held form parts.now) (2 ^ 64 - 1) }
{
    before_log(form, parts)
        .saturating_add(4)
        .saturating_add(parts.log.first_len(parts.log.len() as u64))
}

// A stem stands after the numbers of the members up to its own.
fn before_stem(form: u8, parts: &Parts, index: u64) -> u64
    ensures before { result ≡ min (stem_before form parts.now index (slice_get parts.now.stems index)) (2 ^ 64 - 1) }
{
    if index >= parts.stems.len() as u64 {
        return 0;
    }
    let author = parts.stems.get(index as usize).author as u64;
    before_stems(form, parts)
        .saturating_add(4 * (author + 1))
        .saturating_add(index.saturating_mul(stem_size(form)))
}

/// The place in a snapshot of this form of what breaks the rule: of the first byte of the entry at this place of its list, or, for
/// the rules 6 and 7, of the number of unstable operations and of the number of epochs. It goes over the entries before it.
pub fn place_of_broken(form: u8, parts: &Parts, rule: u8, index: u64) -> u64
    ensures place { result ≡ min (place_of_broken form parts.now (record { rule = rule; index = index })) (2 ^ 64 - 1) }
{
    match rule {
        1 => before_rows(parts).saturating_add(entries_len(front(parts.rows.as_slice(), index))),
        2 => before_stem(form, parts, index),
        3 => before_epochs(form, parts)
            .saturating_add(4)
            .saturating_add(entries_len(front(parts.epochs.as_slice(), index))),
        4 => before_text(form, parts)
            .saturating_add(4)
            .saturating_add(entries_len(front(parts.text.as_slice(), index))),
        5 => before_log(form, parts)
            .saturating_add(4)
            .saturating_add(parts.log.first_len(index)),
        6 => before_log(form, parts),
        7 => before_epochs(form, parts),
        _ => before_held(form, parts)
            .saturating_add(4)
            .saturating_add(entries_len(front(parts.held.as_slice(), index))),
    }
}
