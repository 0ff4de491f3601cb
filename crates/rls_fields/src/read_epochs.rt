//! Epochs.

ghost use Rattle.std.specs.Prelude.{None, Some, nat_lt};
ghost use Rattle.std.specs.Int.{w32};
ghost use Rattle.rls_codec.specs.Gives.{Gives};
ghost use Rattle.rls_codec.specs.Reading.{with_rule, number_at, chain_at};
ghost use Rattle.rls_model.specs.declared.parts.EpochPart.{EpochPart as EpochPartSeen};
ghost use Rattle.rls_fields.specs.ReadingFields.{epoch_at};

use crate::lists::{Found, Items, list};
use rls_codec::{ReadError, epoch_name, runs, u32_at};
use rls_model::{EpochPart, EpochParts};
use rls_runs::Runs;
use std::alloc::Global;

// The topmost epoch, by its name alone.
#[tactic(auto, unfolding(crate::specs::ReadingFields::epoch_at))]
fn top_epoch(alloc: Global, bytes: &[u8]) -> Found<'_, EpochPart>
    ensures read { Gives (λ x. (x.0, x.1.now)) result (epoch_at None bytes.now) }
{
    let (name, rest) = epoch_name(bytes)?;
    let epoch = EpochPart {
        name,
        parent: None,
        former: Runs::new(alloc),
    };
    Ok((epoch, rest))
}

// An epoch after another, with the place of its parent and its former identifiers.
#[tactic(auto, unfolding(crate::specs::ReadingFields::epoch_at))]
fn next_epoch(alloc: Global, bytes: &[u8]) -> Found<'_, EpochPart>
    ensures read { (before : EpochPartSeen) → Gives (λ x. (x.0, x.1.now)) result (epoch_at (Some before) bytes.now) }
{
    let (name, rest) = epoch_name(bytes)?;
    let (parent, rest) = u32_at(rest)?;
    let (former, rest) = runs(alloc, rest)?;
    let epoch = EpochPart {
        name,
        parent: Some(parent as u64),
        former,
    };
    Ok((epoch, rest))
}

// Epochs, of which the topmost is the first.
#[derive(Drop)]
struct EpochItems(Global);

impl Items for EpochItems {
    type Item = EpochPart;

    ghost item_at = { λ r. epoch_at };

    fn next<'a>(&self, before: Option<&EpochPart>, bytes: &'a [u8]) -> Found<'a, EpochPart> {
        match before {
            None => top_epoch(self.0, bytes),
            Some(_) => next_epoch(self.0, bytes),
        }
    }
}

/// So many epochs.
pub(crate) fn epoch_list(alloc: Global, count: u32, bytes: &[u8]) -> Found<'_, EpochParts>
    ensures read { Gives (λ x. (x.0, x.1.now)) result (chain_at epoch_at None count bytes.now) }
{
    list(alloc, &EpochItems(alloc), count, bytes)
}

/// How many epochs there are, at least 1.
pub(crate) fn epoch_count(bytes: &[u8]) -> Found<'_, u32>
    ensures read { Gives (λ x. (x.0, x.1.now)) result (with_rule (nat_lt 0) (number_at w32) bytes.now) }
{
    let (count, rest) = u32_at(bytes)?;
    if count == 0 {
        return Err(ReadError::Fault { left: bytes.len() });
    }
    Ok((count, rest))
}
