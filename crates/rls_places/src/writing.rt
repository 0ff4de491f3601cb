//! The word of a place.
//! Why: CHOICES.md, 164.

ghost use Rattle.std.specs.Prelude.{◌≡◌, ◌++◌, OnOk, IfOk, string_bytes};
ghost use Rattle.rls_places.specs.Words.{epoch_word, named_word, place_word};

use rls_anchor::Anchor;
use rls_ident::{EpochName, Ident};
use rls_report::put_ident;
use std::alloc::{AllocError, Global};

fn put_epoch(text: &mut String, epoch: EpochName) -> Result<(), AllocError>
    ensures ok { OnOk result (string_bytes text.new ≡ string_bytes text.old ++ epoch_word epoch) }
{
    match epoch {
        EpochName::Origin => text.push_str("origin"),
        EpochName::Of { replica, seq } => write!(text, "{replica}.{seq}"),
    }
}

// The word of the place at this side of a character.
fn named(alloc: Global, side: &str, epoch: EpochName, id: &Ident) -> Result<String, AllocError>
    ensures word { IfOk result (λ text. string_bytes text ≡ named_word side.now epoch id.now) }
{
    let mut text = format!(in alloc; "{side}:")?;
    put_epoch(&mut text, epoch)?;
    text.push(':')?;
    put_ident(&mut text, id)?;
    Ok(text)
}

/// The anchor as one word without spaces: `beginning`; or `after` or `before`, its epoch and its identifier, with colons between.
/// The epoch is `origin`, or the member and the number of the rename that opened it, with a point between; the identifier is in the
/// words in which refused operations are told. The time is linear in the word's length.
pub fn place_word(alloc: Global, anchor: &Anchor) -> Result<String, AllocError>
    ensures word { IfOk result (λ text. string_bytes text ≡ place_word anchor.now) }
{
    match anchor {
        Anchor::Beginning => String::from_str(alloc, "beginning"),
        Anchor::After { epoch, id } => named(alloc, "after", *epoch, id),
        Anchor::Before { epoch, id } => named(alloc, "before", *epoch, id),
    }
}
