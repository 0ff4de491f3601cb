//! Epochs as parts.

ghost use Rattle.std.specs.Prelude.{◌≡◌, IfOk, IsTrue};
ghost use Rattle.rls_ident.specs.declared.epoch_name.EpochName.{EpochName};
ghost use Rattle.rls_ident.specs.Lists.{IsIn};
ghost use Rattle.rls_rename.specs.Tree.{is_kept};
ghost use Rattle.rls_model.specs.Parts.{epoch_part, epoch_parts, node_of, top_part};

use crate::places::Places;
use rls_epoch::Epochs;
use rls_ident::EpochName;
use rls_model::{EpochPart, EpochParts};
use rls_runs::Runs;
use std::alloc::{AllocError, Global};

/// Kept epochs as parts, of which the first is the topmost.
pub fn epoch_parts(
    alloc: Global,
    epochs: &Epochs,
    names: &[EpochName],
) -> Result<EpochParts, AllocError>
    requires kept { (e : EpochName) → IsIn e names.now → IsTrue (is_kept epochs.now.epochs.top epochs.now.epochs.nodes e) }
    ensures parts { IfOk result (λ parts. parts ≡ epoch_parts epochs.now.epochs.nodes names.now) }
{
    let mut parts = EpochParts::new(alloc);
    let Some((top, others)) = names.split_first() else {
        return Ok(parts);
    };
    parts.push(top_part(alloc, *top))?;
    let places = Places::of(alloc, names)?;
    for name in others {
        parts.push(epoch_part(alloc, epochs, &places, *name)?)?;
    }
    Ok(parts)
}

// The topmost epoch, which is kept by its name alone.
fn top_part(alloc: Global, name: EpochName) -> EpochPart
    ensures part { result ≡ top_part name }
{
    EpochPart {
        name,
        parent: None,
        former: Runs::new(alloc),
    }
}

// A kept epoch, with the place of its parent among these.
fn epoch_part(
    alloc: Global,
    epochs: &Epochs,
    places: &Places,
    name: EpochName,
) -> Result<EpochPart, AllocError>
    requires kept { IsTrue (is_kept epochs.now.epochs.top epochs.now.epochs.nodes name) }
    ensures part { IfOk result (λ part. part ≡ epoch_part places.now name (node_of epochs.now.epochs.nodes name)) }
{
    let Some(parent) = epochs.parent_of(name) else {
        return Ok(top_part(alloc, name));
    };
    let Some(renaming) = epochs.renaming_of(name) else {
        return Ok(top_part(alloc, name));
    };
    Ok(EpochPart {
        name,
        parent: places.place(parent),
        former: renaming.former().copy()?,
    })
}
