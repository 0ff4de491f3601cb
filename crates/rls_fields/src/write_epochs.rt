//! Epochs, written.

ghost use Rattle.std.specs.Prelude.{◌≡◌, ◌<◌, ◌++◌, ◌-◌, ◌^◌, min, length, sum_by, All, OnOk, IsTrue};
ghost use Rattle.std.specs.Option.{option_map};
ghost use Rattle.std.specs.List.{flat_map};
ghost use Rattle.rls_ident.specs.declared.epoch_name.EpochName.{EpochName as EpochNameSeen};
ghost use Rattle.rls_ident.specs.Lists.{IsIn};
ghost use Rattle.rls_ops.specs.Spelling.{counted};
ghost use Rattle.rls_rename.specs.Tree.{is_kept};
ghost use Rattle.rls_model.specs.Parts.{epoch_part, epoch_parts, node_of};
ghost use Rattle.rls_fields.specs.Fields.{epoch_bytes};
ghost use Rattle.rls_fields.specs.FieldSizes.{epoch_size, opening};
ghost use Rattle.rls_fields.specs.Written.{FitsFormer};

use rls_codec::{put_name, put_runs, put_u32};
use rls_epoch::Epochs;
use rls_ident::EpochName;
use rls_ops::size::{name_len, runs_len};
use rls_parts::Places;
use rls_rename::Renaming;
use std::alloc::AllocError;

// The place of a kept epoch's parent among these, and the renaming that opened the epoch; none for the topmost.
fn opening<'a>(epochs: &'a Epochs, places: &Places, name: EpochName) -> Option<(u64, &'a Renaming)>
    requires kept { IsTrue (is_kept epochs.now.epochs.top epochs.now.epochs.nodes name) }
    ensures opening { option_map (λ x. (x.0, x.1.now.former)) result ≡ opening (epoch_part places.now name (node_of epochs.now.epochs.nodes name)) }
{
    let parent = epochs.parent_of(name)?;
    let renaming = epochs.renaming_of(name)?;
    let place = places.place(parent)?;
    Some((place, renaming))
}

// An epoch.
fn put_epoch(
    out: &mut Vec<u8>,
    epochs: &Epochs,
    places: &Places,
    name: EpochName,
) -> Result<(), AllocError>
    requires kept { IsTrue (is_kept epochs.now.epochs.top epochs.now.epochs.nodes name) }
    requires few { length places.now < 2 ^ 32 }
    requires small { epoch_size (epoch_part places.now name (node_of epochs.now.epochs.nodes name)) < 2 ^ 32 }
    ensures ok { OnOk result (out.new.items ≡ out.old.items ++ epoch_bytes (epoch_part places.now name (node_of epochs.now.epochs.nodes name))) }
    ensures fits { OnOk result (FitsFormer (epoch_part places.now name (node_of epochs.now.epochs.nodes name))) }
{
    put_name(out, name)?;
    let Some((place, renaming)) = opening(epochs, places, name) else {
        return Ok(());
    };
    put_u32(out, place as u32)?;
    put_runs(out, renaming.former())?;
    Ok(())
}

// How many bytes an epoch has.
fn epoch_len(epochs: &Epochs, places: &Places, name: EpochName) -> u64
    requires kept { IsTrue (is_kept epochs.now.epochs.top epochs.now.epochs.nodes name) }
    ensures size { result ≡ min (epoch_size (epoch_part places.now name (node_of epochs.now.epochs.nodes name))) (2 ^ 64 - 1) }
{
    match opening(epochs, places, name) {
        None => name_len(&name),
        Some((_, renaming)) => runs_len(renaming.former().as_slice())
            .saturating_add(4)
            .saturating_add(name_len(&name)),
    }
}

// So many epochs, without their number.
fn put_epoch_list(out: &mut Vec<u8>, epochs: &Epochs, places: &Places) -> Result<(), AllocError>
    requires kept { (e : EpochNameSeen) → IsIn e places.now → IsTrue (is_kept epochs.now.epochs.top epochs.now.epochs.nodes e) }
    requires small { sum_by epoch_size (epoch_parts epochs.now.epochs.nodes places.now) < 2 ^ 32 }
    ensures ok { OnOk result (out.new.items ≡ out.old.items ++ flat_map epoch_bytes (epoch_parts epochs.now.epochs.nodes places.now)) }
    ensures fits { OnOk result (All FitsFormer (epoch_parts epochs.now.epochs.nodes places.now)) }
{
    let Some((top, others)) = places.names().split_first() else {
        return Ok(());
    };
    put_name(out, *top)?;
    for name in others {
        put_epoch(out, epochs, places, *name)?;
    }
    Ok(())
}

/// These kept epochs after their number, of which the first is kept by its name alone.
pub fn put_epochs(out: &mut Vec<u8>, epochs: &Epochs, places: &Places) -> Result<(), AllocError>
    requires kept { (e : EpochNameSeen) → IsIn e places.now → IsTrue (is_kept epochs.now.epochs.top epochs.now.epochs.nodes e) }
    requires small { sum_by epoch_size (epoch_parts epochs.now.epochs.nodes places.now) < 2 ^ 32 }
    ensures ok { OnOk result (out.new.items ≡ out.old.items ++ counted epoch_bytes (epoch_parts epochs.now.epochs.nodes places.now)) }
    ensures fits { OnOk result (All FitsFormer (epoch_parts epochs.now.epochs.nodes places.now)) }
{
    put_u32(out, places.names().len() as u32)?;
    put_epoch_list(out, epochs, places)?;
    Ok(())
}

/// How many bytes these have without their number, or the greatest u64 where there are more.
pub fn kept_epochs_len(epochs: &Epochs, places: &Places) -> u64
    requires kept { (e : EpochNameSeen) → IsIn e places.now → IsTrue (is_kept epochs.now.epochs.top epochs.now.epochs.nodes e) }
    ensures size { result ≡ min (sum_by epoch_size (epoch_parts epochs.now.epochs.nodes places.now)) (2 ^ 64 - 1) }
{
    let Some((top, others)) = places.names().split_first() else {
        return 0;
    };
    let mut total = name_len(top);
    for name in others {
        total = total.saturating_add(epoch_len(epochs, places, *name));
    }
    total
}
