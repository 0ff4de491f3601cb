//! The file of a replica, written.
//!
//! Each call appends the bytes of its part. Where memory runs out, some of them may stand there.

ghost use Rattle.std.specs.Prelude.{◌≡◌, ◌<◌, ◌++◌, ◌^◌, codes, OnOk};
ghost use Rattle.rls_seen.specs.Kept.{parts_over, retained_over};
ghost use Rattle.rls_fields.specs.Fields.{file_bytes, head_bytes};
ghost use Rattle.rls_file.specs.Sizes.{stored_size};
ghost use Rattle.rls_file.specs.Stored.{FitFields};

use rls_codec::{put_byte, put_u32, put_u64, put_vector};
use rls_fields::{
    put_epochs, put_left, put_missing, put_rows, put_stems, put_text_runs, put_waiting,
};
use rls_ident::rely;
use rls_parts::Places;
use rls_replica::Replica;
use std::alloc::AllocError;

/// The form in which files are written.
const NEWEST_FORM: u8 = 4;

fn put_magic(out: &mut Vec<u8>) -> Result<(), AllocError>
    ensures ok { OnOk result (out.new.items ≡ out.old.items ++ codes "RLSF") }
{
    out.extend_from_slice(b"RLSF")
}

// Magic text, form, group, count of members and own number.
fn put_head(out: &mut Vec<u8>, group: u64, members: u32, me: u32) -> Result<(), AllocError>
    ensures ok { OnOk result (out.new.items ≡ out.old.items ++ head_bytes 4 group members me) }
{
    put_magic(out)?;
    put_byte(out, NEWEST_FORM)?;
    put_u64(out, group)?;
    put_u32(out, members)?;
    put_u32(out, me)?;
    Ok(())
}

/// The whole file, with these epochs.
pub(crate) fn put_file(
    out: &mut Vec<u8>,
    replica: &Replica,
    places: &Places,
) -> Result<(), AllocError>
    requires names { places.now ≡ retained_over replica.now }
    requires small { stored_size replica.now < 2 ^ 32 }
    ensures ok { OnOk result (out.new.items ≡ out.old.items ++ file_bytes (parts_over replica.now)) }
    ensures fits { OnOk result (FitFields (parts_over replica.now)) }
{
    rely!(replica.sane());
    let (acks, members) = (replica.acks(), replica.members());
    put_head(out, replica.group(), members, replica.me())?;
    put_vector(out, acks.mine())?;
    put_rows(out, acks, members)?;
    put_left(out, acks, members)?;
    put_stems(out, replica.stems(), members)?;
    put_epochs(out, replica.epochs(), places)?;
    put_text_runs(out, replica.tree())?;
    put_missing(out, replica.logged(), acks.stable())?;
    put_waiting(out, replica.held())?;
    Ok(())
}
