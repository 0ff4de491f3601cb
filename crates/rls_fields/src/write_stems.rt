//! Stems, written by author.

ghost use Rattle.std.specs.Prelude.{◌≡◌, ◌<◌, ◌++◌, ◌-◌, ◌^◌, min, length, OnOk};
ghost use Rattle.std.specs.List.{flat_map};
ghost use Rattle.rls_ops.specs.Spelling.{counted};
ghost use Rattle.rls_fields.specs.Fields.{own_of, stem_bytes, stems_bytes};

use rls_codec::{put_i32, put_u32};
use rls_model::Stem;
use rls_parts::StemTable;
use std::alloc::AllocError;

// A stem without its author.
fn put_stem(out: &mut Vec<u8>, stem: &Stem) -> Result<(), AllocError>
    ensures ok { OnOk result (out.new.items ≡ out.old.items ++ stem_bytes 4 stem.now) }
{
    put_u32(out, stem.s0)?;
    put_i32(out, stem.low)?;
    put_u32(out, stem.next)?;
    Ok(())
}

// The stems of one author.
fn put_own_list(out: &mut Vec<u8>, stems: &StemTable, author: u32) -> Result<(), AllocError>
    requires author { author < stems.now.members }
    ensures ok { OnOk result (out.new.items ≡ out.old.items ++ flat_map (stem_bytes 4) (own_of author stems.now.stems)) }
{
    for i in 0..stems.count_of(author) {
        put_stem(out, &stems.nth(author, i))?;
    }
    Ok(())
}

// The stems of one author after their number.
fn put_own(out: &mut Vec<u8>, stems: &StemTable, author: u32) -> Result<(), AllocError>
    requires author { author < stems.now.members }
    requires few { length (own_of author stems.now.stems) < 2 ^ 32 }
    ensures ok { OnOk result (out.new.items ≡ out.old.items ++ counted (stem_bytes 4) (own_of author stems.now.stems)) }
{
    put_u32(out, stems.count_of(author) as u32)?;
    put_own_list(out, stems, author)?;
    Ok(())
}

/// The stems of so many authors, author by author.
pub fn put_stems(out: &mut Vec<u8>, stems: &StemTable, members: u32) -> Result<(), AllocError>
    requires members { members ≡ stems.now.members }
    requires few { length stems.now.stems < 2 ^ 32 }
    ensures ok { OnOk result (out.new.items ≡ out.old.items ++ stems_bytes 4 0 members stems.now.stems) }
{
    for author in 0..members {
        put_own(out, stems, author)?;
    }
    Ok(())
}

/// How many bytes these have, or the greatest u64 where there are more.
pub fn stems_len(stems: &StemTable, members: u32) -> u64
    requires members { members ≡ stems.now.members }
    ensures size { result ≡ min (length (stems_bytes 4 0 members stems.now.stems)) (2 ^ 64 - 1) }
{
    let mut total: u64 = 0;
    for author in 0..members {
        let own = (stems.count_of(author) as u64).saturating_mul(12);
        total = total.saturating_add(own).saturating_add(4);
    }
    total
}
