//! Rows, and the members that have left, written.

ghost use Rattle.std.specs.Prelude.{◌≡◌, ◌++◌, ◌-◌, ◌^◌, min, length, sum_by, All, OnOk};
ghost use Rattle.std.specs.List.{flat_map};
ghost use Rattle.rls_ops.specs.Spelling.{counted, four_bytes, vector_bytes};
ghost use Rattle.rls_seen.specs.Kept.{other_rows, left_below};
ghost use Rattle.rls_fields.specs.FieldSizes.{row_size};
ghost use Rattle.rls_fields.specs.Written.{FitsRow};

use crate::sizes::Entry;
use rls_codec::{put_u32, put_vector};
use rls_stable::Acks;
use std::alloc::AllocError;

/// The rows of all members but the own one, in order.
pub fn put_rows(out: &mut Vec<u8>, acks: &Acks, members: u32) -> Result<(), AllocError>
    requires members { members ≡ length acks.now.mine }
    ensures ok { OnOk result (out.new.items ≡ out.old.items ++ flat_map vector_bytes (other_rows acks.now members)) }
    ensures fits { OnOk result (All FitsRow (other_rows acks.now members)) }
{
    for member in 0..members {
        if member == acks.me() {
            continue;
        }
        put_vector(out, acks.row(member))?;
    }
    Ok(())
}

/// How many bytes these have.
pub fn other_rows_len(acks: &Acks, members: u32) -> u64
    requires members { members ≡ length acks.now.mine }
    ensures size { result ≡ min (sum_by row_size (other_rows acks.now members)) (2 ^ 64 - 1) }
{
    let mut total: u64 = 0;
    for member in 0..members {
        if member == acks.me() {
            continue;
        }
        total = total.saturating_add(acks.row(member).spelled_len());
    }
    total
}

/// How many members have left.
pub fn left_count(acks: &Acks, members: u32) -> u32
    requires members { members ≡ length acks.now.mine }
    ensures count { result ≡ length (left_below acks.now members) }
{
    let mut count: u32 = 0;
    for member in 0..members {
        if acks.left(member) {
            count += 1;
        }
    }
    count
}

// The members that have left, in increasing order.
fn put_left_list(out: &mut Vec<u8>, acks: &Acks, members: u32) -> Result<(), AllocError>
    requires members { members ≡ length acks.now.mine }
    ensures ok { OnOk result (out.new.items ≡ out.old.items ++ flat_map four_bytes (left_below acks.now members)) }
{
    for member in 0..members {
        if acks.left(member) {
            put_u32(out, member)?;
        }
    }
    Ok(())
}

/// How many members have left, and which.
pub fn put_left(out: &mut Vec<u8>, acks: &Acks, members: u32) -> Result<(), AllocError>
    requires members { members ≡ length acks.now.mine }
    ensures ok { OnOk result (out.new.items ≡ out.old.items ++ counted four_bytes (left_below acks.now members)) }
{
    put_u32(out, left_count(acks, members))?;
    put_left_list(out, acks, members)?;
    Ok(())
}
