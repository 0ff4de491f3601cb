//! Operations that are kept and that wait, written.

ghost use Rattle.std.specs.Prelude.{◌≡◌, ◌<◌, ◌++◌, ◌-◌, ◌^◌, min, sum_by, All, OnOk};
ghost use Rattle.std.specs.List.{flat_map};
ghost use Rattle.rls_ops.specs.Rows.{missing_for};
ghost use Rattle.rls_ops.specs.Sizes.{op_size};
ghost use Rattle.rls_ops.specs.Spelling.{counted, op_bytes};
ghost use Rattle.rls_codec.specs.Spelled.{IsSpelledIfFit};

use rls_causal::Held;
use rls_codec::{put_op, put_u32};
use rls_ident::{Vector, rely};
use rls_log::Log;
use std::alloc::AllocError;

/// The operations of a log that a vector doesn't cover, in order, after their number.
pub fn put_missing(out: &mut Vec<u8>, log: &Log, vector: &Vector) -> Result<(), AllocError>
    requires small { sum_by op_size (missing_for vector.now log.now) < 2 ^ 32 }
    ensures ok { OnOk result (out.new.items ≡ out.old.items ++ counted op_bytes (missing_for vector.now log.now)) }
    ensures fits { OnOk result (All IsSpelledIfFit (missing_for vector.now log.now)) }
{
    rely!(log.fits());
    put_u32(out, log.missing_count(vector, log.len()) as u32)?;
    log.put_missing(out, vector, log.len())?;
    Ok(())
}

/// How many bytes the waiting operations have, or the greatest u64 where there are more.
pub fn waiting_len(held: &Held) -> u64
    ensures size { result ≡ min (sum_by op_size held.now) (2 ^ 64 - 1) }
{
    let mut total: u64 = 0;
    for op in held.ops() {
        total = total.saturating_add(op.encoded_len());
    }
    total
}

// The waiting operations, in order.
fn put_waiting_list(out: &mut Vec<u8>, held: &Held) -> Result<(), AllocError>
    requires small { sum_by op_size held.now < 2 ^ 32 }
    ensures ok { OnOk result (out.new.items ≡ out.old.items ++ flat_map op_bytes held.now) }
    ensures fits { OnOk result (All IsSpelledIfFit held.now) }
{
    for op in held.ops() {
        put_op(out, op)?;
    }
    Ok(())
}

/// The waiting operations, in order, after their number.
pub fn put_waiting(out: &mut Vec<u8>, held: &Held) -> Result<(), AllocError>
    requires small { sum_by op_size held.now < 2 ^ 32 }
    ensures ok { OnOk result (out.new.items ≡ out.old.items ++ counted op_bytes held.now) }
    ensures fits { OnOk result (All IsSpelledIfFit held.now) }
{
    put_u32(out, held.len() as u32)?;
    put_waiting_list(out, held)?;
    Ok(())
}
