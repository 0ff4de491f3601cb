//! Parts that are lists of rows, members and operations.

ghost use Rattle.std.specs.Prelude.{◌≡◌, length, IfOk};
ghost use Rattle.rls_seen.specs.Kept.{other_rows, left_below};

use rls_causal::Held;
use rls_ident::Vector;
use rls_model::{Members, Rows};
use rls_ops::Ops;
use rls_stable::Acks;
use std::alloc::{AllocError, Global};

/// The rows of all members but the own one, in order.
pub fn other_rows(alloc: Global, acks: &Acks, members: u32) -> Result<Rows, AllocError>
    requires members { members ≡ length acks.now.mine }
    ensures rows { IfOk result (λ rows. rows ≡ other_rows acks.now members) }
{
    let mut rows = Rows::new(alloc);
    for member in 0..members {
        if member == acks.me() {
            continue;
        }
        rows.push(acks.row(member).copy()?)?;
    }
    Ok(rows)
}

/// The members that have left, in increasing order.
pub fn left_members(alloc: Global, acks: &Acks, members: u32) -> Result<Members, AllocError>
    requires members { members ≡ length acks.now.mine }
    ensures left { IfOk result (λ left. left ≡ left_below acks.now members) }
{
    let mut left = Members::new(alloc);
    for member in 0..members {
        if acks.left(member) {
            left.push(member)?;
        }
    }
    Ok(left)
}

/// The waiting operations, in order.
pub fn waiting(alloc: Global, held: &Held) -> Result<Ops, AllocError>
    ensures ops { IfOk result (λ ops. ops ≡ held.now) }
{
    let mut ops = Ops::new(alloc);
    for op in held.ops() {
        ops.push(op.copy()?)?;
    }
    Ok(ops)
}
