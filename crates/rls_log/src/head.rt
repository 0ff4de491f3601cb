//! What is known of an operation without its body.

ghost use Rattle.std.specs.Prelude.{◌≡◌, length, is_ok};
ghost use Rattle.rls_ops.specs.Rows.{is_covered};
ghost use Rattle.rls_log.specs.Heads.{kind_in, is_head_covered, IsHeadOf};
ghost use Rattle.rls_ops.specs.declared.op.Op.{Op as OpSeen};

use rls_ident::{EpochName, Vector, rely};
use rls_ops::{Body, Op, covers};

/// What an operation does.
#[derive(Clone, Copy, Debug, PartialEq, Eq)]
pub enum OpKind {
    Insert,
    Delete,
    Rename,
    Leave,
}

/// What is known of an operation without its body.
#[derive(Clone, Copy, Debug, PartialEq, Eq)]
pub struct OpHead {
    /// The member that did it.
    pub author: u32,
    /// Its number among the author's operations, counted from 1.
    pub seq: u32,
    /// The epoch of the identifiers in its body.
    pub epoch: EpochName,
    /// How many counts its context has.
    pub members: u32,
    /// What it does.
    pub kind: OpKind,
    /// Whether it has the right shape in a group of as many members as its context counts.
    pub is_shaped: bool,
}

impl OpKind {
    /// What this body does.
    pub fn of(body: &Body) -> OpKind
        ensures kind { result ≡ kind_in body.now }
    {
        match body {
            Body::Insert { .. } => OpKind::Insert,
            Body::Delete { .. } => OpKind::Delete,
            Body::Rename { .. } => OpKind::Rename,
            Body::Leave => OpKind::Leave,
        }
    }
}

impl OpHead {
    /// What is known of this operation without its body.
    pub fn of(op: &Op, members: u32) -> OpHead
        requires members { members ≡ length op.now.context }
        ensures head { IsHeadOf result op.now }
    {
        OpHead {
            author: op.author,
            seq: op.seq,
            epoch: op.epoch,
            members,
            kind: OpKind::of(&op.body),
            is_shaped: op.check_shape(members).is_ok(),
        }
    }

    /// Whether a vector covers the operation: its number is at most the vector's count of its author.
    pub fn is_covered(&self, vector: &Vector) -> bool
        ensures test { result ≡ is_head_covered vector.now self.now }
        ensures covered { (o : OpSeen) → IsHeadOf self.now o → result ≡ is_covered vector.now o }
    {
        covers(vector, self.author, self.seq)
    }
}
