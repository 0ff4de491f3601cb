//! Operations that are taken one after another.
//! Why: CHOICES.md, 212.

ghost use Rattle.std.specs.Prelude.{◌≡◌, ◌∷◌, [], IfSome, IfNone};

use crate::op::Op;
use std::marker::Model;

/// Operations that are taken one after another, the first first. Whenever half of them are gone, the memory of these is given back, so
/// that what is made of them can have it.
#[derive(Drop)]
pub struct RemainingOps {
    // The last one first.
    reversed: Vec<Op>,
}

impl Model for RemainingOps {
    ghost use Rattle.std.specs.Prelude.{List, reverse};
    ghost use Rattle.rls_ops.specs.declared.op.Op.{Op};

    ghost Value = { List Op };

    ghost view = { λ a. reverse a.reversed.items };
}

impl RemainingOps {
    pub(crate) fn new(ops: Vec<Op>) -> RemainingOps
        ensures all { result ≡ ops.items }
    {
        let mut reversed = ops;
        reversed.reverse();
        RemainingOps { reversed }
    }

    /// Takes the first of them out, or answers that none is left. It costs one step, and now and then the others, which move: over all
    /// calls, as many as there were.
    pub fn pop_first(&mut self) -> Option<Op>
        ensures first { IfSome result (λ op. self.old ≡ op ∷ self.new) }
        ensures none { IfNone result ((self.old ≡ []) × (self.new ≡ [])) }
    {
        let op = self.reversed.pop()?;
        if self.reversed.len() < self.reversed.capacity() / 2 {
            self.reversed.shrink_to_fit();
        }
        Some(op)
    }
}
