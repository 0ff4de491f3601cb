//! Waiting operations, one after another.

ghost use Rattle.std.specs.Prelude.{length};
ghost use Rattle.std.specs.Iterator.{at_most};
ghost use Rattle.std.specs.Map.Iter.{TakesFirst, deref};

use crate::queue::{Queue, Waiting};
use indexmap::map;
use rls_ops::Op;
use std::collections::btree_map;
use std::iter::Iterator;
use std::marker::Model;

/// The waiting operations in increasing order of author and number, seen as the list of those to come.
#[derive(Drop)]
pub struct HeldOps<'a> {
    // Those of the author that is gone through.
    pub(crate) ops: Option<btree_map::Values<'a, u32, Waiting>>,
    // The queues of the authors after it.
    pub(crate) queues: map::Values<'a, u32, Queue>,
}

impl<'a> Model for HeldOps<'a> {
    ghost use Rattle.std.specs.Option.{unwrap_or};
    ghost use Rattle.std.specs.Prelude.{List, [], ◌++◌};
    ghost use Rattle.rls_ops.specs.declared.op.Op.{Op};
    ghost use Rattle.rls_causal.specs.Queues.{joined};

    ghost Value = { List Op };

    ghost view = { λ a. unwrap_or a.ops [] ++ joined a.queues };
}

impl<'a> Iterator for HeldOps<'a> {
    type Item = &'a Op;

    ghost next_gives = { TakesFirst deref };

    ghost remaining = { λ s. at_most (length s) };

    fn next(&mut self) -> Option<&'a Op> {
        loop {
            if let Some(mut ops) = self.ops.take() {
                if let Some(waiting) = ops.next() {
                    self.ops = Some(ops);
                    return Some(waiting.op());
                }
            }
            let queue = self.queues.next()?;
            self.ops = Some(queue.ops());
        }
    }
}
