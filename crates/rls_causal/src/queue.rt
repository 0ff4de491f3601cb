//! The waiting operations of one author.
//! Why: CHOICES.md, 81.

ghost use Rattle.std.specs.List.{list_all};
ghost use Rattle.std.specs.Map.Iter.{ShowsInOrder, deref};
ghost use Rattle.std.specs.Option.{option_map};
ghost use Rattle.std.specs.Prelude.{◌≡◌, ℕ, ◌-◌, ◌<◌, length, [], option_copied, slice_get, slice_index, None, IsTrue, IfOk, OnOk, OnErr};
ghost use Rattle.rls_ops.specs.declared.op.Op.{Op};
ghost use Rattle.rls_ops.specs.Waiting.{waiting_under, without, with_waiting, first_ready_at};
ghost use Rattle.rls_causal.specs.Queued.{is_by, counts_own};

use rls_ident::Vector;
use rls_ops::Op;
use std::alloc::{AllocError, Global};
use std::collections::BTreeMap;
use std::collections::btree_map::Values;
use std::marker::Model;
use std::sync::Arc;

/// An operation that waits, and a copy of it to be shared, made when it is asked for first.
pub(crate) struct Waiting {
    op: Op,
    shared: Option<Arc<Op>>,
}

impl Model for Waiting {
    ghost use Rattle.std.specs.Prelude.{◌≡◌, IfSome};
    ghost use Rattle.rls_ops.specs.declared.op.Op.{Op};

    ghost Value = { Op };

    ghost view = { λ w. w.op };

    ghost invariant = { λ w. IfSome w.shared (λ a. a.value ≡ w.op) };
}

// Written out, and not derived, so that the proof of a caller sees one call and not the drop of each field.
impl Drop for Waiting {
    fn drop(self) {
        let Waiting {
            op: _op,
            shared: _shared,
        } = self;
    }
}

impl Waiting {
    fn new(op: Op) -> Waiting
        ensures op { result ≡ op }
    {
        Waiting { op, shared: None }
    }

    pub(crate) fn op(&self) -> &Op
        ensures op { result.now ≡ self.now }
    {
        &self.op
    }

    fn into_op(self) -> Op
        ensures op { result ≡ self }
    {
        let Waiting {
            op,
            shared: _shared,
        } = self;
        op
    }

    // The copy that is shared. It takes memory for it the first time.
    fn share(&mut self, alloc: Global) -> Result<Arc<Op>, AllocError>
        ensures same { self.new ≡ self.old }
        ensures copy { IfOk result (λ copy. copy.value ≡ self.old) }
    {
        if let Some(copy) = &self.shared {
            return Arc::try_clone(copy);
        }
        let copy = Arc::new(alloc, self.op.copy()?)?;
        self.shared = Some(Arc::try_clone(&copy)?);
        Ok(copy)
    }
}

/// The waiting operations of one author, at most one under each number, seen as the list of them in increasing order of number.
#[derive(Drop)]
pub(crate) struct Queue {
    ops: BTreeMap<u32, Waiting>,
    // Whether each context that was put counts all operations of its author before its own.
    regular: bool,
}

impl Model for Queue {
    ghost use Rattle.std.specs.Prelude.{List};
    ghost use Rattle.std.specs.BTreeMap.{values};
    ghost use Rattle.rls_ops.specs.declared.op.Op.{Op};
    ghost use Rattle.rls_causal.specs.Queued.{IsQueue};

    ghost Value = { List Op };

    ghost view = { λ q. values q.ops };

    ghost invariant = { λ q. IsQueue q.ops.entries q.regular };
}

impl Queue {
    // No operation. It takes no memory.
    pub(crate) fn new(alloc: Global) -> Queue
        ensures empty { result ≡ [] }
    {
        Queue {
            ops: BTreeMap::new(alloc),
            regular: true,
        }
    }

    // The operations, in increasing order of number.
    pub(crate) fn ops(&self) -> Values<'_, u32, Waiting>
        ensures ops { result ≡ self.now }
        ensures runs { ShowsInOrder (deref {X = Op}) }
    {
        self.ops.values()
    }

    // The operation of the greatest number, if there is one.
    pub(crate) fn last(&self) -> Option<&Op>
        ensures last { option_copied result ≡ slice_get self.now (length self.now - 1) }
    {
        let (_, waiting) = self.ops.last_key_value()?;
        Some(waiting.op())
    }

    // What waits under this number.
    pub(crate) fn get(&self, seq: u32) -> Option<&Op>
        ensures waiting { (a : ℕ) → IsTrue (list_all (is_by a) self.now) → option_copied result ≡ waiting_under self.now a seq }
    {
        let waiting = self.ops.get(&seq)?;
        Some(waiting.op())
    }

    // A copy of what waits under this number, to be shared.
    pub(crate) fn share(&mut self, alloc: Global, seq: u32) -> Result<Option<Arc<Op>>, AllocError>
        ensures same { self.new ≡ self.old }
        ensures copy { (a : ℕ) → IsTrue (list_all (is_by a) self.old) → IfOk result (λ copy. option_map (λ a. a.value) copy ≡ waiting_under self.old a seq) }
    {
        let Some(waiting) = self.ops.get_mut(&seq) else {
            return Ok(None);
        };
        let copy = waiting.share(alloc)?;
        Ok(Some(copy))
    }

    // The first operation whose context is at most the vector.
    pub(crate) fn first_ready(&self, vector: &Vector) -> Option<&Op>
        ensures ready { option_copied result ≡ first_ready_at vector.now self.now }
    {
        for waiting in self.ops.values() {
            let op = waiting.op();
            if op.context.at_most(vector) {
                return Some(op);
            }
            if self.regular && is_ahead(op, vector) {
                return None;
            }
        }
        None
    }

    // Takes out what waits under this number.
    pub(crate) fn take_out(&mut self, seq: u32) -> Option<Op>
        ensures found { (a : ℕ) → IsTrue (list_all (is_by a) self.old) → result ≡ waiting_under self.old a seq }
        ensures others { (a : ℕ) → IsTrue (list_all (is_by a) self.old) → self.new ≡ without a seq self.old }
    {
        let waiting = self.ops.remove(&seq)?;
        Some(waiting.into_op())
    }

    // Puts an operation of the author in its place, where none waits under its number.
    pub(crate) fn add(&mut self, op: Op) -> Result<(), AllocError>
        requires author { IsTrue (list_all (is_by op.author) self.old) }
        requires absent { waiting_under self.old op.author op.seq ≡ None }
        ensures ok { OnOk result (self.new ≡ with_waiting op self.old) }
        ensures err { OnErr result (self.new ≡ self.old) }
    {
        let regular = self.regular && counts_own(&op);
        self.ops.insert(op.seq, Waiting::new(op))?;
        self.regular = regular;
        Ok(())
    }
}

// Whether the context counts all operations of the author before this one, as far as it has a count of the author.
fn counts_own(op: &Op) -> bool
    ensures counts { IsTrue result → IsTrue (counts_own op.now) }
{
    (op.author as usize) < op.context.len() && op.seq as u64 <= op.context.get(op.author) as u64 + 1
}

// Whether a vector has a count of the author, and it is less than the number.
fn is_ahead(op: &Op, vector: &Vector) -> bool
    ensures ahead { IsTrue result → slice_index vector.now op.now.author < op.now.seq }
{
    (op.author as usize) < vector.len() && vector.get(op.author) < op.seq
}
