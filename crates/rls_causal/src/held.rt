//! Waiting operations.
//! Why: CHOICES.md, 49, 82, 102.

ghost use Rattle.std.specs.Map.Iter.{ShowsInOrder, deref};
ghost use Rattle.std.specs.Option.{option_map};
ghost use Rattle.std.specs.Prelude.{◌≡◌, ◌-◌, ◌<◌, length, [], option_copied, slice_get, Some, None, IsSome, IsTrue, nat_eq, IfOk, OnOk, OnErr};
ghost use Rattle.rls_ops.specs.declared.op.Op.{Op};
ghost use Rattle.rls_ops.specs.Waiting.{waiting_under, without, with_waiting, first_ready_at, is_in_order};
ghost use Rattle.rls_causal.specs.Putting.{IsAnswer, put_in};
ghost use Rattle.indexmap.specs.IndexMap.{get, values};
ghost use Rattle.rls_causal.specs.Queues.{AreQueues, joined};

use crate::iter::HeldOps;
use crate::queue::Queue;
use indexmap::IndexMap;
use rls_ident::Vector;
use rls_ops::Op;
use std::alloc::{AllocError, Global};
use std::iter::Iterator;
use std::marker::Model;
use std::sync::Arc;

/// Waiting operations, at most one under each author and number, seen as the list of them in increasing order of author and
/// number.
pub struct Held {
    alloc: Global,
    // The operations of each author, in increasing order of author. A queue stays when its last operation was taken out.
    queues: IndexMap<u32, Queue>,
    // How many operations wait.
    len: u64,
}

impl Model for Held {
    ghost use Rattle.std.specs.Prelude.{List};
    ghost use Rattle.rls_ops.specs.declared.op.Op.{Op};
    ghost use Rattle.indexmap.specs.IndexMap.{values};
    ghost use Rattle.rls_causal.specs.Queues.{IsHeld, joined};

    ghost Value = { List Op };

    ghost view = { λ h. joined (values h.queues) };

    ghost invariant = { λ h. IsHeld h.queues.entries h.len };
}

// Written out, and not derived, so that the proof of a caller sees one call and not the drop of each field.
impl Drop for Held {
    fn drop(self) {
        let Held {
            alloc: _,
            queues: _queues,
            len: _,
        } = self;
    }
}

/// How an operation was put among those that wait.
#[derive(Drop)]
pub enum Put {
    /// It waits now.
    Added,
    /// An equal operation waited already.
    Same,
    /// A different operation waits under its number. This is a copy of it.
    Forked { held: Box<Op> },
}

impl Held {
    /// No waiting operation. It takes no memory.
    pub fn new(alloc: Global) -> Held
        ensures empty { result ≡ [] }
    {
        Held {
            alloc,
            queues: IndexMap::new(alloc),
            len: 0,
        }
    }

    /// How many operations wait.
    pub fn len(&self) -> u64
        ensures len { result ≡ length self.now }
        ensures order { IsTrue (is_in_order self.now) }
    {
        self.len
    }

    /// The waiting operations, in increasing order of author and number. A pass over all of them takes a time linear in how many
    /// wait and how many authors they are of, and no memory.
    pub fn ops(&self) -> HeldOps<'_>
        ensures ops { result ≡ self.now }
        ensures runs { ShowsInOrder (deref {X = Op}) }
    {
        HeldOps {
            ops: None,
            queues: self.queues.values(),
        }
    }

    /// The waiting operation at a place, in increasing order of author and number. It costs a step for each one before it, so
    /// a pass over all of them uses `ops`.
    pub fn op(&self, i: u64) -> &Op
        requires place { i < length self.now }
        ensures op { slice_get self.now i ≡ Some result.now }
    {
        let mut ops = self.ops();
        ops.nth(i as usize).unwrap()
    }

    /// The last waiting operation, if there is one. It costs a logarithm of how many wait of its author, and a step for each greater
    /// author of whom none waits any more.
    pub fn last(&self) -> Option<&Op>
        ensures last { option_copied result ≡ slice_get self.now (length self.now - 1) }
    {
        let mut place = self.queues.len();
        while 0 < place {
            place -= 1;
            if let Some(op) = self.queues[place].last() {
                return Some(op);
            }
        }
        None
    }

    /// What waits under this author and number. It costs a look-up of the author by its hash, and a logarithm of how many of the
    /// author's wait; and no memory.
    pub fn get(&self, author: u32, seq: u32) -> Option<&Op>
        ensures waiting { option_copied result ≡ waiting_under self.now author seq }
    {
        self.queues.get(&author)?.get(seq)
    }

    /// A copy of what waits under this author and number, to be shared. It is made when it is asked for first, and kept with the
    /// operation; later calls give the same one, and take no memory. Each costs what `get` does.
    pub fn share(&mut self, author: u32, seq: u32) -> Result<Option<Arc<Op>>, AllocError>
        ensures same { self.new ≡ self.old }
        ensures copy { IfOk result (λ copy. option_map (λ a. a.value) copy ≡ waiting_under self.old author seq) }
    {
        let alloc = self.alloc;
        let Some(queue) = self.queues.get_mut(&author) else {
            return Ok(None);
        };
        queue.share(alloc, seq)
    }

    /// The first operation whose context is at most the vector: the least author's, and of these the
    /// least number. `None` exactly where none is ready.
    ///
    /// If each context of an author counts all operations of the author before its own, it looks of this author's at most at those with
    /// numbers up to the vector's count and at one more; else at each of them up to the first ready one.
    pub fn first_ready(&self, vector: &Vector) -> Option<&Op>
        ensures ready { option_copied result ≡ first_ready_at vector.now self.now }
    {
        for queue in self.queues.values() {
            if let Some(op) = queue.first_ready(vector) {
                return Some(op);
            }
        }
        None
    }

    /// Puts an operation among those that wait, unless one waits under its author and number
    /// already: then nothing changes, and the answer says whether the two are equal. It costs what `get` does; the first operation of an
    /// author moves the queues of the greater authors too.
    pub fn put(&mut self, op: Op) -> Result<Put, AllocError>
        ensures answer { IfOk result (λ put. IsAnswer put (waiting_under self.old op.author op.seq) op) }
        ensures after { OnOk result (self.new ≡ put_in op self.old) }
        ensures err { OnErr result (self.new ≡ self.old) }
    {
        if let Some(held) = self.get(op.author, op.seq) {
            return tell_apart(self.alloc, held, &op);
        }
        self.add(op)?;
        Ok(Put::Added)
    }

    /// Takes out what waits under this author and number. `None` exactly where none does. It costs what `get` does, and no memory.
    pub fn remove(&mut self, author: u32, seq: u32) -> Option<Op>
        ensures found { result ≡ waiting_under self.old author seq }
        ensures others { self.new ≡ without author seq self.old }
    {
        let queue = self.queues.get_mut(&author)?;
        let op = queue.take_out(seq)?;
        self.len -= 1;
        Some(op)
    }

    // Puts an operation in its place, where none waits under its number.
    fn add(&mut self, op: Op) -> Result<(), AllocError>
        requires absent { waiting_under self.old op.author op.seq ≡ None }
        ensures ok { OnOk result (self.new ≡ with_waiting op self.old) }
        ensures err { OnErr result (self.new ≡ self.old) }
    {
        let Some(len) = self.len.checked_add(1) else {
            return Err(AllocError);
        };
        open(&mut self.queues, self.alloc, op.author)?;
        let Some(queue) = self.queues.get_mut(&op.author) else {
            return Err(AllocError);
        };
        queue.add(op)?;
        self.len = len;
        Ok(())
    }
}

// Gives an author a queue, where it has none.
fn open(queues: &mut IndexMap<u32, Queue>, alloc: Global, author: u32) -> Result<(), AllocError>
    requires queues { AreQueues queues.old.entries }
    ensures queues { AreQueues queues.new.entries }
    ensures same { joined (values queues.new) ≡ joined (values queues.old) }
    ensures has { OnOk result (IsSome (get nat_eq queues.new author)) }
{
    if queues.contains_key(&author) {
        return Ok(());
    }
    queues.insert_sorted(author, Queue::new(alloc))?;
    Ok(())
}

// How an operation is put where this one waits under its number.
fn tell_apart(alloc: Global, held: &Op, op: &Op) -> Result<Put, AllocError>
    ensures answer { IfOk result (λ put. IsAnswer put (Some held.now) op.now) }
{
    if held.same(op) {
        return Ok(Put::Same);
    }
    let copy = held.copy()?;
    Ok(Put::Forked {
        held: Box::new(alloc, copy)?,
    })
}
