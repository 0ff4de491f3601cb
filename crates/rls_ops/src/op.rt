//! Operations.
//! Why: CHOICES.md, 207.

ghost use Rattle.std.specs.Prelude.{◌≡◌, ◌<◌, ◌++◌, ◌∷◌, ◌==◌, [], Some, IfOk, OnOk, OnErr, length, slice_get};
ghost use Rattle.rls_ops.specs.declared.op.Body.TheVariants.{Insert};
ghost use Rattle.rls_ops.specs.Rows.{covers};
ghost use Rattle.rls_ops.specs.Waiting.{comes_before};
ghost use Rattle.rls_ops.specs.WellFormed.{IsOp, AreOps, IsBody, IsName, IsInRange};

use crate::remaining::RemainingOps;
use rls_ident::{EpochName, Ident, Vector, rely};
use rls_runs::{Runs, Text};
use std::alloc::{AllocError, Global};
use std::marker::Model;

/// What an operation does (insertion and deletion: LogootSplit, André and others, 2013; rename: RenamableLogootSplit, Nicolas,
/// Oster and Perrin; leave: this project).
#[derive(Drop)]
pub enum Body {
    /// Inserts characters. Character number i, counted from 0, has the first identifier with its last offset raised by i.
    Insert { first: Ident, text: Text },
    /// Deletes the characters with these identifiers of the operation's epoch.
    Delete { targets: Runs },
    /// Opens an epoch in which these identifiers of the operation's epoch, in order, have consecutive offsets of one new base.
    Rename { former: Runs },
    /// Ends the author's own part: nobody waits for its acknowledgements any more.
    Leave,
}

/// What a member did, with its number, its causes and the epoch in which it was done.
pub struct Op {
    /// The member that did it.
    pub author: u32,
    /// Its number among the author's operations, counted from 1.
    pub seq: u32,
    /// How many operations of each member the author had accepted before it.
    pub context: Vector,
    /// The epoch of the identifiers in the body: the greatest that the author knew.
    pub epoch: EpochName,
    pub body: Body,
}

// Written out, and not derived, so that the proof of a caller sees one call and not the drop of each field.
impl Drop for Op {
    #[inline(always)]
    fn drop(self) {
        let Op {
            author: _,
            seq: _,
            context: _context,
            epoch: _,
            body: _body,
        } = self;
    }
}

/// A list of operations.
#[derive(Drop)]
pub struct Ops {
    ops: Vec<Op>,
}

impl Model for Ops {
    ghost use Rattle.std.specs.Prelude.{List};
    ghost use Rattle.rls_ops.specs.WellFormed.{AreOps};
    ghost use Rattle.rls_ops.specs.declared.op.Op.{Op};

    ghost Value = { List Op };

    ghost view = { λ a. a.ops.items };

    ghost invariant = { λ a. AreOps a.ops.items };
}

impl Ops {
    /// The empty list. It takes no memory.
    pub fn new(alloc: Global) -> Ops
        ensures empty { result ≡ [] }
    {
        Ops {
            ops: Vec::new(alloc),
        }
    }

    /// Puts an operation after the last one. After an error it is given up, and the list is as before.
    pub fn push(&mut self, op: Op) -> Result<(), AllocError>
        ensures ok { OnOk result (self.new ≡ self.old ++ op ∷ []) }
        ensures err { OnErr result (self.new ≡ self.old) }
    {
        rely!(op.fits());
        self.ops.push(op)?;
        Ok(())
    }

    /// The number of operations.
    pub fn len(&self) -> usize
        ensures len { result ≡ length self.now }
    {
        self.ops.len()
    }

    /// Whether there is none.
    pub fn is_empty(&self) -> bool
        ensures empty { result ≡ (length self.now == 0) }
    {
        self.ops.is_empty()
    }

    /// The operation at a place, counted from 0.
    pub fn get(&self, i: usize) -> &Op
        requires place { i < length self.now }
        ensures op { slice_get self.now i ≡ Some result.now }
    {
        &self.ops[i]
    }

    /// The operations.
    pub fn as_slice(&self) -> &[Op]
        ensures ops { result.now ≡ self.now }
    {
        &self.ops
    }

    /// The operations, to be taken one after another. It costs their number.
    pub fn into_remaining(self) -> RemainingOps
        ensures ops { result ≡ self }
    {
        let Ops { ops } = self;
        RemainingOps::new(ops)
    }

    /// What the list promises: each of its operations is well formed.
    pub fn fits(&self)
        ensures whole { AreOps self.now }
    {
        rely!(let _len = self.ops.len());
    }
}

impl Op {
    /// What its fields promise: numbers in range, identifiers and a text that are well formed.
    pub fn fits(&self)
        ensures whole { IsOp self.now }
        ensures range { IsInRange self.now.body }
    {
        rely!(let _author = self.author);
        rely!(let _seq = self.seq);
        rely!(let _len = self.context.len());
        rely!(name_fits(&self.epoch));
        rely!(self.body.fits());
    }

    /// Whether it comes before another: by author, and then by number.
    pub fn precedes(&self, other: &Op) -> bool
        ensures before { result ≡ comes_before self.now other.now }
    {
        self.author < other.author || (self.author == other.author && self.seq < other.seq)
    }

    /// The same again. Lists of identifiers are copied run by run.
    pub fn copy(&self) -> Result<Op, AllocError>
        ensures copy { IfOk result (λ op. op ≡ self.now) }
    {
        Ok(Op {
            author: self.author,
            seq: self.seq,
            context: self.context.copy()?,
            epoch: self.epoch,
            body: self.body.copy()?,
        })
    }
}

impl Body {
    fn fits(&self)
        ensures whole { IsBody self.now }
        ensures range { IsInRange self.now }
    {
        match self {
            Body::Insert { first, text } => {
                rely!(let _last = first.last());
                rely!(let _len = text.len());
            }
            Body::Delete { targets } => {
                rely!(let _total = targets.total());
            }
            Body::Rename { former } => {
                rely!(let _total = former.total());
            }
            Body::Leave => {}
        }
    }

    /// The same again.
    pub fn copy(&self) -> Result<Body, AllocError>
        ensures copy { IfOk result (λ body. body ≡ self.now) }
    {
        match self {
            Body::Insert { first, text } => copy_insertion(first, text),
            Body::Delete { targets } => Ok(Body::Delete {
                targets: targets.copy()?,
            }),
            Body::Rename { former } => Ok(Body::Rename {
                former: former.copy()?,
            }),
            Body::Leave => Ok(Body::Leave),
        }
    }
}

fn copy_insertion(first: &Ident, text: &Text) -> Result<Body, AllocError>
    ensures copy { IfOk result (λ body. body ≡ Insert first.now text.now) }
{
    Ok(Body::Insert {
        first: first.copy()?,
        text: text.copy()?,
    })
}

fn name_fits(name: &EpochName)
    ensures whole { IsName name.now }
{
    if let EpochName::Of { replica, seq } = name {
        rely!(let _replica = *replica);
        rely!(let _seq = *seq);
    }
}

/// Whether a vector covers an author's operation with this number: the number is at most the vector's count of the author, which is 0 of
/// one that isn't a member. It takes no memory.
pub fn covers(vector: &Vector, author: u32, seq: u32) -> bool
    ensures covered { result ≡ covers vector.now author seq }
{
    match vector.counts().get(author as usize) {
        Some(count) => seq <= *count,
        None => seq == 0,
    }
}

/// What is wrong with the shape of an operation. Of several faults the first in this order counts.
#[derive(Clone, Copy, Debug, PartialEq, Eq)]
pub enum Shape {
    /// The author isn't a member.
    Author,
    /// The number is 0, the context hasn't a count for each member, or its count of the author isn't the number less one.
    Context,
    /// There is no character or identifier.
    EmptyBody,
    /// An insertion of n characters, more than 1,048,576; or a deletion or rename of n identifiers, more than 4,194,304.
    TooLong { n: u64 },
    /// The last character of an insertion would have an offset above 1,073,741,823.
    OffsetEnd,
}
