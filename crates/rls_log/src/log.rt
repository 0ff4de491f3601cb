//! The log: operations in order, kept as bytes.
//! Why: docs/DECISIONS.md, 142, 235; CHOICES.md, 144, 180, 219.

ghost use Rattle.std.specs.Prelude.{◌≡◌, ◌<◌, ◌^◌, IsTrue, All, ◌++◌, ◌∷◌, [], ◌==◌, Some, length, take, slice_get, IfOk, IfSome, OnOk, OnErr};
ghost use Rattle.rls_ident.specs.Vectors.{at_most};
ghost use Rattle.rls_ops.specs.declared.op.Op.{Op as OpSeen};
ghost use Rattle.rls_codec.specs.Spelled.{IsSpelledIfFit};
ghost use Rattle.rls_ops.specs.Rows.{missing_for};
ghost use Rattle.rls_ops.specs.Sizes.{op_size};
ghost use Rattle.rls_ops.specs.Spelling.{op_bytes};
ghost use Rattle.rls_log.specs.Heads.{IsHeadOf};
ghost use Rattle.rls_log.specs.Fitting.{AreFit};
ghost use Rattle.rls_log.specs.Encoded.{AreEntries, SpellOne, op_spelled, ops_in};
ghost use Rattle.rls_log.specs.Large.{AreLarge};

use crate::context::is_context_at_most;
use crate::entry::{Entry, start_of};
use crate::head::OpHead;
use crate::large::{
    LargeDeletion, copy_of_value, drop_covered, drop_from, keep_large, keep_value, value_of,
};
use crate::latest::Latest;
use rls_codec::{ReadError, encode_op, op_fields};
use rls_ident::{Vector, rely};
use rls_ops::Op;
use std::alloc::{AllocError, Global};
use std::marker::Model;

/// Operations in order, kept as the bytes that spell them. What is asked most of an operation, all but its context and its body,
/// stands beside the bytes: it costs no reading. An operation takes its bytes in memory, and 40 more. A deletion of more than 512 bytes
/// is there as a value too, since its targets may be looked up again and again. A member takes four bytes, for the number of its last
/// operation: by these numbers a call that asks for what a vector doesn't cover finds from the end of the log where it begins.
#[derive(Drop)]
pub struct Log {
    pub(crate) bytes: Vec<u8>,
    pub(crate) entries: Vec<Entry>,
    /// In the order of the entries.
    pub(crate) values: Vec<LargeDeletion>,
    pub(crate) latest: Latest,
}

impl Model for Log {
    ghost use Rattle.std.specs.Prelude.{List};
    ghost use Rattle.rls_ops.specs.declared.op.Op.{Op};

    ghost Value = { List Op };

    ghost use Rattle.rls_log.specs.Encoded.{ops_in};
    ghost use Rattle.rls_log.specs.Latest.{IsLog};

    ghost view = { λ l. ops_in l.bytes.items l.entries.items };

    ghost invariant = { λ l. IsLog l.bytes.items l.entries.items l.values.items l.latest };
}

impl Log {
    /// No operation. It takes no memory.
    pub fn new(alloc: Global) -> Log
        ensures empty { result ≡ [] }
    {
        Log {
            bytes: Vec::new(alloc),
            entries: Vec::new(alloc),
            values: Vec::new(alloc),
            latest: Latest::new(alloc),
        }
    }

    // The operations of these entries of these bytes.
    pub(crate) fn of_entries(
        alloc: Global,
        bytes: Vec<u8>,
        entries: Vec<Entry>,
        values: Vec<LargeDeletion>,
    ) -> Result<Log, AllocError>
        requires entries { AreEntries bytes.items entries.items }
        requires values { AreLarge bytes.items values.items }
        ensures ops { IfOk result (λ log. log ≡ ops_in bytes.items entries.items) }
    {
        let latest = Latest::of(alloc, &entries)?;
        Ok(Log {
            bytes,
            entries,
            values,
            latest,
        })
    }

    /// Puts a copy of an operation after the last one. It costs what spelling it costs. After an error all is as before; an operation of
    /// 4,294,967,296 bytes or more always fails.
    pub fn push(&mut self, op: &Op) -> Result<(), AllocError>
        ensures ok { OnOk result (self.new ≡ self.old ++ op.now ∷ []) }
        ensures err { OnErr result (self.new ≡ self.old) }
    {
        if !is_short(op) {
            return Err(AllocError);
        }
        rely!(op.fits());
        self.entries.reserve(1)?;
        self.latest.reserve(op.context.len() as u32)?;
        let start = self.bytes.len();
        encode_op(&mut self.bytes, op)?;
        let entry = Entry {
            head: OpHead::of(op, op.context.len() as u32),
            start,
            len: (self.bytes.len() - start) as u32,
        };
        keep_large(&mut self.values, entry, op)?;
        self.latest.note(&entry.head);
        self.entries.push(entry).unwrap();
        Ok(())
    }

    /// Keeps the first `n` operations, or all of them if they are fewer. It takes no memory. The bytes of the others are used again once no
    /// operation is left.
    pub fn truncate(&mut self, n: usize)
        ensures first { self.new ≡ take n self.old }
    {
        drop_from(&mut self.values, start_of(&self.entries, n));
        self.entries.truncate(n);
        if self.entries.is_empty() {
            self.bytes.clear();
            self.values.clear();
        }
    }

    /// The number of operations.
    pub fn len(&self) -> usize
        ensures len { result ≡ length self.now }
    {
        self.entries.len()
    }

    /// Whether there is none.
    pub fn is_empty(&self) -> bool
        ensures empty { result ≡ (length self.now == 0) }
    {
        self.entries.is_empty()
    }

    /// What is known without its body of the operation at a place, counted from 0.
    pub fn head(&self, i: usize) -> OpHead
        requires place { i < length self.now }
        ensures head { (o : OpSeen) × (slice_get self.now i ≡ Some o) × IsHeadOf result o }
    {
        self.entries[i].head
    }

    /// The bytes of the operation at a place, counted from 0.
    pub fn part(&self, i: usize) -> &[u8]
        requires place { i < length self.now }
        ensures part { (o : OpSeen) → slice_get self.now i ≡ Some o → result.now ≡ op_bytes o }
    {
        self.entries[i].part(&self.bytes)
    }

    /// The operation at a place, counted from 0, made of its bytes.
    pub fn op(&self, i: usize) -> Result<Op, AllocError>
        requires place { i < length self.now }
        ensures op { IfOk result (λ op. slice_get self.now i ≡ Some op) }
    {
        let entry = &self.entries[i];
        read_op(
            *self.bytes.allocator(),
            entry.head.members,
            entry.part(&self.bytes),
        )
    }

    /// The operation at a place, counted from 0, if the log has it as a value: a large deletion. It takes no memory.
    pub fn large_deletion(&self, i: usize) -> Option<&Op>
        requires place { i < length self.now }
        ensures op { IfSome result (λ op. slice_get self.now i ≡ Some op.now) }
    {
        value_of(&self.values, &self.entries[i])
    }

    /// Whether the context of the operation at a place, counted from 0, counts at most what a vector counts, member by member. It is
    /// compared where it stands, which takes no memory.
    pub fn context_at_most(&self, i: usize, vector: &Vector) -> bool
        requires place { i < length self.now }
        ensures test { (o : OpSeen) → slice_get self.now i ≡ Some o → result ≡ at_most o.context vector.now }
    {
        let entry = &self.entries[i];
        is_context_at_most(entry.head.members, entry.part(&self.bytes), vector.counts())
    }

    /// Keeps the operations whose number is above the vector's count of their author. If most of the bytes are of none then, what is
    /// left moves together if there is memory for it, and stays where it is if there isn't.
    #[tactic(auto, using(crate::proofs::Uncovered::uncovered_again))]
    pub fn drop_at_most(&mut self, stable: &Vector)
        ensures kept { self.new ≡ missing_for stable.now self.old }
    {
        self.keep_missing(stable);
        if self.is_mostly_waste() {
            if let Ok(log) = self.missing(stable) {
                *self = log;
            }
        }
    }

    // Keeps the operations that a vector doesn't cover, and all bytes.
    fn keep_missing(&mut self, vector: &Vector)
        ensures kept { self.new ≡ missing_for vector.now self.old }
    {
        self.entries.retain(|entry| !entry.head.is_covered(vector));
        drop_covered(&mut self.values, vector);
    }

    /// A log of the operations that a vector doesn't cover, in order.
    pub fn missing(&self, vector: &Vector) -> Result<Log, AllocError>
        ensures missing { IfOk result (λ log. log ≡ missing_for vector.now self.now) }
    {
        let alloc = *self.bytes.allocator();
        let (mut bytes, mut entries) = (Vec::new(alloc), Vec::new(alloc));
        let mut values = Vec::new(alloc);
        for i in 0..self.entries.len() {
            let entry = &self.entries[i];
            if entry.head.is_covered(vector) {
                continue;
            }
            let moved = entry.moved_to(bytes.len());
            bytes.extend_from_slice(entry.part(&self.bytes))?;
            keep_value(&mut values, moved, copy_of_value(&self.values, entry)?)?;
            entries.push(moved)?;
        }
        let log = Log::of_entries(alloc, bytes, entries, values)?;
        Ok(log)
    }

    // Whether most of the bytes are of no operation any more.
    fn is_mostly_waste(&self) -> bool {
        let mut waste = self.bytes.len();
        for entry in &self.entries {
            waste = waste.saturating_sub(entry.len as usize);
        }
        waste > self.bytes.len() / 2
    }

    /// What the log promises: each of its operations is well formed.
    pub fn fits(&self)
        ensures whole { AreFit self.now }
        ensures spelled { All IsSpelledIfFit self.now }
    {
        rely!(let _len = self.entries.len());
    }
}

// Whether it has fewer than 4,294,967,296 bytes. They are counted only if there may be more.
fn is_short(op: &Op) -> bool
    ensures short { IsTrue result → op_size op.now < 2 ^ 32 }
{
    let most = u32::MAX as u64;
    op.most_bytes() <= most || op.encoded_len() <= most
}

// The operation that the bytes spell.
fn read_op(alloc: Global, members: u32, bytes: &[u8]) -> Result<Op, AllocError>
    requires spelled { SpellOne members bytes.now }
    ensures op { IfOk result (λ op. op ≡ op_spelled members bytes.now) }
{
    match op_fields(alloc, members, bytes) {
        Ok((op, _)) => Ok(op),
        Err(ReadError::Fault { .. }) => unreachable!(),
        Err(ReadError::OutOfMemory) => Err(AllocError),
    }
}
