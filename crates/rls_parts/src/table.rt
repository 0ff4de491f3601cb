//! The stems of all authors.
//! Why: CHOICES.md, 202.

ghost use Rattle.std.specs.Prelude.{◌≡◌, ◌+◌, ◌^◌, ◌<◌, ◌≤◌, ◌++◌, ◌∷◌, [], pos, OnOk, OnErr, IfOk, IfSome, IfNone, IsTrue, length, option_copied, ◌-ℤ◌, if◌then◌else◌, slice_index, ◌+ℤ◌, ◌<ℤ◌, ◌≤ℤ◌};
ghost use Rattle.rls_ident.specs.Between.{are_bounds, between, bound_tuples};
ghost use Rattle.rls_ident.specs.Identifiers.{last_of, shifted, greatest_offset};
ghost use Rattle.rls_ident.specs.Tuples.{at_spot, offset_of};
ghost use Rattle.rls_ops.specs.Shapes.{body_len};
ghost use Rattle.rls_model.specs.Editing.{own_stem, ends_below, is_above, may_append, may_prepend, first_between};
ghost use Rattle.rls_ident.specs.Lists.{IsIn};
ghost use Rattle.rls_model.specs.declared.parts.Stem.{Stem as StemSeen};
ghost use Rattle.rls_model.specs.Stems.{stands_before, stem_of, due_of, due_offset, is_due, ends_at_low, may_use, new_stem, with_stem, with_extended, stems_after, stems_after_insert};
ghost use Rattle.rls_parts.specs.Tables.{IsNewest};

use crate::line::{Line, Reach};
use crate::neighbour::Neighbour;
use rls_ident::limits::{GREATEST_OFFSET, LEAST_OFFSET};
use rls_ident::{Ident, Spot, between};
use rls_model::{Stem, Stems};
use rls_ops::Body;
use std::alloc::{AllocError, Global};
use std::marker::Model;

/// The stems of all authors: one list for each, to whose end each new stem goes.
#[derive(Drop)]
pub struct StemTable {
    pub(crate) lines: Vec<Line>,
}

impl Model for StemTable {
    ghost use Rattle.std.specs.Prelude.{length, ◌<◌, ◌^◌};
    ghost use Rattle.rls_parts.specs.Seen.{StemsSeen};
    ghost use Rattle.rls_parts.specs.Tables.{seen_of};

    ghost Value = { StemsSeen };

    ghost view = { λ t. seen_of t.lines.items };

    ghost invariant = { λ t. length t.lines.items < 2 ^ 32 };
}

impl StemTable {
    /// No stem, of this many authors. It takes a few words for each author.
    pub fn new(alloc: Global, members: u32) -> Result<StemTable, AllocError>
        ensures stems { IfOk result (λ table. table.stems ≡ []) }
        ensures members { IfOk result (λ table. table.members ≡ members) }
    {
        let mut lines = Vec::with_capacity(alloc, members as usize)?;
        'lines: for _ in 0..members {
            lines.push(Line::new(alloc))?;
        }
        Ok(StemTable { lines })
    }

    /// Puts a stem after all others, which are of lesser authors, or of lesser numbers of its own. After an error the stems are as
    /// before.
    pub fn push(&mut self, stem: &Stem) -> Result<(), AllocError>
        requires author { stem.now.author < self.old.members }
        requires last { (t : StemSeen) → IsIn t self.old.stems → IsTrue (stands_before stem.now.author stem.now.s0 t) }
        ensures ok { OnOk result (self.new.stems ≡ self.old.stems ++ stem.now ∷ []) }
        ensures err { OnErr result (self.new.stems ≡ self.old.stems) }
        ensures members { self.new.members ≡ self.old.members }
    {
        self.reserve(stem.author)?;
        self.put(stem);
        Ok(())
    }

    // The same, where there is room.
    fn put(&mut self, stem: &Stem)
        requires author { stem.now.author < self.old.members }
        requires room { 0 < slice_index self.old.spare stem.now.author }
        requires newest { IsNewest self.old.stems stem.now.author stem.now.s0 }
        ensures stems { self.new.stems ≡ with_stem stem.now self.old.stems }
        ensures members { self.new.members ≡ self.old.members }
    {
        self.lines[stem.author as usize].push(Reach::of(stem));
    }

    /// The stem of an author and a number. It costs a comparison of numbers for each halving of the author's stems, and takes no
    /// memory.
    pub fn get(&self, author: u32, s0: u32) -> Option<Stem>
        ensures stem { result ≡ stem_of self.now.stems author s0 }
    {
        if author as usize >= self.lines.len() {
            return None;
        }
        self.lines[author as usize].stem(author, s0)
    }

    /// Whether an insertion of this many characters by this author with this number may begin with an identifier whose last tuple
    /// this is: at the next offset of the stem, or right before its low. It costs as much as `get`.
    pub fn may_use(&self, author: u32, seq: u32, last: Spot, count: usize) -> bool
        ensures may_use { result ≡ may_use self.now.stems author seq (at_spot last) count }
    {
        if last.replica != author {
            return false;
        }
        let stem = self.get(author, last.seq);
        if last.seq == seq && last.offset == 0 {
            return true;
        }
        (last.seq != seq && is_next(&stem, last.offset)) || ends_at_low(&stem, last.offset, count)
    }

    /// The offset with which an insertion by this author with this number may go on where its first identifier has this last tuple:
    /// 0 in a stem of this number, else the next one of the tuple's stem. It costs as much as `get`.
    pub fn due(&self, author: u32, seq: u32, last: Spot) -> Option<u32>
        ensures due { result ≡ due_offset self.now.stems author seq (at_spot last) }
    {
        if last.replica != author {
            return None;
        }
        if last.seq == seq {
            return Some(0);
        }
        let stem = self.get(author, last.seq)?;
        Some(stem.next)
    }

    /// Makes room for one more stem of this author. After an error the stems are as before.
    pub fn reserve(&mut self, author: u32) -> Result<(), AllocError>
        requires author { author < self.old.members }
        ensures stems { self.new.stems ≡ self.old.stems }
        ensures members { self.new.members ≡ self.old.members }
        ensures room { OnOk result (0 < slice_index self.new.spare author) }
    {
        self.lines[author as usize].reserve()
    }

    /// What an accepted operation of this author with this number uses: a new stem, which goes to the end, or more offsets of one.
    /// It costs as much as `get`, takes no memory, and cannot fail.
    pub fn note(&mut self, author: u32, seq: u32, body: &Body)
        requires author { author < self.old.members }
        requires room { 0 < slice_index self.old.spare author }
        requires newest { IsNewest self.old.stems author seq }
        requires brief { body_len body.now < 2 ^ 31 }
        ensures stems { self.new.stems ≡ stems_after self.old.stems author seq body.now }
        ensures members { self.new.members ≡ self.old.members }
    {
        match body {
            Body::Insert { first, text } => {
                self.note_insertion(author, seq, first.last(), text.len() as u32);
            }
            Body::Rename { former } => self.begin(author, seq, former.total() as u32),
            Body::Delete { .. } | Body::Leave => {}
        }
    }

    /// The first identifier of an insertion of this many characters between these neighbours, by this member's operation with this
    /// number: after the left neighbour where its stem goes on there, else before the right one, else between the two. It costs as
    /// much as `get` and a comparison of identifiers, and takes memory for the identifier, and for the neighbours where it is between
    /// the two.
    pub fn first_between(
        &self,
        alloc: Global,
        me: u32,
        seq: u32,
        left: Option<&Neighbour<'_>>,
        right: Option<&Neighbour<'_>>,
        count: usize,
    ) -> Result<Ident, AllocError>
        requires order { IsTrue (are_bounds (option_copied left) (option_copied right)) }
        requires some { 0 < count }
        requires brief { count < 2 ^ 31 }
        ensures first { IfOk result (λ id. id ≡ first_between self.now.stems me seq (option_copied left.entry) (option_copied right.entry) count) }
    {
        let count = count as u32;
        if let Some(before) = left {
            if self.may_append(me, before, right, count)? {
                return before.shifted(1);
            }
        }
        if let Some(behind) = right {
            if let Some(first) = self.first_in_front(me, left, behind, count)? {
                return Ok(first);
            }
        }
        first_inside(alloc, me, seq, left, right)
    }

    /// The stems by author and number, copied one by one.
    pub fn to_stems(&self) -> Result<Stems, AllocError>
        ensures stems { IfOk result (λ all. all ≡ self.now.stems) }
    {
        let mut stems = Stems::new(*self.lines.allocator());
        for (author, line) in self.lines.iter().enumerate() {
            line.copy_to(author as u32, &mut stems)?;
        }
        Ok(stems)
    }

    // What an insertion uses whose first identifier ends in this tuple.
    fn note_insertion(&mut self, author: u32, seq: u32, last: Spot, count: u32)
        requires author { author < self.old.members }
        requires room { 0 < slice_index self.old.spare author }
        requires newest { IsNewest self.old.stems author seq }
        requires brief { count < 2 ^ 31 }
        ensures stems { self.new.stems ≡ stems_after_insert self.old.stems author seq (at_spot last) count }
        ensures members { self.new.members ≡ self.old.members }
    {
        if last.replica != author {
            return;
        }
        if last.seq == seq {
            self.begin(author, seq, count);
        } else {
            self.extend(author, last, count);
        }
    }

    // A new stem whose first offsets, so many, are used.
    fn begin(&mut self, author: u32, seq: u32, count: u32)
        requires author { author < self.old.members }
        requires room { 0 < slice_index self.old.spare author }
        requires newest { IsNewest self.old.stems author seq }
        ensures stems { self.new.stems ≡ with_stem (new_stem author seq count) self.old.stems }
        ensures members { self.new.members ≡ self.old.members }
    {
        self.lines[author as usize].push(Reach {
            s0: seq,
            low: 0,
            next: count,
        });
    }

    // More offsets of the stem that the tuple belongs to, where there is one.
    fn extend(&mut self, author: u32, last: Spot, count: u32)
        requires author { author < self.old.members }
        requires brief { count < 2 ^ 31 }
        ensures stems { self.new.stems ≡ with_extended (stem_of self.old.stems author last.seq) last.offset count self.old.stems }
        ensures members { self.new.members ≡ self.old.members }
    {
        self.lines[author as usize].grow(last, count);
    }

    // Whether so many characters may follow the left neighbour in its stem.
    fn may_append(
        &self,
        me: u32,
        left: &Neighbour<'_>,
        right: Option<&Neighbour<'_>>,
        count: u32,
    ) -> Result<bool, AllocError>
        requires brief { count < 2 ^ 31 }
        ensures append { IfOk result (λ b. b ≡ may_append (own_stem self.now.stems me (last_of left.now)) left.now (option_copied right.entry) count) }
    {
        let last = left.last();
        let Some(stem) = self.own_stem(me, last) else {
            return Ok(false);
        };
        if last.offset as i64 + 1 != stem.next as i64
            || last.offset as i64 + count as i64 > GREATEST_OFFSET as i64
        {
            return Ok(false);
        }
        ends_below(left, count, right)
    }

    // The first of so many characters before the right neighbour in its stem, if they may stand there.
    fn first_in_front(
        &self,
        me: u32,
        left: Option<&Neighbour<'_>>,
        right: &Neighbour<'_>,
        count: u32,
    ) -> Result<Option<Ident>, AllocError>
        requires brief { count < 2 ^ 31 }
        ensures first { IfOk result (λ first. first ≡ (if may_prepend (own_stem self.now.stems me (last_of right.now)) (option_copied left.entry) right.now count then Some (shifted (pos 0 -ℤ pos count) right.now) else None)) }
    {
        let last = right.last();
        let Some(stem) = self.own_stem(me, last) else {
            return Ok(None);
        };
        if last.offset != stem.low || last.offset as i64 - (count as i64) < LEAST_OFFSET as i64 {
            return Ok(None);
        }
        let first = right.lowered(count)?;
        if begins_above(left, &first) {
            Ok(Some(first))
        } else {
            Ok(None)
        }
    }

    // The member's own stem that the tuple belongs to.
    fn own_stem(&self, me: u32, last: Spot) -> Option<Stem>
        ensures own { result ≡ own_stem self.now.stems me (at_spot last) }
    {
        if last.replica != me {
            return None;
        }
        self.get(me, last.seq)
    }
}

fn is_next(stem: &Option<Stem>, offset: i32) -> bool
    ensures next { result ≡ is_due (due_of stem.now) offset }
{
    match stem {
        None => false,
        Some(stem) => offset as i64 == stem.next as i64,
    }
}

#[tactic(auto, using(crate::proofs::Tabled::gap_test, crate::proofs::Tabled::no_gap))]
fn ends_at_low(stem: &Option<Stem>, offset: i32, count: usize) -> bool
    ensures low { result ≡ ends_at_low stem.now offset count }
{
    match stem {
        None => false,
        Some(stem) => match gap_up_to(offset, stem.low) {
            None => false,
            Some(gap) => gap == count as u64,
        },
    }
}

// How far the low is above the offset, if it isn't below it.
fn gap_up_to(offset: i32, low: i32) -> Option<u64>
    ensures gap { IfSome result (λ gap. (offset +ℤ pos gap) ≡ low) }
    ensures none { IfNone result (low <ℤ offset) }
{
    if low < offset {
        return None;
    }
    Some((low as i64 - offset as i64) as u64)
}

// Whether the identifier with the last offset greater by this much is less than the right neighbour, where there is one.
fn ends_below(
    id: &Neighbour<'_>,
    by: u32,
    right: Option<&Neighbour<'_>>,
) -> Result<bool, AllocError>
    requires greatest { (offset_of (last_of id.now) +ℤ pos by) ≤ℤ greatest_offset }
    ensures below { IfOk result (λ b. b ≡ ends_below (shifted (pos by) id.now) (option_copied right.entry)) }
{
    match right {
        None => Ok(true),
        Some(right) => Ok(id.compare_shifted_to(by, right)?.is_lt()),
    }
}

// Whether the left neighbour is less than the identifier, where there is one.
fn begins_above(left: Option<&Neighbour<'_>>, id: &Ident) -> bool
    ensures above { result ≡ is_above (option_copied left.entry) id.now }
{
    match left {
        None => true,
        Some(left) => left.compare(id).is_lt(),
    }
}

// A new identifier between the two neighbours.
fn first_inside(
    alloc: Global,
    me: u32,
    seq: u32,
    left: Option<&Neighbour<'_>>,
    right: Option<&Neighbour<'_>>,
) -> Result<Ident, AllocError>
    requires order { IsTrue (are_bounds (option_copied left) (option_copied right)) }
    ensures between { IfOk result (λ id. id ≡ between (bound_tuples (option_copied left.entry)) (bound_tuples (option_copied right.entry)) me seq) }
{
    let left = copy_of(left)?;
    let right = copy_of(right)?;
    between(alloc, left.as_ref(), right.as_ref(), me, seq)
}

fn copy_of(neighbour: Option<&Neighbour<'_>>) -> Result<Option<Ident>, AllocError>
    ensures copy { IfOk result (λ id. id ≡ option_copied neighbour.entry) }
{
    match neighbour {
        None => Ok(None),
        Some(neighbour) => Ok(Some(neighbour.copy()?)),
    }
}
