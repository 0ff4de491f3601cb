//! The stems of one author.

ghost use Rattle.std.specs.Prelude.{◌≡◌, ◌+◌, ◌^◌, ◌<◌, ◌≤◌, ◌++◌, ◌∷◌, [], ◌≤ℤ◌, OnOk, IfSome, IfNone, None, Some, length, map, slice_get};
ghost use Rattle.std.specs.Option.{option_map};
ghost use Rattle.rls_parts.specs.declared.line.Reach.{Reach as ReachSeen};
ghost use Rattle.rls_parts.specs.Reaches.{stem_at, reach_of, with_reach, grown, with_grown, AreBelow, AreRising, place_in, IsPlaceOf};

use rls_ident::Spot;
use rls_model::{Stem, Stems};
use std::alloc::{AllocError, Global};
use std::marker::Model;

/// The offsets of one number that were used: from low to the one before next.
#[derive(Clone, Copy)]
pub(crate) struct Reach {
    /// The number of the operation that began the stem.
    pub(crate) s0: u32,
    pub(crate) low: i32,
    pub(crate) next: u32,
}

/// The stems of one author, in increasing order of their numbers.
#[derive(Drop)]
pub(crate) struct Line {
    reaches: Vec<Reach>,
}

impl Model for Line {
    ghost use Rattle.std.specs.Prelude.{◌-◌, length, vec_capacity};
    ghost use Rattle.rls_parts.specs.Lines.{LineSeen};
    ghost use Rattle.rls_parts.specs.Reaches.{AreRising};

    ghost Value = { LineSeen };

    ghost view = { λ l. record { reaches = l.reaches.items; spare = vec_capacity l.reaches - length l.reaches.items } };

    ghost invariant = { λ l. AreRising l.reaches.items };
}

impl Line {
    /// No stem. It takes no memory.
    pub(crate) fn new(alloc: Global) -> Line
        ensures empty { result.reaches ≡ [] }
    {
        Line {
            reaches: Vec::new(alloc),
        }
    }

    /// How many stems there are.
    pub(crate) fn count(&self) -> usize
        ensures count { result ≡ length self.now.reaches }
    {
        self.reaches.len()
    }

    /// This author's stem at a place, by number.
    pub(crate) fn nth(&self, author: u32, i: usize) -> Stem
        requires place { i < length self.now.reaches }
        ensures stem { (r : ReachSeen) → slice_get self.now.reaches i ≡ Some r → result ≡ stem_at author r }
    {
        self.reaches[i].as_stem(author)
    }

    /// This author's stem of this number. It costs a comparison of numbers for each halving of the stems.
    pub(crate) fn stem(&self, author: u32, s0: u32) -> Option<Stem>
        ensures stem { result ≡ option_map (stem_at author) (reach_of self.now.reaches s0) }
    {
        match self.find(s0) {
            None => None,
            Some(reach) => Some(reach.as_stem(author)),
        }
    }

    fn find(&self, s0: u32) -> Option<Reach>
        ensures found { result ≡ reach_of self.now.reaches s0 }
    {
        let place = find_place(&self.reaches, s0)?;
        Some(self.reaches[place])
    }

    /// Makes room for one more.
    pub(crate) fn reserve(&mut self) -> Result<(), AllocError>
        ensures same { self.new.reaches ≡ self.old.reaches }
        ensures ok { OnOk result (0 < self.new.spare) }
    {
        self.reaches.reserve(1)?;
        Ok(())
    }

    /// Puts a stem of a greater number after the last one. It takes no memory, and cannot fail.
    pub(crate) fn push(&mut self, reach: Reach)
        requires room { 0 < self.old.spare }
        requires newest { AreBelow reach.s0 self.old.reaches }
        ensures reaches { self.new.reaches ≡ with_reach reach self.old.reaches }
    {
        self.reaches.push(reach).unwrap();
    }

    /// So many more offsets of the tuple's number from its own on were used. It takes no memory.
    pub(crate) fn grow(&mut self, last: Spot, count: u32)
        requires brief { count < 2 ^ 31 }
        ensures reaches { self.new.reaches ≡ with_grown (reach_of self.old.reaches last.seq) last.offset count self.old.reaches }
    {
        if let Some(place) = find_place(&self.reaches, last.seq) {
            let reach = self.reaches[place].grown(last, count);
            self.reaches[place] = reach;
        }
    }

    /// Puts the stems, as this author's, after others.
    pub(crate) fn copy_to(&self, author: u32, stems: &mut Stems) -> Result<(), AllocError>
        ensures ok { OnOk result (stems.new ≡ stems.old ++ map (stem_at author) self.now.reaches) }
    {
        for reach in &self.reaches {
            stems.push(reach.as_stem(author))?;
        }
        Ok(())
    }
}

impl Reach {
    /// How far the stem reaches.
    pub(crate) fn of(stem: &Stem) -> Reach
        ensures reach { stem_at stem.now.author result ≡ stem.now }
    {
        Reach {
            s0: stem.s0,
            low: stem.low,
            next: stem.next,
        }
    }

    /// The author's stem that reaches so far.
    pub(crate) fn as_stem(&self, author: u32) -> Stem
        ensures stem { result ≡ stem_at author self.now }
    {
        Stem {
            author,
            s0: self.s0,
            low: self.low,
            next: self.next,
        }
    }

    // With so many more offsets from this tuple's on: after the end, or else before the low.
    fn grown(&self, last: Spot, count: u32) -> Reach
        requires brief { count < 2 ^ 31 }
        ensures grown { result ≡ grown self.now last.offset count }
    {
        if last.offset as i64 == self.next as i64 {
            Reach {
                next: self.next + count,
                ..*self
            }
        } else {
            Reach {
                low: last.offset,
                ..*self
            }
        }
    }
}

// Where this number is, if it is there.
fn find_place(reaches: &[Reach], s0: u32) -> Option<usize>
    requires rising { AreRising reaches.now }
    ensures some { IfSome result (λ i. IsPlaceOf reaches.now s0 i) }
    ensures none { IfNone result (reach_of reaches.now s0 ≡ None) }
{
    let place = place_of(reaches, s0);
    if place < reaches.len() && reaches[place].s0 == s0 {
        return Some(place);
    }
    None
}

// How many have numbers below this one.
fn place_of(reaches: &[Reach], s0: u32) -> usize
    requires rising { AreRising reaches.now }
    ensures place { result ≡ place_in reaches.now s0 }
{
    let (mut low, mut high) = (0, reaches.len());
    while low < high {
        let middle = low + (high - low) / 2;
        if reaches[middle].s0 < s0 {
            low = middle + 1;
        } else {
            high = middle;
        }
    }
    low
}
