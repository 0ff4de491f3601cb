//! Names that follow one another.

ghost use Rattle.std.specs.Prelude.{◌≡◌, ◌<◌, ◌≤◌, ◌+◌, ◌-◌, ◌++◌, ◌∷◌, [], ℕ, List, length, None, IfOk, IfSome, IsTrue, IsFalse, true, false, ◌+ℤ◌, ◌^◌, pos};
ghost use Rattle.rls_ident.specs.declared.tuple.Tuple.{Tuple};
ghost use Rattle.rls_ident.specs.Identifiers.{shifted};
ghost use Rattle.rls_ident.specs.Lists.{IsIn};
ghost use Rattle.rls_steps.specs.Heights.{AreUpTo, IsOver};
ghost use Rattle.rls_steps.specs.NameRuns.{IsStretch, AreLabelsOf, AreOutside, name_at, names_in, names_of, names_by, step_by};

use crate::height::Height;
use rls_ident::{Ident, Spot, rely};
use std::alloc::AllocError;
use std::marker::Model;

/// Identifiers of one run with consecutive labels, as names that follow one another. Both rise, or both fall.
#[derive(Drop)]
pub(crate) struct NameRun {
    // Of the oldest name.
    first: Ident,
    label: u64,
    down: bool,
    len: u32,
}

impl Model for NameRun {
    ghost use Rattle.rls_steps.specs.NameRuns.{Stretch, IsStretch};

    ghost Value = { Stretch };

    ghost view = { λ r. record { first = r.first; label = r.label; down = r.down; len = r.len } };

    ghost invariant = { λ r. IsStretch r.first r.label r.down r.len };
}

impl NameRun {
    // A run of one name. It takes no memory.
    pub(crate) fn of(first: Ident, label: u64) -> NameRun
        ensures names { names_of result ≡ (first, label) ∷ [] }
        ensures first { result.first ≡ first }
        ensures sound { IsStretch result.first result.label result.down result.len }
    {
        rely!(let _last = first.last());
        NameRun {
            first,
            label,
            down: false,
            len: 1,
        }
    }

    // Names of which the oldest is this one. The identifiers and the labels of the others fall, or rise. It takes no memory.
    pub(crate) fn new(first: Ident, label: u64, down: bool, len: u32) -> NameRun
        requires sound { IsStretch first label down len }
        ensures run { result ≡ record { first = first; label = label; down = down; len = len } }
    {
        NameRun {
            first,
            label,
            down,
            len,
        }
    }

    // The same again.
    pub(crate) fn copy(&self) -> Result<NameRun, AllocError>
        ensures copy { IfOk result (λ r. r ≡ self.now) }
    {
        Ok(NameRun {
            first: self.first.copy()?,
            label: self.label,
            down: self.down,
            len: self.len,
        })
    }

    // How many names there are.
    pub(crate) fn len(&self) -> usize
        ensures len { result ≡ self.now.len }
        ensures some { 0 < result }
        ensures few { result < 2 ^ 32 }
    {
        self.len as usize
    }

    // The identifier of the first name, again.
    pub(crate) fn first(&self) -> Result<Ident, AllocError>
        ensures first { IfOk result (λ x. x ≡ self.now.first) }
        ensures sound { IsStretch self.now.first self.now.label self.now.down self.now.len }
    {
        self.first.copy()
    }

    // The identifier of the first name.
    pub(crate) fn into_first(self) -> Ident
        ensures first { result ≡ self.first }
    {
        self.first
    }

    // The identifier at a place.
    pub(crate) fn ident(&self, k: usize) -> Result<Ident, AllocError>
        requires place { k < self.now.len }
        ensures ident { IfOk result (λ x. x ≡ (name_at self.now k).0) }
    {
        rely!(let _len = self.len());
        if self.down {
            return self.first.lowered(k as u32);
        }
        self.first.shifted(k as u32)
    }

    // The label at a place.
    pub(crate) fn label(&self, k: usize) -> u64
        requires place { k < self.now.len }
        ensures label { result ≡ (name_at self.now k).1 }
    {
        if self.down {
            return self.label - k as u64;
        }
        self.label + k as u64
    }

    // The place of an identifier, if it is one of these. It takes no memory.
    pub(crate) fn find(&self, ident: &Ident) -> Option<usize>
        ensures found { IfSome result (λ k. (k < self.now.len) × ((name_at self.now k).0 ≡ ident.now)) }
        ensures missed { result ≡ None → (k : ℕ) → k < self.now.len → (name_at self.now k).0 ≡ ident.now → ⊥ }
    {
        if self.down {
            return place_from(ident, &self.first, self.len);
        }
        place_from(&self.first, ident, self.len)
    }

    // The label of an identifier, if it is one of these, and how many there are of it and the next ones, of at most so many, with labels
    // that rise. It takes no memory.
    pub(crate) fn labels_from(&self, ident: &Ident, most: u32) -> Option<(u64, u32)>
        requires some { 0 < most }
        ensures some { IfSome result (λ p. 0 < p.1) }
        ensures most { IfSome result (λ p. p.1 ≤ most) }
        ensures room { IfSome result (λ p. p.0 + p.1 ≤ 2 ^ 64) }
        ensures labels { AreLabelsOf self.now ident.now result }
    {
        rely!(let _len = self.len());
        match self.find(ident) {
            None => None,
            Some(place) => {
                let count = self.rest_from(place as u32).min(most);
                Some((self.label(place), count))
            }
        }
    }

    // How many identifiers there are upwards from the one at a place.
    fn rest_from(&self, place: u32) -> u32
        requires place { place < self.now.len }
        ensures some { 0 < result }
        ensures room { (name_at self.now place).1 + result ≤ 2 ^ 64 }
        ensures labels { AreLabelsOf self.now (name_at self.now place).0 (Some ((name_at self.now place).1, result)) }
    {
        rely!(let (_len, _first) = (self.len(), self.label(0)));
        if self.down {
            return place + 1;
        }
        self.len - place
    }

    // The place of a label, if one of these names has it.
    pub(crate) fn find_label(&self, label: u64) -> Option<usize>
        ensures found { IfSome result (λ k. (k < self.now.len) × ((name_at self.now k).1 ≡ label)) }
        ensures missed { result ≡ None → (k : ℕ) → k < self.now.len → (name_at self.now k).1 ≡ label → ⊥ }
    {
        rely!(let _len = self.len());
        if self.down {
            return number_place(label, self.label, self.len);
        }
        number_place(self.label, label, self.len)
    }

    // The least identifier.
    pub(crate) fn least(&self) -> Result<Ident, AllocError>
        ensures all { IfOk result (λ x. (k : ℕ) → k < self.now.len → (j : ℕ) × (j < self.now.len) × ((name_at self.now k).0 ≡ shifted (pos j) x)) }
        ensures each { IfOk result (λ x. (j : ℕ) → j < self.now.len → (k : ℕ) × (k < self.now.len) × ((name_at self.now k).0 ≡ shifted (pos j) x)) }
    {
        let count = self.len();
        if self.down {
            return self.ident(count - 1);
        }
        self.first.copy()
    }

    // How far the identifiers go.
    pub(crate) fn height(&self) -> Height
        ensures all { AreUpTo result (names_of self.now) }
    {
        rely!(let _len = self.len());
        let last = self.first.last();
        if self.down {
            return Height::of(last);
        }
        Height::of(last.raised(self.len - 1))
    }

    // Whether each identifier goes further than this. It takes no memory.
    pub(crate) fn is_over(&self, height: Height) -> bool
        ensures over { IsTrue result → (k : ℕ) → k < self.now.len → IsOver height (name_at self.now k).0 }
    {
        rely!(let _len = self.len());
        let last = self.first.last();
        if self.down {
            return height.is_under(Height::of(last.lowered(self.len - 1)));
        }
        height.is_under(Height::of(last))
    }

    // The least label and the greatest one.
    pub(crate) fn labels(&self) -> (u64, u64)
        ensures labels { (n : List Tuple × ℕ) → IsIn n (names_of self.now) → (result.0 ≤ n.1) × (n.1 ≤ result.1) }
        ensures order { result.0 ≤ result.1 }
        ensures least { (k : ℕ) × (k < self.now.len) × ((name_at self.now k).1 ≡ result.0) }
        ensures greatest { (k : ℕ) × (k < self.now.len) × ((name_at self.now k).1 ≡ result.1) }
    {
        let count = self.len();
        let last = self.label(count - 1);
        if self.down {
            return (last, self.label);
        }
        (self.label, last)
    }

    // How many of the first names have labels between these, as the first one has.
    pub(crate) fn fitting(&self, low: u64, high: u64) -> u32
        requires low { low ≤ self.now.label }
        requires high { self.now.label ≤ high }
        ensures some { 0 < result }
        ensures most { result ≤ self.now.len }
        ensures between { (k : ℕ) → k < result → (low ≤ (name_at self.now k).1) × ((name_at self.now k).1 ≤ high) }
    {
        rely!(let _len = self.len());
        if self.down {
            return fewer(self.label - low, self.len);
        }
        fewer(high - self.label, self.len)
    }

    // The first names, so many, and the others.
    pub(crate) fn cut(self, count: u32) -> Result<(NameRun, Option<NameRun>), AllocError>
        requires some { 0 < count }
        requires most { count ≤ self.len }
        ensures front { IfOk result (λ p. p.0 ≡ record { first = self.first; label = self.label; down = self.down; len = count }) }
        ensures names { IfOk result (λ p. names_of self ≡ names_of p.0 ++ names_in p.1) }
        ensures fewer { IfOk result (λ p. length (names_in p.1) < self.len) }
    {
        if count == self.len {
            return Ok((self, None));
        }
        let rest = NameRun {
            first: self.ident(count as usize)?,
            label: self.label(count as usize),
            down: self.down,
            len: self.len - count,
        };
        let front = NameRun {
            first: self.first,
            label: self.label,
            down: self.down,
            len: count,
        };
        Ok((front, Some(rest)))
    }

    // How many identifiers of so many, from one on that isn't one of these, come before the least of these.
    pub(crate) fn outside_from(&self, low: &Ident, most: u32) -> Result<u32, AllocError>
        requires some { 0 < most }
        ensures most { IfOk result (λ n. n ≤ most) }
        ensures some { IfOk result (λ n. AreLabelsOf self.now low.now None → 0 < n) }
        ensures outside { IfOk result (λ n. AreOutside self.now low.now n) }
    {
        rely!(let (_len, _low) = (self.len(), low.last()));
        let least = self.least()?;
        match place_from(low, &least, most) {
            None => Ok(most),
            Some(place) => Ok(place as u32),
        }
    }

    // Takes one more name, if that goes on from the last one.
    pub(crate) fn take(&mut self, ident: &Ident, label: u64) -> bool
        ensures more { IsTrue result → names_of self.new ≡ names_of self.old ++ (ident.now, label) ∷ [] }
        ensures sound { IsStretch self.new.first self.new.label self.new.down self.new.len }
        ensures first { self.new.first ≡ self.old.first }
        ensures stays { IsFalse result → self.new ≡ self.old }
    {
        rely!(let _last = ident.last());
        let Some(len) = self.len.checked_add(1) else {
            return false;
        };
        if self.goes_up(ident, label) {
            self.down = false;
            self.len = len;
            return true;
        }
        if self.goes_down(ident, label) {
            self.down = true;
            self.len = len;
            return true;
        }
        false
    }

    // Whether a name goes on upwards.
    fn goes_up(&self, ident: &Ident, label: u64) -> bool
        ensures names { IsTrue result → names_of self.now ≡ names_by false self.now.first self.now.label 0 self.now.len }
        ensures ident { IsTrue result → ident.now ≡ shifted (pos self.now.len) self.now.first }
        ensures label { IsTrue result → label ≡ self.now.label + self.now.len }
    {
        (self.len == 1 || !self.down)
            && self.label < label
            && label - self.label == self.len as u64
            && ident.follows_by(&self.first, self.len)
    }

    // Whether a name goes on downwards.
    fn goes_down(&self, ident: &Ident, label: u64) -> bool
        ensures names { IsTrue result → names_of self.now ≡ names_by true self.now.first self.now.label 0 self.now.len }
        ensures ident { IsTrue result → self.now.first ≡ shifted (pos self.now.len) ident.now }
        ensures label { IsTrue result → label + self.now.len ≡ self.now.label }
    {
        (self.len == 1 || self.down)
            && label < self.label
            && self.label - label == self.len as u64
            && self.first.follows_by(ident, self.len)
    }

    // Without the last name, which isn't the only one. It takes no memory.
    pub(crate) fn shorten(&mut self)
        requires more { 1 < self.old.len }
        ensures sound { IsStretch self.new.first self.new.label self.new.down self.new.len }
        ensures shorter { self.new ≡ record { first = self.old.first; label = self.old.label; down = self.old.down; len = self.old.len - 1 } }
    {
        self.len -= 1;
    }
}

// How far an identifier is from a lower one, if it is less than so far.
fn place_from(low: &Ident, high: &Ident, len: u32) -> Option<usize>
    ensures found { IfSome result (λ k. (k < len) × (high.now ≡ shifted (pos k) low.now)) }
    ensures missed { result ≡ None → (k : ℕ) → k < len → high.now ≡ shifted (pos k) low.now → ⊥ }
{
    match offset_place(low.last(), len, high.last()) {
        None => None,
        Some(by) => {
            if high.follows_by(low, by) {
                return Some(by as usize);
            }
            None
        }
    }
}

// One more than there is room for, or all where there is room.
fn fewer(room: u64, len: u32) -> u32
    requires some { 0 < len }
    ensures some { 0 < result }
    ensures most { result ≤ len }
    ensures room { result ≤ room + 1 }
{
    if room < len as u64 {
        return room as u32 + 1;
    }
    len
}

// How far a number is from a lower one, if it is less than so far.
fn number_place(low: u64, high: u64, len: u32) -> Option<usize>
    ensures found { IfSome result (λ k. (k < len) × (low + k ≡ high)) }
    ensures missed { result ≡ None → (k : ℕ) → k < len → low + k ≡ high → ⊥ }
{
    if high < low {
        return None;
    }
    if high - low < len as u64 {
        return Some((high - low) as usize);
    }
    None
}

// The place of an offset among so many that go on from the first one.
fn offset_place(first: Spot, len: u32, spot: Spot) -> Option<u32>
    ensures there { IfSome result (λ k. (k < len) × ((first.offset +ℤ pos k) ≡ spot.offset)) }
    ensures not_there { result ≡ None → (k : ℕ) → k < len → (first.offset +ℤ pos k) ≡ spot.offset → ⊥ }
{
    if spot.offset < first.offset {
        return None;
    }
    let place = (spot.offset as i64 - first.offset as i64) as u32;
    if len <= place {
        return None;
    }
    Some(place)
}
