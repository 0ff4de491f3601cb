//! Fronts of runs, which a map takes along as one.

ghost use Rattle.std.specs.Prelude.{◌≡◌, ℕ, ◌+◌, ◌-◌, ◌<◌, ◌≤◌, ◌++◌, length, drop, pos, ◌+ℤ◌, ◌≤ℤ◌, true, cond, IfOk, IsTrue};
ghost use Rattle.std.specs.List.{All};
ghost use Rattle.std.specs.declared.cmp.Ordering.TheVariants.{Less};
ghost use Rattle.rls_ident.specs.Tuples.{tuple_cmp, offset_of};
ghost use Rattle.rls_ident.specs.Maps.{under};
ghost use Rattle.rls_ident.specs.Identifiers.{ident_cmp, ident_eq, last_of, shifted, is_inner_bounded};
ghost use Rattle.rls_runs.specs.Runs.{past_offsets};
ghost use Rattle.rls_rename.specs.Stretches.{GoesAlong, CutAt, OnOneSide};

use rls_ident::{Ident, Tuple, rely};
use rls_runs::Run;
use std::alloc::AllocError;

/// Identifiers of one base with consecutive offsets: the first one and their number.
#[derive(Drop)]
pub(crate) struct Stretch {
    pub(crate) first: Ident,
    pub(crate) len: u32,
    ghost some: { 0 < len },
    ghost in_range: { (offset_of (last_of first) +ℤ pos len) ≤ℤ past_offsets },
}

impl Stretch {
    /// One identifier.
    pub(crate) fn one(first: Ident) -> Stretch
        ensures first { result.first ≡ first }
        ensures len { result.len ≡ 1 }
    {
        rely!(let _last = first.last());
        Stretch { first, len: 1 }
    }

    /// The first identifiers of a run, as many as this.
    pub(crate) fn front(run: &Run, len: u32) -> Result<Stretch, AllocError>
        requires some { 0 < len }
        requires most { len ≤ run.now.1 }
        ensures first { IfOk result (λ x. x.first ≡ run.now.0) }
        ensures len { IfOk result (λ x. x.len ≡ len) }
    {
        Ok(Stretch {
            first: run.first().copy()?,
            len,
        })
    }

    /// The first identifiers of a run, as many as are less than this one. The first one is.
    pub(crate) fn below(run: &Run, limit: &Ident) -> Result<Stretch, AllocError>
        requires less { ident_cmp run.now.0 limit.now ≡ Less }
        ensures first { IfOk result (λ x. x.first ≡ run.now.0) }
        ensures cut { IfOk result (λ x. CutAt run.now.0 run.now.1 limit.now x.len) }
    {
        Stretch::front(run, less_count(run, limit))
    }

    /// The identifiers of a run after this many.
    pub(crate) fn behind(run: &Run, done: u32) -> Result<Stretch, AllocError>
        requires some { done < run.now.1 }
        ensures first { IfOk result (λ x. x.first ≡ shifted (pos done) run.now.0) }
        ensures len { IfOk result (λ x. x.len ≡ run.now.1 - done) }
    {
        Ok(Stretch {
            first: run.first().shifted(done)?,
            len: run.len() - done,
        })
    }

    /// The run of these identifiers. It takes no memory.
    pub(crate) fn into_run(self) -> Run
        ensures run { result ≡ (self.first, self.len) }
    {
        let Ok(run) = Run::new(self.first, self.len) else {
            unreachable!()
        };
        run
    }

    /// Whether the other one has its base and begins with the next offset. It takes no memory.
    pub(crate) fn touches(&self, next: &Stretch) -> bool
        ensures touches { result ≡ ident_eq next.now.first (shifted (pos self.now.len) self.now.first) }
    {
        next.first.follows_by(&self.first, self.len)
    }

    /// With this many more at the end. It takes no memory.
    pub(crate) fn longer(self, by: u32) -> Stretch
        requires in_range { (offset_of (last_of self.first) +ℤ pos (self.len + by)) ≤ℤ past_offsets }
        ensures first { result.first ≡ self.first }
        ensures len { result.len ≡ self.len + by }
    {
        rely!(let _last = self.first.last());
        Stretch {
            first: self.first,
            len: self.len + by,
        }
    }

    /// Those from the first one on that lie on its side of the pattern, and whether they are under it.
    pub(crate) fn on_one_side(self, pattern: &[Tuple]) -> Result<(bool, Stretch), AllocError>
        requires pattern { 0 < length pattern.now }
        ensures front { IfOk result (λ r. OnOneSide pattern.now self.first self.len r.0 r.1.first r.1.len) }
    {
        let is_under = self.first.under(pattern);
        let last = self.side_end(pattern, is_under)?;
        Ok((
            is_under,
            Stretch {
                first: self.first,
                len: last + 1,
            },
        ))
    }

    // The last place on the first one's side of the pattern. It looks at the last identifier first,
    // since most stretches lie on one side.
    fn side_end(&self, pattern: &[Tuple], is_under: bool) -> Result<u32, AllocError>
        requires pattern { 0 < length pattern.now }
        requires under { under tuple_cmp self.now.first pattern.now ≡ is_under }
        ensures within { IfOk result (λ last. last < self.now.len) }
        ensures side { IfOk result (λ last. (k : ℕ) → k ≤ last → under tuple_cmp (shifted (pos k) self.now.first) pattern.now ≡ is_under) }
    {
        rely!(let _len = self.first.len());
        let (mut low, mut high) = (0, self.len);
        let mut middle = self.len - 1;
        while low + 1 < high {
            if self.first.shifted(middle)?.under(pattern) == is_under {
                low = middle;
            } else {
                high = middle;
            }
            middle = low + (high - low) / 2;
        }
        Ok(low)
    }

    /// Each after these tuples.
    pub(crate) fn prefixed(&self, front: &[Tuple]) -> Result<Stretch, AllocError>
        requires bounded { All (λ t. IsTrue (is_inner_bounded t)) front.now }
        ensures prefixed { IfOk result (λ x. GoesAlong (λ y. front.now ++ y) self.now.first self.now.len x.first x.len) }
    {
        rely!(let _len = self.first.len());
        Ok(Stretch {
            first: self.first.prefixed(front)?,
            len: self.len,
        })
    }

    /// Each after these tuples, or as it is.
    pub(crate) fn prefixed_if(self, is_put: bool, front: &[Tuple]) -> Result<Stretch, AllocError>
        requires bounded { All (λ t. IsTrue (is_inner_bounded t)) front.now }
        ensures put { IfOk result (λ x. GoesAlong (λ y. cond is_put (front.now ++ y) y) self.first self.len x.first x.len) }
    {
        if is_put {
            self.prefixed(front)
        } else {
            Ok(self)
        }
    }

    /// Each without its first n tuples, or as it is.
    pub(crate) fn stripped_if(self, is_cut: bool, n: usize) -> Result<Stretch, AllocError>
        requires rest { is_cut ≡ true → n < length self.first }
        ensures cut { IfOk result (λ x. GoesAlong (λ y. cond is_cut (drop n y) y) self.first self.len x.first x.len) }
    {
        if is_cut { self.stripped(n) } else { Ok(self) }
    }

    /// Each without its first n tuples.
    pub(crate) fn stripped(&self, n: usize) -> Result<Stretch, AllocError>
        requires rest { n < length self.now.first }
        ensures stripped { IfOk result (λ x. GoesAlong (drop n) self.now.first self.now.len x.first x.len) }
    {
        Ok(Stretch {
            first: self.first.stripped(n)?,
            len: self.len,
        })
    }
}

// How many identifiers of a run are less than this one, of which the first one is.
fn less_count(run: &Run, limit: &Ident) -> u32
    requires less { ident_cmp run.now.0 limit.now ≡ Less }
    ensures cut { CutAt run.now.0 run.now.1 limit.now result }
{
    rely!(let _len = run.len());
    match run.find(limit) {
        Ok(place) => place,
        Err(below) => below,
    }
}
