//! The mark of one epoch.

ghost use Rattle.std.specs.Prelude.{◌≡◌, ◌<◌, ◌≤◌, ◌+◌, ◌-◌, ◌^◌, suc, nat_lt, slice_index, slice_set, length, IfSome, IfNone};

use std::marker::Model;

#[derive(Clone, Copy)]
enum State {
    Unmarked,
    // It is kept. Once the others have their new places, it is the topmost one, which has none.
    Marked,
    // It is kept, and its node comes to this place.
    Kept { place: usize },
}

// Whether an epoch is kept. Clauses see it as a number: 0 if it isn't marked, 1 if it is marked and has
// no new place, or else its new place and 2.
#[derive(Clone, Copy)]
pub(crate) struct Mark {
    state: State,
}

impl Model for Mark {
    ghost use Rattle.std.specs.Prelude.{ℕ, ◌≤◌, ◌^◌};
    ghost use Rattle.std.proofs.Common.{ap};
    ghost use Rattle.rls_epoch.specs.MarkStates.{number_of, state_of, state_again};

    ghost Value = { ℕ };

    ghost view = { λ a. number_of a.state };

    ghost invariant = { λ a. number_of a.state ≤ 2 ^ 64 };

    ghost inverse = { λ n. record { state = state_of n } };

    ghost inverse_ok = { λ a h. ap (λ s. record { state = s }) (state_again a.state) };
}

impl Mark {
    // The mark of an epoch that isn't marked.
    pub(crate) fn none() -> Mark
        ensures mark { result ≡ 0 }
    {
        Mark {
            state: State::Unmarked,
        }
    }

    // A mark with no new place.
    pub(crate) fn plain() -> Mark
        ensures mark { result ≡ 1 }
    {
        Mark {
            state: State::Marked,
        }
    }

    // The mark of a kept epoch with this new number.
    pub(crate) fn of_number(number: usize) -> Mark
        ensures mark { result ≡ suc number }
    {
        if number == 0 {
            return Mark::plain();
        }
        Mark {
            state: State::Kept { place: number - 1 },
        }
    }

    pub(crate) fn is_marked(self) -> bool
        ensures marked { result ≡ nat_lt 0 self }
    {
        match self.state {
            State::Unmarked => false,
            State::Marked | State::Kept { .. } => true,
        }
    }

    // Whether a new place was given.
    pub(crate) fn has_place(self) -> bool
        ensures place { result ≡ nat_lt 1 self }
    {
        match self.state {
            State::Unmarked | State::Marked => false,
            State::Kept { .. } => true,
        }
    }

    // The new place, if one was given.
    pub(crate) fn new_place(self) -> Option<usize>
        ensures some { IfSome result (λ place. self ≡ suc (suc place)) }
        ensures none { IfNone result (self ≤ 1) }
    {
        match self.state {
            State::Unmarked | State::Marked => None,
            State::Kept { place } => Some(place),
        }
    }

    // The new number of a kept epoch: 0 if it is the topmost one, and else one more than its new place.
    pub(crate) fn new_number(self) -> usize
        requires kept { 0 < self }
        ensures number { suc result ≡ self }
    {
        match self.state {
            State::Unmarked | State::Marked => 0,
            State::Kept { place } => place + 1,
        }
    }
}

// The mark of the epoch with a number.
pub(crate) fn mark_of(marks: &[Mark], number: usize) -> Mark
    requires within { number < length marks.now }
    ensures mark { result ≡ slice_index marks.now number }
{
    marks[number]
}

// Marks the epoch with a number.
pub(crate) fn mark_epoch(marks: &mut [Mark], number: usize)
    requires within { number < length marks.old }
    ensures set { marks.new ≡ slice_set marks.old number 1 }
{
    marks[number] = Mark::plain();
}
