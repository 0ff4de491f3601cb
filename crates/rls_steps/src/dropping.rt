//! The oldest steps, which are forgotten.

ghost use Rattle.std.specs.Prelude.{◌≡◌, ◌≤◌, ◌+◌, length, drop, reverse};
ghost use Rattle.rls_steps.specs.Forgetting.{fitting, forgotten, piece_size, rest_of_group};
ghost use Rattle.rls_steps.specs.Groups.{in_front, goes_on, group_before};

use crate::piece::{Piece, Step};

/// How many of the oldest steps have to go, so that at most so many are left, with at most so many characters, in whole groups.
pub(crate) fn forgotten(steps: &Vec<Step>, most: usize, chars: u64) -> usize
    ensures forgotten { result ≡ forgotten most chars steps.now.items }
    ensures within { result ≤ length steps.now.items }
{
    let over = steps.len() - fitting(steps, most, chars);
    over + rest_of_group(steps, over)
}

// How many of the newest steps fit.
fn fitting(steps: &Vec<Step>, most: usize, chars: u64) -> usize
    ensures fitting { result ≡ fitting most chars (reverse steps.now.items) }
    ensures within { result ≤ length steps.now.items }
{
    let mut fit: usize = 0;
    let mut room = chars;
    'steps: while fit < most && fit < steps.len() {
        let size = size_of(&steps[steps.len() - 1 - fit].piece);
        if room < size {
            return fit;
        }
        room -= size;
        fit += 1;
    }
    fit
}

// How many characters a piece names.
fn size_of(piece: &Piece) -> u64
    ensures size { result ≡ piece_size piece.now }
{
    match piece {
        Piece::Put { labels } => labels.as_slice().len() as u64,
        Piece::Cut { text, .. } => text.len() as u64,
    }
}

// How many steps from a place on belong to the group of the one before it.
fn rest_of_group(steps: &Vec<Step>, from: usize) -> usize
    requires within { from ≤ length steps.now.items }
    ensures rest { result ≡ rest_of_group from steps.now.items }
    ensures within { from + result ≤ length steps.now.items }
{
    if from == 0 {
        return 0;
    }
    let group = steps[from - 1].group;
    let mut more: usize = 0;
    'steps: while from + more < steps.len() {
        if steps[from + more].group != group {
            return more;
        }
        more += 1;
    }
    more
}

/// Whether the last of the first steps belongs to this group.
pub(crate) fn reaches(steps: &Vec<Step>, count: usize, group: u64) -> bool
    requires within { count ≤ length steps.now.items }
    ensures reaches { result ≡ goes_on (group_before steps.now.items count) group }
{
    count > 0 && steps[count - 1].group == group
}

/// Without the first steps. It takes no memory.
pub(crate) fn drop_first(steps: &mut Vec<Step>, count: usize)
    requires within { count ≤ length steps.old.items }
    ensures left { steps.new.items ≡ drop count steps.old.items }
{
    let left = steps.len() - count;
    steps.rotate_left(count);
    steps.truncate(left);
}
