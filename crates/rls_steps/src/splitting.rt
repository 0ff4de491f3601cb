//! Pieces that one insertion puts back.

ghost use Rattle.std.specs.Prelude.{◌≡◌, ◌++◌, ◌∷◌, [], length, take, OnOk, OnErr};
ghost use Rattle.rls_ident.specs.declared.limits.TheConstants.{CHARACTERS};
ghost use Rattle.rls_steps.specs.Marks.{Cut};
ghost use Rattle.rls_steps.specs.Parts.{last_label, parts_of, parts};
ghost use Rattle.rls_steps.specs.Recorded.{steps_of};

use crate::piece::{Labels, Piece, Step};
use rls_ident::limits::CHARACTERS;
use rls_runs::Text;
use std::alloc::AllocError;

/// Puts the parts of a piece on a stack, the first of them last. After an error the steps that were there before are there.
pub(crate) fn push_parts(stack: &mut Vec<Step>, group: u64, piece: Piece) -> Result<(), AllocError>
    ensures stack { OnOk result (stack.new.items ≡ stack.old.items ++ steps_of group (parts piece)) }
    ensures front { take (length stack.old.items) stack.new.items ≡ stack.old.items }
{
    match piece {
        Piece::Put { labels } => push(stack, group, Piece::Put { labels }),
        Piece::Cut {
            labels,
            text,
            left,
            right,
        } => {
            let most = text.len();
            push_cut(stack, group, most, labels.as_slice(), text, left, right)
        }
    }
}

// The parts of a piece that was cut out, of which there are at most so many more than one.
fn push_cut(
    stack: &mut Vec<Step>,
    group: u64,
    more: usize,
    labels: &[u64],
    text: Text,
    left: Option<u64>,
    right: Option<u64>,
) -> Result<(), AllocError>
    ensures stack { OnOk result (stack.new.items ≡ stack.old.items ++ steps_of group (parts_of CHARACTERS more labels.now text left right)) }
    ensures front { take (length stack.old.items) stack.new.items ≡ stack.old.items }
{
    if more == 0 {
        return push_one(stack, group, labels, text, left, right);
    }
    if text.len() as u64 <= CHARACTERS {
        return push_one(stack, group, labels, text, left, right);
    }
    let most = (CHARACTERS as usize).min(labels.len());
    let (first, later) = labels.split_at(most);
    let mut text = text;
    let Ok(rest) = text.split_off(CHARACTERS as usize) else {
        return Err(AllocError);
    };
    match push_cut(stack, group, more - 1, later, rest, last(first), right) {
        Err(_) => Err(AllocError),
        Ok(()) => match push_one(stack, group, first, text, left, right) {
            Err(_) => Err(AllocError),
            Ok(()) => Ok(()),
        },
    }
}

// A piece that was cut out.
fn push_one(
    stack: &mut Vec<Step>,
    group: u64,
    labels: &[u64],
    text: Text,
    left: Option<u64>,
    right: Option<u64>,
) -> Result<(), AllocError>
    ensures stack { OnOk result (stack.new.items ≡ stack.old.items ++ record { group = group; piece = Cut labels.now text left right } ∷ []) }
    ensures front { take (length stack.old.items) stack.new.items ≡ stack.old.items }
{
    let labels = Labels::from_vec(Vec::from_slice(*stack.allocator(), labels)?);
    let piece = Piece::Cut {
        labels,
        text,
        left,
        right,
    };
    push(stack, group, piece)
}

// One more step.
fn push(stack: &mut Vec<Step>, group: u64, piece: Piece) -> Result<(), AllocError>
    ensures stack { OnOk result (stack.new.items ≡ stack.old.items ++ record { group = group; piece = piece } ∷ []) }
    ensures front { take (length stack.old.items) stack.new.items ≡ stack.old.items }
{
    stack.push(Step { group, piece })?;
    Ok(())
}

// The last of these labels.
fn last(labels: &[u64]) -> Option<u64>
    ensures last { result ≡ last_label labels.now }
{
    match labels.last() {
        Some(label) => Some(*label),
        None => None,
    }
}
