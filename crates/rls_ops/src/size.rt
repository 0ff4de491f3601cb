//! How many bytes an operation and its fields have where they are written, and what stands before the operations of a message. Each number
//! is the greatest u64 if there are more.
//! Why: CHOICES.md, 196.

ghost use Rattle.std.specs.Prelude.{◌≡◌, ◌≤◌, ◌-◌, ◌+◌, ◌^◌, min, sum_by};
ghost use Rattle.rls_ops.specs.Sizes.{tuple_size, ident_size, run_size, char_size, name_size, body_size, op_size, most_ident, most_run, most_body, op_most, head_size};

use crate::op::{Body, Op};
use rls_ident::{EpochName, Ident, Tuple};
use rls_runs::{Run, Text};

impl Op {
    /// The number of its bytes where it is written, or the greatest u64 if there are more.
    /// It goes over the tuples of each run and over each character, and takes no memory.
    pub fn encoded_len(&self) -> u64
        ensures size { result ≡ min (op_size self.now) (2 ^ 64 - 1) }
    {
        (self.context.len() as u64)
            .saturating_mul(4)
            .saturating_add(name_len(&self.epoch))
            .saturating_add(body_len(&self.body))
            .saturating_add(9)
    }

    /// The most bytes that an operation with as many tuples and characters has where it is written, or the greatest u64 if that is more.
    /// It costs a step for each run, however many tuples and characters there are, and takes no memory.
    #[tactic(auto, using(crate::proofs::Sizes::op_at_most))]
    pub fn most_bytes(&self) -> u64
        ensures most { result ≡ min (op_most self.now) (2 ^ 64 - 1) }
        ensures bound { op_size self.now ≤ op_most self.now }
    {
        (self.context.len() as u64)
            .saturating_mul(4)
            .saturating_add(most_body(&self.body))
            .saturating_add(18)
    }
}

fn tuple_len(tuple: &Tuple) -> u64
    ensures size { result ≡ tuple_size tuple.now }
{
    match tuple {
        Tuple::At { .. } => 17,
        _ => 1,
    }
}

/// The bytes of an epoch's name: 1 for `Origin`, 9 for others.
pub fn name_len(name: &EpochName) -> u64
    ensures size { result ≡ name_size name.now }
{
    match name {
        EpochName::Origin => 1,
        EpochName::Of { .. } => 9,
    }
}

fn tuples_len(tuples: &[Tuple]) -> u64
    ensures size { result ≡ min (sum_by tuple_size tuples.now) (2 ^ 64 - 1) }
{
    let mut total: u64 = 0;
    for tuple in tuples {
        total = total.saturating_add(tuple_len(tuple));
    }
    total
}

fn ident_len(ident: &Ident) -> u64
    ensures size { result ≡ min (ident_size ident.now) (2 ^ 64 - 1) }
{
    tuples_len(ident.front())
        .saturating_add(tuple_len(&ident.last().as_tuple()))
        .saturating_add(4)
}

/// The bytes of a run: its first identifier and its length. It goes over the tuples.
pub fn run_len(run: &Run) -> u64
    ensures size { result ≡ min (run_size run.now) (2 ^ 64 - 1) }
{
    ident_len(run.first()).saturating_add(4)
}

/// The bytes of a list of runs, with their number. It goes over the tuples of each.
pub fn runs_len(runs: &[Run]) -> u64
    ensures size { result ≡ min (4 + sum_by run_size runs.now) (2 ^ 64 - 1) }
{
    let mut total: u64 = 4;
    for run in runs {
        total = total.saturating_add(run_len(run));
    }
    total
}

fn chars_len(chars: &[char]) -> u64
    ensures size { result ≡ min (sum_by char_size chars.now) (2 ^ 64 - 1) }
{
    let mut total = chars.len() as u64;
    for c in chars {
        if !c.is_ascii() {
            total += c.len_utf8() as u64 - 1;
        }
    }
    total
}

/// The bytes of a text in UTF-8, with their number. It goes over each character.
pub fn text_len(text: &Text) -> u64
    ensures size { result ≡ min (4 + sum_by char_size text.now) (2 ^ 64 - 1) }
{
    let (front, back) = text.as_slices();
    chars_len(front)
        .saturating_add(chars_len(back))
        .saturating_add(4)
}

fn body_len(body: &Body) -> u64
    ensures size { result ≡ min (body_size body.now) (2 ^ 64 - 1) }
{
    match body {
        Body::Insert { first, text } => ident_len(first).saturating_add(text_len(text)),
        Body::Delete { targets } => runs_len(targets.as_slice()),
        Body::Rename { former } => runs_len(former.as_slice()),
        Body::Leave => 0,
    }
}

// The most bytes of an identifier.
fn most_ident(ident: &Ident) -> u64
    ensures most { result ≡ min (most_ident ident.now) (2 ^ 64 - 1) }
{
    (ident.len() as u64).saturating_mul(17).saturating_add(4)
}

// The most bytes of a list of runs.
fn most_runs(runs: &[Run]) -> u64
    ensures most { result ≡ min (4 + sum_by most_run runs.now) (2 ^ 64 - 1) }
{
    let mut total: u64 = 4;
    for run in runs {
        total = total.saturating_add(most_ident(run.first()).saturating_add(4));
    }
    total
}

// The most bytes of a body after its kind.
fn most_body(body: &Body) -> u64
    ensures most { result ≡ min (most_body body.now) (2 ^ 64 - 1) }
{
    match body {
        Body::Insert { first, text } => most_ident(first)
            .saturating_add((text.len() as u64).saturating_mul(4))
            .saturating_add(4),
        Body::Delete { targets } => most_runs(targets.as_slice()),
        Body::Rename { former } => most_runs(former.as_slice()),
        Body::Leave => 0,
    }
}

/// The bytes of a message among this many members beside its operations.
pub fn head_len(members: u32) -> u64
    ensures size { result ≡ head_size members }
{
    25 + 4 * members as u64
}
