//! Waiting operations.

ghost use Rattle.std.specs.Prelude.{◌≡◌, None, option_copied, length};
ghost use Rattle.rls_parts.specs.Rules.{held_fault, may_wait, waits_behind};

use rls_model::Parts;
use rls_ops::Op;

// Whether the operation stands after the one before, where there is one, by author and number.
fn waits_behind(before: Option<&Op>, op: &Op) -> bool
    ensures behind { result ≡ waits_behind (option_copied before.entry) op.now }
{
    match before {
        None => true,
        Some(before) => before.precedes(op),
    }
}

// Whether the operation may wait after the one before.
fn may_wait(parts: &Parts, before: Option<&Op>, op: &Op) -> bool
    requires counts { length parts.now.vector ≡ parts.now.members }
    ensures may { result ≡ may_wait parts.now.members parts.now.me parts.now.vector (option_copied before.entry) op.now }
{
    if op.check_shape(parts.members).is_err() {
        return false;
    }
    op.author != parts.me
        && parts.vector.get(op.author) < op.seq
        && waits_behind(before, op)
        && !op.context.at_most(&parts.vector)
}

/// Rule 8: the place of the first waiting operation that has another shape, is one's own, was accepted, doesn't come after the one
/// before, or has its causes there.
pub fn held_fault(parts: &Parts) -> Option<u64>
    requires counts { length parts.now.vector ≡ parts.now.members }
    ensures fault { result ≡ held_fault parts.now None 0 parts.now.held }
{
    let ops = parts.held.as_slice();
    let mut before: Option<&Op> = None;
    for i in 0..ops.len() {
        let op = &ops[i];
        if !may_wait(parts, before, op) {
            return Some(i as u64);
        }
        before = Some(op);
    }
    None
}
