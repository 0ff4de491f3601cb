//! Journals, read into a replica, which decides whether the next entry keeps its rule.
//! Why: CHOICES.md, 61.

ghost use Rattle.std.specs.Prelude.{◌≡◌, ◌<◌, [], length, None, Ok, nat_le, IfErr, IfOk};
ghost use Rattle.rls_codec.specs.Gives.{Fails, Gives};
ghost use Rattle.rls_codec.specs.Reading.{with_rule, byte_at, chain_at};
ghost use Rattle.rls_model.specs.Answers.{answer_of};
ghost use Rattle.rls_model.specs.History.{Acknowledged, History, Then};
ghost use Rattle.rls_model.specs.Receiving.{State};
ghost use Rattle.rls_parts.specs.Rules.{waits_behind};
ghost use Rattle.rls_file.specs.Files.{Journal};
ghost use Rattle.rls_file.specs.ReadingFiles.{steps_at, applies, entry_at, entry_of_kind};
ghost use Rattle.rls_file.specs.ReadingJournals.{Brings, IsAfter, acknowledgement_at, waits, grown, next_at, last_of, waiting_at, more_waiting_at, filled_at, after_form_at};
ghost use Rattle.rls_file.specs.Journals.{IsReplayOf};

use rls_causal::Held;
use rls_codec::{ReadError, byte, member, member_count, op, u32_at, u64_at, vector};
use rls_ident::Vector;
use rls_ops::Op;
use rls_replica::{Receipt, Replica};
use std::alloc::Global;

fn entry_kind(bytes: &[u8]) -> Result<(u8, &[u8]), ReadError>
    ensures read { Gives (λ x. (x.0, x.1.now)) result (with_rule (λ k. nat_le k 1) byte_at bytes.now) }
{
    let (kind, rest) = byte(bytes)?;
    if kind > 1 {
        return Err(ReadError::Fault { left: bytes.len() });
    }
    Ok((kind, rest))
}

// A member and its vector.
fn acknowledgement(
    alloc: Global,
    members: u32,
    bytes: &[u8],
) -> Result<((u32, Vector), &[u8]), ReadError>
    ensures read { Gives (λ x. (Acknowledged x.0.0 x.0.1, x.1.now)) result (acknowledgement_at members bytes.now) }
    ensures member { IfOk result (λ x. x.0.0 < members) }
    ensures counts { IfOk result (λ x. length x.0.1 ≡ members) }
{
    let (from, rest) = member(members, bytes)?;
    let (vector, rest) = vector(alloc, members, rest)?;
    Ok(((from, vector), rest))
}

fn is_applied(receipt: &Receipt) -> bool
    ensures applied { result ≡ applies (answer_of receipt.now) }
{
    matches!(receipt, Receipt::Applied)
}

fn is_held(receipt: &Receipt) -> bool
    ensures held { result ≡ waits (answer_of receipt.now) }
{
    matches!(receipt, Receipt::Held)
}

// An operation that is accepted next, whatever has happened to the replica.
fn accept<'a>(alloc: Global, replica: &mut Replica, bytes: &'a [u8]) -> Result<&'a [u8], ReadError>
    ensures read { (H : History) → IsAfter H replica.old → Brings (λ rest. rest.now) (λ K. IsAfter K replica.new) result (grown H (entry_of_kind H 0 bytes.now)) }
{
    let (op, rest) = op(alloc, replica.members(), bytes)?;
    if !is_applied(&replica.replay(op)?) {
        return Err(ReadError::Fault { left: bytes.len() });
    }
    Ok(rest)
}

// The next event.
fn event<'a>(alloc: Global, replica: &mut Replica, bytes: &'a [u8]) -> Result<&'a [u8], ReadError>
    ensures read { (H : History) → IsAfter H replica.old → Brings (λ rest. rest.now) (λ K. IsAfter K replica.new) result (next_at H bytes.now) }
{
    let (kind, rest) = entry_kind(bytes)?;
    if kind == 0 {
        return accept(alloc, replica, rest);
    }
    let ((from, vector), rest) = acknowledgement(alloc, replica.members(), rest)?;
    if !replica.acknowledge(from, &vector) {
        return Err(ReadError::Fault { left: bytes.len() });
    }
    Ok(rest)
}

// This many events.
fn events<'a>(
    alloc: Global,
    replica: &mut Replica,
    count: u32,
    bytes: &'a [u8],
) -> Result<&'a [u8], ReadError>
    ensures read { (H : History) → IsAfter H replica.old → Brings (λ rest. rest.now) (λ K. IsAfter K replica.new) result (steps_at entry_at Then H count bytes.now) }
{
    let mut rest = bytes;
    'events: for _ in 0..count {
        let after = event(alloc, replica, rest)?;
        rest = after;
    }
    Ok(rest)
}

// Whether the operation comes after the last one that waits.
fn comes_last(held: &Held, op: &Op) -> bool
    ensures last { result ≡ waits_behind (last_of held.now) op.now }
{
    match held.last() {
        None => true,
        Some(last) => last.precedes(op),
    }
}

// An operation that waits, after the last one.
fn hold<'a>(alloc: Global, replica: &mut Replica, bytes: &'a [u8]) -> Result<&'a [u8], ReadError>
    ensures read { (t : State) → IsReplayOf t replica.old → Brings (λ rest. rest.now) (λ W. IsReplayOf (record { history = t.history; waiting = W }) replica.new) result (more_waiting_at t bytes.now) }
{
    let (op, rest) = op(alloc, replica.members(), bytes)?;
    if !comes_last(replica.held(), &op) {
        return Err(ReadError::Fault { left: bytes.len() });
    }
    if !is_held(&replica.receive(op)?) {
        return Err(ReadError::Fault { left: bytes.len() });
    }
    Ok(rest)
}

// This many waiting operations.
fn hold_all<'a>(
    alloc: Global,
    replica: &mut Replica,
    count: u32,
    bytes: &'a [u8],
) -> Result<&'a [u8], ReadError>
    ensures read { (H : History) → IsAfter H replica.old → Brings (λ rest. rest.now) (λ W. IsReplayOf (record { history = H; waiting = W }) replica.new) result (chain_at (waiting_at H) None count bytes.now) }
{
    let mut rest = bytes;
    'waiting: for _ in 0..count {
        let after = hold(alloc, replica, rest)?;
        rest = after;
    }
    Ok(rest)
}

// The events and the waiting operations, each after their number.
fn fill<'a>(alloc: Global, replica: &mut Replica, bytes: &'a [u8]) -> Result<&'a [u8], ReadError>
    ensures read { (H : History) → IsAfter H replica.old → Brings (λ rest. rest.now) (λ t. IsReplayOf t replica.new) result (filled_at H bytes.now) }
{
    let (count, rest) = u32_at(bytes)?;
    let rest = events(alloc, replica, count, rest)?;
    let (count, rest) = u32_at(rest)?;
    let rest = hold_all(alloc, replica, count, rest)?;
    Ok(rest)
}

/// The replica of a journal, from what follows the form in its file; and the bytes after the journal. Its events are replayed one
/// after another, so the cost is that of as many operations received. Nothing is dropped.
///
/// # Errors
///
/// `Fault` with how many bytes are left at the first field that is cut off or breaks its rule, and `OutOfMemory` only if memory runs
/// out.
#[tactic(auto, unfolding(crate::specs::ReadingJournals::after_form_at))]
pub fn journal(alloc: Global, bytes: &[u8]) -> Result<(Replica, &[u8]), ReadError>
    // It is the replica to which the journal's history has happened, with what waits, and stands for them.
    ensures ok { IfOk result (λ x. (t : State) × (after_form_at bytes.now ≡ Ok (Journal t, x.1.now)) × IsReplayOf t x.0) }
    ensures err { IfErr result (λ e. Fails e (after_form_at bytes.now)) }
{
    let (group, rest) = u64_at(bytes)?;
    let (members, rest) = member_count(rest)?;
    let (me, rest) = member(members, rest)?;
    // The numbers are right, so that only memory may be missing.
    let Ok(mut replica) = Replica::new(alloc, group, me, members) else {
        return Err(ReadError::OutOfMemory);
    };
    let rest = fill(alloc, &mut replica, rest)?;
    Ok((replica, rest))
}
