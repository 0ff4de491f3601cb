//! How a desk answers its editor, whose changes become operations when another request needs them.
//! Why: docs/DECISIONS.md, 226, 227.

ghost use Rattle.std.specs.Prelude.{◌≡◌, ◌<◌, [], ◌∷◌, if◌then◌else◌, length, Option, Some, None, IfOk, IfSome, OnOk, IfErr, IsFalse};
ghost use Rattle.rls_file.specs.Stored.{AreWritable};
ghost use Rattle.rls_model.specs.declared.edit.Edit.TheVariants.{Insert, Delete};
ghost use Rattle.rls_seen.specs.Edits.{IsFault, edit_fault_over, edited};
ghost use Rattle.rls_session.specs.Answering.{IsAnswered};
ghost use Rattle.rls_session.specs.Drafts.{is_none, merged, no_draft};
ghost use Rattle.rls_session.specs.Requests.{Does, Takes};
ghost use Rattle.rls_session.specs.Seats.{IsDrafted, at_work, begun_at, changed, draft_fault, goes_before, goes_with, has_none, insertion_by, made_each, making_fault, number_fault, plan, replacing, respond, seat_of, tuples_at, tuples_in};
ghost use Rattle.rls_session.specs.Sent.{SendsFrom};
ghost use Rattle.rls_session.specs.Sessions.{by_parts};

use crate::desk::Desk;
use crate::draft::Draft;
use crate::orders::Order;
use crate::replies;
use crate::telling::refused;
use rls_ident::limits::GREATEST_NUMBER;
use rls_ident::rely;
use rls_model::{Edit, EditError};
use rls_ops::{Body, Op};
use rls_replica::Replica;
use rls_runs::Text;
use std::alloc::{AllocError, Global};
use std::mem;

/// Answers an order. A change becomes part of the draft; before anything else the draft is made.
pub(crate) fn answer(
    alloc: Global,
    desk: &mut Desk,
    draft: &mut Draft,
    order: Order,
) -> Result<Vec<u8>, AllocError>
    requires drafted { IsDrafted by_parts (seat_of desk.old draft.old) }
    ensures answered { IfOk result (λ reply. IsAnswered (respond by_parts (seat_of desk.old draft.old) (Does order)) reply.items (seat_of desk.new draft.new)) }
    ensures drafted { OnOk result (IsDrafted by_parts (seat_of desk.new draft.new)) }
    ensures writable { AreWritable desk.old.state → OnOk result (AreWritable desk.new.state) }
    ensures sent { AreWritable desk.old.state → OnOk result (SendsFrom (seat_of desk.old draft.old) (Does order)) }
{
    match order {
        Order::Change { at, count, text } => change(alloc, desk, draft, Draft { at, count, text }),
        order => {
            make(alloc, desk, draft)?;
            desk.answer(alloc, order)
        }
    }
}

/// Takes the message that these bytes are, once the draft is made.
pub(crate) fn take(
    alloc: Global,
    desk: &mut Desk,
    draft: &mut Draft,
    bytes: &[u8],
) -> Result<Vec<u8>, AllocError>
    requires drafted { IsDrafted by_parts (seat_of desk.old draft.old) }
    ensures answered { IfOk result (λ reply. IsAnswered (respond by_parts (seat_of desk.old draft.old) (Takes bytes.now)) reply.items (seat_of desk.new draft.new)) }
    ensures drafted { OnOk result (IsDrafted by_parts (seat_of desk.new draft.new)) }
    ensures writable { AreWritable desk.old.state → OnOk result (AreWritable desk.new.state) }
{
    make(alloc, desk, draft)?;
    desk.take(alloc, bytes)
}

/// Makes the draft, after which nothing is drafted, and releases what waited for its operations. In a group nothing waits for them, so that
/// nothing has to be told.
pub(crate) fn make(alloc: Global, desk: &mut Desk, draft: &mut Draft) -> Result<(), AllocError>
    requires drafted { IsDrafted by_parts (seat_of desk.old draft.old) }
    ensures made { OnOk result (desk.new ≡ at_work by_parts (seat_of desk.old draft.old)) }
    ensures none { draft.new ≡ no_draft }
    ensures writable { AreWritable desk.old.state → OnOk result (AreWritable desk.new.state) }
{
    rely!(desk.replica().sane());
    let draft = mem::replace(draft, Draft::none(alloc));
    rely!(let _len = draft.text.len());
    if draft.is_none() {
        return Ok(());
    }
    make_edits(desk, draft)?;
    desk.rest(alloc)
}

// Makes the edits of a draft that means some.
fn make_edits(desk: &mut Desk, draft: Draft) -> Result<(), AllocError>
    requires some { IsFalse (is_none draft) }
    requires fits { draft_fault by_parts desk.old.state draft ≡ None }
    ensures made { OnOk result (desk.new ≡ made_each by_parts desk.old (plan by_parts desk.old.state draft)) }
{
    if draft.count > 0 && draft.text.len() > 0 {
        return replace(desk, draft);
    }
    let Draft { at, count, text } = draft;
    if count == 0 {
        return desk.make_own(&Edit::Insert { at, text });
    }
    desk.make_own(&Edit::Delete { at, count })
}

// Makes the two edits of a draft that replaces characters: its text goes before them or behind them, and then they are taken out.
fn replace(desk: &mut Desk, draft: Draft) -> Result<(), AllocError>
    requires some { 0 < draft.count }
    requires text { 0 < length draft.text }
    requires fits { draft_fault by_parts desk.old.state draft ≡ None }
    ensures made { OnOk result (desk.new ≡ made_each by_parts desk.old (replacing (goes_before by_parts desk.old.state draft) draft)) }
{
    rely!(desk.replica().sane());
    // The edits of a draft have no fault, so that memory alone may be wanting.
    let Ok(before) = goes_before(desk.replica(), &draft) else {
        return Err(AllocError);
    };
    let Draft { at, count, text } = draft;
    let size = text.len() as u64;
    if before {
        let insertion = Edit::Insert { at, text };
        let at = at + size;
        return make_two(desk, &insertion, &Edit::Delete { at, count });
    }
    let deletion = Edit::Delete { at, count };
    let at = at + count;
    make_two(desk, &Edit::Insert { at, text }, &deletion)
}

// Makes two edits that have no fault, one after the other.
fn make_two(desk: &mut Desk, first: &Edit, second: &Edit) -> Result<(), AllocError>
    requires first { edit_fault_over desk.old.state first.now ≡ None }
    requires second { edit_fault_over (edited desk.old.state first.now) second.now ≡ None }
    ensures made { OnOk result (desk.new ≡ made_each by_parts desk.old (first.now ∷ second.now ∷ [])) }
{
    desk.make_own(first)?;
    desk.make_own(second)
}

// A change goes on with the draft; or that is made, and this one is the next, if it has no fault.
fn change(
    alloc: Global,
    desk: &mut Desk,
    draft: &mut Draft,
    change: Draft,
) -> Result<Vec<u8>, AllocError>
    requires drafted { IsDrafted by_parts (seat_of desk.old draft.old) }
    ensures answered { IfOk result (λ reply. IsAnswered (changed by_parts (seat_of desk.old draft.old) change) reply.items (seat_of desk.new draft.new)) }
    ensures drafted { OnOk result (IsDrafted by_parts (seat_of desk.new draft.new)) }
    ensures writable { AreWritable desk.old.state → OnOk result (AreWritable desk.new.state) }
{
    if let Some(merged) = merge(desk.replica(), draft, &change)? {
        *draft = merged;
        return replies::noted(alloc);
    }
    make(alloc, desk, draft)?;
    begin(alloc, desk, draft, change)
}

// Begins the next draft, unless the change has a fault.
fn begin(
    alloc: Global,
    desk: &Desk,
    draft: &mut Draft,
    change: Draft,
) -> Result<Vec<u8>, AllocError>
    requires none { draft.old ≡ no_draft }
    ensures answered { IfOk result (λ reply. IsAnswered (begun_at by_parts desk.now change) reply.items (seat_of desk.now draft.new)) }
    ensures drafted { OnOk result (IsDrafted by_parts (seat_of desk.now draft.new)) }
{
    match check(desk.replica(), &change) {
        Ok(()) => {
            *draft = change;
            replies::noted(alloc)
        }
        Err(error) => refused(alloc, error),
    }
}

// The draft with a change in it, if that goes on with it and the edits of both have no fault.
fn merge(replica: &Replica, draft: &Draft, change: &Draft) -> Result<Option<Draft>, AllocError>
    requires drafted { making_fault by_parts replica.now draft.now ≡ None }
    ensures merged { IfOk result (λ found. found ≡ (if goes_with by_parts replica.now draft.now change.now then Some (merged draft.now change.now) else None)) }
    ensures drafted { IfOk result (λ found. IfSome found (λ d. making_fault by_parts replica.now d ≡ None)) }
{
    if draft.is_none() {
        return Ok(None);
    }
    match draft.joined(replica.total(), change)? {
        Some(merged) => if_fits(replica, merged),
        None => Ok(None),
    }
}

// The draft, unless one of its edits has a fault.
fn if_fits(replica: &Replica, draft: Draft) -> Result<Option<Draft>, AllocError>
    ensures fits { IfOk result (λ found. found ≡ (if has_none (making_fault by_parts replica.now draft) then Some draft else None)) }
    ensures drafted { IfOk result (λ found. IfSome found (λ d. making_fault by_parts replica.now d ≡ None)) }
{
    if draft.is_none() {
        return Ok(Some(draft));
    }
    match check(replica, &draft) {
        Ok(()) => Ok(Some(draft)),
        Err(error) => match error {
            EditError::OutOfMemory => Err(AllocError),
            _ => Ok(None),
        },
    }
}

// The first fault of the edits that a draft means here.
fn check(replica: &Replica, draft: &Draft) -> Result<(), EditError>
    ensures fits { OnOk result (draft_fault by_parts replica.now draft.now ≡ None) }
    ensures fault { IfErr result (λ e. IsFault e (draft_fault by_parts replica.now draft.now)) }
{
    let Draft { at, count, text } = draft;
    let (at, count) = (*at, *count);
    if count == 0 {
        let _op = replica.made(&insertion(at, text)?)?;
        return Ok(());
    }
    let _op = replica.made(&Edit::Delete { at, count })?;
    if text.len() > 0 {
        let _before = goes_before(replica, draft)?;
        check_numbers(replica)?;
    }
    Ok(())
}

// Two numbers are left.
fn check_numbers(replica: &Replica) -> Result<(), EditError>
    ensures fits { OnOk result (number_fault by_parts replica.now ≡ None) }
    ensures fault { IfErr result (λ e. number_fault by_parts replica.now ≡ Some e) }
{
    if replica.vector().get(replica.me()) < GREATEST_NUMBER - 1 {
        Ok(())
    } else {
        Err(EditError::NumbersSpent)
    }
}

// Whether the text of a draft that replaces characters goes before them; or the first fault of its insertion where it goes.
fn goes_before(replica: &Replica, draft: &Draft) -> Result<bool, EditError>
    requires within { edit_fault_over replica.now (Delete draft.now.at draft.now.count) ≡ None }
    ensures before { IfOk result (λ before. before ≡ goes_before by_parts replica.now draft.now) }
    ensures fits { OnOk result (edit_fault_over replica.now (insertion_by (goes_before by_parts replica.now draft.now) draft.now) ≡ None) }
    ensures fault { IfErr result (λ e. IsFault e (edit_fault_over replica.now (insertion_by (goes_before by_parts replica.now draft.now) draft.now))) }
{
    rely!(let _total = replica.total());
    let Draft { at, count, text } = draft;
    let behind = *at + *count;
    let Some(tuples) = tuples_at(replica, *at, text)? else {
        let _op = replica.made(&insertion(behind, text)?)?;
        return Ok(false);
    };
    match tuples_at(replica, behind, text)? {
        Some(others) => Ok(tuples < others),
        None => Ok(true),
    }
}

// How many tuples the first identifier of an insertion has, if it has no fault and begins no stem.
fn tuples_at(replica: &Replica, at: u64, text: &Text) -> Result<Option<usize>, EditError>
    ensures tuples { IfOk result (λ n. n ≡ tuples_at by_parts replica.now at text.now) }
    ensures err { IfErr result (λ e. e ≡ EditError.OutOfMemory) }
{
    match replica.made(&insertion(at, text)?) {
        Ok(op) => Ok(tuples_in(&op)),
        Err(EditError::OutOfMemory) => Err(EditError::OutOfMemory),
        Err(_) => Ok(None),
    }
}

// The same of its operation.
fn tuples_in(op: &Op) -> Option<usize>
    ensures tuples { result ≡ tuples_in op.now.seq op.now.body }
{
    match &op.body {
        Body::Insert { first, text: _ } if first.last().seq != op.seq => Some(first.len()),
        _ => None,
    }
}

// This insertion.
fn insertion(at: u64, text: &Text) -> Result<Edit, EditError>
    ensures insertion { IfOk result (λ edit. edit ≡ Insert at text.now) }
    ensures err { IfErr result (λ e. e ≡ EditError.OutOfMemory) }
{
    match text.copy() {
        Ok(text) => Ok(Edit::Insert { at, text }),
        Err(_) => Err(EditError::OutOfMemory),
    }
}
