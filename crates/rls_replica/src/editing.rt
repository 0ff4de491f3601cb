//! What the member itself does.
//! Why: docs/DECISIONS.md, 163, 211; CHOICES.md, 201, 215.

ghost use Rattle.std.specs.Prelude.{◌≡◌, ℕ, List, pos, ◌-ℤ◌, ◌+◌, ◌-◌, ◌<◌, ◌≤◌, ◌^◌, ◌≢◌, length, slice_get, Some, None, IfOk, IfErr, OnOk, OnErr};
ghost use Rattle.rls_ident.specs.declared.limits.TheConstants.{GREATEST_NUMBER};
ghost use Rattle.rls_ident.specs.declared.tuple.Tuple.{Tuple};
ghost use Rattle.rls_ident.specs.Identifiers.{shifted};
ghost use Rattle.rls_ops.specs.Sizes.{op_size};
ghost use Rattle.rls_model.specs.declared.edit.Edit.TheVariants.{Insert, Delete, Rename, Leave};
ghost use Rattle.rls_model.specs.Editing.{edit_fault, made, next_seq, get_before, first_between, range_fault, size_fault};
ghost use Rattle.rls_model.specs.Receiving.{State, accept};
ghost use Rattle.rls_model.specs.WellFormed.{IsEdit};
ghost use Rattle.rls_seen.specs.Edits.{edit_fault_over, made_over, made_body, edited, IsFault};
ghost use Rattle.rls_seen.specs.Sane.{IsSane};
ghost use Rattle.rls_seen.specs.Seen.{own_count, idents_over, text_over};
ghost use Rattle.rls_seen.specs.Stands.{StandsFor};
ghost use Rattle.rls_replica.specs.Names.{KeepsNames};
ghost use Rattle.rls_replica.specs.Editing.{early_fault, edit_place, edited_text, IsLeaveFault, IsOneRun, IsOwnFront, IsOwnRun, HasRoom, HasRoomBelow};

use crate::replica::Replica;
use rls_doc::Document;
use rls_ident::limits::{CHARACTERS, GREATEST_NUMBER, IDENTIFIERS, OPERATION_BYTES};
use rls_ident::{Ident, rely};
use rls_model::{Edit, EditError};
use rls_ops::{Body, Op};
use rls_parts::Neighbour;
use std::alloc::AllocError;

impl Replica {
    /// Performs an edit of this member: makes its operation, accepts it, and answers its number. After an error the replica is as
    /// before. It costs as much as accepting the operation.
    ///
    /// # Errors
    ///
    /// The first fault of the edit, in the order of `EditError`; or `OutOfMemory`, which may be answered to any edit.
    pub fn edit(&mut self, edit: &Edit) -> Result<u32, EditError>
        ensures fault { IfErr result (λ e. IsFault e (edit_fault_over self.old edit.now)) }
        ensures fits { OnOk result (edit_fault_over self.old edit.now ≡ None) }
        ensures seq { IfOk result (λ n. n ≡ own_count self.old + 1) }
        ensures after { OnOk result (self.new ≡ edited self.old edit.now) }
        ensures err { OnErr result (self.new ≡ self.old) }
        ensures names { KeepsNames self.old self.new }

        // A leave fits unless the member has left or its numbers are spent.
        ensures leave { IfErr result (λ e. edit.now ≡ Leave → IsLeaveFault e) }

        // An insertion lands where it was asked for, a deletion takes out just what it was to, and nothing else changes the text.
        ensures text { OnOk result (text_over self.new ≡ edited_text edit.now (text_over self.old)) }

        // For every history and waiting operations that the replica stands for.
        ensures refused { IfErr result (λ e. (t : State) → StandsFor self.old t → IsFault e (edit_fault t.history edit.now)) }
        ensures answer { IfOk result (λ n. (t : State) → StandsFor self.old t → (edit_fault t.history edit.now ≡ None) × (n ≡ next_seq t.history)) }
        ensures stands { OnOk result ((t : State) → StandsFor self.old t → StandsFor self.new (accept t (made t.history edit.now))) }
        ensures one_run { OnOk result (edit.now ≡ Rename → (t : State) → StandsFor self.old t → IsOneRun self.old self.new) }

        // Typing at the end of a text that is one run of the member's own goes on with the run, as it does after a rename.
        ensures typed { OnOk result ((first : List Tuple) (n : ℕ) (cs : List ℕ) → edit.now ≡ Insert n cs → IsOwnRun self.old first n → HasRoom first (n + length cs) → IsOwnRun self.new first (n + length cs)) }

        // And typing at its front goes on with it there.
        ensures fronted { OnOk result ((first : List Tuple) (n : ℕ) (cs : List ℕ) → edit.now ≡ Insert 0 cs → IsOwnFront self.old first n → HasRoomBelow first (length cs) → IsOwnFront self.new (shifted (pos 0 -ℤ pos (length cs)) first) (n + length cs)) }
    {
        let op = self.made(edit)?;
        match self.accept_own(edit, &op) {
            Ok(seq) => Ok(seq),
            Err(_) => Err(EditError::OutOfMemory),
        }
    }

    /// Performs an edit as `edit` does, and takes it: the text of an insertion is moved into its operation, and isn't copied. After an error
    /// the replica is as before, and the edit is given up.
    ///
    /// # Errors
    ///
    /// The first fault of the edit, in the order of `EditError`; or `OutOfMemory`, which may be answered to any edit.
    pub fn perform(&mut self, edit: Edit) -> Result<u32, EditError>
        ensures fault { IfErr result (λ e. IsFault e (edit_fault_over self.old edit)) }
        ensures fits { OnOk result (edit_fault_over self.old edit ≡ None) }
        ensures seq { IfOk result (λ n. n ≡ own_count self.old + 1) }
        ensures after { OnOk result (self.new ≡ edited self.old edit) }
        ensures err { OnErr result (self.new ≡ self.old) }
        ensures names { KeepsNames self.old self.new }
    {
        rely!(self.sane());
        rely!(edit.fits());
        self.check(&edit)?;
        let place = place_of(&edit);
        // As `op_of`, but the operation isn't moved once more.
        let Ok(op) = self.make(edit) else {
            return Err(EditError::OutOfMemory);
        };
        check_size(&op)?;
        match self.apply(&op, place) {
            Ok(()) => Ok(op.seq),
            Err(_) => Err(EditError::OutOfMemory),
        }
    }

    /// Accepts the operation that `made` has given for an edit here, and answers its number: `edit` is `made` and then this. So whoever
    /// records an edit looks at its operation before, and nobody makes it twice. After an error the replica is as before. It costs as much
    /// as accepting the operation.
    pub fn accept_own(&mut self, edit: &Edit, op: &Op) -> Result<u32, AllocError>
        requires fits { edit_fault_over self.old edit.now ≡ None }
        requires op { op.now ≡ made_over self.old edit.now }
        ensures seq { IfOk result (λ n. n ≡ own_count self.old + 1) }
        ensures after { OnOk result (self.new ≡ edited self.old edit.now) }
        ensures err { OnErr result (self.new ≡ self.old) }
        ensures names { KeepsNames self.old self.new }

        // The text, as after `edit`.
        ensures text { OnOk result (text_over self.new ≡ edited_text edit.now (text_over self.old)) }

        // For every history and waiting operations that the replica stands for.
        ensures answer { IfOk result (λ n. (t : State) → StandsFor self.old t → (edit_fault t.history edit.now ≡ None) × (n ≡ next_seq t.history)) }
        ensures stands { OnOk result ((t : State) → StandsFor self.old t → StandsFor self.new (accept t (made t.history edit.now))) }
        ensures one_run { OnOk result (edit.now ≡ Rename → (t : State) → StandsFor self.old t → IsOneRun self.old self.new) }

        // Typing at either end of a text that is one run of the member's own, as by `edit`.
        ensures typed { OnOk result ((first : List Tuple) (n : ℕ) (cs : List ℕ) → edit.now ≡ Insert n cs → IsOwnRun self.old first n → HasRoom first (n + length cs) → IsOwnRun self.new first (n + length cs)) }
        ensures fronted { OnOk result ((first : List Tuple) (n : ℕ) (cs : List ℕ) → edit.now ≡ Insert 0 cs → IsOwnFront self.old first n → HasRoomBelow first (length cs) → IsOwnFront self.new (shifted (pos 0 -ℤ pos (length cs)) first) (n + length cs)) }
    {
        let seq = self.accept_exactly(edit, op)?;
        Ok(seq)
    }

    /// The operation that an edit makes here, which changes nothing. It costs as much as the operation has runs or characters.
    ///
    /// # Errors
    ///
    /// The first fault of the edit, in the order of `EditError`; or `OutOfMemory`, which may be answered to any edit.
    pub fn made(&self, edit: &Edit) -> Result<Op, EditError>
        ensures fault { IfErr result (λ e. IsFault e (edit_fault_over self.now edit.now)) }
        ensures fits { OnOk result (edit_fault_over self.now edit.now ≡ None) }
        ensures op { IfOk result (λ o. o ≡ made_over self.now edit.now) }

        // A leave fits unless the member has left or its numbers are spent.
        ensures leave { IfErr result (λ e. edit.now ≡ Leave → IsLeaveFault e) }

        // For every history and waiting operations that the replica stands for.
        ensures refused { IfErr result (λ e. (t : State) → StandsFor self.now t → IsFault e (edit_fault t.history edit.now)) }
        ensures accepted { OnOk result ((t : State) → StandsFor self.now t → edit_fault t.history edit.now ≡ None) }
        ensures stands { IfOk result (λ o. (t : State) → StandsFor self.now t → o ≡ made t.history edit.now) }
    {
        rely!(self.sane());
        let op = self.made_exactly(edit)?;
        Ok(op)
    }

    // By what the replica consists of.
    fn accept_exactly(&mut self, edit: &Edit, op: &Op) -> Result<u32, AllocError>
        requires fits { edit_fault_over self.old edit.now ≡ None }
        requires op { op.now ≡ made_over self.old edit.now }
        ensures seq { IfOk result (λ n. n ≡ own_count self.old + 1) }
        ensures after { OnOk result (self.new ≡ edited self.old edit.now) }
        ensures err { OnErr result (self.new ≡ self.old) }
        ensures sane { IsSane self.old }
        ensures whole { IsEdit edit.now }
    {
        rely!(self.sane());
        rely!(edit.fits());
        self.apply(op, place_of(edit))?;
        Ok(op.seq)
    }

    fn made_exactly(&self, edit: &Edit) -> Result<Op, EditError>
        ensures fault { IfErr result (λ e. IsFault e (edit_fault_over self.now edit.now)) }
        ensures fits { OnOk result (edit_fault_over self.now edit.now ≡ None) }
        ensures op { IfOk result (λ o. o ≡ made_over self.now edit.now) }
    {
        self.check(edit)?;
        match copy_of(edit) {
            Err(_) => Err(EditError::OutOfMemory),
            Ok(edit) => self.op_of(edit),
        }
    }

    // The operation of an edit that has no early fault, which has the edit's text itself.
    fn op_of(&self, edit: Edit) -> Result<Op, EditError>
        requires fits { early_fault self.now edit ≡ None }
        ensures fault { IfErr result (λ e. IsFault e (edit_fault_over self.now edit)) }
        ensures fits { OnOk result (edit_fault_over self.now edit ≡ None) }
        ensures op { IfOk result (λ o. o ≡ made_over self.now edit) }
    {
        match self.make(edit) {
            Err(_) => Err(EditError::OutOfMemory),
            Ok(op) => {
                check_size(&op)?;
                Ok(op)
            }
        }
    }

    // All that can be told before the operation is made.
    fn check(&self, edit: &Edit) -> Result<(), EditError>
        ensures ok { OnOk result (early_fault self.now edit.now ≡ None) }
        ensures fault { IfErr result (λ e. early_fault self.now edit.now ≡ Some e) }
    {
        if self.left(self.me()) {
            return Err(EditError::Left);
        }
        check_range(self.total(), edit)?;
        if self.own_count() == GREATEST_NUMBER {
            return Err(EditError::NumbersSpent);
        }
        Ok(())
    }

    fn own_count(&self) -> u32
        ensures count { result ≡ own_count self.now }
    {
        self.acks.mine().get(self.me())
    }

    #[tactic(auto, unfolding(rls_seen::specs::Edits::made_over))]
    fn make(&self, edit: Edit) -> Result<Op, AllocError>
        requires fits { early_fault self.now edit ≡ None }
        ensures op { IfOk result (λ o. o ≡ made_over self.now edit) }
    {
        Ok(Op {
            author: self.me(),
            seq: self.own_count() + 1,
            context: self.vector().copy()?,
            epoch: self.greatest(),
            body: self.make_body(edit)?,
        })
    }

    fn make_body(&self, edit: Edit) -> Result<Body, AllocError>
        requires fits { early_fault self.now edit ≡ None }
        ensures body { IfOk result (λ b. b ≡ made_body self.now edit) }
    {
        match edit {
            Edit::Insert { at, text } => Ok(Body::Insert {
                first: self.first_at(at, text.len())?,
                text,
            }),
            Edit::Delete { at, count } => Ok(Body::Delete {
                targets: self.document.runs_of(at, count)?,
            }),
            Edit::Rename => Ok(Body::Rename {
                former: self.document.runs_of(0, self.total())?,
            }),
            Edit::Leave => Ok(Body::Leave),
        }
    }

    // The first identifier of an insertion of so many characters at a place.
    fn first_at(&self, at: u64, count: usize) -> Result<Ident, AllocError>
        requires place { at ≤ length self.now.text }
        requires some { 0 < count }
        requires brief { count < 2 ^ 31 }
        requires unspent { own_count self.now ≢ GREATEST_NUMBER }
        ensures first { IfOk result (λ x. x ≡ first_between self.now.stems self.now.acks.me (own_count self.now + 1) (get_before (idents_over self.now) at) (slice_get (idents_over self.now) at) count) }
    {
        rely!(self.sane());
        let (before, behind) = self.document.neighbours(at);
        let (left, right) = (Neighbour::of(before), Neighbour::of(behind));
        let seq = self.own_count() + 1;
        self.stems.first_between(
            self.alloc,
            self.me(),
            seq,
            left.as_ref(),
            right.as_ref(),
            count,
        )
    }
}

// The same edit again.
fn copy_of(edit: &Edit) -> Result<Edit, AllocError>
    ensures copy { IfOk result (λ copy. copy ≡ edit.now) }
{
    match edit {
        Edit::Insert { at, text } => Ok(Edit::Insert {
            at: *at,
            text: text.copy()?,
        }),
        Edit::Delete { at, count } => Ok(Edit::Delete {
            at: *at,
            count: *count,
        }),
        Edit::Rename => Ok(Edit::Rename),
        Edit::Leave => Ok(Edit::Leave),
    }
}

// The place to which an insertion goes, or from which a deletion takes.
fn place_of(edit: &Edit) -> Option<u64>
    ensures place { result ≡ edit_place edit.now }
{
    match edit {
        Edit::Insert { at, .. } | Edit::Delete { at, .. } => Some(*at),
        _ => None,
    }
}

// By the number of characters alone.
fn check_range(total: u64, edit: &Edit) -> Result<(), EditError>
    ensures ok { OnOk result (range_fault total edit.now ≡ None) }
    ensures fault { IfErr result (λ e. range_fault total edit.now ≡ Some e) }
{
    match edit {
        Edit::Insert { at, text } => check_insertion(total, *at, text.len() as u64),
        Edit::Delete { at, count } => check_deletion(total, *at, *count),
        Edit::Rename => check_renaming(total),
        Edit::Leave => Ok(()),
    }
}

fn check_insertion(total: u64, at: u64, count: u64) -> Result<(), EditError>
    ensures ok { (cs : List ℕ) → length cs ≡ count → OnOk result (range_fault total (Insert at cs) ≡ None) }
    ensures fault { (cs : List ℕ) → length cs ≡ count → IfErr result (λ e. range_fault total (Insert at cs) ≡ Some e) }
{
    if count == 0 {
        return Err(EditError::EmptyEdit);
    }
    if at > total {
        return Err(EditError::Range { at, total });
    }
    if count > CHARACTERS {
        return Err(EditError::TooManyChars { total: count });
    }
    Ok(())
}

fn check_deletion(total: u64, at: u64, count: u64) -> Result<(), EditError>
    ensures ok { OnOk result (range_fault total (Delete at count) ≡ None) }
    ensures fault { IfErr result (λ e. range_fault total (Delete at count) ≡ Some e) }
{
    if count == 0 {
        return Err(EditError::EmptyEdit);
    }
    if at > total || count > total - at {
        return Err(EditError::Range { at, total });
    }
    if count > IDENTIFIERS {
        return Err(EditError::TooManyChars { total: count });
    }
    Ok(())
}

fn check_renaming(total: u64) -> Result<(), EditError>
    ensures ok { OnOk result (range_fault total Rename ≡ None) }
    ensures fault { IfErr result (λ e. range_fault total Rename ≡ Some e) }
{
    if total == 0 {
        return Err(EditError::EmptyDocument);
    }
    if total > IDENTIFIERS {
        return Err(EditError::TooManyChars { total });
    }
    Ok(())
}

// An operation of which more bytes would have to be told than a u64 holds is answered as one for which there is no memory.
fn check_size(op: &Op) -> Result<(), EditError>
    ensures ok { OnOk result (size_fault (op_size op.now) ≡ None) }
    ensures fault { IfErr result (λ e. IsFault e (size_fault (op_size op.now))) }
{
    // Its bytes are counted only if there may be too many.
    if op.most_bytes() <= OPERATION_BYTES {
        return Ok(());
    }
    let bytes = op.encoded_len();
    if bytes == u64::MAX {
        return Err(EditError::OutOfMemory);
    }
    if bytes > OPERATION_BYTES {
        return Err(EditError::OpTooLarge { bytes });
    }
    Ok(())
}
