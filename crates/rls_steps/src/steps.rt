//! What a member did to its text, step by step, and what it took back.
//! Why: docs/DECISIONS.md, 127, 243; CHOICES.md, 124, 183, 218.

ghost use Rattle.std.specs.Prelude.{◌≡◌, ◌+◌, ◌++◌, ◌∷◌, [], ℕ, List, length, take, drop, reverse, false, ◌||◌, ◌-◌, map, replicate, Some, None, IfOk, IfErr, OnOk, OnErr, IsErrOf, ◌↔◌, IsFalse, ◌≤◌, ◌⊎◌};
ghost use Rattle.rls_ident.specs.declared.epoch_name.EpochName.{EpochName};
ghost use Rattle.rls_model.specs.declared.edit.EditError.{EditError};
ghost use Rattle.rls_seen.specs.Edits.{edit_fault_over, edited, made_over};
ghost use Rattle.rls_seen.specs.Seen.{own_count, idents_over, greatest_over, text_over};
ghost use Rattle.rls_replica.specs.Names.{keeps, KeepsNames};
ghost use Rattle.rls_steps.specs.Courses.{Back, Again, course, MayRun, Copies, Shows, copies};
ghost use Rattle.rls_steps.specs.Forgetting.{leaving, lightened, without_overfull};
ghost use Rattle.rls_steps.specs.Index.{AreApart};
ghost use Rattle.rls_steps.specs.Groups.{group_size, group_count, group_before, goes_on, next_group, turned, IsStopped};
ghost use Rattle.rls_changes.specs.Edits.{edit_changes};
ghost use Rattle.rls_steps.specs.Grounds.{over, begun_on, recorded_on, back_edits, again_edits, back_on, again_on, closed};
ghost use Rattle.rls_steps.specs.StepChanges.{back_changes, AreTold};
ghost use Rattle.rls_steps.specs.Recorded.{unused, settled, steps_over, IsRecorded};
ghost use Rattle.rls_steps.specs.Sweeping.{swept, kept_within, with_newest};
ghost use Rattle.rls_steps.specs.Turning.{IsTurnStopped, facing, moves_of, turn_size, turned_changes, turned_edits, turned_on};

mod recording;

use crate::dropping::{drop_first, forgotten, reaches};
use crate::labelling::translated;
use crate::names::Names;
use crate::piece::Step;
use crate::sweeping::kept_names;
use crate::undoing::{back, count};
use rls_changes::Change;
use rls_ident::{EpochName, rely};
use rls_ops::Op;
use rls_replica::{Edit, EditError, PastError, Replica};
use std::alloc::Global;
use std::marker::Model;
use std::mem;

/// Why nothing is done, or not to its end.
#[derive(Clone, Copy, Debug, PartialEq, Eq)]
pub enum StepError {
    /// There is nothing to undo, or nothing to redo.
    Nothing,
    /// The replica doesn't keep the epoch of what is recorded.
    Dropped { epoch: EpochName },
    /// The edit that comes next is refused.
    Edit(EditError),
    OutOfMemory,
}

/// Which group of steps goes.
#[derive(Clone, Copy)]
pub enum Turn {
    /// The last one is taken back: an undo.
    Back,
    /// The one that was taken back last is done again: a redo.
    Again,
}

/// What a member did to its text and can take back all the way, in groups; and what it took back and can do again. It stands beside a
/// replica, and each call is to be given that one.
#[derive(Drop)]
pub struct Steps {
    epoch: EpochName,
    next: u64,
    names: Names,
    past: Vec<Step>,
    future: Vec<Step>,
    group: u64,
    overfull: bool,
    after_sweep: usize,
}

impl Model for Steps {
    ghost use Rattle.rls_steps.specs.Recorded.{Recorded};

    ghost Value = { Recorded };

    ghost view = { λ s. record { epoch = s.epoch; next = s.next; names = s.names; past = s.past.items; future = s.future.items; group = s.group; overfull = s.overfull; after_sweep = s.after_sweep } };
}

impl Steps {
    /// Nothing is recorded. It takes no memory.
    pub fn new(alloc: Global) -> Steps
        ensures unused { result ≡ unused }
    {
        Steps {
            epoch: EpochName::Origin,
            next: 0,
            names: Names::new(alloc),
            past: Vec::new(alloc),
            future: Vec::new(alloc),
            group: 0,
            overfull: false,
            after_sweep: 0,
        }
    }

    /// Where no character is named yet, what is recorded is in the replica's greatest epoch from now on. Steps that begin beside a replica
    /// which may have dropped an epoch need it before their first edit, undo, redo or `settle`. It takes no memory.
    pub fn begin(&mut self, replica: &Replica)
        ensures begun { self.new ≡ begun_on over replica.now self.old }
    {
        if self.names.len() == 0 {
            self.epoch = replica.greatest();
        }
    }

    /// How many groups can be undone. It costs a pass over the steps.
    pub fn undoable(&self) -> usize
        ensures count { result ≡ group_count self.now.past }
    {
        count(&self.past)
    }

    /// How many groups can be redone. It costs a pass over the steps.
    pub fn redoable(&self) -> usize
        ensures count { result ≡ group_count self.now.future }
    {
        count(&self.future)
    }

    /// How many names of characters are kept. It grows with each character that is inserted or deleted; `keep_within` lets names go.
    pub fn named(&self) -> usize
        ensures count { result ≡ length self.now.names }
    {
        self.names.len()
    }

    /// Ends the open group: the next edit begins another one. It takes no memory.
    pub fn close(&mut self)
        ensures epoch { self.new.epoch ≡ self.old.epoch }
        ensures next { self.new.next ≡ self.old.next }
        ensures names { self.new.names ≡ self.old.names }
        ensures past { self.new.past ≡ self.old.past }
        ensures future { self.new.future ≡ self.old.future }
        ensures group { self.new.group ≡ next_group self.old.group }
        ensures overfull { self.new.overfull ≡ false }
        ensures closed { self.new ≡ closed self.old }
        ensures after_sweep { self.new.after_sweep ≡ self.old.after_sweep }
    {
        if let Some(group) = self.group.checked_add(1) {
            self.group = group;
        }
        self.overfull = false;
    }

    /// Forgets the oldest groups that can be undone, whole, so that at most so many steps are left, which put in or cut out at most so many
    /// characters. If the open group has more by itself, nothing is left, and what is recorded of it until it is closed goes at the next
    /// `forget` or `keep_within`. The names stay. It takes no memory, and costs a pass over the steps.
    pub fn forget(&mut self, steps: usize, chars: u64)
        ensures left { self.new ≡ lightened steps chars self.old }
        ensures within { leaving steps chars self.old ≤ length self.old.past }
    {
        let count = self.leaving(steps, chars);
        self.drop_oldest(count);
    }

    // How many of the oldest steps go.
    fn leaving(&self, steps: usize, chars: u64) -> usize
        ensures leaving { result ≡ leaving steps chars self.now }
        ensures within { result ≤ length self.now.past }
    {
        if self.overfull {
            return self.past.len();
        }
        forgotten(&self.past, steps, chars)
    }

    // Forgets so many of the oldest steps.
    fn drop_oldest(&mut self, count: usize)
        requires within { count ≤ length self.old.past }
        ensures left { self.new.past ≡ drop count self.old.past }
        ensures overfull { self.new.overfull ≡ (self.old.overfull || goes_on (group_before self.old.past count) self.old.group) }
        ensures epoch { self.new.epoch ≡ self.old.epoch }
        ensures next { self.new.next ≡ self.old.next }
        ensures names { self.new.names ≡ self.old.names }
        ensures future { self.new.future ≡ self.old.future }
        ensures group { self.new.group ≡ self.old.group }
        ensures after_sweep { self.new.after_sweep ≡ self.old.after_sweep }
    {
        if reaches(&self.past, count, self.group) {
            self.overfull = true;
        }
        drop_first(&mut self.past, count);
    }

    // Forgets what is recorded of the open group, if that is overfull.
    fn drop_overfull(&mut self)
        ensures left { self.new ≡ without_overfull self.old }
    {
        if self.overfull {
            self.past.clear();
        }
    }

    /// Keeps memory within bounds: an editor calls it after each edit, undo and redo. Nothing happens until there are more than twice as
    /// many names as the last sweep left. Then the oldest groups are forgotten, as by `forget`, and there is a sweep: a name stays only
    /// if a step names its label, and if besides no newer name has that label or its character is in the text. Names that go are never
    /// needed again, so what is left leads to the same texts as before. If the open group was forgotten, what is recorded of it until it is
    /// closed goes at each call: so a group is taken back whole, or not at all. After an error all is as before, but that everything may be
    /// in the greatest epoch.
    ///
    /// Each call costs nothing but two comparisons, until there is a sweep. That costs a pass over the steps and a sort of the labels
    /// that they name, a few searches for each run of names that is kept whole, and a few for each name of the others.
    ///
    /// # Errors
    ///
    /// `Dropped` only where the replica doesn't keep the epoch of what is recorded; or `OutOfMemory`.
    pub fn keep_within(
        &mut self,
        replica: &Replica,
        steps: usize,
        chars: u64,
    ) -> Result<(), PastError>
        ensures kept { OnOk result (self.new ≡ kept_within replica.now steps chars self.old) }
        ensures dropped { (e : EpochName) → IsErrOf result (PastError.Dropped e) → (self.old.epoch ≡ e) × IsFalse (keeps replica.now e) }
        ensures stays { OnErr result (settled replica.now self.new ≡ settled replica.now self.old) }
        ensures shows { OnOk result ((c : Copies) → Shows (steps_over replica.now self.old) c → Shows (steps_over replica.now self.new) (with_newest (length self.new.past) c)) }
    {
        if self.names.len() / 2 <= self.after_sweep {
            self.drop_overfull();
            return Ok(());
        }
        match self.settle(replica) {
            Err(error) => Err(error),
            Ok(()) => self.sweep(replica, steps, chars),
        }
    }

    // Everything is in the greatest epoch.
    fn sweep(&mut self, replica: &Replica, steps: usize, chars: u64) -> Result<(), PastError>
        requires greatest { self.old.epoch ≡ greatest_over replica.now }
        ensures swept { OnOk result (self.new ≡ swept (idents_over replica.now) (lightened steps chars self.old)) }
        ensures kept { (e : EpochName) → IsErrOf result (PastError.Dropped e) → ⊥ }
        ensures stays { OnErr result (self.new ≡ self.old) }
        ensures apart { AreApart (reverse self.old.names) }
        ensures within { leaving steps chars self.old ≤ length self.old.past }
    {
        rely!(self.names.apart());
        let count = self.leaving(steps, chars);
        let (_, past) = self.past.split_at(count);
        let Ok(names) = kept_names(replica, &self.names, past, &self.future) else {
            return Err(PastError::OutOfMemory);
        };
        self.drop_oldest(count);
        self.after_sweep = names.len();
        self.names = names;
        Ok(())
    }

    /// Translates everything to the greatest epoch, as is needed before what is stable is dropped. After an error all is as before. It
    /// costs a translation of each name, or nothing if all are in the greatest epoch.
    ///
    /// # Errors
    ///
    /// `Dropped` exactly where the replica doesn't keep the epoch.
    pub fn settle(&mut self, replica: &Replica) -> Result<(), PastError>
        ensures settled { OnOk result (self.new ≡ settled replica.now self.old) }
        ensures dropped { (e : EpochName) → (IsErrOf result (PastError.Dropped e) ↔ ((self.old.epoch ≡ e) × IsFalse (keeps replica.now e))) }
        ensures stays { OnErr result (self.new ≡ self.old) }
    {
        let epoch = self.epoch;
        if !replica.keeps(epoch) {
            return Err(PastError::Dropped { epoch });
        }
        let greatest = replica.greatest();
        if epoch.same(&greatest) {
            return Ok(());
        }
        match translated(replica, epoch, &self.names) {
            Err(_) => Err(PastError::OutOfMemory),
            Ok(names) => {
                self.names = names;
                self.epoch = greatest;
                Ok(())
            }
        }
    }

    /// Performs an edit as `Replica::edit` does. An insertion and a deletion are steps of the open group, and what could be redone
    /// is forgotten. After an error all is as before, but that everything may be in the greatest epoch.
    ///
    /// It costs what `Replica::edit` does. An insertion costs a few searches among the names, and a deletion a search in the
    /// text and one among the names for each of its characters and for both its neighbours. After a rename everything is
    /// translated first, as by `settle`.
    ///
    /// # Errors
    ///
    /// `Edit` with the first fault of the edit; `Dropped` only where the replica doesn't keep the epoch of what is recorded; or
    /// `OutOfMemory`.
    pub fn edit(&mut self, replica: &mut Replica, edit: &Edit) -> Result<u32, StepError>
        ensures nothing { IsErrOf result StepError.Nothing → ⊥ }
        ensures memory { IsErrOf result (StepError.Edit EditError.OutOfMemory) → ⊥ }
        ensures refused { (f : EditError) → IsErrOf result (StepError.Edit f) → edit_fault_over replica.old edit.now ≡ Some f }
        ensures dropped { (e : EpochName) → IsErrOf result (StepError.Dropped e) → (self.old.epoch ≡ e) × IsFalse (keeps replica.old e) }
        ensures fits { OnOk result (edit_fault_over replica.old edit.now ≡ None) }
        ensures seq { IfOk result (λ n. n ≡ own_count replica.old + 1) }
        ensures after { OnOk result (replica.new ≡ edited replica.old edit.now) }
        ensures recorded { OnOk result (IsRecorded edit.now replica.old self.old replica.new self.new) }
        ensures exact { OnOk result (self.new ≡ recorded_on over replica.old edit.now self.old) }
        ensures err { OnErr result (replica.new ≡ replica.old) }
        ensures stays { OnErr result (settled replica.old self.new ≡ settled replica.old self.old) }
        ensures names { KeepsNames replica.old replica.new }
    {
        match replica.made(edit) {
            Err(error) => Err(step_error(error)),
            Ok(op) => match self.accept_own(replica, edit, &op) {
                Ok(seq) => Ok(seq),
                Err(error) => Err(past_error(error)),
            },
        }
    }

    /// Accepts the operation that `Replica::made` has given for an edit here, and records it as `edit` does: `edit` is `made` and then this.
    /// So whoever looks at the operation of an edit before doesn't make it twice. After an error all is as before, but that everything may
    /// be in the greatest epoch. It costs what `edit` does without making the operation.
    ///
    /// # Errors
    ///
    /// `Dropped` only where the replica doesn't keep the epoch of what is recorded; or `OutOfMemory`.
    pub fn accept_own(
        &mut self,
        replica: &mut Replica,
        edit: &Edit,
        op: &Op,
    ) -> Result<u32, PastError>
        requires fits { edit_fault_over replica.old edit.now ≡ None }
        requires op { op.now ≡ made_over replica.old edit.now }
        ensures dropped { (e : EpochName) → IsErrOf result (PastError.Dropped e) → (self.old.epoch ≡ e) × IsFalse (keeps replica.old e) }
        ensures seq { IfOk result (λ n. n ≡ own_count replica.old + 1) }
        ensures after { OnOk result (replica.new ≡ edited replica.old edit.now) }
        ensures recorded { OnOk result (IsRecorded edit.now replica.old self.old replica.new self.new) }
        ensures exact { OnOk result (self.new ≡ recorded_on over replica.old edit.now self.old) }
        ensures err { OnErr result (replica.new ≡ replica.old) }
        ensures stays { OnErr result (settled replica.old self.new ≡ settled replica.old self.old) }
        ensures names { KeepsNames replica.old replica.new }
    {
        match edit {
            Edit::Insert { text, .. } => {
                self.settle(replica)?;
                self.insert(replica, edit, op, text.len())
            }
            Edit::Delete { at, count } => {
                self.settle(replica)?;
                self.delete(replica, op, *at, *count)
            }
            Edit::Rename | Edit::Leave => {
                let seq = replica.accept_own(edit, op)?;
                Ok(seq)
            }
        }
    }

    fn settle_for(&mut self, replica: &Replica) -> Result<(), StepError>
        ensures settled { OnOk result (self.new ≡ settled replica.now self.old) }
        ensures dropped { (e : EpochName) → (IsErrOf result (StepError.Dropped e) ↔ ((self.old.epoch ≡ e) × IsFalse (keeps replica.now e))) }
        ensures stays { OnErr result (self.new ≡ self.old) }
        ensures nothing { IsErrOf result StepError.Nothing → ⊥ }
        ensures edit { (f : EditError) → IsErrOf result (StepError.Edit f) → ⊥ }
    {
        match self.settle(replica) {
            Ok(()) => Ok(()),
            Err(error) => Err(past_error(error)),
        }
    }

    /// Takes the last group back, the last step first, or does the group again that was taken back last; and answers how many steps that
    /// were. It ends the open group. What it changes in the text stands after the other changes: an insertion for each piece that comes back, and a deletion for each range that goes.
    ///
    /// Each step costs its edits, as by `edit`. A step that put characters in costs a few searches for each run of these that was put in,
    /// or came back, at once and stands in the text as a whole, and a few instructions for each of them; and one that cut some out a few
    /// searches for its neighbours. That is so however often they went and came back; only where other characters stand between where a
    /// character was at different times, it costs a search for each name that this one has had. After a rename everything is translated
    /// first, as by `settle`.
    ///
    /// # Errors
    ///
    /// `Nothing` exactly where there is nothing to undo, or to redo, and `Dropped` only where the replica doesn't keep the epoch of what is
    /// recorded; then nothing changes. After `Edit`, with the fault of the first edit that is refused, and after `OutOfMemory` the steps
    /// before are taken back and can be redone, and of the step in hand some ranges may be. The rest stays, so that another turn goes on
    /// with it. Of a group that is done again it is the same the other way round.
    pub fn turn(
        &mut self,
        replica: &mut Replica,
        turn: Turn,
        changes: &mut Vec<Change>,
    ) -> Result<usize, StepError>
        ensures nothing { IsErrOf result StepError.Nothing ↔ ((facing turn self.old).past ≡ []) }
        ensures stays { IsErrOf result StepError.Nothing → (replica.new ≡ replica.old) × (self.new ≡ self.old) × (changes.new.items ≡ changes.old.items) }
        ensures memory { IsErrOf result (StepError.Edit EditError.OutOfMemory) → ⊥ }
        ensures dropped { (e : EpochName) → IsErrOf result (StepError.Dropped e) → (self.old.epoch ≡ e) × IsFalse (keeps replica.old e) × (replica.new ≡ replica.old) × (self.new ≡ self.old) × (changes.new.items ≡ changes.old.items) }
        ensures fits { OnOk result (MayRun (steps_over replica.old self.old) (moves_of turn self.old)) }
        ensures after { OnOk result (steps_over replica.new self.new ≡ course (steps_over replica.old self.old) (moves_of turn self.old)) }
        ensures stopped { (f : EditError) → IsErrOf result (StepError.Edit f) → IsTurnStopped f turn replica.old self.old replica.new self.new }
        ensures spent { IsErrOf result StepError.OutOfMemory → ((replica.new ≡ replica.old) × (self.new ≡ self.old)) ⊎ IsTurnStopped EditError.OutOfMemory turn replica.old self.old replica.new self.new }
        ensures left { OnOk result ((facing turn self.new).past ≡ take (length (facing turn self.old).past - turn_size turn self.old) (facing turn self.old).past) }
        ensures exact { IfOk result (λ n. turned_on over turn replica.old self.old ≡ record { steps = n; fault = None; state = replica.new; recorded = self.new }) }
        ensures refused { (f : EditError) → IsErrOf result (StepError.Edit f) → turned_on over turn replica.old self.old ≡ record { steps = turn_size turn self.old; fault = Some f; state = replica.new; recorded = self.new } }
        ensures names { KeepsNames replica.old replica.new }
        ensures changes { OnOk result (changes.new.items ≡ changes.old.items ++ turned_changes turn replica.old self.old) }
        ensures edits { OnOk result (changes.new.items ≡ changes.old.items ++ edit_changes (turned_edits over turn replica.old self.old)) }
        ensures refused_edits { (f : EditError) → IsErrOf result (StepError.Edit f) → changes.new.items ≡ changes.old.items ++ edit_changes (turned_edits over turn replica.old self.old) }

        // Some of the first of these changes stand after the others also after an error, and lead from the text before to the text now.
        ensures told { AreTold (turned_changes turn replica.old self.old) changes.old.items changes.new.items (text_over replica.old) (text_over replica.new) }
        ensures shows { OnOk result ((c : Copies) → Shows (steps_over replica.old self.old) c → Shows (steps_over replica.new self.new) (copies c (moves_of turn self.old))) }
    {
        self.face(turn);
        let done = self.take_back(replica, changes);
        self.face(turn);
        done
    }

    // With the stacks exchanged where a group is done again. It takes no memory.
    fn face(&mut self, turn: Turn)
        ensures facing { self.new ≡ facing turn self.old }
    {
        if let Turn::Again = turn {
            mem::swap(&mut self.past, &mut self.future);
        }
    }

    // Takes the last group back.
    fn take_back(
        &mut self,
        replica: &mut Replica,
        changes: &mut Vec<Change>,
    ) -> Result<usize, StepError>
        ensures nothing { IsErrOf result StepError.Nothing ↔ (self.old.past ≡ []) }
        ensures stays { IsErrOf result StepError.Nothing → (replica.new ≡ replica.old) × (self.new ≡ self.old) × (changes.new.items ≡ changes.old.items) }
        ensures memory { IsErrOf result (StepError.Edit EditError.OutOfMemory) → ⊥ }
        ensures dropped { (e : EpochName) → IsErrOf result (StepError.Dropped e) → (self.old.epoch ≡ e) × IsFalse (keeps replica.old e) × (replica.new ≡ replica.old) × (self.new ≡ self.old) × (changes.new.items ≡ changes.old.items) }
        ensures fits { OnOk result (MayRun (steps_over replica.old self.old) (replicate (group_size self.old.past) Back)) }
        ensures after { OnOk result (steps_over replica.new self.new ≡ course (steps_over replica.old self.old) (replicate (group_size self.old.past) Back)) }
        ensures stopped { (f : EditError) → IsErrOf result (StepError.Edit f) → IsStopped f (steps_over replica.old self.old).held self.old.past self.old.future (steps_over replica.new self.new).held self.new.past self.new.future }
        ensures spent { IsErrOf result StepError.OutOfMemory → ((replica.new ≡ replica.old) × (self.new ≡ self.old)) ⊎ IsStopped EditError.OutOfMemory (steps_over replica.old self.old).held self.old.past self.old.future (steps_over replica.new self.new).held self.new.past self.new.future }
        ensures left { OnOk result (self.new.past ≡ take (length self.old.past - group_size self.old.past) self.old.past) }
        ensures exact { IfOk result (λ n. back_on over replica.old self.old ≡ record { steps = n; fault = None; state = replica.new; recorded = self.new }) }
        ensures refused { (f : EditError) → IsErrOf result (StepError.Edit f) → back_on over replica.old self.old ≡ record { steps = group_size self.old.past; fault = Some f; state = replica.new; recorded = self.new } }
        ensures names { KeepsNames replica.old replica.new }
        ensures changes { OnOk result (changes.new.items ≡ changes.old.items ++ back_changes (group_size self.old.past) (steps_over replica.old self.old)) }
        ensures edits { OnOk result (changes.new.items ≡ changes.old.items ++ edit_changes (back_edits over replica.old self.old)) }
        ensures refused_edits { (f : EditError) → IsErrOf result (StepError.Edit f) → changes.new.items ≡ changes.old.items ++ edit_changes (back_edits over replica.old self.old) }
        ensures told { AreTold (back_changes (group_size self.old.past) (steps_over replica.old self.old)) changes.old.items changes.new.items (text_over replica.old) (text_over replica.new) }
    {
        if self.past.len() == 0 {
            return Err(StepError::Nothing);
        }
        self.settle_for(replica)?;
        self.close();
        match back(
            replica,
            &mut self.names,
            &mut self.next,
            &mut self.past,
            &mut self.future,
            changes,
        ) {
            Ok(done) => Ok(done),
            Err(error) => Err(step_error(error)),
        }
    }
}

// Want of memory stands apart.
fn step_error(error: EditError) -> StepError
    ensures nothing { result ≡ StepError.Nothing → ⊥ }
    ensures memory { result ≡ StepError.Edit EditError.OutOfMemory → ⊥ }
    ensures edit { (f : EditError) → result ≡ StepError.Edit f → error ≡ f }
    ensures spent { result ≡ StepError.OutOfMemory → error ≡ EditError.OutOfMemory }
    ensures dropped { (e : EpochName) → result ≡ StepError.Dropped e → ⊥ }
{
    match error {
        EditError::OutOfMemory => StepError::OutOfMemory,
        error => StepError::Edit(error),
    }
}

// The same error, as an edit and a turn answer it.
fn past_error(error: PastError) -> StepError
    ensures nothing { result ≡ StepError.Nothing → ⊥ }
    ensures edit { (f : EditError) → result ≡ StepError.Edit f → ⊥ }
    ensures dropped { (e : EpochName) → ((result ≡ StepError.Dropped e) ↔ (error ≡ PastError.Dropped e)) }
{
    match error {
        PastError::Dropped { epoch } => StepError::Dropped { epoch },
        PastError::OutOfMemory => StepError::OutOfMemory,
    }
}
