//! What a session works on.
//! Why: docs/DECISIONS.md, 146, 163; CHOICES.md, 131.

ghost use Rattle.std.specs.Prelude.{◌≡◌, ◌+◌, ◌++◌, option_map, None, IfOk, OnOk, IsTrue};
ghost use Rattle.rls_ident.specs.declared.epoch_name.EpochName.{EpochName};
ghost use Rattle.rls_codec.specs.CodecLaws.{IsBytes};
ghost use Rattle.rls_codec.specs.Reading.{message_of};
ghost use Rattle.rls_seen.specs.Edits.{edit_fault_over, made_over};
ghost use Rattle.rls_seen.specs.Over.{released_all};
ghost use Rattle.rls_seen.specs.Sane.{IsSane};
ghost use Rattle.rls_seen.specs.Seen.{Seen, own_count};
ghost use Rattle.rls_anchor.specs.Anchors.{place_over};
ghost use Rattle.rls_stages.specs.Lines.{allowed};
ghost use Rattle.rls_undo.specs.Undoing.{last_of};
ghost use Rattle.rls_changes.specs.Edits.{edit_changes};
ghost use Rattle.rls_changes.specs.Telling.{all_released_changes};
ghost use Rattle.rls_session.specs.Answering.{IsAnswered};
ghost use Rattle.rls_session.specs.Answers.{done, edit_told, edited, ended, made_changes, made_sitting, message_changes, placed, pointed, read_line, says, sitting_at, take_told, taken, turn_edits, turn_told, turned_group, undo_told, undone_changes, undone_last, with_begun, with_caught_up, with_changes, with_recorded, with_settled, with_state, with_telling};
ghost use Rattle.rls_session.specs.Cursors.{cursor_in};
ghost use Rattle.rls_session.specs.Desks.{IsTurnTold};
ghost use Rattle.rls_session.specs.Replies.{telling_text};
ghost use Rattle.rls_session.specs.Requests.{Does};
ghost use Rattle.rls_session.specs.Sent.{SendsMessage};
ghost use Rattle.rls_session.specs.Sessions.{by_parts};
ghost use Rattle.rls_file.specs.Stored.{AreWritable};

mod settling;

use crate::change_lines::push_changes;
use crate::cursors::Cursors;
use crate::orders::{Order, Side};
use crate::places::anchor_of;
use crate::telling::{refused, take_message, undo_last};
use crate::{costs, places, replies, showing};
use rls_anchor::AnchorError;
use rls_changes::{Change, push_own, release_all};
use rls_ident::rely;
use rls_model::{Edit, Taken};
use rls_ops::Op;
use rls_replica::{PastError, Replica};
use rls_report::{CommandError, LineFault};
use rls_script::Line;
use rls_stages::{LineError, edit_of};
use rls_steps::{StepError, Steps, Turn};
use rls_sync::TakeBytesError;
use rls_undo::Undo;
use std::alloc::{AllocError, Global};
use std::marker::Model;

/// How many edits can be undone that a session made before a store.
pub const KEPT_ENTRIES: usize = 10_000;

/// How many steps can be taken back: where there are more, the oldest groups are forgotten, whole.
pub const KEPT_STEPS: usize = 10_000;

/// How many characters these steps put in or cut out, at most.
pub const KEPT_CHARACTERS: u64 = 4_194_304;

/// What a session works on: the replica, what undoes its edits, the cursors, what is recorded of its steps, and whether changes are told.
#[derive(Drop)]
pub(crate) struct Desk {
    replica: Replica,
    undo: Undo,
    cursors: Cursors,
    steps: Steps,
    tells: bool,
}

impl Model for Desk {
    ghost use Rattle.rls_seen.specs.Seen.{Seen};
    ghost use Rattle.rls_session.specs.Answers.{Sitting};
    ghost use Rattle.rls_session.specs.Desks.{sitting_of, IsWhole};

    ghost Value = { Sitting Seen };

    ghost view = { λ d. sitting_of d.replica d.undo d.cursors d.steps d.tells };

    ghost invariant = { λ d. IsWhole d.replica d.undo d.cursors };
}

impl Desk {
    /// The desk at the start of a session.
    pub(crate) fn new(alloc: Global, replica: Replica) -> Desk
        ensures sitting { result ≡ sitting_at replica }
    {
        Desk {
            replica,
            undo: Undo::new(alloc),
            cursors: Cursors::new(alloc),
            steps: Steps::new(alloc),
            tells: false,
        }
    }

    /// The replica.
    pub(crate) fn replica(&self) -> &Replica
        ensures replica { result.now ≡ self.now.state }
    {
        &self.replica
    }

    /// Answers an order. A change, and those to store, to quit and to take a message, are answered by nothing here.
    pub(crate) fn answer(&mut self, alloc: Global, order: Order) -> Result<Vec<u8>, AllocError>
        ensures answered { IfOk result (λ reply. IsAnswered (done by_parts self.old order) reply.items self.new) }
        ensures sent { AreWritable self.old.state → OnOk result (SendsMessage self.old (Does order)) }
    {
        match order {
            Order::Edit { line } => self.edit(alloc, line),
            Order::Undo => self.undo(alloc),
            Order::Back => self.turn(alloc, Turn::Back),
            Order::Again => self.turn(alloc, Turn::Again),
            Order::Close => self.end_group(alloc),
            Order::Point { side, at, number } => self.point(alloc, side, at, number),
            Order::Place { number } => self.place(alloc, number),
            Order::Spell { at } => places::spell(alloc, &self.replica, at),
            Order::Locate { place } => places::locate(alloc, &self.replica, &place),
            Order::Text => showing::text(alloc, &self.replica),
            Order::Send { to } => showing::message(alloc, &self.replica, to),
            Order::SendTold { to, told } => {
                showing::message_told(alloc, &self.replica, to, &told)
            }
            Order::Stat => showing::stat(alloc, &self.replica),
            Order::Costs => costs::tell_costs(alloc, &self.replica),
            Order::Tell { on } => self.tell_from_now(alloc, on),
            Order::Version { number } => replies::version(alloc, number),
            Order::Bad => replies::bad(alloc),
            Order::Change { .. } | Order::Take { .. } | Order::Store | Order::Quit => Ok(Vec::new(
                alloc,
            )),
        }
    }

    // ---- edits

    // Performs a line, and releases what is ready.
    fn edit(&mut self, alloc: Global, line: Line) -> Result<Vec<u8>, AllocError>
        ensures answered { IfOk result (λ reply. IsAnswered (edit_told by_parts self.old (read_line by_parts self.old.state line)) reply.items self.new) }
    {
        let mut changes = Vec::new(alloc);
        let reply = self.perform(alloc, line, &mut changes)?;
        self.release(alloc, &mut changes)?;
        self.tell(alloc, reply, &changes)
    }

    // Undoes the last edit, and releases what is ready.
    fn undo(&mut self, alloc: Global) -> Result<Vec<u8>, AllocError>
        ensures answered { IfOk result (λ reply. IsAnswered (undo_told by_parts (with_caught_up by_parts self.old)) reply.items self.new) }
    {
        let mut changes = Vec::new(alloc);
        self.catch_up()?;
        let reply = self.undo_last(alloc, &mut changes)?;
        self.release(alloc, &mut changes)?;
        self.tell(alloc, reply, &changes)
    }

    // The entries catch up with the renames.
    fn catch_up(&mut self) -> Result<(), AllocError>
        ensures caught_up { OnOk result (self.new ≡ with_caught_up by_parts self.old) }
    {
        match self.undo.catch_up(&self.replica) {
            Ok(()) => Ok(()),
            // A session drops nothing.
            Err(PastError::Dropped { epoch: _epoch }) => unreachable!(),
            Err(PastError::OutOfMemory) => Err(AllocError),
        }
    }

    // Performs a line.
    fn perform(
        &mut self,
        alloc: Global,
        line: Line,
        changes: &mut Vec<Change>,
    ) -> Result<Vec<u8>, AllocError>
        ensures answered { IfOk result (λ reply. IsAnswered (edited by_parts self.old (read_line by_parts self.old.state line)) reply.items self.new) }
        ensures changes { IsTrue self.old.tells → OnOk result (changes.new.items ≡ changes.old.items ++ made_changes (read_line by_parts self.old.state line)) }
    {
        match edit_of(self.replica(), line) {
            Err(LineError::OutOfMemory) => Err(AllocError),
            Err(LineError::Refused { fault }) => replies::refused(alloc, fault),
            Ok(edit) => self.make(alloc, &edit, changes),
        }
    }

    // Makes an edit.
    fn make(
        &mut self,
        alloc: Global,
        edit: &Edit,
        changes: &mut Vec<Change>,
    ) -> Result<Vec<u8>, AllocError>
        ensures answered { IfOk result (λ reply. IsAnswered (edited by_parts self.old (allowed self.old.state edit.now)) reply.items self.new) }
        ensures changes { IsTrue self.old.tells → OnOk result (changes.new.items ≡ changes.old.items ++ made_changes (allowed self.old.state edit.now)) }
    {
        let op = match self.replica.made(edit) {
            Ok(op) => op,
            Err(error) => return refused(alloc, error),
        };
        let seq = self.record(edit, &op)?;
        if self.tells {
            push_own(changes, edit)?;
        }
        replies::ok(alloc, seq)
    }

    /// Makes an edit that has no fault, with what undoes it and its steps. Nothing is released, and nothing told.
    pub(crate) fn make_own(&mut self, edit: &Edit) -> Result<(), AllocError>
        requires fits { edit_fault_over self.old.state edit.now ≡ None }
        ensures made { OnOk result (self.new ≡ made_sitting by_parts self.old edit.now) }
    {
        // It isn't refused, so that memory alone may be wanting.
        let Ok(op) = self.replica.made(edit) else {
            return Err(AllocError);
        };
        let _seq = self.record(edit, &op)?;
        Ok(())
    }

    /// Releases waiting operations until none is ready, and tells nothing.
    pub(crate) fn rest(&mut self, alloc: Global) -> Result<(), AllocError>
        ensures rested { OnOk result (self.new ≡ with_state self.old (released_all self.old.state)) }
    {
        let mut taken = Taken::new(alloc);
        self.replica.release_all(&mut taken)
    }

    // Makes an edit that has no fault and makes this operation, with what undoes it and its steps.
    fn record(&mut self, edit: &Edit, op: &Op) -> Result<u32, AllocError>
        requires fits { edit_fault_over self.old.state edit.now ≡ None }
        requires op { op.now ≡ made_over self.old.state edit.now }
        ensures seq { IfOk result (λ n. n ≡ own_count self.old.state + 1) }
        ensures recorded { OnOk result (self.new ≡ made_sitting by_parts self.old edit.now) }
    {
        let Ok(()) = self.undo.record_own(&self.replica, edit, op) else {
            return Err(AllocError);
        };
        self.begin();
        // A session drops nothing that it goes back to.
        let Ok(seq) = self.steps.accept_own(&mut self.replica, edit, op) else {
            return Err(AllocError);
        };
        self.keep_within()?;
        Ok(seq)
    }

    // ---- steps

    // Takes the last group back, or does the one again that was taken back last, and releases what is ready.
    fn turn(&mut self, alloc: Global, turn: Turn) -> Result<Vec<u8>, AllocError>
        ensures answered { IfOk result (λ reply. IsAnswered (turn_told by_parts turn (with_begun by_parts self.old)) reply.items self.new) }
    {
        self.begin();
        let mut changes = Vec::new(alloc);
        let reply = self.turn_group(alloc, turn, &mut changes)?;
        self.release(alloc, &mut changes)?;
        self.tell(alloc, reply, &changes)
    }

    // Takes the last group back, or does the one again that was taken back last.
    fn turn_group(
        &mut self,
        alloc: Global,
        turn: Turn,
        changes: &mut Vec<Change>,
    ) -> Result<Vec<u8>, AllocError>
        ensures answered { IfOk result (λ reply. IsAnswered (turned_group by_parts turn self.old) reply.items self.new) }
        ensures changes { OnOk result (changes.new.items ≡ changes.old.items ++ edit_changes (turn_edits by_parts turn self.old)) }
    {
        let done = self.steps.turn(&mut self.replica, turn, changes);
        self.tell_turn(alloc, turn, done)
    }

    // Keeps what is recorded within bounds after a group was taken back or done again, and tells how many steps that were.
    fn tell_turn(
        &mut self,
        alloc: Global,
        turn: Turn,
        done: Result<usize, StepError>,
    ) -> Result<Vec<u8>, AllocError>
        ensures told { IfOk result (λ reply. IsTurnTold turn done self.old reply.items self.new) }
    {
        match done {
            Ok(steps) => {
                self.keep_within()?;
                match turn {
                    Turn::Back => replies::back(alloc, steps),
                    Turn::Again => replies::again(alloc, steps),
                }
            }
            Err(StepError::Nothing) => replies::nothing(alloc),
            Err(StepError::Edit(error)) => {
                self.keep_within()?;
                refused(alloc, error)
            }
            // A session drops nothing that it goes back to.
            Err(StepError::Dropped { .. } | StepError::OutOfMemory) => Err(AllocError),
        }
    }

    // Ends the open group, and tells how many groups there are.
    fn end_group(&mut self, alloc: Global) -> Result<Vec<u8>, AllocError>
        ensures answered { IfOk result (λ reply. IsAnswered (ended self.old) reply.items self.new) }
    {
        self.steps.close();
        replies::groups(alloc, self.steps.undoable(), self.steps.redoable())
    }

    // What is recorded begins in the greatest epoch.
    fn begin(&mut self)
        ensures begun { self.new ≡ with_begun by_parts self.old }
    {
        self.steps.begin(&self.replica);
    }

    // Keeps what is recorded within bounds.
    fn keep_within(&mut self) -> Result<(), AllocError>
        ensures kept { OnOk result (self.new ≡ with_recorded self.old (by_parts.kept self.old.state self.old.recorded)) }
    {
        // A session drops nothing that it goes back to.
        let Ok(()) = self
            .steps
            .keep_within(&self.replica, KEPT_STEPS, KEPT_CHARACTERS)
        else {
            return Err(AllocError);
        };
        Ok(())
    }

    // Undoes the last edit.
    fn undo_last(&mut self, alloc: Global, changes: &mut Vec<Change>) -> Result<Vec<u8>, AllocError>
        ensures answered { IfOk result (λ reply. IsAnswered (undone_last by_parts self.old) reply.items self.new) }
        ensures changes { IsTrue self.old.tells → OnOk result (changes.new.items ≡ changes.old.items ++ undone_changes by_parts self.old.state (last_of self.old.entries)) }
    {
        undo_last(
            alloc,
            &mut self.undo,
            &mut self.replica,
            self.tells,
            changes,
        )
    }

    // Releases waiting operations until none is ready.
    fn release(&mut self, alloc: Global, changes: &mut Vec<Change>) -> Result<(), AllocError>
        ensures released { OnOk result (self.new ≡ with_state self.old (released_all self.old.state)) }
        ensures changes { IsTrue self.old.tells → OnOk result (changes.new.items ≡ changes.old.items ++ all_released_changes self.old.state) }
    {
        let mut taken = Taken::new(alloc);
        if self.tells {
            return release_all(&mut self.replica, &mut taken, changes);
        }
        self.replica.release_all(&mut taken)
    }

    // ---- changes

    // Changes are told from now on, or not.
    fn tell_from_now(&mut self, alloc: Global, on: bool) -> Result<Vec<u8>, AllocError>
        ensures answered { IfOk result (λ reply. IsAnswered (says (telling_text on) (with_telling self.old on)) reply.items self.new) }
    {
        self.tells = on;
        replies::telling(alloc, on)
    }

    // The reply, with what changed after it, if that is told.
    fn tell(&self, alloc: Global, reply: Vec<u8>, changes: &[Change]) -> Result<Vec<u8>, AllocError>
        ensures told { IfOk result (λ all. all.items ≡ with_changes self.now.tells changes.now reply.items) }
    {
        let mut reply = reply;
        if self.tells {
            push_changes(alloc, &mut reply, changes)?;
        }
        Ok(reply)
    }

    // ---- cursors

    // Puts a cursor to a place.
    fn point(
        &mut self,
        alloc: Global,
        side: Side,
        at: u64,
        number: u8,
    ) -> Result<Vec<u8>, AllocError>
        ensures answered { IfOk result (λ reply. IsAnswered (pointed by_parts self.old side at number) reply.items self.new) }
    {
        match anchor_of(&self.replica, side, at) {
            Err(AnchorError::OutOfMemory) => Err(AllocError),
            Err(AnchorError::Range { at, total }) => {
                replies::refused(alloc, LineFault::Range { at, total })
            }
            Ok(anchor) => {
                self.cursors.put(number, anchor)?;
                replies::cursor(alloc, at)
            }
        }
    }

    // Tells where a cursor is, which catches up with the renames.
    fn place(&mut self, alloc: Global, number: u8) -> Result<Vec<u8>, AllocError>
        ensures answered { IfOk result (λ reply. IsAnswered (placed by_parts self.old number) reply.items self.new) }
    {
        self.settle_cursor(number)?;
        match self.place_of(number)? {
            Some(at) => replies::cursor(alloc, at),
            None => replies::no_cursor(alloc, number),
        }
    }

    // Where a cursor is, if there is one with this number.
    fn place_of(&self, number: u8) -> Result<Option<u64>, AllocError>
        ensures place { IfOk result (λ p. p ≡ option_map (place_over self.now.state) (cursor_in self.now.cursors number)) }
    {
        match self.cursors.place(&self.replica, number) {
            Ok(place) => Ok(place),
            Err(error) => Err(unsettled(error)),
        }
    }

    // A cursor catches up with the renames.
    fn settle_cursor(&mut self, number: u8) -> Result<(), AllocError>
        ensures settled { OnOk result (self.new ≡ with_settled by_parts self.old number) }
        ensures there { OnOk result (option_map (place_over self.new.state) (cursor_in self.new.cursors number) ≡ option_map (place_over self.old.state) (cursor_in self.old.cursors number)) }
    {
        match self.cursors.settle(&self.replica, number) {
            Ok(()) => Ok(()),
            Err(error) => Err(unsettled(error)),
        }
    }

    // ---- messages

    /// Takes the message that these bytes are.
    pub(crate) fn take(&mut self, alloc: Global, bytes: &[u8]) -> Result<Vec<u8>, AllocError>
        ensures answered { IfOk result (λ reply. IsAnswered (take_told by_parts self.old (message_of bytes.now)) reply.items self.new) }
        ensures sane { IsSane self.old.state }
        ensures bytes { IsBytes bytes.now }
    {
        let mut changes = Vec::new(alloc);
        let reply = self.take_in(alloc, bytes, &mut changes)?;
        self.tell(alloc, reply, &changes)
    }

    // Takes it, and puts what it changes after these changes, if that is told.
    fn take_in(
        &mut self,
        alloc: Global,
        bytes: &[u8],
        changes: &mut Vec<Change>,
    ) -> Result<Vec<u8>, AllocError>
        ensures answered { IfOk result (λ reply. IsAnswered (taken by_parts self.old (message_of bytes.now)) reply.items self.new) }
        ensures changes { IsTrue self.old.tells → OnOk result (changes.new.items ≡ changes.old.items ++ message_changes by_parts self.old.state (message_of bytes.now)) }
        ensures sane { IsSane self.old.state }
        ensures bytes { IsBytes bytes.now }
    {
        rely!(self.replica.sane());
        match take_message(alloc, &mut self.replica, bytes, self.tells, changes) {
            Err(TakeBytesError::OutOfMemory) => Err(AllocError),
            Err(TakeBytesError::Malformed { at }) => {
                replies::failed(alloc, CommandError::Malformed { at })
            }
            Err(TakeBytesError::OtherGroup { group, members }) => {
                replies::failed(alloc, CommandError::OtherGroup { group, members })
            }
            Ok(found) => replies::taken(alloc, &found),
        }
    }
}

// Why something couldn't be taken to the greatest epoch, which is kept as long as a session goes back to it.
fn unsettled(error: PastError) -> AllocError
    requires kept { (e : EpochName) → error ≡ PastError.Dropped e → ⊥ }
{
    match error {
        // A session drops nothing that it goes back to.
        PastError::Dropped { epoch: _epoch } => unreachable!(),
        PastError::OutOfMemory => AllocError,
    }
}
