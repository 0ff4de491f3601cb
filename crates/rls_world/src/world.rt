//! Worlds of members that edit and exchange messages.
//! Why: CHOICES.md, 70.

ghost use Rattle.std.specs.Prelude.{◌≡◌, ◌≢◌, ◌+◌, ◌<◌, ◌≤◌, ◌↔◌, ◌++◌, ◌∷◌, ℕ, List, [], length, nat_lt, slice_get, Some, None, Err, IfOk, IfErr, OnOk, OnErr, IsErrOf, if◌then◌else◌};
ghost use Rattle.rls_ident.specs.declared.limits.TheConstants.{MEMBERS};
ghost use Rattle.rls_model.specs.declared.event.Event.TheVariants as events;
ghost use Rattle.rls_model.specs.Laws.{IsAfter, IsAt};
ghost use Rattle.rls_model.specs.Receiving.{State};
ghost use Rattle.rls_model.specs.WellFormed.{IsEvent};
ghost use Rattle.rls_model.specs.Worlds.{World as WorldOf, Happening, empty_world, fault_of, outcome_of, happens};
ghost use Rattle.rls_seen.specs.Messages.{message_over};
ghost use Rattle.rls_seen.specs.Seen.{Seen, members, vector, fresh};
ghost use Rattle.rls_seen.specs.Stands.{StandsFor};
ghost use Rattle.rls_replica.specs.Faults.{IsNoCount};
ghost use Rattle.rls_world.specs.Alike.{ShowsSame};
ghost use Rattle.rls_world.specs.Clean.{IsClean};
ghost use Rattle.rls_world.specs.Events.{fault_over, happened, outcome_over, member_fault, IsFault, IsStep, IsPut, IsEdited, IsDelivered};
ghost use Rattle.rls_world.specs.Seen.{StandsForWorld, IsOneGroup, IsSent, fresh_world, fresh_replicas};

use rls_ident::limits::MEMBERS;
use rls_ident::rely;
use rls_model::{Edit, EditError, Event, Outcome, StepError, Taken};
use rls_ops::{Message, Ops};
use rls_replica::{NewError, Replica, SendError, TakeError};
use std::alloc::{AllocError, Global};
use std::marker::Model;

/// A replica for each member of one group, and every message that was ever sent.
#[derive(Drop)]
pub struct World {
    alloc: Global,
    group: u64,
    replicas: Vec<Replica>,
    sent: Vec<Message>,
}

impl Model for World {
    ghost use Rattle.rls_world.specs.Seen.{WorldSeen, IsOneGroup};

    ghost Value = { WorldSeen };

    ghost view = { λ w. record { replicas = w.replicas.items; sent = w.sent.items } };

    ghost invariant = { λ w. IsOneGroup (record { replicas = w.replicas.items; sent = w.sent.items }) w.group };
}

impl World {
    /// A world of this many members, to whom nothing has happened.
    ///
    /// # Errors
    ///
    /// `Members` exactly where there aren't 1 to 64 members, and never `Me`.
    pub fn new(alloc: Global, group: u64, members: u32) -> Result<World, NewError>
        ensures ok { IfOk result (λ w. w ≡ fresh_world group members) }
        ensures members { (n : ℕ) → (IsErrOf result (NewError.Members n) ↔ ((n ≡ members) × IsNoCount members)) }
        ensures never_me { (n : ℕ) → result ≢ Err (NewError.Me n) }

        // It stands for the world in which nothing has happened.
        ensures stands { IfOk result (λ w. StandsForWorld w (empty_world group members)) }
        ensures start { OnOk result (IsAfter (empty_world group members) []) }
    {
        if members == 0 || members > MEMBERS {
            return Err(NewError::Members { members });
        }
        let replicas = all_fresh(alloc, group, members)?;
        Ok(World {
            alloc,
            group,
            replicas,
            sent: Vec::new(alloc),
        })
    }

    /// How many messages were sent.
    pub fn messages(&self) -> usize
        ensures messages { result ≡ length self.now.sent }
    {
        self.sent.len()
    }

    /// The count of members.
    pub fn members(&self) -> usize
        ensures members { result ≡ length self.now.replicas }
    {
        self.replicas.len()
    }

    /// The replica of a member. It takes no memory.
    pub fn replica(&self, member: u32) -> &Replica
        requires member { member < length self.now.replicas }
        ensures replica { slice_get self.now.replicas member ≡ Some result.now }
        ensures members { members result.now ≡ length self.now.replicas }

        // For every world that it stands for.
        ensures stands { (w : WorldOf) → StandsForWorld self.now w → (t : State) × IsAt w member t × StandsFor result.now t }

        // Where events brought that world about, each whole or cut short, a member that has accepted as much shows the same.
        ensures alike { (w : WorldOf) (hs : List Happening) → IsAfter w hs → StandsForWorld self.now w →
            (j : ℕ) (r : Seen) → slice_get self.now.replicas j ≡ Some r → vector r ≡ vector result.now → ShowsSame r result.now }
    {
        &self.replicas[member as usize]
    }

    /// Lets an event happen.
    ///
    /// # Errors
    ///
    /// `NoMember` exactly where a named member isn't one, with the first such; else `NoMessage` exactly where the message's number
    /// isn't below the count of sent messages; else `Edit` exactly where the edit is refused, with its reason, which is never want of
    /// memory. After these nothing has changed. After `OutOfMemory` the member is after some of the event's steps.
    pub fn step(&mut self, event: &Event) -> Result<Outcome, StepError>
        ensures fault { IfErr result (λ e. IsFault e (fault_over self.old event.now)) }
        ensures fits { OnOk result (fault_over self.old event.now ≡ None) }
        ensures outcome { IfOk result (λ o. o ≡ outcome_over self.old event.now) }
        ensures after { OnOk result (self.new ≡ happened self.old event.now) }
        ensures err { IfErr result (λ e. e ≢ StepError.OutOfMemory → self.new ≡ self.old) }

        // For every world that it stands for.
        ensures refused { IfErr result (λ e. (w : WorldOf) → StandsForWorld self.old w → IsFault e (fault_of w event.now)) }
        ensures answer { IfOk result (λ o. (w : WorldOf) → StandsForWorld self.old w → (fault_of w event.now ≡ None) × (o ≡ outcome_of w event.now)) }
        ensures stands { OnOk result ((w : WorldOf) → StandsForWorld self.old w → StandsForWorld self.new (happens None w event.now)) }
        ensures part { IsErrOf result StepError.OutOfMemory → (w : WorldOf) → StandsForWorld self.old w → (n : ℕ) × StandsForWorld self.new (happens (Some n) w event.now) }

        // Where events brought that world about, each whole or cut short, nothing is refused.
        ensures clean { IfOk result (λ o. (w : WorldOf) (hs : List Happening) → IsAfter w hs → StandsForWorld self.old w → IsClean w hs event.now o) }
    {
        self.step_exactly(event)
    }

    // By what the world consists of.
    fn step_exactly(&mut self, event: &Event) -> Result<Outcome, StepError>
        ensures step { IsStep self.old event.now result self.new }
        ensures whole { IsEvent event.now }
        ensures one_group { (group : ℕ) × IsOneGroup self.old group }
    {
        rely!(self.one_group());
        rely!(fits(event));
        match event {
            Event::Edit { member, edit } => self.edit(*member, edit),
            Event::Send { from, to } => self.send(*from, *to),
            Event::Deliver { message, to } => self.deliver(*message, *to),
            Event::Drop { member } => self.drop_stable(*member),
        }
    }

    // What holds of each world.
    fn one_group(&self)
        ensures one_group { (group : ℕ) × IsOneGroup self.now group }
    {
        rely!(let _group = self.group);
    }

    // Whether there is such a member.
    fn has_member(&self, member: u32) -> bool
        ensures fault { member_fault self.now member ≡ (if result then None else Some (StepError.NoMember member)) }
        ensures below { result ≡ nat_lt member (length self.now.replicas) }
    {
        (member as usize) < self.replicas.len()
    }

    // A member edits, and releases what is ready then.
    fn edit(&mut self, member: u32, edit: &Edit) -> Result<Outcome, StepError>
        ensures step { IsStep self.old (events.Edit member edit.now) result self.new }
    {
        if !self.has_member(member) {
            return Err(StepError::NoMember { member });
        }
        edit_and_release(self.alloc, &mut self.replicas[member as usize], edit)
    }

    // A member makes a message for another.
    fn send(&mut self, from: u32, to: u32) -> Result<Outcome, StepError>
        ensures step { IsStep self.old (events.Send from to) result self.new }
    {
        if !self.has_member(from) {
            return Err(StepError::NoMember { member: from });
        }
        if !self.has_member(to) {
            return Err(StepError::NoMember { member: to });
        }
        let Ok(message) = self.message(from, to) else {
            return Err(StepError::OutOfMemory);
        };
        put_message(&mut self.sent, message)
    }

    // A member's message for another.
    fn message(&self, from: u32, to: u32) -> Result<Message, AllocError>
        requires from { from < length self.now.replicas }
        requires to { to < length self.now.replicas }
        ensures message { IfOk result (λ m. (r : Seen) → slice_get self.now.replicas from ≡ Some r → m ≡ message_over r to) }
        ensures sent { IfOk result (λ m. (group : ℕ) → IsOneGroup self.now group → IsSent group (length self.now.replicas) m) }
    {
        rely!(self.one_group());
        let replica = self.replica(from);
        rely!(let _me = replica.me());
        match replica.message_for(to) {
            Ok(message) => {
                rely!(let _len = message.vector.len());
                rely!(message.ops.fits());
                Ok(message)
            }
            Err(SendError::OutOfMemory) => Err(AllocError),
            Err(SendError::NotMember) => unreachable!(),
        }
    }

    // A member takes a message.
    fn deliver(&mut self, message: u64, to: u32) -> Result<Outcome, StepError>
        ensures step { IsStep self.old (events.Deliver message to) result self.new }
    {
        if !self.has_member(to) {
            return Err(StepError::NoMember { member: to });
        }
        if message >= self.sent.len() as u64 {
            return Err(StepError::NoMessage { message });
        }
        take_copy(
            self.alloc,
            &mut self.replicas[to as usize],
            &self.sent[message as usize],
        )
    }

    // A member drops what is stable.
    fn drop_stable(&mut self, member: u32) -> Result<Outcome, StepError>
        ensures step { IsStep self.old (events.Drop member) result self.new }
    {
        if !self.has_member(member) {
            return Err(StepError::NoMember { member });
        }
        self.replicas[member as usize].drop_stable();
        Ok(Outcome::Dropped)
    }
}

// A replica for each of so many members.
fn all_fresh(alloc: Global, group: u64, members: u32) -> Result<Vec<Replica>, AllocError>
    requires some { 0 < members }
    requires most { members ≤ MEMBERS }
    ensures all { IfOk result (λ replicas. replicas.items ≡ fresh_replicas group members members) }
{
    let mut replicas = Vec::new(alloc);
    for me in 0..members {
        replicas.push(fresh(alloc, group, me, members)?)?;
    }
    Ok(replicas)
}

// One of them.
fn fresh(alloc: Global, group: u64, me: u32, members: u32) -> Result<Replica, AllocError>
    requires some { 0 < members }
    requires most { members ≤ MEMBERS }
    requires me { me < members }
    ensures fresh { IfOk result (λ replica. replica ≡ fresh group me members) }
{
    match Replica::new(alloc, group, me, members) {
        Ok(replica) => Ok(replica),
        Err(NewError::OutOfMemory) => Err(AllocError),
        Err(NewError::Members { .. }) => unreachable!(),
        Err(NewError::Me { .. }) => unreachable!(),
    }
}

// Puts a message after the others.
fn put_message(sent: &mut Vec<Message>, message: Message) -> Result<Outcome, StepError>
    ensures put { IsPut sent.old.items message result sent.new.items }
{
    let number = sent.len() as u64;
    match add(sent, message) {
        Ok(()) => Ok(Outcome::Sent { message: number }),
        Err(_) => Err(StepError::OutOfMemory),
    }
}

// The same. After an error they are as before.
fn add(sent: &mut Vec<Message>, message: Message) -> Result<(), AllocError>
    ensures ok { OnOk result (sent.new.items ≡ sent.old.items ++ message ∷ []) }
    ensures err { OnErr result (sent.new.items ≡ sent.old.items) }
{
    sent.push(message)?;
    Ok(())
}

// Edits, and releases until none is ready.
fn edit_and_release(alloc: Global, replica: &mut Replica, edit: &Edit) -> Result<Outcome, StepError>
    ensures edited { IsEdited replica.old edit.now result replica.new }
{
    match replica.edit(edit) {
        Err(EditError::OutOfMemory) => Err(StepError::OutOfMemory),
        Err(error) => Err(StepError::Edit(error)),
        Ok(seq) => match replica.release_all(&mut Taken::new(alloc)) {
            Ok(()) => Ok(Outcome::Made { seq }),
            Err(_) => Err(StepError::OutOfMemory),
        },
    }
}

// Takes a copy of a message that was sent in the replica's group.
fn take_copy(alloc: Global, replica: &mut Replica, message: &Message) -> Result<Outcome, StepError>
    requires group { message.now.group ≡ replica.old.group }
    requires members { message.now.members ≡ members replica.old }
    requires from { message.now.from < message.now.members }
    requires vector { length message.now.vector ≡ message.now.members }
    ensures delivered { IsDelivered replica.old message.now result replica.new }
{
    let Ok(copy) = copy_of(alloc, message) else {
        return Err(StepError::OutOfMemory);
    };
    match replica.take(copy) {
        Ok(taken) => Ok(Outcome::Took(taken)),
        Err(TakeError::OutOfMemory) => Err(StepError::OutOfMemory),
        Err(TakeError::OtherGroup { .. }) => unreachable!(),
    }
}

// The message again.
fn copy_of(alloc: Global, message: &Message) -> Result<Message, AllocError>
    ensures copy { IfOk result (λ copy. copy ≡ message.now) }
{
    let mut ops = Ops::new(alloc);
    for i in 0..message.ops.len() {
        ops.push(message.ops.get(i).copy()?)?;
    }
    Ok(Message {
        group: message.group,
        members: message.members,
        from: message.from,
        vector: message.vector.copy()?,
        ops,
    })
}

// What the fields of an event promise.
fn fits(event: &Event)
    ensures whole { IsEvent event.now }
{
    match event {
        Event::Edit { member, edit } => {
            rely!(let _member = *member);
            rely!(edit.fits());
        }
        Event::Send { from, to } => {
            rely!(let (_from, _to) = (*from, *to));
        }
        Event::Deliver { message, to } => {
            rely!(let (_message, _to) = (*message, *to));
        }
        Event::Drop { member } => {
            rely!(let _member = *member);
        }
    }
}
