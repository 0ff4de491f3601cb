//! The members of a group, each with its file in memory.

ghost use Rattle.std.specs.Prelude.{◌≡◌, ◌≢◌, ◌<◌, ◌≤◌, ◌++◌, ℕ, List, [], ◌∷◌, length, map, slice_get, string_bytes, Some, IfOk, IfSome, OnErr, OnOk, vec_capacity, vec_len};
ghost use Rattle.rls_ident.specs.declared.limits.TheConstants.{MEMBERS};
ghost use Rattle.rls_top.specs.Due.{shows};
ghost use Rattle.rls_top.specs.Groups.{due_of, fresh_group};
ghost use Rattle.rls_groups.specs.Events.{Event};
ghost use Rattle.rls_members.specs.Members.{GoOn, IsLedBy, IsLived, Converge, fresh_members, group_of, with_message};
ghost use Rattle.rls_members.specs.Running.{EndsAs, IsClean, IsGivenTo, TakesAll, after_command, performed, words_of_send, words_of_take};
ghost use Rattle.rls_members.specs.Sessions.{IsSessionFor, LeadsOn};

use crate::member::{Member, Message};
use crate::words::{words_of_send, words_of_take};
use rls_groups::laws::{events_of_sessions, groups_converge, runs_are_events};
use rls_ident::rely;
use rls_io::{MemoryKeeper, MemorySink, MemorySource, Sink, Source};
use std::alloc::{AllocError, Global};
use std::marker::Model;

/// The members of a group, by their numbers, each with its file in memory, and the messages that were sent.
#[derive(Drop)]
pub struct Members {
    group: u64,
    files: Vec<Member>,
    sent: Vec<Message>,
}

impl Model for Members {
    ghost use Rattle.rls_members.specs.Members.{MembersSeen, IsLived};

    ghost Value = { MembersSeen };

    ghost view = { λ m. record { group = m.group; files = m.files.items; sent = m.sent.items } };

    ghost invariant = { λ m. IsLived (record { group = m.group; files = m.files.items; sent = m.sent.items }) };
}

impl Members {
    /// The members of a group of this number, to whom nothing has happened: each one's file is the one that `new` stores.
    ///
    /// # Errors
    ///
    /// The exit status of the first `new` that wasn't done, or 10 where memory ran out beside it.
    pub fn new(alloc: Global, group: u64, members: u32) -> Result<Members, u8>
        requires some { 0 < members }
        requires most { members ≤ MEMBERS }
        ensures fresh { IfOk result (λ m. m ≡ fresh_members group members) }
        ensures begins { IfOk result (λ m. IsLedBy m []) }
    {
        let files = all_fresh(alloc, group, members)?;
        Ok(Members {
            group,
            files,
            sent: Vec::new(alloc),
        })
    }

    /// How many members there are.
    pub fn members(&self) -> usize
        ensures members { result ≡ length self.now.files }
    {
        self.files.len()
    }

    /// The file of a member.
    pub fn file(&self, member: usize) -> &[u8]
        requires member { member < length self.now.files }
        ensures file { slice_get self.now.files member ≡ Some result.now }
    {
        self.files[member].file()
    }

    /// How many messages were sent.
    pub fn messages(&self) -> usize
        ensures messages { result ≡ length self.now.sent }
    {
        self.sent.len()
    }

    /// A message that was sent, by its number.
    pub fn message(&self, number: usize) -> &[u8]
        requires number { number < length self.now.sent }
        ensures message { slice_get self.now.sent number ≡ Some result.now }
    {
        self.sent[number].bytes()
    }

    /// A member runs these words over this input by `rls_top::run`, which answers the program's exit status.
    pub fn command<S: Source, W: Sink, E: Sink>(
        &mut self,
        alloc: Global,
        member: usize,
        words: &[String],
        input: &mut S,
        output: &mut W,
        errors: &mut E,
    ) -> u8
        requires member { member < length self.old.files }
        requires given { IsGivenTo self.old (map string_bytes words.now) (S.left input.old) }
        ensures event { IfSome (S.left input.old) (λ given. GoOn self.old (performed member (map string_bytes words.now) given result ∷ []) self.new) }
        ensures after { IfSome (S.left input.old) (λ given. self.new ≡ after_command self.old member (map string_bytes words.now) given result) }
        ensures ends { IfSome (S.left input.old) (λ given. EndsAs (due_of (group_of self.old) member (map string_bytes words.now) given) result (W.told output.old) (W.told output.new)) }
        ensures clean { IfSome (S.left input.old) (λ given. IsClean self.old member (map string_bytes words.now) given result (W.told output.old) (W.told output.new)) }
    {
        rely!(groups_converge());
        self.files[member].run(alloc, words, input, output, errors)
    }

    /// A member takes a message that was sent, by its number: for whomever it was, and whether or not it was taken before.
    ///
    /// # Errors
    ///
    /// If there is no memory for a copy of the message. Then nothing has happened.
    pub fn take<W: Sink, E: Sink>(
        &mut self,
        alloc: Global,
        member: usize,
        number: usize,
        output: &mut W,
        errors: &mut E,
    ) -> Result<u8, AllocError>
        requires member { member < length self.old.files }
        requires number { number < length self.old.sent }
        ensures event { IfOk result (λ n. IfSome (slice_get self.old.sent number) (λ message. GoOn self.old (performed member words_of_take message n ∷ []) self.new)) }
        ensures after { IfOk result (λ n. IfSome (slice_get self.old.sent number) (λ message. self.new ≡ after_command self.old member words_of_take message n)) }
        ensures takes { IfOk result (λ n. TakesAll n (W.told output.old) (W.told output.new)) }
        ensures err { OnErr result (self.new ≡ self.old) }
    {
        let words = words_of_take(alloc)?;
        let mut input = MemorySource::new(alloc, self.message(number), &[])?;
        Ok(self.command(alloc, member, &words, &mut input, output, errors))
    }

    /// A member makes a message for another one, by `send`. With the status 0, and only then, it is kept from then on, the last one, so that
    /// members can take it. The output has room for this many bytes.
    ///
    /// # Errors
    ///
    /// If memory ran out before. Then nothing has happened.
    pub fn send<E: Sink>(
        &mut self,
        alloc: Global,
        member: usize,
        to: u32,
        room: usize,
        errors: &mut E,
    ) -> Result<u8, AllocError>
        requires member { member < length self.old.files }
        requires to { to < length self.old.files }
        ensures event { IfOk result (λ n. GoOn self.old (performed member (words_of_send to) [] n ∷ []) self.new) }
        ensures sent { IfOk result (λ n. n ≡ 0 → (message : List ℕ) × (due_of (group_of self.old) member (words_of_send to) [] ≡ Some (shows message)) × (self.new ≡ with_message self.old message)) }
        ensures unsent { IfOk result (λ n. n ≢ 0 → self.new ≡ self.old) }
        ensures unrefused { IfOk result (λ n. n ≢ 5) }
        ensures err { OnErr result (self.new ≡ self.old) }
    {
        rely!(groups_converge());
        rely!(runs_are_events::<MemoryKeeper, MemorySource, MemorySink>());
        let words = words_of_send(alloc, to)?;
        let mut input = MemorySource::new(alloc, &[], &[])?;
        let mut output = MemorySink::new(alloc, room, &[])?;
        self.sent.reserve(1)?;
        let status = self.files[member].run(alloc, &words, &mut input, &mut output, errors);
        keep(&mut self.sent, output, status);
        Ok(status)
    }

    /// A member holds a session over this input by `rls_session::serve`, which answers the program's exit status.
    pub fn hold<S: Source, W: Sink, E: Sink>(
        &mut self,
        alloc: Global,
        member: usize,
        input: &mut S,
        output: &mut W,
        errors: &mut E,
    ) -> u8
        requires member { member < length self.old.files }
        requires given { IsSessionFor self.old (S.left input.old) }
        ensures events { IfSome (S.left input.old) (λ given. (es : List Event) → IsLedBy self.old es → LeadsOn self.old member given result self.new (W.told output.old) (W.told output.new) es) }
        ensures others { (j : ℕ) → j ≢ member → slice_get self.new.files j ≡ slice_get self.old.files j }
        ensures sent { self.new.sent ≡ self.old.sent }
        ensures unrefused { result ≢ 5 }
    {
        rely!(groups_converge());
        rely!(events_of_sessions());
        self.files[member].serve(alloc, input, output, errors)
    }

    /// What the law of groups says, whatever led to these members.
    pub fn converge(&self)
        ensures lived { IsLived self.now }
        ensures law { (es : List Event) → IsLedBy self.now es → Converge self.now.group (length self.now.files) es }
    {
        rely!(groups_converge());
        rely!(let _group = self.group);
    }
}

// Keeps what was printed, if the status is 0.
fn keep(sent: &mut Vec<Message>, output: MemorySink, status: u8)
    requires room { vec_len sent.old < vec_capacity sent.old }
    ensures kept { status ≡ 0 → sent.new.items ≡ sent.old.items ++ output.written ∷ [] }
    ensures unkept { status ≢ 0 → sent.new.items ≡ sent.old.items }
{
    if status == 0 {
        sent.push(Message::of(output)).unwrap();
    }
}

// The files of all members, to whom nothing has happened.
fn all_fresh(alloc: Global, group: u64, members: u32) -> Result<Vec<Member>, u8>
    requires most { members ≤ MEMBERS }
    ensures all { IfOk result (λ files. files.items ≡ (fresh_group group members).files) }
{
    let mut files = Vec::new(alloc);
    for me in 0..members {
        let member = Member::new(alloc, group, me, members)?;
        add(&mut files, member)?;
    }
    Ok(files)
}

// Puts a member after the others.
fn add(files: &mut Vec<Member>, member: Member) -> Result<(), u8>
    ensures ok { OnOk result (files.new.items ≡ files.old.items ++ member ∷ []) }
{
    match files.push(member) {
        Ok(()) => Ok(()),
        Err(_) => Err(10),
    }
}
