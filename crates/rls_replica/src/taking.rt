//! Messages, sent and taken.
//! Why: CHOICES.md, 46.

ghost use Rattle.std.specs.Prelude.{◌≡◌, ◌+◌, ◌<◌, ◌≤◌, ◌↔◌, ◌∷◌, ◌++◌, [], List, ℕ, length, Some, None, is_some, IfOk, OnOk, OnErr, IsErrOf};
ghost use Rattle.rls_ops.specs.declared.op.Op.{Op};
ghost use Rattle.rls_model.specs.Machine.{no_counts, HasRoom, receive_on, release_on, release_all_on, take_on};
ghost use Rattle.rls_model.specs.Receiving.{State, release_all};
ghost use Rattle.rls_model.specs.Rules.{told_of};
ghost use Rattle.rls_model.specs.Taking.{message_for, message_told, take_message, take_within, taken};
ghost use Rattle.rls_model.specs.Taking as model;
ghost use Rattle.rls_seen.specs.Seen.{Seen, members, vector};
ghost use Rattle.rls_seen.specs.Over.{release_over, released, released_all, IsPartReleased};
ghost use Rattle.rls_seen.specs.Sane.{IsSane};
ghost use Rattle.rls_seen.specs.Messages.{known_over, message_beyond, message_over, message_told_over, told_over, release_step, with_releases, started, take_ops, taken_over, taken_of, IsPartTaken};
ghost use Rattle.rls_seen.specs.Stands.{StandsFor};
ghost use Rattle.rls_replica.specs.Steps.{course, CountsReleased, IsPartOfOps, AreFew, IsOnWay};
ghost use Rattle.rls_replica.specs.Names.{KeepsNames};
ghost use Rattle.rls_replica.specs.Faults.{IsForeign};
ghost use Rattle.rls_replica.specs.Watching.{all_released_told, taken_told, told_course, watched, IsTold};

use crate::replica::Replica;
use crate::watching::{Nobody, Watcher};
use rls_ident::limits::INPUT_BYTES;
use rls_ident::{Vector, rely};
use rls_model::Taken;
use rls_ops::size::head_len;
use rls_ops::{Message, Op, Ops};
use std::alloc::{AllocError, Global};

/// Why there is no message for a member.
#[derive(Clone, Copy, Debug, PartialEq, Eq)]
pub enum SendError {
    /// The number isn't below the count of members.
    NotMember,
    OutOfMemory,
}

/// Why a message isn't taken, or not to its end.
#[derive(Clone, Copy, Debug, PartialEq, Eq)]
pub enum TakeError {
    /// The message comes from another group, or one with another count of members; its numbers. Nothing was taken.
    OtherGroup { group: u64, members: u32 },
    /// Some of the steps were made.
    OutOfMemory,
}

impl From<AllocError> for SendError {
    ghost use Rattle.std.specs.Prelude.{◌≡◌};
    ghost use Rattle.rls_replica.specs.declared.taking.SendError.TheVariants.{OutOfMemory};

    ghost from_gives = { λ _ e. e ≡ OutOfMemory };

    fn from(_: AllocError) -> SendError {
        SendError::OutOfMemory
    }
}

impl From<AllocError> for TakeError {
    ghost use Rattle.std.specs.Prelude.{◌≡◌};
    ghost use Rattle.rls_replica.specs.declared.taking.TakeError.TheVariants.{OutOfMemory};

    ghost from_gives = { λ _ e. e ≡ OutOfMemory };

    fn from(_: AllocError) -> TakeError {
        TakeError::OutOfMemory
    }
}

impl Replica {
    /// Releases until no waiting operation is ready, and counts what was accepted and notes what was refused beside what was counted
    /// before. After an error some were released, and of these the last one may not be counted.
    pub fn release_all(&mut self, taken: &mut Taken) -> Result<(), AllocError>
        requires counted { CountsReleased self.old taken.old }
        ensures counted { CountsReleased self.new taken.new }
        ensures ok { OnOk result (course self.new taken.new ≡ with_releases (course self.old taken.old)) }
        ensures after { OnOk result (self.new ≡ released_all self.old) }
        ensures err { OnErr result (IsPartReleased self.old self.new) }
        ensures names { KeepsNames self.old self.new }
        ensures arrived { (n : ℕ) → AreFew n taken.old → AreFew n taken.new }

        // For every history and waiting operations that the replica stands for.
        ensures stands { OnOk result ((t : State) → StandsFor self.old t → StandsFor self.new (release_all t)) }
    {
        self.release_all_watched(taken, &mut Nobody)
    }

    /// Does the same, and shows each operation to a watcher before it accepts it. After an error what was told is of all that were
    /// released.
    pub fn release_all_watched<W: Watcher>(
        &mut self,
        taken: &mut Taken,
        watcher: &mut W,
    ) -> Result<(), AllocError>
        requires counted { CountsReleased self.old taken.old }
        ensures counted { CountsReleased self.new taken.new }
        ensures course { OnOk result (told_course self.new taken.new (W.told watcher.new) ≡ release_all_on (watched W.tells) (told_course self.old taken.old (W.told watcher.old))) }
        ensures ok { OnOk result (course self.new taken.new ≡ with_releases (course self.old taken.old)) }
        ensures after { OnOk result (self.new ≡ released_all self.old) }
        ensures told { OnOk result (W.told watcher.new ≡ W.told watcher.old ++ all_released_told W.tells self.old) }
        ensures err { OnErr result (IsPartReleased self.old self.new) }
        ensures names { KeepsNames self.old self.new }
        ensures arrived { (n : ℕ) → AreFew n taken.old → AreFew n taken.new }

        // Also after an error.
        ensures steps { IsTold W.tells self.old self.new (W.told watcher.old) (W.told watcher.new) }

        // For every history and waiting operations that the replica stands for.
        ensures stands { OnOk result ((t : State) → StandsFor self.old t → StandsFor self.new (release_all t)) }
    {
        if self.none_waits() {
            return Ok(());
        }
        'releases: while self.release_one(taken, watcher)? {}
        Ok(())
    }

    // Releases the first ready operation, if there is one, and counts it.
    fn release_one<W: Watcher>(
        &mut self,
        taken: &mut Taken,
        watcher: &mut W,
    ) -> Result<bool, AllocError>
        requires counted { CountsReleased self.old taken.old }
        ensures counted { CountsReleased self.new taken.new }
        ensures some { IfOk result (λ b. b ≡ is_some (release_over self.old)) }
        ensures step { OnOk result (course self.new taken.new ≡ release_step (course self.old taken.old)) }
        ensures told { OnOk result (told_course self.new taken.new (W.told watcher.new) ≡ release_on (watched W.tells) (told_course self.old taken.old (W.told watcher.old))) }
        ensures after { OnOk result (self.new ≡ released self.old) }
        ensures err { OnErr result (IsPartReleased self.old self.new) }
        ensures arrived { (n : ℕ) → AreFew n taken.old → AreFew n taken.new }
        ensures steps { IsTold W.tells self.old self.new (W.told watcher.old) (W.told watcher.new) }
        ensures sane { IsSane self.old }
    {
        rely!(self.sane());
        match self.release_watched(watcher)? {
            None => Ok(false),
            Some(release) => {
                taken.count_release(release)?;
                Ok(true)
            }
        }
    }

    // Receives one operation and counts it, and releases what is ready.
    fn take_one<W: Watcher>(
        &mut self,
        op: Op,
        taken: &mut Taken,
        watcher: &mut W,
    ) -> Result<(), AllocError>
        requires counted { CountsReleased self.old taken.old }
        requires room { HasRoom taken.old }
        ensures counted { CountsReleased self.new taken.new }
        ensures arrived { (n : ℕ) → AreFew n taken.old → AreFew (n + 1) taken.new }
        ensures told { OnOk result (told_course self.new taken.new (W.told watcher.new) ≡ release_all_on (watched W.tells) (receive_on (watched W.tells) (told_course self.old taken.old (W.told watcher.old)) op)) }
        ensures ok { OnOk result ((s : Seen) (os rest : List Op) → IsOnWay s os (course self.old taken.old) (op ∷ rest) → IsOnWay s os (course self.new taken.new) rest) }
        ensures err { OnErr result ((s : Seen) (os rest : List Op) → IsOnWay s os (course self.old taken.old) (op ∷ rest) → IsPartOfOps s os self.new) }
        ensures steps { IsTold W.tells self.old self.new (W.told watcher.old) (W.told watcher.new) }
    {
        rely!(self.sane());
        let (author, seq) = (op.author, op.seq);
        let receipt = self.receive_watched(op, watcher)?;
        rely!(self.sane());
        taken.count_receipt(author, seq, receipt)?;
        self.release_all_watched(taken, watcher)?;
        Ok(())
    }

    /// Receives each operation in turn, and releases after it what is ready. After an error some of these steps were made.
    pub fn take_ops(&mut self, ops: Ops) -> Result<Taken, AllocError>
        ensures taken { IfOk result (λ taken. taken ≡ taken_of (take_ops (started None self.old) ops)) }
        ensures after { OnOk result (self.new ≡ (take_ops (started None self.old) ops).state) }
        ensures err { OnErr result (IsPartOfOps self.old ops self.new) }
        ensures names { KeepsNames self.old self.new }

        // For every history and waiting operations that the replica stands for.
        ensures stands { IfOk result (λ taken. (t : State) → StandsFor self.old t → (taken ≡ model.taken (model.take_ops (model.started None t) ops)) × StandsFor self.new (model.take_ops (model.started None t) ops).state) }
        ensures part { OnErr result ((t : State) → StandsFor self.old t → (n : ℕ) × StandsFor self.new (model.take_ops (model.started (Some n) t) ops).state) }
    {
        self.take_ops_watched(ops, &mut Nobody)
    }

    // Does the same, and shows each operation to a watcher before it accepts it.
    fn take_ops_watched<W: Watcher>(
        &mut self,
        ops: Ops,
        watcher: &mut W,
    ) -> Result<Taken, AllocError>
        ensures taken { IfOk result (λ taken. taken ≡ taken_of (take_ops (started None self.old) ops)) }
        ensures after { OnOk result (self.new ≡ (take_ops (started None self.old) ops).state) }
        ensures err { OnErr result (IsPartOfOps self.old ops self.new) }
        ensures told { IfOk result (λ taken. told_course self.new taken (W.told watcher.new) ≡ take_on (watched W.tells) (told_course self.old no_counts (W.told watcher.old)) ops) }
        ensures steps { IsTold W.tells self.old self.new (W.told watcher.old) (W.told watcher.new) }
        ensures names { KeepsNames self.old self.new }

        // For every history and waiting operations that the replica stands for.
        ensures stands { IfOk result (λ taken. (t : State) → StandsFor self.old t → (taken ≡ model.taken (model.take_ops (model.started None t) ops)) × StandsFor self.new (model.take_ops (model.started None t) ops).state) }
        ensures part { OnErr result ((t : State) → StandsFor self.old t → (n : ℕ) × StandsFor self.new (model.take_ops (model.started (Some n) t) ops).state) }
    {
        rely!(ops.fits());
        let mut taken = Taken::new(self.alloc);
        let mut rest = ops.into_remaining();
        'taking: while let Some(op) = rest.pop_first() {
            self.take_one(op, &mut taken, watcher)?;
        }
        Ok(taken)
    }

    /// Takes a message: receives each of its operations in turn, releases after each what is ready, and at last notes how much its
    /// sender has accepted.
    ///
    /// # Errors
    ///
    /// `OtherGroup` exactly where the message comes from another group or one with another count of members; then nothing changes.
    /// After `OutOfMemory` some of the steps were made.
    pub fn take(&mut self, message: Message) -> Result<Taken, TakeError>
        requires from { message.from < message.members }
        requires vector { length message.vector ≡ message.members }
        ensures taken { IfOk result (λ taken. taken ≡ taken_of (taken_over self.old message)) }
        ensures after { OnOk result (self.new ≡ (taken_over self.old message).state) }
        ensures other_group { (g n : ℕ) → (IsErrOf result (TakeError.OtherGroup g n) ↔ ((g ≡ message.group) × (n ≡ message.members) × IsForeign self.old message)) }
        ensures foreign { (g n : ℕ) → IsErrOf result (TakeError.OtherGroup g n) → self.new ≡ self.old }
        ensures cut { IsErrOf result TakeError.OutOfMemory → IsPartTaken self.old message self.new }
        ensures names { KeepsNames self.old self.new }

        // For every history and waiting operations that the replica stands for.
        ensures stands { IfOk result (λ taken. (t : State) → StandsFor self.old t → (taken ≡ model.taken (take_message t message)) × StandsFor self.new (take_message t message).state) }
        ensures part { IsErrOf result TakeError.OutOfMemory → (t : State) → StandsFor self.old t → (n : ℕ) × StandsFor self.new (take_within (Some n) t message).state }
    {
        self.take_watched(message, &mut Nobody)
    }

    /// Does the same, and shows each operation to a watcher before it accepts it. After `OutOfMemory` what was told is of the steps that
    /// were made.
    ///
    /// # Errors
    ///
    /// Those of `take`. After `OtherGroup` nothing more was told.
    pub fn take_watched<W: Watcher>(
        &mut self,
        message: Message,
        watcher: &mut W,
    ) -> Result<Taken, TakeError>
        requires from { message.from < message.members }
        requires vector { length message.vector ≡ message.members }
        ensures taken { IfOk result (λ taken. taken ≡ taken_of (taken_over self.old message)) }
        ensures after { OnOk result (self.new ≡ (taken_over self.old message).state) }
        ensures told { OnOk result (W.told watcher.new ≡ W.told watcher.old ++ taken_told W.tells self.old message) }
        ensures other_group { (g n : ℕ) → (IsErrOf result (TakeError.OtherGroup g n) ↔ ((g ≡ message.group) × (n ≡ message.members) × IsForeign self.old message)) }
        ensures foreign { (g n : ℕ) → IsErrOf result (TakeError.OtherGroup g n) → self.new ≡ self.old }
        ensures untold { (g n : ℕ) → IsErrOf result (TakeError.OtherGroup g n) → W.told watcher.new ≡ W.told watcher.old }
        ensures cut { IsErrOf result TakeError.OutOfMemory → IsPartTaken self.old message self.new }
        ensures names { KeepsNames self.old self.new }

        // Also after an error.
        ensures steps { IsTold W.tells self.old self.new (W.told watcher.old) (W.told watcher.new) }

        // For every history and waiting operations that the replica stands for.
        ensures stands { IfOk result (λ taken. (t : State) → StandsFor self.old t → (taken ≡ model.taken (take_message t message)) × StandsFor self.new (take_message t message).state) }
        ensures part { IsErrOf result TakeError.OutOfMemory → (t : State) → StandsFor self.old t → (n : ℕ) × StandsFor self.new (take_within (Some n) t message).state }
    {
        if message.group != self.group || message.members != self.members() {
            return Err(TakeError::OtherGroup {
                group: message.group,
                members: message.members,
            });
        }
        rely!(let _len = message.vector.len());
        rely!(message.ops.fits());
        let Message {
            from,
            vector,
            ops,
            ..
        } = message;
        let taken = self.take_ops_watched(ops, watcher)?;
        rely!(self.sane());
        self.acknowledge(from, &vector);
        Ok(taken)
    }

    /// How many operations of each member a member is known to have accepted, or all members are: no message for it has these.
    pub fn known_to(&self, to: u32) -> Result<Vector, AllocError>
        requires member { to < members self.now }
        ensures known { IfOk result (λ v. v ≡ known_over self.now to) }
    {
        let mut known = self.acks.row(to).copy()?;
        known.join_in(self.acks.stable());
        Ok(known)
    }

    /// The same, where the member told these counts, one for each member: what they say that it has of the others, and all of its own
    /// operations that are here, count too.
    pub fn known_to_told(&self, to: u32, told: &[u32]) -> Result<Vector, AllocError>
        requires member { to < members self.now }
        requires counts { length told.now ≡ members self.now }
        ensures known { IfOk result (λ v. v ≡ told_over self.now to told.now) }
    {
        let its = self.with_own(to, told)?;
        let mut known = self.acks.row(to).copy()?;
        known.join_in(&its);
        known.join_in(self.acks.stable());
        Ok(known)
    }

    // The counts that a member told, with all of its own operations that are here.
    fn with_own(&self, to: u32, told: &[u32]) -> Result<Vector, AllocError>
        requires member { to < members self.now }
        requires counts { length told.now ≡ members self.now }
        ensures its { IfOk result (λ v. v ≡ told_of (vector self.now) to told.now) }
    {
        let mut counts = Vec::from_slice(self.alloc, told)?;
        counts[to as usize] = self.acks.mine().get(to);
        Ok(Vector::from_vec(counts))
    }

    /// The message for a member: one's own vector, and of the kept operations that the member isn't known to have accepted and that
    /// aren't stable as many of the first ones as a message holds.
    ///
    /// # Errors
    ///
    /// `NotMember` exactly where the number isn't below the count of members.
    pub fn message_for(&self, to: u32) -> Result<Message, SendError>
        ensures message { IfOk result (λ m. m ≡ message_over self.now to) }
        ensures not_member { IsErrOf result SendError.NotMember ↔ (members self.now ≤ to) }

        // For every history and waiting operations that the replica stands for.
        ensures stands { IfOk result (λ m. (t : State) → StandsFor self.now t → m ≡ message_for t.history to) }
    {
        if to >= self.members() {
            return Err(SendError::NotMember);
        }
        let known = self.known_to(to)?;
        Ok(self.message_beyond(&known)?)
    }

    /// The message for a member that told these counts, one for each member, as the head of its last message has them. It leaves out what they say
    /// that the member has, beside what it is known to have, and its own operations; so it goes on where a message before it was cut off, though
    /// counts of a cut message aren't noted. What the counts claim beyond what is here changes nothing. If they claim what the member lacks, its
    /// receiver holds what rests on that until it comes; nothing is refused for it.
    ///
    /// # Errors
    ///
    /// `NotMember` exactly where the number isn't below the count of members.
    pub fn message_told(&self, to: u32, told: &[u32]) -> Result<Message, SendError>
        requires counts { length told.now ≡ members self.now }
        ensures message { IfOk result (λ m. m ≡ message_told_over self.now to told.now) }
        ensures not_member { IsErrOf result SendError.NotMember ↔ (members self.now ≤ to) }

        // For every history and waiting operations that the replica stands for.
        ensures stands { IfOk result (λ m. (t : State) → StandsFor self.now t → m ≡ message_told t.history to told.now) }
    {
        if to >= self.members() {
            return Err(SendError::NotMember);
        }
        let known = self.known_to_told(to, told)?;
        Ok(self.message_beyond(&known)?)
    }

    // One's own vector, and as many of the first kept operations that these counts don't cover as a message holds.
    fn message_beyond(&self, known: &Vector) -> Result<Message, AllocError>
        ensures message { IfOk result (λ m. m ≡ message_beyond self.now known.now) }
    {
        let members = self.members();
        let room = INPUT_BYTES - head_len(members);
        Ok(Message {
            group: self.group,
            members,
            from: self.me(),
            vector: self.acks.mine().copy()?,
            ops: self.log.missing_for(known, room)?,
        })
    }
}
