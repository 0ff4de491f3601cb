//! What a replica consists of, and its start.
//! Why: docs/DECISIONS.md, 45.

ghost use Rattle.std.specs.Prelude.{◌≡◌, ◌<◌, ◌≤◌, ◌↔◌, ℕ, [], length, IfOk, IsErrOf};
ghost use Rattle.rls_ident.specs.declared.limits.TheConstants.{MEMBERS};
ghost use Rattle.rls_ops.specs.Rows.{counts};
ghost use Rattle.rls_model.specs.History.{Fresh};
ghost use Rattle.rls_model.specs.Receiving.{State};
ghost use Rattle.rls_model.specs.Stability.{is_counted};
ghost use Rattle.rls_model.specs.Taking.{acknowledge};
ghost use Rattle.rls_seen.specs.Seen.{Seen, members, fresh};
ghost use Rattle.rls_seen.specs.Over.{acknowledged};
ghost use Rattle.rls_seen.specs.Sane.{IsSane};
ghost use Rattle.rls_seen.specs.Stands.{StandsFor};
ghost use Rattle.rls_replica.specs.Faults.{IsNoCount, IsNoMember};
ghost use Rattle.rls_replica.specs.Names.{KeepsNames};

use crate::gone::Gone;
use crate::hints::Hints;
use crate::known::Known;
use rls_causal::Held;
use rls_epoch::Epochs;
use rls_ident::limits::MEMBERS;
use rls_ident::{EpochName, Vector, rely};
use rls_log::Log;
use rls_parts::StemTable;
use rls_stable::Acks;
use rls_tree::BlockTree;
use std::alloc::{AllocError, Global};
use std::cell::Cell;
use std::marker::Model;

/// What one member of a group has of the text: the text with its identifiers, what each member is known to have accepted, the
/// operations and the epochs that are kept, and the operations that wait. It is seen as these parts. The hints, which `&self` may
/// change too, are no part of it: they tell where to look first, and no answer depends on them. Nor is what is noted of gone
/// identifiers, of which the invariant says that it covers all that some unstable deletions name: what none names by that needn't be
/// looked for in these.
pub struct Replica {
    pub(crate) alloc: Global,
    pub(crate) group: u64,
    pub(crate) acks: Acks,
    pub(crate) stems: StemTable,
    pub(crate) epochs: Epochs,
    pub(crate) document: BlockTree,
    pub(crate) held: Held,
    pub(crate) log: Log,
    pub(crate) hints: Cell<Option<Hints>>,
    pub(crate) gone: Option<Gone>,
    // Whether identifiers shall be noted as gone, anew.
    pub(crate) wanted: Cell<bool>,
    pub(crate) known: Option<Known>,
}

impl Model for Replica {
    ghost use Rattle.rls_seen.specs.Seen.{Seen};

    ghost Value = { Seen };

    ghost use Rattle.rls_replica.specs.View.{seen, IsWhole};

    ghost view = { seen };

    ghost invariant = { λ r. IsWhole (seen r) r.stems.members r.gone r.known };
}

// Written out, and not derived, so that the proof of a caller sees one call and not the drop of each field.
impl Drop for Replica {
    fn drop(self) {
        let Replica {
            alloc: _,
            group: _,
            acks: _acks,
            stems: _stems,
            epochs: _epochs,
            document: _document,
            held: _held,
            log: _log,
            hints: _hints,
            gone: _gone,
            wanted: _wanted,
            known: _known,
        } = self;
    }
}

/// Why there is no such replica.
#[derive(Clone, Copy, Debug, PartialEq, Eq)]
pub enum NewError {
    /// The count of members isn't 1 to 64.
    Members { members: u32 },
    /// The own number isn't below the count of members.
    Me { me: u32 },
    OutOfMemory,
}

impl From<AllocError> for NewError {
    ghost use Rattle.std.specs.Prelude.{◌≡◌};
    ghost use Rattle.rls_replica.specs.declared.replica.NewError.TheVariants.{OutOfMemory};

    ghost from_gives = { λ _ e. e ≡ OutOfMemory };

    fn from(_: AllocError) -> NewError {
        NewError::OutOfMemory
    }
}

impl Replica {
    /// A replica to which nothing has happened: member `me` of a group of this many members. It takes memory for the square of the
    /// members.
    ///
    /// # Errors
    ///
    /// `Members` exactly where there isn't 1 to 64 members, and else `Me` exactly where `me` isn't below their count.
    pub fn new(alloc: Global, group: u64, me: u32, members: u32) -> Result<Replica, NewError>
        ensures ok { IfOk result (λ r. r ≡ fresh group me members) }
        ensures members { (n : ℕ) → (IsErrOf result (NewError.Members n) ↔ ((n ≡ members) × IsNoCount members)) }
        ensures me { (n : ℕ) → (IsErrOf result (NewError.Me n) ↔ ((n ≡ me) × IsNoMember me members)) }

        // It stands for the history in which nothing has happened.
        ensures stands { IfOk result (λ r. StandsFor r (record { history = Fresh group me members; waiting = [] })) }
    {
        if members == 0 || members > MEMBERS {
            return Err(NewError::Members { members });
        }
        if me >= members {
            return Err(NewError::Me { me });
        }
        let replica = Replica::start(alloc, group, me, members)?;
        Ok(replica)
    }

    // The same, where the numbers are right.
    fn start(alloc: Global, group: u64, me: u32, members: u32) -> Result<Replica, AllocError>
        requires me { me < members }
        requires few { members ≤ MEMBERS }
        ensures fresh { IfOk result (λ r. r ≡ fresh group me members) }
        ensures stands { IfOk result (λ r. StandsFor r (record { history = Fresh group me members; waiting = [] })) }
    {
        Ok(Replica {
            alloc,
            group,
            acks: Acks::new(alloc, members, me)?,
            stems: StemTable::new(alloc, members)?,
            epochs: Epochs::starting_at(alloc, EpochName::Origin)?,
            document: BlockTree::new(alloc),
            held: Held::new(alloc),
            log: Log::new(alloc),
            hints: Cell::new(None),
            gone: None,
            wanted: Cell::new(false),
            known: None,
        })
    }

    /// What holds of each replica. It does nothing.
    pub fn sane(&self)
        ensures sane { IsSane self.now }
    {
        rely!(let _group = &self.group);
    }

    /// Notes that a member has accepted this much, if that counts, and answers whether it does: it is another member's, says
    /// no more of that member's operations than were accepted here, and says something new. If it doesn't count, nothing
    /// changes. It takes no memory, and time for the square of the members.
    pub fn acknowledge(&mut self, from: u32, vector: &Vector) -> bool
        requires member { from < members self.old }
        requires counts { length vector.now ≡ members self.old }
        ensures answer { result ≡ counts self.old.acks from vector.now }
        ensures after { self.new ≡ acknowledged self.old from vector.now }
        ensures names { KeepsNames self.old self.new }

        // For every history and waiting operations that the replica stands for.
        ensures stands { (t : State) → StandsFor self.old t → (result ≡ is_counted t.history from vector.now) × StandsFor self.new (acknowledge t from vector.now) }
    {
        rely!(let _len = vector.len());
        self.known = None;
        self.acks.note(from, vector)
    }
}
