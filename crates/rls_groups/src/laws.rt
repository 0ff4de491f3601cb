//! Laws of groups. Each function runs nothing and takes no memory; its contract states the fact.

ghost use Rattle.rls_io.specs.Device.{LoadsWith};
ghost use Rattle.rls_journal.specs.Keeper.{StoreGives};
ghost use Rattle.rls_groups.specs.Examples.{SessionsAreEvents};
ghost use Rattle.rls_groups.specs.Groups.{GroupsConverge};
ghost use Rattle.rls_groups.specs.Premises.{PutBack, UnsavedHandedOn, UsedTwice};
ghost use Rattle.rls_groups.specs.Rounds.{AllTold, OneHub, OneRound, SendsTell, SessionsExchange, TakesReceive};
ghost use Rattle.rls_groups.specs.Runs.{CommandsLeave, SessionsAreOfGroup, SessionsLeave, StoppedStores, StopsLeave, StoresLeave};

use rls_io::{Keeper, Sink, Source};
use rls_journal::Disk;

/// Whatever the members of a group do by commands and sessions, each over its own file, whatever fails or stops of it, and however the
/// messages that may be handed on are passed on, repeated or lost: no operation is refused, edits release nothing, what waits was made
/// by its author, each message is taken, members whose counts are equal show the same text and identifiers, one order orders the texts
/// of all files at all times, and each edit, each message and each change of an editor whose file was stored stands in the member's
/// history with the effect that was asked for.
pub fn groups_converge()
    ensures groups_converge { GroupsConverge }
{}

/// In a group where nobody edits any more, who is told each operation by somebody that has it has all of them in the end, and nothing waits. So
/// one round of messages makes members equal, each of them taken by a command or a session that stores, in whatever order: one from each to each
/// other one, or one from each to one of them and then one from that one to each.
/// What a `send` prints, and a session that stores answers to `s`, is such a message that is sent; what a `take` that stores reads, and what such
/// a session takes, is one that is received.
pub fn one_round()
    ensures sends_tell { SendsTell }
    ensures takes_receive { TakesReceive }
    ensures sessions_exchange { SessionsExchange }
    ensures all_told { AllTold }
    ensures one_round { OneRound }
    ensures one_hub { OneHub }
{}

/// What the clauses of `rls_top::run` and of `rls_session::serve` say of a call is an event of the group: the member's file is as before, or
/// as the run leaves it that came to its end; and which of the two, by the status. A session that stores more than once is one event for each
/// of its stores. This is so whatever the other members do before, between and after.
pub fn runs_are_events<K: Keeper, S: Source, W: Sink>()
    ensures commands { CommandsLeave K.file K.faults (LoadsWith K.load_gives) K.store_gives S.left S.faults W.told W.faults }
    ensures sessions { SessionsLeave S W (LoadsWith K.load_gives) K.store_gives }
    ensures stores { StoresLeave S W (LoadsWith K.load_gives) K.store_gives }
{}

/// The same of a stop at any moment, by the clauses of `rls_groups`. Of a session that stores more than once it leaves the file of one of its
/// stores, one after another.
pub fn stops_are_events<D: Disk>()
    ensures stops { StopsLeave D.moment D.left_since (StoreGives D.retries D.seen D.may_leave D.moment D.left_since) }
    ensures stores { StoppedStores D.moment D.left_since (StoreGives D.retries D.seen D.may_leave D.moment D.left_since) }
{}

/// Each part of a session, from store to store, may be an event of the group, as soon as what it takes may be handed on. So the premises can be
/// met. A worked example is of two sessions in turn: the one answers a message of the other, which takes that answer.
pub fn events_of_sessions()
    ensures sessions_are_of_group { SessionsAreOfGroup }
    ensures sessions_are_events { SessionsAreEvents }
{}

/// Without the premises it fails, by three worked examples: a message that is handed on though its session stores nothing, a file that is put
/// back from a copy, and a number that two replicas have.
pub fn premises_needed()
    ensures unsaved { UnsavedHandedOn }
    ensures put_back { PutBack }
    ensures twice { UsedTwice }
{}
