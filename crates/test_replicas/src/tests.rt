//! The tables of steps, each of which is played by itself.

mod gone;
mod paths;
mod replicas;
mod threes;
mod tuples;

use std::alloc::Global;
use std::test::Fail;
use test_steps::rows::all_go_within;
use test_steps::steps::{Row, Turn, fault, fault_after_hello, fault_of_three, fault_of_two};

/// Steps, and who is led through them.
#[derive(Clone, Copy)]
enum Table {
    /// A fresh member of two, of this number.
    One(u32, &'static [Row]),
    /// A fresh member 2 of three.
    Third(&'static [Row]),
    /// A fresh member 0, and a fresh member 1 in this group.
    Both(u64, &'static [Turn]),
    /// The same in one group, once both have `hello` by member 0.
    AfterHello(&'static [Turn]),
}

use Table::{AfterHello, Both, One, Third};

/// The first step that goes otherwise than it has to.
fn fault_in(alloc: Global, table: &Table) -> Result<Option<usize>, Fail> {
    match table {
        One(me, rows) => fault(alloc, *me, rows),
        Third(rows) => fault_of_three(alloc, 2, rows),
        Both(group, turns) => fault_of_two(alloc, *group, turns),
        AfterHello(turns) => fault_after_hello(alloc, turns),
    }
}

const WAITING: &[Table] = &[
    One(1, replicas::WAITING),
    One(1, replicas::WAITED_IN_VAIN),
    One(1, replicas::TAKEN),
    One(1, replicas::RELEASED),
];

const LATER: &[Table] = &[Both(7, replicas::LATER), One(0, replicas::STEM_GROWS)];

const MADE: &[Table] = &[One(0, replicas::MADE)];

const LEAVING: &[Table] = &[One(0, replicas::LEAVING)];

const EDITS: &[Table] = &[
    One(0, replicas::ACKNOWLEDGED),
    One(0, replicas::REFUSED_EDITS),
];

const ASKED: &[Table] = &[
    AfterHello(replicas::FOR_MEMBERS),
    Both(8, replicas::FOR_A_GROUP),
    AfterHello(replicas::ASKED),
];

const PATHS: &[Table] = &[
    AfterHello(paths::BY_BOTH),
    AfterHello(paths::OF_AN_OLDER_EPOCH),
    AfterHello(paths::KNOWN_BY_ANOTHER),
    One(1, paths::RELEASED),
];

const THREES: &[Table] = &[Third(threes::RELEASED), Third(threes::SHAPES)];

const ARRIVING: &[Table] = &[Third(threes::ARRIVING)];

const BY_OTHERS: &[Table] = &[Third(gone::BY_OTHER_DELETIONS)];

const AFTER_OTHERS: &[Table] = &[Third(gone::AFTER_OTHER_CHANGES)];

#[test]
fn operations_wait_and_are_released(rt: HostRuntime) -> Result<(), Fail> {
    all_go_within(WAITING, |table| fault_in(rt.alloc(), table))
}

#[test]
fn later_operations_are_refused(rt: HostRuntime) -> Result<(), Fail> {
    all_go_within(LATER, |table| fault_in(rt.alloc(), table))
}

#[test]
fn operations_are_made_and_replayed(rt: HostRuntime) -> Result<(), Fail> {
    all_go_within(MADE, |table| fault_in(rt.alloc(), table))
}

#[test]
fn members_leave(rt: HostRuntime) -> Result<(), Fail> {
    all_go_within(LEAVING, |table| fault_in(rt.alloc(), table))
}

#[test]
fn acknowledgements_count_and_edits_are_refused(rt: HostRuntime) -> Result<(), Fail> {
    all_go_within(EDITS, |table| fault_in(rt.alloc(), table))
}

#[test]
fn replicas_tell_of_themselves_and_send(rt: HostRuntime) -> Result<(), Fail> {
    all_go_within(ASKED, |table| fault_in(rt.alloc(), table))
}

#[test]
fn memory_suffices(rt: HostRuntime) -> Result<(), Fail> {
    all_go_within(PATHS, |table| fault_in(rt.alloc(), table))
}

#[test]
fn each_kind_waits_in_a_group_of_three(rt: HostRuntime) -> Result<(), Fail> {
    all_go_within(THREES, |table| fault_in(rt.alloc(), table))
}

#[test]
fn operations_arrive(rt: HostRuntime) -> Result<(), Fail> {
    all_go_within(ARRIVING, |table| fault_in(rt.alloc(), table))
}

#[test]
fn targets_are_known_by_other_deletions(rt: HostRuntime) -> Result<(), Fail> {
    all_go_within(BY_OTHERS, |table| fault_in(rt.alloc(), table))
}

#[test]
fn targets_are_known_after_other_changes(rt: HostRuntime) -> Result<(), Fail> {
    all_go_within(AFTER_OTHERS, |table| fault_in(rt.alloc(), table))
}
