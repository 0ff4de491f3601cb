//! The keeper with two slots, under commands and under faults.

use crate::members::{EDITED, Step, answer_over};
use rls_io::{Found, Keeper, StoreError};
use rls_journal::{DiskKeeper, MemoryDisk};
use std::alloc::{AllocError, Global};
use std::test::Fail;
use test_steps::bytes::{HELLO_FILE, bytes};
use test_steps::rows::{all_go, first_fault};

/// A keeper over an empty disk, of which the calls with these numbers fail.
fn empty(alloc: Global, failing: &[u64]) -> Result<DiskKeeper<MemoryDisk>, AllocError> {
    let disk = MemoryDisk::new(alloc, b"", b"", b"", 100, 10_000, failing)?;
    Ok(DiskKeeper::new(disk))
}

/// Whether a step goes as it has to over this keeper.
fn goes(alloc: Global, keeper: &mut DiskKeeper<MemoryDisk>, step: &Step<'_>) -> Result<bool, Fail> {
    let (words, input, status, output, errors) = step;
    let answer = answer_over(alloc, keeper, words, input, [&[]; 3])?;
    Ok(answer.is(*status, output, errors))
}

/// The first step that goes otherwise than it has to.
fn fault_among(
    alloc: Global,
    keeper: &mut DiskKeeper<MemoryDisk>,
    steps: &[Step<'_>],
) -> Result<Option<usize>, Fail> {
    first_fault(steps, |step| goes(alloc, keeper, step))
}

/// The same over an empty disk.
fn fault_of(alloc: Global, steps: &[Step<'_>]) -> Result<Option<usize>, Fail> {
    let mut keeper = empty(alloc, &[])?;
    fault_among(alloc, &mut keeper, steps)
}

const COMMANDS: &[Step<'static>] = &[
    ("new 7 0 2", b"", 0, "new 7 0 2\n", ""),
    ("edit", b"i 0 hello\n", 0, EDITED, ""),
    ("text", b"", 0, "hello", ""),
    (
        "ids",
        b"",
        0,
        "{\"epoch\":null,\"runs\":[{\"first\":[[2147483647,0,1,0]],\"length\":5}]}\n",
        "",
    ),
];

#[test]
fn commands_over_slots(rt: HostRuntime) -> Result<(), Fail> {
    assert_eq!(rt; fault_of(rt.alloc(), COMMANDS)?, None);
    Ok(())
}

fn stores(alloc: Global, keeper: &mut DiskKeeper<MemoryDisk>, digits: &str) -> Result<(), Fail> {
    let file = bytes(alloc, digits)?;
    Ok(keeper.store(alloc, &file)?)
}

/// Whether there is no replica before the journal is stored, and its text afterwards.
fn shows(alloc: Global, keeper: &mut DiskKeeper<MemoryDisk>) -> Result<bool, Fail> {
    let none = goes(alloc, keeper, &("text", b"", 2, "", "no replica\n"))?;
    stores(alloc, keeper, HELLO_FILE)?;
    Ok(none && goes(alloc, keeper, &("text", b"", 0, "hello", ""))?)
}

/// The same over an empty disk.
fn shows_what_is_stored(alloc: Global) -> Result<bool, Fail> {
    let mut keeper = empty(alloc, &[])?;
    shows(alloc, &mut keeper)
}

#[test]
fn a_text_is_kept_in_slots(rt: HostRuntime) -> Result<(), Fail> {
    assert!(rt; shows_what_is_stored(rt.alloc())?);
    Ok(())
}

/// The status of `new` over an empty disk of which this call fails.
fn status_of_new(alloc: Global, failing: u64) -> Result<u8, Fail> {
    let mut keeper = empty(alloc, &[failing])?;
    Ok(answer_over(alloc, &mut keeper, "new 7 0 2", b"", [&[]; 3])?.status)
}

/// The status of `new` over an empty disk, of which each call fails in turn: it loads by two calls of the device and stores by ten.
const STATUSES: &[(u64, u8)] = &[
    (0, 7),
    (1, 7),
    (2, 7),
    (3, 7),
    (4, 7),
    (5, 7),
    (6, 7),
    (7, 7),
    (8, 7),
    (9, 7),
    (10, 7),
    (11, 7),
    (12, 0),
    (13, 0),
];

#[test]
fn each_call_of_a_disk_fails_in_turn(rt: HostRuntime) -> Result<(), Fail> {
    all_go(
        STATUSES,
        |(failing, due)| Ok(status_of_new(rt.alloc(), *failing)? == *due),
    )
}

/// Whether the keeper finds these bytes.
fn finds(alloc: Global, keeper: &mut DiskKeeper<MemoryDisk>, bytes: &[u8]) -> Result<bool, Fail> {
    match keeper.load(alloc, 1000)? {
        Found::Bytes(found) => Ok(found.as_slice() == bytes),
        _ => Ok(false),
    }
}

/// Whether a store over a disk with `old!` tells that this call fails, and the keeper finds these bytes then.
fn fails_to_store(alloc: Global, failing: u64, kept: &[u8]) -> Result<bool, Fail> {
    let old = b"\0\0\0\0\0\0\0\x04old!";
    let disk = MemoryDisk::new(alloc, old, b"", b"\0", 100, 1000, &[failing])?;
    let mut keeper = DiskKeeper::new(disk);
    let stored = keeper.store(alloc, b"new");
    Ok(stored == Err(StoreError::Failed) && finds(alloc, &mut keeper, kept)?)
}

/// What is kept after a store of which each call fails in turn.
const KEPT: &[(u64, &[u8])] = &[
    (0, b"old!"),
    (1, b"old!"),
    (2, b"old!"),
    (3, b"old!"),
    (4, b"old!"),
    (5, b"old!"),
    (6, b"old!"),
    (7, b"old!"),
    (8, b"old!"),
    (9, b"new"),
];

#[test]
fn each_call_of_a_store_fails_in_turn(rt: HostRuntime) -> Result<(), Fail> {
    all_go(
        KEPT,
        |(failing, kept)| fails_to_store(rt.alloc(), *failing, kept),
    )
}
