//! What a keeper over a disk keeps, and what is left of it after a stop.

use crate::lossy::LossyDisk;
use rls_io::{Found, Keeper, StoreError};
use rls_journal::{CurrentFiles, DiskKeeper, FileDisk, MemoryDisk};
use std::alloc::Global;
use std::fs;
use std::test::Fail;

/// The name of a file of these bytes.
fn name_of(bytes: &[u8]) -> &'static str {
    match bytes {
        b"old!" => "old",
        b"new" => "new",
        b"newer" => "newer",
        _ => "other",
    }
}

/// The name of what was found.
fn name_found(found: Found) -> &'static str {
    match found {
        Found::Missing => "missing",
        Found::Bytes(bytes) => name_of(bytes.as_slice()),
        Found::Longer => "longer",
    }
}

/// The name of what is loaded.
fn load(alloc: Global, keeper: &mut impl Keeper) -> &'static str {
    match keeper.load(alloc, 100) {
        Ok(found) => name_found(found),
        Err(_) => "failed",
    }
}

/// What is loaded after a crash after this many calls.
fn loaded_after(
    alloc: Global,
    disk: &MemoryDisk,
    calls: u64,
    filler: u8,
) -> Result<&'static str, Fail> {
    if calls > disk.calls() {
        return Err(Fail::new("no such call"));
    }
    let mut keeper = DiskKeeper::new(disk.crashed(calls, filler)?);
    Ok(load(alloc, &mut keeper))
}

/// What has to be loaded after a crash after this many calls.
fn wanted(calls: u64, filler: u8) -> &'static str {
    match calls {
        0..11 => "missing",
        11..21 => "old",
        21 if filler == 0 => "old",
        _ => "new",
    }
}

/// The first number of calls after which a crash leaves something else than it has to.
fn fault(alloc: Global, disk: &MemoryDisk, filler: u8) -> Result<Option<u64>, Fail> {
    for calls in 0..23 {
        if loaded_after(alloc, disk, calls, filler)? != wanted(calls, filler) {
            return Ok(Some(calls));
        }
    }
    Ok(None)
}

/// Whether there is no file, which takes two calls, and two are stored after one another with these many.
fn stores(alloc: Global, keeper: &mut DiskKeeper<MemoryDisk>) -> bool {
    let missing = load(alloc, keeper) == "missing" && keeper.disk().calls() == 2;
    let old = keeper.store(alloc, b"old!").is_ok() && keeper.disk().calls() == 12;
    let new = keeper.store(alloc, b"new").is_ok() && keeper.disk().calls() == 22;
    missing && old && new
}

#[test]
fn a_stop_leaves_the_old_file_or_the_new(rt: HostRuntime) -> Result<(), Fail> {
    let alloc = rt.alloc();
    let disk = MemoryDisk::new(alloc, &[], &[], &[], 40, 100, &[])?;
    let mut keeper = DiskKeeper::new(disk);
    assert!(rt; stores(alloc, &mut keeper));
    for filler in [0, 255] {
        assert_eq!(rt; fault(alloc, keeper.disk(), filler)?, None);
    }
    Ok(())
}

/// Whether the second store fails at the gate after 19 calls.
fn fails_at_gate(alloc: Global, keeper: &mut DiskKeeper<MemoryDisk>) -> bool {
    let old = keeper.store(alloc, b"old!").is_ok();
    let new = keeper.store(alloc, b"new");
    old && matches!(new, Err(StoreError::Failed)) && keeper.disk().calls() == 19
}

/// Whether the file is as before then, and is stored afterwards.
fn stores_again(alloc: Global, keeper: &mut DiskKeeper<MemoryDisk>) -> bool {
    let old = load(alloc, keeper) == "old";
    let new = keeper.store(alloc, b"new").is_ok();
    old && new && load(alloc, keeper) == "new"
}

#[test]
fn a_gate_that_fails_leaves_the_old_file(rt: HostRuntime) -> Result<(), Fail> {
    let alloc = rt.alloc();
    let disk = MemoryDisk::new(alloc, &[], &[], &[], 60, 100, &[18])?;
    let mut keeper = DiskKeeper::new(disk);
    assert!(rt; fails_at_gate(alloc, &mut keeper));
    assert!(rt; stores_again(alloc, &mut keeper));
    Ok(())
}

/// The names of the files one of which a stop leaves.
#[derive(Drop)]
struct Known {
    first: &'static str,
    second: &'static str,
}

impl Known {
    fn has(&self, name: &str) -> bool {
        name == self.first || name == self.second
    }
}

/// Loads, and stores these bytes if that is done. Whether what is loaded is one of the files that are known.
fn goes_on(
    alloc: Global,
    keeper: &mut DiskKeeper<LossyDisk>,
    known: &mut Known,
    bytes: &[u8],
) -> bool {
    let Ok(found) = keeper.load(alloc, 100) else {
        return true;
    };
    let loaded = name_found(found);
    let is_right = known.has(loaded);
    known.first = loaded;
    known.second = name_of(bytes);
    if keeper.store(alloc, bytes).is_ok() {
        known.first = known.second;
    }
    is_right
}

/// Whether three files are stored after one another, and a stop leaves one that is known, where this call fails and the machine
/// stops at that one.
fn survives(alloc: Global, failing: u64, stop: u64) -> Result<bool, Fail> {
    let mut keeper = DiskKeeper::new(LossyDisk::new(alloc, failing, stop)?);
    let mut known = Known {
        first: "missing",
        second: "missing",
    };
    let mut is_right = true;
    for bytes in [b"old!".as_slice(), b"new".as_slice(), b"newer".as_slice()] {
        is_right &= goes_on(alloc, &mut keeper, &mut known, bytes);
    }
    let mut left = DiskKeeper::new(keeper.disk().left()?);
    Ok(is_right && known.has(load(alloc, &mut left)))
}

#[test]
fn a_stop_after_a_sync_that_failed_leaves_the_old_file_or_the_new(
    rt: HostRuntime,
) -> Result<(), Fail> {
    for failing in 0..50 {
        for stop in 0..60 {
            assert!(rt; survives(rt.alloc(), failing, stop)?);
        }
    }
    Ok(())
}

/// Removes what an earlier run left.
fn clear(rt: &HostRuntime) {
    let _ = fs::remove_file(rt, "replica.0");
    let _ = fs::remove_file(rt, "replica.1");
    let _ = fs::remove_file(rt, "replica.gate");
}

/// Whether there is neither a file nor a gate.
fn is_clear(rt: &HostRuntime, keeper: &mut impl Keeper) -> bool {
    load(rt.alloc(), keeper) == "missing" && matches!(fs::exists(rt, "replica.gate"), Ok(false))
}

/// Whether two files are stored after one another.
fn stores_two(alloc: Global, keeper: &mut impl Keeper) -> bool {
    keeper.store(alloc, b"old!").is_ok() && keeper.store(alloc, b"new").is_ok()
}

#[test]
fn files_keep_the_file(rt: HostRuntime) {
    clear(&rt);
    let mut keeper = DiskKeeper::new(FileDisk::new(CurrentFiles::new(&rt)));
    assert!(rt; is_clear(&rt, &mut keeper));
    assert!(rt; stores_two(rt.alloc(), &mut keeper));
    let mut again = DiskKeeper::new(FileDisk::new(CurrentFiles::new(&rt)));
    assert!(rt; load(rt.alloc(), &mut again) == "new");
    clear(&rt);
}
