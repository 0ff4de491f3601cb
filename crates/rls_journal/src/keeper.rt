//! The keeper on a disk.
//! Why: CHOICES.md, 35.

ghost use Rattle.std.specs.Prelude.{◌≡◌, ◌≤◌, ℕ, List, Option, Some, is_ok, IfOk, OnOk, OnErr, IfSome, IsErrOf};
ghost use Rattle.std.specs.Option.{option_map};
ghost use Rattle.rls_io.specs.Device.{Rose, Loads, Stores, Keeps, IsWithin, one_more};
ghost use Rattle.rls_io.specs.declared.devices.LoadError.TheVariants as load;
ghost use Rattle.rls_io.specs.declared.devices.StoreError.TheVariants as store;
ghost use Rattle.rls_journal.specs.Areas.{Areas, kept};
ghost use Rattle.rls_journal.specs.Calls.{StoresBy};
ghost use Rattle.rls_journal.specs.Disk.{CountsFaults, LeavesOnly};
ghost use Rattle.rls_journal.specs.Slots.{HasStored, Holds, HoldsEither, IsSound, Looks};
ghost use Rattle.rls_journal.specs.Keeper.{disk_of, file_told, IsStill, IsAtRest, IsOldOrNew, LoadGives, StoreGives};

use crate::disk::Disk;
use crate::slots::{begin, read_file, replace, settle};
use rls_io::{Failed, Found, Keeper, LoadError, StoreError};
use std::alloc::Global;

/// Keeps a file on a disk with two slots and a gate. From a `store` that failed until a `load` that answers Ok it doesn't
/// tell its file.
#[derive(Drop)]
pub struct DiskKeeper<D: Disk> {
    disk: D,
    is_sure: bool,
}

impl<D: Disk> DiskKeeper<D> {
    /// A keeper of what the disk has. It takes no memory and makes no device call. It is at rest where nothing is pending on
    /// the disk.
    pub fn new(disk: D) -> DiskKeeper<D>
        ensures disk { disk_of result ≡ disk }
        ensures told { file_told D.seen result ≡ option_map kept (D.seen disk) }
        ensures rest { IsStill D.seen D.may_leave disk → IsAtRest D.retries D.seen D.may_leave (disk_of result) }
    {
        DiskKeeper {
            disk,
            is_sure: true,
        }
    }

    /// The disk.
    pub fn disk(&self) -> &D
        ensures disk { result.now ≡ disk_of self.now }
    {
        &self.disk
    }
}

/// Puts these bytes in the place of the file, whatever the gate names.
fn write_file<D: Disk>(disk: &mut D, bytes: &[u8]) -> Result<(), Failed>
    ensures stored { OnOk result (HasStored bytes.now (D.seen disk.old) (D.seen disk.new) (D.may_leave disk.new)) }
    ensures rest { OnOk result (IsAtRest D.retries D.seen D.may_leave disk.new) }
    ensures any_moment { IsAtRest D.retries D.seen D.may_leave disk.old → IfSome (D.seen disk.old) (λ s. LeavesOnly D.moment D.left_since disk.old disk.new (IsOldOrNew (kept s) bytes.now)) }
    ensures holds { IfSome (D.seen disk.old) (λ s. (file : Option (List ℕ)) → Holds file file s (D.may_leave disk.old) → HoldsEither D.seen D.may_leave file (Some bytes.now) disk.new) }
    ensures calls { StoresBy D.answers bytes.now (is_ok result) disk.old disk.new }
    ensures counted { CountsFaults result (D.faults disk.old) (D.faults disk.new) }
{
    match settle(disk)? {
        Some(slot) => replace(disk, 1 - slot, bytes),
        None => begin(disk, bytes),
    }
}

/// The file that the gate names, of which at most `limit` bytes are wanted.
fn find<D: Disk>(alloc: Global, disk: &mut D, limit: u64) -> Result<Found, LoadError>
    ensures found { IfOk result (λ found. IfSome (D.seen disk.old) (λ s. Loads (kept s) limit found)) }
    ensures within { IfOk result (IsWithin limit) }
    ensures rest { OnOk result (IsSound D.retries D.seen D.may_leave disk.old → IsAtRest D.retries D.seen D.may_leave disk.new) }
    ensures looks { Looks D.retries D.seen D.may_leave D.moment D.left_since disk.old disk.new }
    ensures counted { IsErrOf result load.Failed → D.faults disk.new ≡ one_more (D.faults disk.old) }
    ensures uncounted { (IsErrOf result load.Failed → ⊥) → D.faults disk.new ≡ D.faults disk.old }
    ensures never_falls { D.faults disk.old ≤ D.faults disk.new }
    ensures cause { IsErrOf result load.Failed → Rose (D.faults disk.old) (D.faults disk.new) }
{
    match settle(disk)? {
        Some(slot) => read_file(alloc, disk, slot, limit),
        None => Ok(Found::Missing),
    }
}

impl<D: Disk> Keeper for DiskKeeper<D> {
    ghost file = { λ k. file_told D.seen k };

    ghost faults = { λ k. D.faults (disk_of k) };

    ghost load_gives = { λ old answer new. LoadGives D.retries D.seen D.may_leave D.moment D.left_since (is_ok answer) (disk_of old) (disk_of new) };

    ghost store_gives = { λ old bytes ok new. StoreGives D.retries D.seen D.may_leave D.moment D.left_since bytes ok (disk_of old) (disk_of new) × StoresBy D.answers bytes ok (disk_of old) (disk_of new) };

    fn load(&mut self, alloc: Global, limit: u64) -> Result<Found, LoadError>
        ensures found { IfOk result (λ found. IfSome (file_told D.seen self.old) (λ kept. Loads kept limit found)) }
        ensures told { IfOk result (λ found. IfSome (file_told D.seen self.new) (λ kept. Loads kept limit found)) }
        ensures same { Keeps (file_told D.seen self.old) (file_told D.seen self.new) }
        ensures within { IfOk result (IsWithin limit) }
        ensures gives { LoadGives D.retries D.seen D.may_leave D.moment D.left_since (is_ok result) (disk_of self.old) (disk_of self.new) }
        ensures counted { IsErrOf result load.Failed → D.faults (disk_of self.new) ≡ one_more (D.faults (disk_of self.old)) }
        ensures uncounted { (IsErrOf result load.Failed → ⊥) → D.faults (disk_of self.new) ≡ D.faults (disk_of self.old) }
        ensures never_falls { D.faults (disk_of self.old) ≤ D.faults (disk_of self.new) }
        ensures cause { IsErrOf result load.Failed → Rose (D.faults (disk_of self.old)) (D.faults (disk_of self.new)) }

        // Nothing that is read changes. On a disk that retries a crash at any moment of the call leaves nothing that it might not
        // have left before; on another one that held one of two files, it leaves one of them, and the disk holds one of them.
        ensures looks { Looks D.retries D.seen D.may_leave D.moment D.left_since (disk_of self.old) (disk_of self.new) }

        // After an Ok the keeper tells its file, and is at rest if the disk retries, or held one of two files.
        ensures sure { OnOk result (file_told D.seen self.new ≡ option_map kept (D.seen (disk_of self.new))) }
        ensures rest { OnOk result (IsSound D.retries D.seen D.may_leave (disk_of self.old) → IsAtRest D.retries D.seen D.may_leave (disk_of self.new)) }
    {
        let found = find(alloc, &mut self.disk, limit)?;
        self.is_sure = true;
        Ok(found)
    }

    fn store(&mut self, _alloc: Global, bytes: &[u8]) -> Result<(), StoreError>
        ensures ok { OnOk result (Stores (file_told D.seen self.old) (file_told D.seen self.new) bytes.now) }
        ensures err { OnErr result (Keeps (file_told D.seen self.new) (file_told D.seen self.old)) }
        ensures gives { StoreGives D.retries D.seen D.may_leave D.moment D.left_since bytes.now (is_ok result) (disk_of self.old) (disk_of self.new) }
        ensures calls { StoresBy D.answers bytes.now (is_ok result) (disk_of self.old) (disk_of self.new) }
        ensures counted { IsErrOf result store.Failed → D.faults (disk_of self.new) ≡ one_more (D.faults (disk_of self.old)) }
        ensures uncounted { (IsErrOf result store.Failed → ⊥) → D.faults (disk_of self.new) ≡ D.faults (disk_of self.old) }
        ensures never_falls { D.faults (disk_of self.old) ≤ D.faults (disk_of self.new) }
        ensures cause { IsErrOf result store.Failed → Rose (D.faults (disk_of self.old)) (D.faults (disk_of self.new)) }

        // It takes no memory.
        ensures has_memory { IsErrOf result store.OutOfMemory → ⊥ }

        // At rest, a crash at any moment of the call leaves the file from before or these bytes.
        ensures any_moment { IsAtRest D.retries D.seen D.may_leave (disk_of self.old) → IfSome (D.seen (disk_of self.old)) (λ s.
            LeavesOnly D.moment D.left_since (disk_of self.old) (disk_of self.new) (IsOldOrNew (kept s) bytes.now)) }

        // Then a disk that held the file from before holds it or these bytes.
        ensures holds { IfSome (D.seen (disk_of self.old)) (λ s. (file : Option (List ℕ)) →
            Holds file file s (D.may_leave (disk_of self.old)) → HoldsEither D.seen D.may_leave file (Some bytes.now) (disk_of self.new)) }

        // After an Ok a crash leaves these bytes, and the keeper is at rest.
        ensures stored { OnOk result (HasStored bytes.now (D.seen (disk_of self.old)) (D.seen (disk_of self.new)) (D.may_leave (disk_of self.new))) }
        ensures rest { OnOk result (IsAtRest D.retries D.seen D.may_leave (disk_of self.new)) }
    {
        match write_file(&mut self.disk, bytes) {
            Ok(()) => Ok(()),
            Err(_) => {
                self.is_sure = false;
                Err(StoreError::Failed)
            }
        }
    }
}
