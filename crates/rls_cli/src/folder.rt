//! Where the replica file of the current folder is kept.
//! Why: CHOICES.md, 68, 69.

ghost use Rattle.std.specs.Prelude.{◌≡◌, None};
ghost use Rattle.rls_io.specs.Folder.{keeper_faults};
ghost use Rattle.rls_journal.specs.Files.{disk_faults};
ghost use Rattle.rls_journal.specs.Keeper.{disk_of};
ghost use Rattle.rls_cli.specs.Folder.{LoadGives, StoreGives, faults_of};

use rls_io::{CurrentFolder, FileKeeper, Found, Keeper, LoadError, StoreError};
use rls_journal::{CurrentFiles, DiskKeeper, FileDisk};
use std::alloc::Global;
use std::fs;
use std::rt::Files;

/// The keeper of the replica file of the current folder: one of two keepers, to which each call is handed on.
///
/// It tells that each of its calls is one call of the keeper that was chosen, with the same bytes and the same answer, in that keeper's own
/// words, whatever keepers the two are; and what the call makes of the count of faults: a call that answers Ok counts none, one that fails
/// counts one. So all that a command and a session promise of their calls holds of the keeper that was chosen, and the first device that
/// fails decides the status. It doesn't tell its content, since `FileKeeper` and `FileDisk` don't: no clause of std says what a file that is
/// opened, made or renamed holds (`File::open`, `File::create`, `fs::rename`), what `metadata` and `seek` tell of it, or what is on the disk
/// after `sync_all`.
#[derive(Drop)]
pub enum FolderKeeper<A, B> {
    /// Of the file `replica.rls`.
    File { keeper: A },
    /// Of the files `replica.0`, `replica.1` and `replica.gate`, of which a stop at any moment leaves the old content or the new.
    Disk { keeper: B },
    /// The system didn't tell which of them there are. Each call fails.
    Unknown { faults: u64 },
}

/// The keeper that the program uses.
pub type ReplicaKeeper<R> = FolderKeeper<
    FileKeeper<CurrentFolder<R>>,
    DiskKeeper<FileDisk<CurrentFiles<R>>>,
>;

/// The keeper of the file `replica.rls` if the folder has it, and otherwise of the file in two slots. If the system doesn't tell whether
/// the folder has it, the keeper fails at each call. It makes and changes no file.
pub fn folder_keeper<R: Files + Drop>(rt: R) -> ReplicaKeeper<R>
    ensures faults { faults_of keeper_faults (λ keeper. disk_faults (disk_of keeper)) result ≡ 0 }
{
    match fs::exists(&rt, "replica.rls") {
        Ok(true) => FolderKeeper::File {
            keeper: FileKeeper::new(CurrentFolder::new(rt)),
        },
        Ok(false) => FolderKeeper::Disk {
            keeper: DiskKeeper::new(FileDisk::new(CurrentFiles::new(rt))),
        },
        Err(_) => FolderKeeper::Unknown { faults: 0 },
    }
}

impl<A: Keeper, B: Keeper> Keeper for FolderKeeper<A, B> {
    ghost file = { λ _. None };

    ghost faults = { faults_of A.faults B.faults };

    ghost load_gives = { LoadGives A.load_gives B.load_gives A.faults B.faults };

    ghost store_gives = { StoreGives A.store_gives B.store_gives A.faults B.faults };

    fn load(&mut self, alloc: Global, limit: u64) -> Result<Found, LoadError> {
        match self {
            FolderKeeper::File { keeper } => keeper.load(alloc, limit),
            FolderKeeper::Disk { keeper } => keeper.load(alloc, limit),
            FolderKeeper::Unknown { faults } => {
                *faults = faults.saturating_add(1);
                Err(LoadError::Failed)
            }
        }
    }

    fn store(&mut self, alloc: Global, bytes: &[u8]) -> Result<(), StoreError> {
        match self {
            FolderKeeper::File { keeper } => keeper.store(alloc, bytes),
            FolderKeeper::Disk { keeper } => keeper.store(alloc, bytes),
            FolderKeeper::Unknown { faults } => {
                *faults = faults.saturating_add(1);
                Err(StoreError::Failed)
            }
        }
    }
}
