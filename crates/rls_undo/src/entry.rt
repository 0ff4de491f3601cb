//! What is kept of an edit, so that it can be undone.

ghost use Rattle.std.specs.Prelude.{◌≡◌};
ghost use Rattle.rls_undo.specs.Plans.{epoch_in};

use rls_ident::{EpochName, Ident};
use rls_runs::{Runs, Text};

/// What a member did to its text.
#[derive(Drop)]
pub enum Entry {
    /// It inserted characters with these identifiers, of an epoch.
    Inserted {
        epoch: EpochName,
        ids: Runs,
    },
    /// It deleted these characters, of which the first had this identifier, of an epoch.
    Removed {
        epoch: EpochName,
        first: Ident,
        text: Text,
    },
}

impl Entry {
    /// Its epoch.
    pub(crate) fn epoch(&self) -> EpochName
        ensures epoch { result ≡ epoch_in self.now }
    {
        match self {
            Entry::Inserted { epoch, .. } | Entry::Removed { epoch, .. } => *epoch,
        }
    }
}
