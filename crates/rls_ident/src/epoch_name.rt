//! Names of epochs.

ghost use Rattle.std.specs.Prelude.{◌≡◌, length, IsTrue};
ghost use Rattle.rls_ident.specs.EpochNames.{name_eq, is_within, is_of_member};

use crate::vector::Vector;

/// The name of an epoch (RenamableLogootSplit: Nicolas, Oster and Perrin).
#[derive(Clone, Copy, Debug, PartialEq, Eq)]
pub enum EpochName {
    /// The first epoch.
    Origin,
    /// The epoch that this member's rename of this number opened.
    Of { replica: u32, seq: u32 },
}

impl EpochName {
    /// Whether two names are equal.
    pub fn same(&self, other: &EpochName) -> bool
        ensures same { result ≡ name_eq self.now other.now }
    {
        match (self, other) {
            (EpochName::Origin, EpochName::Origin) => true,
            (
                EpochName::Of { replica, seq },
                EpochName::Of {
                    replica: other_replica,
                    seq: other_seq,
                },
            ) => *replica == *other_replica && *seq == *other_seq,
            _ => false,
        }
    }

    /// Whether it is `Origin`, or its number is at most the count of its replica, which is one of
    /// those that the vector counts.
    pub fn within(&self, v: &Vector) -> bool
        requires member { IsTrue (is_of_member (length v.now) self.now) }
        ensures within { result ≡ is_within self.now v.now }
    {
        match self {
            EpochName::Origin => true,
            EpochName::Of { replica, seq } => *seq <= v.get(*replica),
        }
    }
}
