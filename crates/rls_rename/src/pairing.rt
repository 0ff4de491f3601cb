//! What a renaming is between: the former identifiers, and the new ones.

ghost use Rattle.std.specs.Prelude.{◌≡◌, ◌≤◌, length, IfOk};
ghost use Rattle.rls_ident.specs.declared.limits.TheConstants.{IDENTIFIERS};
ghost use Rattle.rls_rename.specs.Former.{former_prop};
ghost use Rattle.rls_rename.specs.Renaming.{IsFormer};

use rls_ident::Spot;
use rls_runs::Runs;
use std::alloc::{AllocError, Global};

/// The former identifiers, and the tuple of the first new one. The other new ones follow it.
#[derive(Drop)]
pub(crate) struct Pairing {
    pub(crate) alloc: Global,
    pub(crate) former: Runs,
    pub(crate) first: Spot,
    ghost increase: { IsFormer former } by { former_prop former },
    ghost most: { length former ≤ IDENTIFIERS },
}

impl Pairing {
    /// The same again.
    pub(crate) fn copy(&self) -> Result<Pairing, AllocError>
        ensures former { IfOk result (λ pairing. pairing.former ≡ self.now.former) }
        ensures first { IfOk result (λ pairing. pairing.first ≡ self.now.first) }
    {
        Ok(Pairing {
            alloc: self.alloc,
            former: self.former.copy()?,
            first: self.first,
        })
    }
}
