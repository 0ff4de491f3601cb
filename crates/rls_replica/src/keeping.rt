//! What a replica keeps, as it keeps it: lent, so that it is written without a copy.

ghost use Rattle.std.specs.Prelude.{◌≡◌, ◌<◌, ℕ, IfOk};
ghost use Rattle.rls_ops.specs.Rows.{left, row_of};
ghost use Rattle.rls_model.specs.History.{has_left, members_of, row};
ghost use Rattle.rls_model.specs.Laws.{KeepsRetained};
ghost use Rattle.rls_model.specs.Receiving.{State};
ghost use Rattle.rls_model.specs.Retained.{retained};
ghost use Rattle.rls_model.specs.Stems.{stems};
ghost use Rattle.rls_seen.specs.Seen.{members};
ghost use Rattle.rls_seen.specs.Kept.{retained_over};
ghost use Rattle.rls_seen.specs.Stands.{StandsFor};

use crate::replica::Replica;
use rls_epoch::Epochs;
use rls_ident::EpochName;
use rls_parts::StemTable;
use rls_stable::Acks;
use std::alloc::AllocError;

impl Replica {
    /// What each member is known to have accepted, and who has left.
    pub fn acks(&self) -> &Acks
        ensures acks { result.now ≡ self.now.acks }

        // For every history and waiting operations that the replica stands for.
        ensures stands { (t : State) → StandsFor self.now t → (a : ℕ) → a < members_of t.history → (row_of result.now a ≡ row t.history a) × (left result.now a ≡ has_left t.history a) }
    {
        &self.acks
    }

    /// Which offsets each member has used.
    pub fn stems(&self) -> &StemTable
        ensures stems { result.now.stems ≡ self.now.stems }
        ensures members { result.now.members ≡ members self.now }

        // For every history and waiting operations that the replica stands for.
        ensures stands { (t : State) → StandsFor self.now t → result.now.stems ≡ stems t.history }
    {
        &self.stems
    }

    /// The epochs that are kept, of which some may be dropped by now.
    pub fn epochs(&self) -> &Epochs
        ensures epochs { result.now.epochs ≡ self.now.epochs }

        // For every history and waiting operations that the replica stands for.
        ensures stands { (t : State) → StandsFor self.now t → KeepsRetained t.history result.now.epochs }
    {
        &self.epochs
    }

    /// The names of the epochs that must stay, in increasing order; each is kept. It goes over the kept operations once and over the
    /// kept epochs a few times.
    pub fn retained(&self) -> Result<Vec<EpochName>, AllocError>
        ensures names { IfOk result (λ names. names.items ≡ retained_over self.now) }

        // For every history and waiting operations that the replica stands for.
        ensures stands { IfOk result (λ names. (t : State) → StandsFor self.now t → names.items ≡ retained t.history) }
    {
        let (_, retained) = self.unstable_and_retained()?;
        Ok(retained.names)
    }
}
