//! Renamings.
//! Why: CHOICES.md, 93.

ghost use Rattle.std.specs.Prelude.{◌≡◌, ℕ, ◌<◌, ◌≤◌, length, List, ◌∷◌, IfOk, IfSome, IfNone, IsErrOf, ◌↔◌};
ghost use Rattle.rls_ident.specs.declared.limits.TheConstants.{IDENTIFIERS};
ghost use Rattle.rls_ident.specs.declared.tuple.Tuple.{Tuple};
ghost use Rattle.rls_runs.specs.Runs.{IsImage};
ghost use Rattle.rls_rename.specs.Renaming.{IsFormer, first_pos, forward, back};
ghost use Rattle.rls_rename.specs.Heads.{Replaces};
ghost use Rattle.rls_rename.specs.Stretches.{GoesAlong};
ghost use Rattle.rls_rename.specs.Ways.{renamed};

use crate::images::Image;
use crate::pairing::Pairing;
use crate::stretch::Stretch;
use rls_ident::limits::IDENTIFIERS;
use rls_ident::{Ident, Spot, Tuple};
use rls_runs::{Run, RunList, Runs};
use std::alloc::{AllocError, Global};
use std::marker::Model;

/// The former identifiers of a rename, with the rename's author and number.
#[derive(Drop)]
pub struct Renaming {
    pairing: Pairing,
}

impl Model for Renaming {
    ghost use Rattle.std.specs.Prelude.{◌≡◌, pos};
    ghost use Rattle.rls_rename.specs.Renaming.{Renaming, new_pos};

    ghost Value = { Renaming };

    ghost view = { λ a. record { former = a.pairing.former; replica = a.pairing.first.replica; seq = a.pairing.first.seq } };

    ghost invariant = { λ a. (a.pairing.first.pos ≡ new_pos a.pairing.former) × (a.pairing.first.offset ≡ pos 0) };
}

/// Why there is no such renaming.
#[derive(Clone, Copy, Debug, PartialEq, Eq)]
pub enum RenamingError {
    /// There is no former identifier.
    EmptyList,
    /// There are more than 4,194,304 former identifiers.
    TooMany { total: u64 },
}

// The way of a renaming.
#[derive(Clone, Copy)]
enum Way {
    Forward,
    Back,
}

impl Renaming {
    /// The renaming of these identifiers by the replica's operation with this number. It takes no memory.
    ///
    /// # Errors
    ///
    /// `EmptyList` exactly where there is no identifier, and `TooMany` exactly where there are more
    /// than 4,194,304. The identifiers are given up then.
    #[tactic(auto, using(crate::proofs::Made::former_is, rls_runs::proofs::RunsOf::some_runs, crate::proofs::Made::first_of_run))]
    pub fn new(
        alloc: Global,
        former: Runs,
        replica: u32,
        seq: u32,
    ) -> Result<Renaming, RenamingError>
        ensures ok { IfOk result (λ renaming. renaming ≡ record { former = former; replica = replica; seq = seq }) }
        ensures empty { IsErrOf result RenamingError.EmptyList ↔ (length former ≡ 0) }
        ensures too_many { (total : ℕ) → (IsErrOf result (RenamingError.TooMany total) ↔ ((length former ≡ total) × (IDENTIFIERS < total))) }
    {
        let total = former.total();
        if total == 0 {
            return Err(RenamingError::EmptyList);
        }
        if total > IDENTIFIERS {
            return Err(RenamingError::TooMany { total });
        }
        let pos = first_pos(former.run(0).first());
        let first = Spot {
            pos,
            replica,
            seq,
            offset: 0,
        };
        Ok(Renaming {
            pairing: Pairing {
                alloc,
                former,
                first,
            },
        })
    }

    /// The number of former identifiers, from 1 to 4,194,304.
    #[tactic(auto, using(crate::proofs::Made::former_some))]
    pub fn total(&self) -> u64
        ensures total { result ≡ length self.now.former }
        ensures some { 0 < result }
        ensures most { result ≤ IDENTIFIERS }
        ensures former { IsFormer self.now.former }
    {
        self.pairing.former.total()
    }

    /// The former identifiers.
    pub fn former(&self) -> &Runs
        ensures former { result.now ≡ self.now.former }
    {
        &self.pairing.former
    }

    /// The replica of the rename.
    pub fn replica(&self) -> u32
        ensures replica { result ≡ self.now.replica }
    {
        self.pairing.first.replica
    }

    /// The number of the rename among its replica's operations.
    pub fn seq(&self) -> u32
        ensures seq { result ≡ self.now.seq }
    {
        self.pairing.first.seq
    }

    /// The renaming of an identifier: a former one goes to the new one at its place, and any other
    /// from its gap between former ones to the gap between new ones, in the same order. It costs a
    /// comparison for each halving of the former runs, and a few copies of the identifier.
    pub fn forward(&self, id: &Ident) -> Result<Ident, AllocError>
        ensures forward { IfOk result (λ z. z ≡ forward self.now id.now) }
    {
        self.renamed_ident(Way::Forward, id)
    }

    /// The identifier that `forward` takes to this one, at the same cost.
    pub fn back(&self, id: &Ident) -> Result<Ident, AllocError>
        ensures back { IfOk result (λ x. x ≡ back self.now id.now) }
    {
        self.renamed_ident(Way::Back, id)
    }

    /// The renaming of each identifier of a run, in order, as runs of which none touches the one
    /// before it.
    ///
    /// It works on whole runs. The run is cut where a former run begins or ends in it, and in each
    /// gap once for each of the two patterns of the gap's maps at most. Each part costs what
    /// `forward` costs, and where a pattern cuts it also a look at the pattern for each halving of
    /// the part. So a run of a thousand million identifiers takes a few steps where few former runs
    /// lie in it, and former identifiers take one step for each former run. It takes memory for the
    /// runs of the answer, and copies none of them.
    pub fn forward_run(&self, run: &Run) -> Result<RunList, AllocError>
        ensures image { IfOk result (λ runs. IsImage (forward self.now) run.now runs) }
    {
        self.renamed_run(Way::Forward, run)
    }

    /// What `back` takes each identifier of a run to, in order, as runs of which none touches the
    /// one before it. It costs what `forward_run` does: the run is cut where the new identifiers
    /// begin and end in it, among them where a former run ends, and in each gap by its two patterns.
    pub fn back_run(&self, run: &Run) -> Result<RunList, AllocError>
        ensures image { IfOk result (λ runs. IsImage (back self.now) run.now runs) }
    {
        self.renamed_run(Way::Back, run)
    }

    /// What `forward` puts in the place of an identifier's first tuples, whatever follows them, if it
    /// is seen from these alone. Mostly they have to be two more than a former identifier has. It
    /// costs what `forward` does at these tuples, so that a long identifier needn't be copied.
    pub fn forward_head(&self, head: &Ident) -> Result<Option<Ident>, AllocError>
        ensures replaces { IfOk result (λ z. IfSome z (λ z. Replaces (forward self.now) head.now z)) }
    {
        let Some(moved) = self.pairing.forward_head(head)? else {
            return Ok(None);
        };
        Ok(Some(moved))
    }

    // Of one identifier.
    fn renamed_ident(&self, way: Way, id: &Ident) -> Result<Ident, AllocError>
        ensures renamed { IfOk result (λ z. z ≡ renamed way self.now id.now) }
    {
        let run = Stretch::one(id.copy()?).into_run();
        let Stretch { first, .. } = self.renamed_front(way, &run)?;
        Ok(first)
    }

    // Of as much of a run as goes along as one.
    fn renamed_front(&self, way: Way, run: &Run) -> Result<Stretch, AllocError>
        ensures renamed { IfOk result (λ z. GoesAlong (renamed way self.now) run.now.0 run.now.1 z.first z.len) }
    {
        match way {
            Way::Forward => self.pairing.forward_front(run),
            Way::Back => self.pairing.back_front(run),
        }
    }

    // Of a whole run.
    fn renamed_run(&self, way: Way, run: &Run) -> Result<RunList, AllocError>
        ensures image { IfOk result (λ runs. IsImage (renamed way self.now) run.now runs) }
    {
        let front = self.renamed_front(way, run)?;
        let mut done = front.len;
        let mut image = Image::new(self.pairing.alloc, front);
        while done < run.len() {
            let rest = Stretch::behind(run, done)?.into_run();
            let front = self.renamed_front(way, &rest)?;
            done += front.len;
            image = image.with(front)?;
        }
        image.into_runs()
    }

    /// The same again.
    pub fn copy(&self) -> Result<Renaming, AllocError>
        ensures copy { IfOk result (λ renaming. renaming ≡ self.now) }
    {
        Ok(Renaming {
            pairing: self.pairing.copy()?,
        })
    }
}

// The pos of the first `At`.
fn first_pos(id: &Ident) -> u32
    ensures first_pos { result ≡ first_pos id.now }
{
    for i in 0..id.len() {
        if let Some(pos) = pos_of(id.tuple(i)) {
            return pos;
        }
    }
    0
}

// The pos of an `At`.
fn pos_of(tuple: Tuple) -> Option<u32>
    ensures some { IfSome result (λ pos. (rest : List Tuple) → first_pos (tuple ∷ rest) ≡ pos) }
    ensures none { IfNone result ((rest : List Tuple) → first_pos (tuple ∷ rest) ≡ first_pos rest) }
{
    match tuple {
        Tuple::At { pos, .. } => Some(pos),
        _ => None,
    }
}
