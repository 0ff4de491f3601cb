//! Images of runs: lists of runs of which none touches the one before it.

ghost use Rattle.std.specs.Prelude.{◌≡◌, ◌++◌, ◌∷◌, [], None, IfOk, IsTrue};
ghost use Rattle.rls_runs.specs.Runs.{run_idents, idents_of, are_apart};
ghost use Rattle.rls_runs.specs.Places.{last_ident, is_above};

use crate::stretch::Stretch;
use rls_ident::rely;
use rls_runs::RunList;
use std::alloc::{AllocError, Global};
use std::marker::Model;

/// Runs one above another, of which none touches the one before it. The last one may still grow.
#[derive(Drop)]
pub(crate) struct Image {
    runs: RunList,
    last: Stretch,
}

impl Model for Image {
    ghost use Rattle.std.specs.Prelude.{ℕ, List, [], ◌∷◌, ◌++◌, None, IsTrue};
    ghost use Rattle.rls_ident.specs.declared.tuple.Tuple.{Tuple};
    ghost use Rattle.rls_runs.specs.Runs.{are_apart};

    ghost Value = { List (List Tuple × ℕ) };

    ghost view = { λ a. a.runs ++ (a.last.first, a.last.len) ∷ [] };

    ghost invariant = { λ a. IsTrue (are_apart None (a.runs ++ (a.last.first, a.last.len) ∷ [])) };
}

impl Image {
    /// One run alone. It takes no memory.
    pub(crate) fn new(alloc: Global, last: Stretch) -> Image
        ensures image { result ≡ (last.first, last.len) ∷ [] }
    {
        Image {
            runs: RunList::new(alloc),
            last,
        }
    }

    /// These runs, and one more above the last identifier, which joins the last run where it touches it.
    pub(crate) fn with(self, next: Stretch) -> Result<Image, AllocError>
        requires above { IsTrue (is_above (last_ident (idents_of self)) next.first) }
        ensures image { IfOk result (λ image. idents_of image ≡ idents_of self ++ run_idents next.first next.len) }
    {
        let Image { mut runs, last } = self;
        rely!(let _last = last.first.last());
        if last.touches(&next) {
            return Ok(Image {
                runs,
                last: last.longer(next.len),
            });
        }
        runs.push(last.into_run())?;
        Ok(Image { runs, last: next })
    }

    /// The runs.
    pub(crate) fn into_runs(self) -> Result<RunList, AllocError>
        ensures runs { IfOk result (λ runs. runs ≡ self) }
        ensures apart { IsTrue (are_apart None self) }
    {
        let Image { mut runs, last } = self;
        runs.push(last.into_run())?;
        Ok(runs)
    }
}
