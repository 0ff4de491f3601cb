//! Lists of runs.

ghost use Rattle.std.specs.Prelude.{◌≡◌, ◌<◌, ◌++◌, ◌∷◌, [], OnOk, OnErr, length, slice_get, Some};

use crate::run::Run;
use std::alloc::{AllocError, Global};
use std::marker::Model;
use std::slice;

/// A list of runs in any order, which may touch or overlap. One run alone stands in the list itself and takes no other memory.
#[derive(Drop)]
pub struct RunList {
    // The only run, if it stands apart. The vector is empty then.
    one: Option<Run>,
    runs: Vec<Run>,
}

impl Model for RunList {
    ghost use Rattle.std.specs.Prelude.{List, ℕ};
    ghost use Rattle.rls_ident.specs.declared.tuple.Tuple.{Tuple};
    ghost use Rattle.std.specs.Prelude.{IsSome, ◌≡◌, []};
    ghost use Rattle.rls_runs.specs.Apart.{items_of};

    ghost Value = { List (List Tuple × ℕ) };

    ghost view = { λ a. items_of a.one a.runs.items };

    ghost invariant = { λ a. IsSome a.one → a.runs.items ≡ [] };
}

impl RunList {
    /// The empty list. It takes no memory.
    pub fn new(alloc: Global) -> RunList
        ensures empty { result ≡ [] }
    {
        RunList {
            one: None,
            runs: Vec::new(alloc),
        }
    }

    /// Puts a run after the last one.
    pub fn push(&mut self, run: Run) -> Result<(), AllocError>
        ensures ok { OnOk result (self.new ≡ self.old ++ run ∷ []) }
        ensures err { OnErr result (self.new ≡ self.old) }
    {
        if self.one.is_none() && self.runs.is_empty() {
            self.one = Some(run);
            return Ok(());
        }
        self.runs.reserve(2)?;
        if let Some(first) = self.one.take() {
            self.runs.push(first).unwrap();
        }
        self.runs.push(run)?;
        Ok(())
    }

    /// The number of runs.
    pub fn len(&self) -> usize
        ensures len { result ≡ length self.now }
    {
        match &self.one {
            Some(_) => 1,
            None => self.runs.len(),
        }
    }

    /// The run at a place.
    pub fn get(&self, i: usize) -> &Run
        requires place { i < length self.now }
        ensures run { slice_get self.now i ≡ Some result.now }
    {
        match &self.one {
            Some(run) => run,
            None => &self.runs[i],
        }
    }

    /// The runs.
    pub fn as_slice(&self) -> &[Run]
        ensures runs { result.now ≡ self.now }
    {
        match &self.one {
            Some(run) => slice::from_ref(run),
            None => &self.runs,
        }
    }
}
