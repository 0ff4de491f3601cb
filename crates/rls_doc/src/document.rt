//! What a document does, as its callers see it.

ghost use Rattle.std.specs.Prelude.{◌≡◌, ◌+◌, ◌<◌, ◌≤◌, ◌^◌, ℕ, List, length, take, drop, zip, slice_get, Some, IfOk, OnOk, OnErr, IsTrue};
ghost use Rattle.rls_ident.specs.declared.tuple.Tuple.{Tuple};
ghost use Rattle.rls_runs.specs.Runs.{runs_of, idents_of, is_increasing, place_of, IsImage};
ghost use Rattle.rls_runs.specs.Entries.{Entries, idents_in, chars_in, put_all, without_all, with_idents};
ghost use Rattle.rls_doc.specs.Documents.{AreNew, KeepsOrder};

use rls_ident::Ident;
use rls_runs::{Run, RunList, Runs, Text};
use std::alloc::{AllocError, Global};

/// A strictly increasing map of identifiers, which works on whole runs.
pub trait RunMap {
    /// The identifier that takes the place of this one.
    ghost image: { Self → List Tuple → List Tuple };

    /// Runs whose identifiers, in order, are those that take the place of the run's. No run of the answer touches the one before
    /// it.
    fn map(&self, alloc: Global, run: &Run) -> Result<RunList, AllocError>
        ensures map { IfOk result (λ runs. IsImage (image self.now) run.now runs) };

    /// The map keeps the order of identifiers.
    ghost keeps_order: { (m : Self) → KeepsOrder (image m) };
}

/// Characters with identifiers that strictly increase. After any error a document is as before.
pub trait Document {
    /// The characters with their identifiers, in order.
    ghost entries: { Self → Entries };

    /// The identifiers strictly increase. It does nothing.
    fn rises(&self)
        ensures rises { IsTrue (is_increasing (idents_in (entries self.now))) };

    /// The number of characters.
    fn total(&self) -> u64
        ensures total { result ≡ length (entries self.now) };

    /// The number of maximal runs.
    fn run_count(&self) -> u64
        ensures runs { result ≡ length (runs_of (idents_in (entries self.now))) };

    /// The character at a place.
    fn char_at(&self, i: u64) -> char
        requires place { i < length (entries self.now) }
        ensures char { slice_get (chars_in (entries self.now)) i ≡ Some result };

    /// The identifier at a place.
    fn ident_at(&self, i: u64) -> Result<Ident, AllocError>
        requires place { i < length (entries self.now) }
        ensures ident { IfOk result (λ x. slice_get (idents_in (entries self.now)) i ≡ Some x) };

    /// The identifier's place, or, where it isn't there, the number of identifiers below it.
    fn find(&self, id: &Ident) -> Result<u64, u64>
        ensures place { result ≡ place_of id.now (idents_in (entries self.now)) };

    /// Adds the characters of a text with the identifiers of these runs, in order.
    fn insert_runs(&mut self, runs: &RunList, text: &Text) -> Result<(), AllocError>
        requires rises { IsTrue (is_increasing (idents_of runs.now)) }
        requires as_many { length (idents_of runs.now) ≡ length text.now }
        requires some { 0 < length text.now }
        requires new { AreNew (idents_of runs.now) (idents_in (entries self.old)) }
        requires room { length (entries self.old) + length text.now < 2 ^ 64 }
        ensures ok { OnOk result (entries self.new ≡ put_all (zip (idents_of runs.now) text.now) (entries self.old)) }
        ensures err { OnErr result (entries self.new ≡ entries self.old) };

    /// Removes the characters with these identifiers, where they are there, and answers how many it removed.
    fn remove_all(&mut self, targets: &Runs) -> Result<u64, AllocError>
        ensures ok { OnOk result (entries self.new ≡ without_all targets.now (entries self.old)) }
        ensures removed { IfOk result (λ n. n + length (entries self.new) ≡ length (entries self.old)) }
        ensures err { OnErr result (entries self.new ≡ entries self.old) };

    /// The identifiers of `count` characters from the place `from` on.
    fn runs_of(&self, from: u64, count: u64) -> Result<Runs, AllocError>
        requires places { from + count ≤ length (entries self.now) }
        ensures runs { IfOk result (λ xs. xs ≡ take count (drop from (idents_in (entries self.now)))) };

    /// All characters.
    fn text(&self) -> Result<Text, AllocError>
        ensures text { IfOk result (λ cs. cs ≡ chars_in (entries self.now)) };

    /// Gives each character the identifier that takes the place of its own.
    fn map_runs<F: RunMap>(&mut self, map: &F) -> Result<(), AllocError>
        ensures ok { OnOk result (entries self.new ≡ with_idents (F.image map.now) (entries self.old)) }
        ensures err { OnErr result (entries self.new ≡ entries self.old) };
}
