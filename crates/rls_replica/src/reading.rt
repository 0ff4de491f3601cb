//! What a replica tells of itself.
//! Why: CHOICES.md, 198.

ghost use Rattle.std.specs.Prelude.{◌≡◌, ℕ, List, ◌+◌, ◌-◌, ◌^◌, ◌<◌, ◌≤◌, length, take, drop, slice_get, Some, IfOk, encode_utf8_all};
ghost use Rattle.std.specs.String.{string_bytes};
ghost use Rattle.rls_ident.specs.declared.limits.TheConstants.{MEMBERS};
ghost use Rattle.rls_ops.specs.Rows.{left};
ghost use Rattle.rls_runs.specs.Places.{below_count};
ghost use Rattle.rls_runs.specs.Runs.{place_of};
ghost use Rattle.rls_blocks.specs.Trees.{entries_of};
ghost use Rattle.rls_model.specs.Document.{export, text, idents};
ghost use Rattle.rls_model.specs.Epochs.{greatest};
ghost use Rattle.rls_model.specs.History.{count, group_of, has_left, me_of, members_of};
ghost use Rattle.rls_model.specs.Receiving.{State};
ghost use Rattle.rls_seen.specs.Seen.{members, vector, greatest_over, idents_over, text_over};
ghost use Rattle.rls_seen.specs.Stands.{IsLog, StandsFor};

use crate::replica::Replica;
use rls_causal::Held;
use rls_doc::Document;
use rls_ident::{EpochName, Ident, Vector, rely};
use rls_log::Log;
use rls_runs::{Runs, Text};
use rls_tree::BlockTree;
use std::alloc::AllocError;

impl Replica {
    /// The group.
    pub fn group(&self) -> u64
        ensures group { result ≡ self.now.group }

        // For every history and waiting operations that the replica stands for.
        ensures stands { (t : State) → StandsFor self.now t → result ≡ group_of t.history }
    {
        self.group
    }

    /// The own number, which is below the count of members.
    pub fn me(&self) -> u32
        ensures me { result ≡ self.now.acks.me }
        ensures member { result < members self.now }

        // For every history and waiting operations that the replica stands for.
        ensures stands { (t : State) → StandsFor self.now t → result ≡ me_of t.history }
    {
        self.acks.me()
    }

    /// The count of members, 1 to 64.
    pub fn members(&self) -> u32
        ensures members { result ≡ members self.now }
        ensures some { 0 < result }
        ensures few { result ≤ MEMBERS }

        // For every history and waiting operations that the replica stands for.
        ensures stands { (t : State) → StandsFor self.now t → result ≡ members_of t.history }
    {
        self.acks.mine().len() as u32
    }

    /// How many operations of each member were accepted.
    pub fn vector(&self) -> &Vector
        ensures vector { result.now ≡ vector self.now }

        // For every history and waiting operations that the replica stands for.
        ensures stands { (t : State) → StandsFor self.now t → result.now ≡ count t.history }
    {
        self.acks.mine()
    }

    /// Whether a leave of the member was accepted.
    pub fn left(&self, member: u32) -> bool
        requires member { member < members self.now }
        ensures left { result ≡ left self.now.acks member }

        // For every history and waiting operations that the replica stands for.
        ensures stands { (t : State) → StandsFor self.now t → result ≡ has_left t.history member }
    {
        self.acks.left(member)
    }

    /// The greatest epoch, of which the identifiers of the text are. It takes no memory.
    pub fn greatest(&self) -> EpochName
        ensures greatest { result ≡ greatest_over self.now }

        // For every history and waiting operations that the replica stands for.
        ensures stands { (t : State) → StandsFor self.now t → result ≡ greatest t.history }
    {
        self.epochs.greatest()
    }

    /// The operations that wait.
    pub fn held(&self) -> &Held
        ensures held { result.now ≡ self.now.waiting }

        // For every history and waiting operations that the replica stands for.
        ensures stands { (t : State) → StandsFor self.now t → result.now ≡ t.waiting }
    {
        &self.held
    }

    /// The accepted operations that are kept, in order. There are none if this member has been the only one of its group since the replica
    /// was made, or since stable operations were last dropped.
    pub fn logged(&self) -> &Log
        ensures log { result.now ≡ self.now.log }

        // For every history and waiting operations that the replica stands for.
        ensures stands { (t : State) → StandsFor self.now t → (gone : List ℕ) × IsLog result.now t.history gone }
    {
        &self.log
    }

    /// The number of characters.
    pub fn total(&self) -> u64
        ensures total { result ≡ length self.now.text }
        ensures room { result < 2 ^ 64 - 1 }

        // For every history and waiting operations that the replica stands for.
        ensures stands { (t : State) → StandsFor self.now t → result ≡ length (text t.history) }
    {
        self.document.total()
    }

    /// All characters.
    pub fn text(&self) -> Result<Text, AllocError>
        ensures text { IfOk result (λ cs. cs ≡ text_over self.now) }

        // For every history and waiting operations that the replica stands for.
        ensures stands { IfOk result (λ cs. (t : State) → StandsFor self.now t → cs ≡ text t.history) }
    {
        let text = self.document.text()?;
        Ok(text)
    }

    /// All characters in UTF-8, with no list of them between. It costs their number and that of runs.
    pub fn utf8(&self) -> Result<String, AllocError>
        ensures utf8 { IfOk result (λ utf8. string_bytes utf8 ≡ encode_utf8_all (text_over self.now)) }

        // For every history and waiting operations that the replica stands for.
        ensures stands { IfOk result (λ utf8. (t : State) → StandsFor self.now t → string_bytes utf8 ≡ encode_utf8_all (text t.history)) }
    {
        let text = self.document.utf8()?;
        Ok(text)
    }

    /// The characters from the place `from` on, this many.
    pub fn text_of(&self, from: u64, count: u64) -> Result<Text, AllocError>
        requires places { from + count ≤ length self.now.text }
        ensures text { IfOk result (λ cs. cs ≡ take count (drop from (text_over self.now))) }

        // For every history and waiting operations that the replica stands for.
        ensures stands { IfOk result (λ cs. (t : State) → StandsFor self.now t → cs ≡ take count (drop from (text t.history))) }
    {
        rely!(let _total = self.document.total());
        let mut text = Text::new(self.alloc);
        'places: for i in from..from + count {
            text.push(self.document.char_at(i))?;
        }
        Ok(text)
    }

    /// The identifiers of the text.
    pub fn runs(&self) -> Result<Runs, AllocError>
        ensures runs { IfOk result (λ xs. xs ≡ idents_over self.now) }

        // For every history and waiting operations that the replica stands for.
        ensures stands { IfOk result (λ xs. (t : State) → StandsFor self.now t → xs ≡ idents t.history) }
    {
        let runs = self.document.runs_of(0, self.document.total())?;
        Ok(runs)
    }

    /// The identifier of the character at a place.
    pub fn ident_at(&self, i: u64) -> Result<Ident, AllocError>
        requires place { i < length self.now.text }
        ensures ident { IfOk result (λ x. slice_get (idents_over self.now) i ≡ Some x) }

        // For every history and waiting operations that the replica stands for.
        ensures stands { IfOk result (λ x. (t : State) → StandsFor self.now t → slice_get (idents t.history) i ≡ Some x) }
    {
        let id = self.document.ident_at(i)?;
        Ok(id)
    }

    /// The place of the character with this identifier of the greatest epoch, or, where there is none, the number of identifiers of
    /// the text below it. It takes no memory.
    pub fn find(&self, id: &Ident) -> Result<u64, u64>
        ensures place { result ≡ place_of id.now (idents_over self.now) }

        // For every history and waiting operations that the replica stands for.
        ensures stands { (t : State) → StandsFor self.now t → result ≡ place_of id.now (idents t.history) }
    {
        self.document.find(id)
    }

    /// How many identifiers of the text are below this one of the greatest epoch. It takes no memory, and costs what `find` does.
    pub fn count_below(&self, id: &Ident) -> u64
        ensures count { result ≡ below_count (idents_over self.now) id.now }
        ensures within { result ≤ length (idents_over self.now) }

        // For every history and waiting operations that the replica stands for.
        ensures stands { (t : State) → StandsFor self.now t → result ≡ below_count (idents t.history) id.now }
    {
        rely!(self.sane());
        match self.find(id) {
            Ok(count) | Err(count) => count,
        }
    }

    /// The tree in which the text is kept: its blocks are the maximal runs with their characters. It takes no memory.
    pub fn tree(&self) -> &BlockTree
        ensures text { entries_of result.now.blocks ≡ self.now.text }

        // For every history and waiting operations that the replica stands for.
        ensures stands { (t : State) → StandsFor self.now t → entries_of result.now.blocks ≡ export t.history }
    {
        &self.document
    }
}
