//! Blocks.

ghost use Rattle.std.specs.Prelude.{◌≡◌, ◌+◌, ◌-◌, ◌<◌, ◌≤◌, pos, length, take, drop, IsTrue, IfOk, OnOk, OnErr};
ghost use Rattle.rls_ident.specs.Identifiers.{shifted, follows};
ghost use Rattle.rls_runs.specs.Runs.{is_run, run_last};
ghost use Rattle.rls_blocks.specs.Trees.{IsPiece};
ghost use Rattle.rls_blocks.specs.Edits.{part_of, joined, lengthened, lengthened_front};

use rls_ident::{Ident, rely};
use rls_runs::{Run, RunError, Text};
use std::alloc::{AllocError, Global};
use std::marker::Model;

/// A run with a character for each of its identifiers, seen as the pair of both.
pub struct Block {
    run: Run,
    text: Text,
}

impl Model for Block {
    ghost use Rattle.rls_blocks.specs.Trees.{Piece, IsPiece};

    ghost Value = { Piece };

    ghost view = { λ b. (b.run, b.text) };

    ghost invariant = { λ b. IsPiece b.run b.text };
}

// Written out, and not derived, so that the proof of a caller sees one call and not the drop of each field.
impl Drop for Block {
    fn drop(self) {
        let Block {
            run: _run,
            text: _text,
        } = self;
    }
}

impl Block {
    /// The block of this run and this text. It takes no memory.
    pub fn new(run: Run, text: Text) -> Block
        requires as_many { length text ≡ run.1 }
        ensures block { result ≡ (run, text) }
    {
        rely!(let _len = run.len());
        Block { run, text }
    }

    /// The run.
    pub fn run(&self) -> &Run
        ensures run { result.now ≡ self.now.0 }
        ensures piece { IsPiece self.now.0 self.now.1 }
    {
        &self.run
    }

    /// The characters.
    pub fn text(&self) -> &Text
        ensures text { result.now ≡ self.now.1 }
        ensures piece { IsPiece self.now.0 self.now.1 }
    {
        &self.text
    }

    /// How many characters there are.
    pub fn len(&self) -> u32
        ensures len { result ≡ length self.now.1 }
        ensures piece { IsPiece self.now.0 self.now.1 }
    {
        self.run.len()
    }

    /// The same again.
    pub fn copy(&self) -> Result<Block, AllocError>
        ensures copy { IfOk result (λ block. block ≡ self.now) }
    {
        Ok(Block {
            run: self.run.copy()?,
            text: self.text.copy()?,
        })
    }

    // The run and the characters.
    pub(crate) fn into_parts(self) -> (Run, Text)
        ensures parts { (result.0, result.1) ≡ self }
        ensures piece { IsPiece self.0 self.1 }
    {
        let Block { run, text } = self;
        (run, text)
    }

    // The block of these characters, with the identifiers from this one on. It copies both.
    pub(crate) fn of_text(first: &Ident, text: &Text) -> Result<Block, AllocError>
        requires piece { IsPiece (first.now, length text.now) text.now }
        ensures block { IfOk result (λ block. block ≡ ((first.now, length text.now), text.now)) }
    {
        let len = text.len() as u32;
        match Run::new(first.copy()?, len) {
            Ok(run) => Ok(Block::new(run, text.copy()?)),
            Err(RunError::Empty) => unreachable!(),
            Err(RunError::OffsetEnd) => unreachable!(),
        }
    }

    // Grows at its end by these characters, with the identifiers that go on with its last one. It costs their number.
    pub(crate) fn lengthen(&mut self, text: &Text) -> Result<(), AllocError>
        requires fits { IsTrue (is_run (self.old.0.0, self.old.0.1 + length text.now)) }
        ensures ok { OnOk result (self.new ≡ lengthened text.now self.old) }
        ensures err { OnErr result (self.new ≡ self.old) }
    {
        let more = text.len() as u32;
        self.text.append(text)?;
        self.run.grow(more);
        Ok(())
    }

    // Grows at its end by a run that goes on with its own, and the run's characters. It costs their number.
    pub(crate) fn extend(&mut self, run: &Run, text: &Text) -> Result<(), AllocError>
        requires as_many { length text.now ≡ run.now.1 }
        requires touches { IsTrue (follows run.now.0 (run_last self.old.0)) }
        ensures ok { OnOk result (self.new ≡ joined self.old (run.now, text.now)) }
        ensures err { OnErr result (self.new ≡ self.old) }
    {
        rely!(let _more = run.len());
        rely!(let _len = self.len());
        self.lengthen(text)
    }

    // Grows at its front by these characters, with the identifiers that come right before its first one. It costs their number.
    pub(crate) fn lengthen_front(&mut self, text: &Text) -> Result<(), AllocError>
        requires fits { IsTrue (is_run (lengthened_front text.now self.old).0) }
        ensures ok { OnOk result (self.new ≡ lengthened_front text.now self.old) }
        ensures err { OnErr result (self.new ≡ self.old) }
    {
        let more = text.len() as u32;
        self.text.prepend(text)?;
        self.run.grow_front(more);
        Ok(())
    }

    // Grows at its front by a run with which its own goes on, and the run's characters. It costs their number.
    pub(crate) fn extend_front(&mut self, run: &Run, text: &Text) -> Result<(), AllocError>
        requires as_many { length text.now ≡ run.now.1 }
        requires touches { IsTrue (follows self.old.0.0 (run_last run.now)) }
        ensures ok { OnOk result (self.new ≡ joined (run.now, text.now) self.old) }
        ensures err { OnErr result (self.new ≡ self.old) }
    {
        rely!(let _more = run.len());
        rely!(let _len = self.len());
        self.lengthen_front(text)
    }

    // This many of its characters from a place on, as a block. It costs their number.
    pub(crate) fn part(&self, alloc: Global, at: u32, len: u32) -> Result<Block, AllocError>
        requires some { 0 < len }
        requires within { at + len ≤ self.now.0.1 }
        ensures part { IfOk result (λ part. part ≡ part_of at len self.now) }
    {
        rely!(let _len = self.len());
        let run = self.run.part(at, len)?;
        let text = part_of_text(alloc, &self.text, at as usize, len as usize)?;
        Ok(Block::new(run, text))
    }

    // Keeps this many characters at its front. It takes no memory.
    #[tactic(auto, using(rls_ident::proofs::Shifted::shifted_none))]
    pub(crate) fn keep_front(&mut self, at: u32)
        requires some { 0 < at }
        requires within { at ≤ self.old.0.1 }
        ensures front { self.new ≡ part_of 0 at self.old }
    {
        self.text.truncate(at as usize);
        self.run.shorten(at);
    }

    // Keeps its characters from a place on.
    pub(crate) fn keep_back(&mut self, from: u32) -> Result<(), AllocError>
        requires some { from < self.old.0.1 }
        ensures ok { OnOk result (self.new ≡ part_of from (self.old.0.1 - from) self.old) }
        ensures err { OnErr result (self.new ≡ self.old) }
    {
        let run = self.run.part(from, self.run.len() - from)?;
        self.keep(from, run);
        Ok(())
    }

    // Keeps the characters of the run, which is a part of its own from a place on. It costs the characters that go, and takes no
    // memory.
    pub(crate) fn keep(&mut self, at: u32, run: Run)
        requires run { run.0 ≡ shifted (pos at) self.old.0.0 }
        requires within { at + run.1 ≤ self.old.0.1 }
        ensures part { self.new ≡ part_of at run.1 self.old }
    {
        self.text.drop_front(at as usize);
        self.text.truncate(run.len() as usize);
        self.run = run;
    }
}

/// A part of a text: this many characters from a place on. It costs their number.
pub fn part_of_text(alloc: Global, text: &Text, from: usize, len: usize) -> Result<Text, AllocError>
    requires within { from + len ≤ length text.now }
    ensures part { IfOk result (λ part. part ≡ take len (drop from text.now)) }
{
    rely!(let _len = text.len());
    let (front, back) = text.as_slices();
    let end = from + len;
    let (front_from, front_end) = (from.min(front.len()), end.min(front.len()));
    let (back_from, back_end) = (from - front_from, end - front_end);
    let mut part = Vec::with_capacity(alloc, len)?;
    part.extend_from_slice(&front[front_from..front_end])?;
    part.extend_from_slice(&back[back_from..back_end])?;
    Ok(Text::from_vec(part))
}
