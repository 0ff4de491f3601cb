//! Nodes that stand alone.

ghost use Rattle.std.specs.Prelude.{◌≡◌, ◌+◌, ◌-◌, ◌<◌, ◌≤◌, pos, [], ◌∷◌, length, IfOk, OnOk, OnErr, IsTrue};
ghost use Rattle.rls_ident.specs.Identifiers.{shifted};
ghost use Rattle.rls_blocks.specs.Trees.{IsPiece, entries_of};
ghost use Rattle.rls_blocks.specs.Edits.{part_of, grown, may_grow};

use super::{Link, Node};
use crate::block::Block;
use crate::side::Side;
use rls_ident::rely;
use rls_runs::{Run, Text};
use std::alloc::{AllocError, Global};
use std::marker::Model;

/// A node with no tree on either side, seen as its block. It keeps the node's memory, so that it takes none to put trees on its sides.
#[derive(Drop)]
pub(crate) struct Single {
    pub(super) node: Box<Node>,
}

impl Model for Single {
    ghost use Rattle.rls_blocks.specs.Trees.{Piece, IsAlone};

    ghost Value = { Piece };

    ghost view = { λ s. s.node.value.block };

    ghost invariant = { λ s. IsAlone s.node.value };
}

impl Single {
    /// A node of its own for a block.
    pub(crate) fn new(alloc: Global, block: Block) -> Result<Single, AllocError>
        ensures block { IfOk result (λ single. single ≡ block) }
        ensures piece { IfOk result (λ single. IsPiece single.0 single.1) }
    {
        rely!(let _len = block.len());
        let node = Box::new(alloc, Node::leaf(block))?;
        Ok(Single { node })
    }

    /// The tree of its block alone.
    pub(crate) fn alone(self) -> Link
        ensures blocks { result.blocks ≡ self ∷ [] }
        ensures chars { length (entries_of result.blocks) ≡ length self.1 }
        ensures height { result.height ≡ 1 }
    {
        Link::to(self.node)
    }

    /// The run of its block.
    pub(crate) fn run(&self) -> &Run
        ensures run { result.now ≡ self.now.0 }
        ensures piece { IsPiece self.now.0 self.now.1 }
    {
        self.node.run()
    }

    /// The characters of its block.
    pub(crate) fn text(&self) -> &Text
        ensures text { result.now ≡ self.now.1 }
        ensures piece { IsPiece self.now.0 self.now.1 }
    {
        self.node.text()
    }

    /// How many characters its block has.
    pub(crate) fn len(&self) -> u32
        ensures len { result ≡ length self.now.1 }
        ensures run { result ≡ self.now.0.1 }
        ensures piece { IsPiece self.now.0 self.now.1 }
    {
        self.node.len()
    }

    /// The block grows on a side by a run with which it touches there. It costs the run's characters.
    pub(crate) fn grow(&mut self, side: Side, run: &Run, text: &Text) -> Result<(), AllocError>
        requires as_many { length text.now ≡ run.now.1 }
        requires may { IsTrue (may_grow side (run.now, text.now) self.old) }
        ensures ok { OnOk result (self.new ≡ grown side (run.now, text.now) self.old) }
        ensures err { OnErr result (self.new ≡ self.old) }
    {
        let node: &mut Node = &mut self.node;
        let done = match side {
            Side::Front => node.block.extend_front(run, text),
            Side::Behind => node.block.extend(run, text),
        };
        set_numbers(&node.block, &mut node.end, &mut node.chars);
        done
    }

    /// The block keeps this many characters at its front.
    pub(crate) fn keep_front(&mut self, at: u32) -> Result<(), AllocError>
        requires some { 0 < at }
        requires within { at ≤ length self.old.1 }
        ensures ok { OnOk result (self.new ≡ part_of 0 at self.old) }
        ensures err { OnErr result (self.new ≡ self.old) }
    {
        let node: &mut Node = &mut self.node;
        node.block.keep_front(at);
        set_numbers(&node.block, &mut node.end, &mut node.chars);
        Ok(())
    }

    /// The block keeps the characters of the run, which is a part of its own from a place on. It takes no memory.
    pub(crate) fn keep(&mut self, at: u32, run: Run)
        requires run { run.0 ≡ shifted (pos at) self.old.0.0 }
        requires within { at + run.1 ≤ length self.old.1 }
        ensures part { self.new ≡ part_of at run.1 self.old }
    {
        let node: &mut Node = &mut self.node;
        node.block.keep(at, run);
        set_numbers(&node.block, &mut node.end, &mut node.chars);
    }

    /// The block keeps its characters from a place on.
    pub(crate) fn keep_back(&mut self, from: u32) -> Result<(), AllocError>
        requires some { from < length self.old.1 }
        ensures ok { OnOk result (self.new ≡ part_of from (self.old.0.1 - from) self.old) }
        ensures err { OnErr result (self.new ≡ self.old) }
    {
        let node: &mut Node = &mut self.node;
        let done = node.block.keep_back(from);
        set_numbers(&node.block, &mut node.end, &mut node.chars);
        done
    }
}

// The numbers of a node with no tree on either side, from its block.
fn set_numbers(block: &Block, end: &mut u64, chars: &mut u64)
    ensures end { end.new ≡ length block.now.1 }
    ensures chars { chars.new ≡ length block.now.1 }
    ensures piece { IsPiece block.now.0 block.now.1 }
{
    *end = block.len() as u64;
    *chars = *end;
}
