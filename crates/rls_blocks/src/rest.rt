//! What stays of a block of which characters go at several places.

ghost use Rattle.std.specs.Prelude.{◌≡◌, ◌+◌, ◌^◌, ◌<◌, ◌≤◌, length, IfSome, IfOk};
ghost use Rattle.rls_blocks.specs.Trees.{entries_of};
ghost use Rattle.rls_blocks.specs.Edits.{located};
ghost use Rattle.rls_blocks.specs.Patches.{IsBetween};
ghost use Rattle.rls_blocks.specs.Rests.{parts_of, rest_of, rested, AreParts, IsRest};

use crate::balance::join;
use crate::block::Block;
use crate::build::tree_of;
use crate::node::Link;
use crate::patch::split_between;
use crate::side::Side;
use crate::split::{concat, end_out};
use rls_ident::rely;
use rls_runs::Run;
use std::alloc::{AllocError, Global};

/// Characters of a block that stand one right behind another.
#[derive(Clone, Copy)]
pub struct Part {
    /// The place in the block of the first of them.
    pub at: u32,
    /// How many there are.
    pub len: u32,
}

/// The parts of a block that stay: the longest one, which isn't copied, and copies of the others.
#[derive(Drop)]
pub struct Rest {
    /// The parts in front of the longest one, each as a block.
    pub front: Link,
    /// The place in the block of the first character of the longest part.
    pub at: u32,
    /// The identifiers of the longest part.
    pub run: Run,
    /// The parts behind it, each as a block.
    pub behind: Link,
}

impl Rest {
    /// These parts of a block. It costs the characters of all of them but the longest one, and a step for each.
    pub fn new(alloc: Global, block: &Block, parts: &[Part]) -> Result<Rest, AllocError>
        requires some { 0 < length parts.now }
        requires parts { AreParts 0 parts.now block.now.0.1 }
        ensures rest { IfOk result (λ rest. rest_of rest block.now ≡ parts_of parts.now block.now) }
        ensures is_rest { IfOk result (λ rest. IsRest rest block.now) }
    {
        rely!(let _len = block.len());
        let longest = longest_of(parts);
        let own = parts[longest];
        let front = copies(alloc, block, &parts[..longest])?;
        let behind = copies(alloc, block, &parts[longest + 1..])?;
        let run = block.run().part(own.at, own.len)?;
        Ok(Rest {
            front,
            at: own.at,
            run,
            behind,
        })
    }
}

// The place of the longest of some parts.
fn longest_of(parts: &[Part]) -> usize
    requires some { 0 < length parts.now }
    ensures within { result < length parts.now }
{
    let mut longest = 0;
    for i in 1..parts.len() {
        if parts[i].len > parts[longest].len {
            longest = i;
        }
    }
    longest
}

// These parts of a block, each as a block of its own. It costs their characters.
fn copies(alloc: Global, block: &Block, parts: &[Part]) -> Result<Link, AllocError>
    requires parts { AreParts 0 parts.now block.now.0.1 }
    ensures blocks { IfOk result (λ link. link.blocks ≡ parts_of parts.now block.now) }
{
    rely!(let _len = block.len());
    let mut blocks = Vec::with_capacity(alloc, parts.len())?;
    for part in parts {
        blocks.push(block.part(alloc, part.at, part.len)?)?;
    }
    tree_of(alloc, blocks)
}

/// The tree with the rest of a block in its place. It costs a few steps for each level, and the characters that go, and takes no
/// memory.
pub fn with_rest(link: Link, i: u64, rest: Rest) -> Link
    requires between { IsBetween i link.blocks }
    requires within { i < length (entries_of link.blocks) }
    requires is_rest { IfSome (located link.blocks i) (λ p. IsRest rest p.0) }
    requires chars_fit { length (entries_of (rested rest link.blocks i)) < 2 ^ 64 }
    ensures blocks { result.blocks ≡ rested rest link.blocks i }
{
    rely!(let _chars = link.chars());
    let (near, far) = split_between(link, i);
    let Some((mut own, far)) = end_out(far, Side::Front) else {
        unreachable!()
    };
    own.keep(rest.at, rest.run);
    rely!(let _own = own.len());
    join(concat(near, rest.front), own, concat(rest.behind, far))
}
