//! Trees of blocks that stand in order already.

ghost use Rattle.std.specs.Prelude.{◌≡◌, ◌<◌, ◌≤◌, ◌^◌, ◌++◌, length, IfOk};
ghost use Rattle.rls_blocks.specs.Trees.{ArePieces, entries_of};

use crate::balance::join;
use crate::block::Block;
use crate::node::{Link, Single};
use rls_ident::rely;
use std::alloc::{AllocError, Global};

/// The tree of these blocks. It costs a step for each, and takes memory for as many nodes; it moves no character.
pub fn tree_of(alloc: Global, blocks: Vec<Block>) -> Result<Link, AllocError>
    requires chars_fit { length (entries_of blocks.items) < 2 ^ 64 }
    ensures blocks { IfOk result (λ link. link.blocks ≡ blocks.items) }
    ensures pieces { IfOk result (λ link. ArePieces link.blocks) }
{
    let mut blocks = blocks;
    let count = blocks.len();
    let link = tree_of_last(alloc, &mut blocks, count)?;
    rely!(let _chars = link.chars());
    Ok(link)
}

// Takes this many blocks from the end, and makes a tree of them. After an error some of them are gone.
#[tactic(auto, using(crate::proofs::Pieces::chars_append))]
fn tree_of_last(alloc: Global, blocks: &mut Vec<Block>, count: usize) -> Result<Link, AllocError>
    requires within { count ≤ length blocks.old.items }
    requires chars_fit { length (entries_of blocks.old.items) < 2 ^ 64 }
    ensures blocks { IfOk result (λ link. blocks.old.items ≡ blocks.new.items ++ link.blocks) }
    ensures count { IfOk result (λ link. length link.blocks ≡ count) }
{
    if count == 0 {
        return Ok(Link::empty());
    }
    let behind = count / 2;
    let right = tree_of_last(alloc, blocks, behind)?;
    let Some(block) = blocks.pop() else {
        unreachable!()
    };
    let node = Single::new(alloc, block)?;
    let left = tree_of_last(alloc, blocks, count - 1 - behind)?;
    Ok(join(left, node, right))
}
