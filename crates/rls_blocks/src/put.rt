//! A run put in after a character, as a block of its own.

ghost use Rattle.std.specs.Prelude.{◌≡◌, ◌+◌, ◌^◌, ◌<◌, length, IfOk, IfErr};
ghost use Rattle.rls_blocks.specs.Trees.{entries_of};
ghost use Rattle.rls_blocks.specs.Edits.{put_among};

use crate::block::Block;
use crate::node::{Link, Single};
use rls_ident::rely;
use std::alloc::Global;

/// Puts a run and its characters in after the character at a place, as a block of its own. It costs a step for each level and the
/// run's characters, and if a block is cut in two there, the characters of the shorter part. If it finds no memory it answers the tree
/// as it was.
pub(crate) fn put_at(alloc: Global, link: Link, i: u64, piece: Block) -> Result<Link, Link>
    requires place { i < length (entries_of link.blocks) }
    requires chars_fit { length (entries_of link.blocks) + length piece.1 < 2 ^ 64 }
    ensures ok { IfOk result (λ new. new.blocks ≡ put_among piece link.blocks i) }
    ensures chars { IfOk result (λ new. length (entries_of new.blocks) ≡ length (entries_of link.blocks) + length piece.1) }
    ensures err { IfErr result (λ old. old.blocks ≡ link.blocks) }
{
    rely!(let _chars = link.chars());
    let mut link = link;
    let Ok(new) = Single::new(alloc, piece) else {
        return Err(link);
    };
    match link.put_after(alloc, i, new) {
        Ok(()) => Ok(link),
        Err(_) => Err(link),
    }
}
