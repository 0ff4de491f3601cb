//! What stands on both sides of a place: one way down.
//! Why: CHOICES.md, 210.

ghost use Rattle.std.specs.Prelude.{◌≡◌, ◌≤◌, length, None, option_copied, option_map};
ghost use Rattle.std.specs.Option.{option_or};
ghost use Rattle.rls_blocks.specs.Trees.{entries_of};
ghost use Rattle.rls_blocks.specs.Edits.{located};
ghost use Rattle.rls_blocks.specs.Beside.{lent, first_place, last_place, located_before};

use super::Link;
use crate::block::Block;
use rls_ident::rely;

/// A block, and a place in it.
pub type Place<'a> = (&'a Block, u32);

impl Link {
    /// Where the character right before a place stands, and the one right after it: no character is before the first place, and none after
    /// the last. It costs a step for each level, and takes no memory.
    pub fn beside(&self, i: u64) -> (Option<Place<'_>>, Option<Place<'_>>)
        requires place { i ≤ length (entries_of self.now.blocks) }
        ensures before { lent result.0 ≡ located_before None self.now.blocks i }
        ensures behind { lent result.1 ≡ located self.now.blocks i }
    {
        let (mut link, mut i) = (self, i);
        let (mut before, mut after) = (None, None);
        while let Some(node) = link.node() {
            rely!(let _chars = node.chars);
            if i <= node.front {
                after = Some(&node.block);
                link = &node.left;
                continue;
            }
            if i < node.end {
                rely!(let _len = node.block.len());
                let at = (i - node.front) as u32;
                return (Some((&node.block, at - 1)), Some((&node.block, at)));
            }
            before = Some(&node.block);
            i -= node.end;
            link = &node.right;
        }
        (last_of(before), first_of(after))
    }
}

// The first place of a block, if there is one.
fn first_of(block: Option<&Block>) -> Option<Place<'_>>
    ensures first { lent result ≡ option_map first_place (option_copied block.entry) }
{
    Some((block?, 0))
}

// The last place of a block, if there is one.
fn last_of(block: Option<&Block>) -> Option<Place<'_>>
    ensures last { lent result ≡ option_map last_place (option_copied block.entry) }
{
    let block = block?;
    Some((block, block.len() - 1))
}
