//! Nodes of the tree.
//! Why: CHOICES.md, 53.

ghost use Rattle.std.specs.Prelude.{◌≡◌, ℕ, ◌+◌, ◌^◌, ◌<◌, ◌≤◌, max, [], ◌∷◌, ◌++◌, length, Some, None, IfSome, IfNone, OnOk, IsTrue, encode_utf8_all};
ghost use Rattle.std.specs.String.{string_bytes};
ghost use Rattle.rls_runs.specs.Runs.{idents_of};
ghost use Rattle.rls_runs.specs.Entries.{chars_in};
ghost use Rattle.rls_runs.specs.Places.{find_ident};
ghost use Rattle.rls_runs.specs.Fronts.{AboveFront, BelowFront};
ghost use Rattle.rls_runs.proofs.RunOrder.{Rising};
ghost use Rattle.rls_blocks.specs.Trees.{runs_in, IsLow, IsPiece, ArePieces, Tree, entries_of};
ghost use Rattle.rls_blocks.specs.Edits.{around, located};

mod beside;
mod in_place;
mod one_more;
mod opened;
mod single;

use crate::block::Block;
use crate::side::Side;
pub use beside::Place;
pub(crate) use opened::Opened;
use rls_ident::{Ident, rely};
use rls_runs::{Run, Text};
pub(crate) use single::Single;
use std::alloc::AllocError;
use std::marker::Model;

/// A balanced tree of blocks, which may be empty. In contracts it is its blocks in order, and how many levels it has.
#[cycle(tree)]
#[derive(Drop)]
pub struct Link {
    node: Option<Box<Node>>,
}

impl Model for Link {
    ghost use Rattle.std.specs.Prelude.{◌+◌, length};
    ghost use Rattle.rls_blocks.specs.Trees.{Tree, pieces, levels};

    ghost Value = { Tree };

    ghost view = { λ l. record { blocks = pieces l.node; height = levels l.node } };

    ghost size = { λ t. length t.blocks + length t.blocks + 1 };

    ghost use Rattle.std.proofs.Common.{arith};

    ghost size_decreases = { λ a h. Prim.grind (arith) };
}

/// A block between two trees, whose heights differ by at most one. It has the places of its own characters, so that a descent to
/// a place reads nothing but its path.
#[cycle(tree)]
#[derive(Drop)]
pub struct Node {
    left: Link,
    right: Link,
    front: u64,
    end: u64,
    chars: u64,
    blocks: u64,
    height: u32,
    block: Block,
}

impl Model for Node {
    ghost use Rattle.std.specs.Prelude.{◌+◌, ◌++◌, ◌∷◌, length};
    ghost use Rattle.rls_blocks.specs.Trees.{Seen, IsSound};

    ghost Value = { Seen };

    ghost view = { λ n. record { blocks = n.left.blocks ++ n.block ∷ n.right.blocks; height = n.height; left = n.left; block = n.block; right = n.right } };

    ghost invariant = { λ n. IsSound n.left n.right n.block n.front n.end n.chars n.blocks n.height };

    ghost size = { λ s. length s.blocks + length s.blocks };

    ghost use Rattle.std.proofs.Common.{arith, length-append};

    ghost size_decreases = { λ a h. Prim.grind (arith, length-append) };
}

impl Link {
    /// The empty tree. It takes no memory.
    pub fn empty() -> Link
        ensures empty { result ≡ record { blocks = []; height = 0 } }
    {
        Link { node: None }
    }

    /// The tree of a node.
    pub(crate) fn to(node: Box<Node>) -> Link
        ensures blocks { result.blocks ≡ node.value.blocks }
        ensures height { result.height ≡ node.value.height }
    {
        Link { node: Some(node) }
    }

    /// Its topmost node taken apart, if it isn't empty.
    pub(crate) fn open(self) -> Option<Opened>
        ensures blocks { IfSome result (λ opened. self.blocks ≡ opened.left.blocks ++ opened.own ∷ opened.right.blocks) }
        ensures chars { IfSome result (λ opened. length (entries_of self.blocks) ≡ opened.front + length opened.own.1 + opened.behind) }
        ensures chars_fit { IfSome result (λ opened. length (entries_of self.blocks) < 2 ^ 64) }
        ensures height { IfSome result (λ opened. self.height ≡ opened.height) }
        ensures empty { IfNone result (self ≡ record { blocks = []; height = 0 }) }
    {
        Some(Opened::of(self.node?))
    }

    /// The tree on a side of its topmost block, that block, and the tree on the other side, if it isn't empty.
    pub(crate) fn open_at(self, side: Side) -> Option<(Link, Single, Link)>
        ensures blocks { IfSome result (λ parts. self.blocks ≡ around side parts.0.blocks parts.1 parts.2.blocks) }
        ensures chars { IfSome result (λ parts. length (entries_of self.blocks) ≡ length (entries_of parts.0.blocks) + length parts.1.1 + length (entries_of parts.2.blocks)) }
        ensures height { IfSome result (λ parts. self.height ≡ max parts.0.height parts.2.height + 1) }
        ensures not_higher { IfSome result (λ parts. parts.0.height ≤ parts.2.height + 1) }
        ensures other_not_higher { IfSome result (λ parts. parts.2.height ≤ parts.0.height + 1) }
        ensures empty { IfNone result (self ≡ record { blocks = []; height = 0 }) }
    {
        let opened = self.open()?;
        match side {
            Side::Front => Some((opened.left, opened.own, opened.right)),
            Side::Behind => Some((opened.right, opened.own, opened.left)),
        }
    }

    /// The topmost node, if there is one.
    pub fn node(&self) -> Option<&Node>
        ensures blocks { IfSome result (λ node. node.now.blocks ≡ self.now.blocks) }
        ensures height { IfSome result (λ node. node.now.height ≡ self.now.height) }
        ensures empty { IfNone result (self.now ≡ record { blocks = []; height = 0 }) }
    {
        match &self.node {
            None => None,
            Some(node) => Some(&**node),
        }
    }

    /// How many levels it has.
    pub fn height(&self) -> u32
        ensures height { result ≡ self.now.height }
        ensures low { IsLow self.now.height (length self.now.blocks) }
        ensures small { result ≤ 128 }
    {
        match &self.node {
            None => 0,
            Some(node) => node.height(),
        }
    }

    /// How many characters it has.
    pub fn chars(&self) -> u64
        ensures chars { result ≡ length (entries_of self.now.blocks) }
        ensures most { length self.now.blocks ≤ result }
        ensures pieces { ArePieces self.now.blocks }
    {
        match &self.node {
            None => 0,
            Some(node) => node.chars(),
        }
    }

    /// How many blocks it has.
    pub fn blocks(&self) -> u64
        ensures blocks { result ≡ length self.now.blocks }
    {
        match &self.node {
            None => 0,
            Some(node) => node.blocks(),
        }
    }

    /// The block that has a place, and the place within the block. It costs a step for each level.
    pub fn locate(&self, i: u64) -> (&Block, u32)
        requires place { i < length (entries_of self.now.blocks) }
        ensures within { result.1 < length result.0.now.1 }
        ensures located { located self.now.blocks i ≡ Some (result.0.now, result.1) }
    {
        let Some(node) = self.node() else {
            unreachable!()
        };
        node.locate(i)
    }

    /// Puts the characters after those of a text. It costs their number. After an error some of them are there.
    #[cycle(push_text)]
    pub fn push_text(&self, text: &mut Text) -> Result<(), AllocError>
        ensures ok { OnOk result (text.new ≡ text.old ++ chars_in (entries_of self.now.blocks)) }
    {
        match self.node() {
            None => Ok(()),
            Some(node) => node.push_text(text),
        }
    }

    /// Puts the characters in UTF-8 after what a string has. It costs their number. After an error some of them are there.
    #[cycle(push_utf8)]
    pub fn push_utf8(&self, to: &mut String) -> Result<(), AllocError>
        ensures ok { OnOk result (string_bytes to.new ≡ string_bytes to.old ++ encode_utf8_all (chars_in (entries_of self.now.blocks))) }
    {
        match self.node() {
            None => Ok(()),
            Some(node) => node.push_utf8(to),
        }
    }
}

impl Node {
    /// The block alone.
    pub(crate) fn leaf(block: Block) -> Node
        ensures blocks { result.blocks ≡ block ∷ [] }
        ensures block { result.block ≡ block }
        ensures height { result.height ≡ 1 }
    {
        let len = block.len() as u64;
        Node {
            front: 0,
            end: len,
            chars: len,
            block,
            left: Link::empty(),
            right: Link::empty(),
            blocks: 1,
            height: 1,
        }
    }

    /// How many levels it has.
    pub fn height(&self) -> u32
        ensures height { result ≡ self.now.height }
        ensures low { IsLow self.now.height (length self.now.blocks) }
        ensures small { result ≤ 128 }
        ensures higher { self.now.height ≡ max self.now.left.height self.now.right.height + 1 }
        ensures left_not_higher { self.now.left.height ≤ self.now.right.height + 1 }
        ensures right_not_higher { self.now.right.height ≤ self.now.left.height + 1 }
    {
        rely!(let _chars = self.chars);
        self.height
    }

    /// How many characters it has.
    pub(crate) fn chars(&self) -> u64
        ensures chars { result ≡ length (entries_of self.now.blocks) }
        ensures most { length self.now.blocks ≤ result }
        ensures pieces { ArePieces self.now.blocks }
    {
        self.chars
    }

    /// How many blocks it has.
    pub(crate) fn blocks(&self) -> u64
        ensures blocks { result ≡ length self.now.blocks }
    {
        self.blocks
    }

    /// The run of its block.
    pub fn run(&self) -> &Run
        ensures run { result.now ≡ self.now.block.0 }
        ensures blocks { self.now.blocks ≡ self.now.left.blocks ++ self.now.block ∷ self.now.right.blocks }
        ensures piece { IsPiece self.now.block.0 self.now.block.1 }
    {
        self.block.run()
    }

    /// The characters of its block, one for each identifier of the run.
    pub fn text(&self) -> &Text
        ensures text { result.now ≡ self.now.block.1 }
        ensures blocks { self.now.blocks ≡ self.now.left.blocks ++ self.now.block ∷ self.now.right.blocks }
        ensures piece { IsPiece self.now.block.0 self.now.block.1 }
    {
        self.block.text()
    }

    /// The tree in front of its block, if it isn't empty.
    pub fn left(&self) -> Option<&Node>
        ensures blocks { IfSome result (λ node. node.now.blocks ≡ self.now.left.blocks) }
        ensures height { IfSome result (λ node. node.now.height ≡ self.now.left.height) }
        ensures empty { IfNone result (self.now.left ≡ record { blocks = []; height = 0 }) }
    {
        self.left.node()
    }

    /// The tree after its block, if it isn't empty.
    pub fn right(&self) -> Option<&Node>
        ensures blocks { IfSome result (λ node. node.now.blocks ≡ self.now.right.blocks) }
        ensures height { IfSome result (λ node. node.now.height ≡ self.now.right.height) }
        ensures empty { IfNone result (self.now.right ≡ record { blocks = []; height = 0 }) }
    {
        self.right.node()
    }

    // The block that has a place, and the place within the block.
    fn locate(&self, i: u64) -> (&Block, u32)
        requires place { i < length (entries_of self.now.blocks) }
        ensures within { result.1 < length result.0.now.1 }
        ensures located { located self.now.blocks i ≡ Some (result.0.now, result.1) }
    {
        rely!(let _chars = self.chars);
        if i < self.front {
            let Some(left) = self.left.node() else {
                unreachable!()
            };
            return left.locate(i);
        }
        if i < self.end {
            rely!(let _len = self.block.len());
            return (&self.block, (i - self.front) as u32);
        }
        let Some(right) = self.right.node() else {
            unreachable!()
        };
        right.locate(i - self.end)
    }

    /// The place of an identifier, or if it isn't there the number of identifiers less than it. It
    /// costs a comparison of identifiers for each level, but for the first tuples that it shares with the runs on both sides of the way.
    pub fn find(&self, id: &Ident) -> Result<u64, u64>
        requires rises { Rising (idents_of (runs_in self.now.blocks)) }
        ensures find { result ≡ find_ident (idents_of (runs_in self.now.blocks)) id.now }
    {
        self.find_within(id, 0, 0)
    }

    // The same of a tree whose identifiers stand between two runs. The last run in front of the tree shares its first `low` tuples
    // with the identifier, and the first run behind it shares `high`; so all between them share the fewer of these.
    fn find_within(&self, id: &Ident, low: usize, high: usize) -> Result<u64, u64>
        requires rises { Rising (idents_of (runs_in self.now.blocks)) }
        requires low { AboveFront low id.now (idents_of (runs_in self.now.blocks)) }
        requires high { BelowFront high id.now (idents_of (runs_in self.now.blocks)) }
        ensures find { result ≡ find_ident (idents_of (runs_in self.now.blocks)) id.now }
    {
        rely!(let _chars = self.chars);
        let (found, shared) = self.block.run().find_from(id, low.min(high));
        let below = match found {
            Ok(place) => return Ok(self.front + place as u64),
            Err(below) => below,
        };
        if below == 0 {
            let Some(left) = self.left.node() else {
                return Err(0);
            };
            return left.find_within(id, low, shared);
        }
        if below < self.block.len() {
            return Err(self.front + below as u64);
        }
        let Some(right) = self.right.node() else {
            return Err(self.end);
        };
        match right.find_within(id, shared, high) {
            Ok(place) => Ok(self.end + place),
            Err(below) => Err(self.end + below),
        }
    }

    // Puts its characters after those of a text. It costs their number.
    #[cycle(push_text)]
    pub(crate) fn push_text(&self, text: &mut Text) -> Result<(), AllocError>
        ensures ok { OnOk result (text.new ≡ text.old ++ chars_in (entries_of self.now.blocks)) }
    {
        self.left.push_text(text)?;
        text.append(self.block.text())?;
        self.right.push_text(text)?;
        Ok(())
    }

    // Puts its characters in UTF-8 after what a string has. It costs their number.
    #[cycle(push_utf8)]
    pub(crate) fn push_utf8(&self, to: &mut String) -> Result<(), AllocError>
        ensures ok { OnOk result (string_bytes to.new ≡ string_bytes to.old ++ encode_utf8_all (chars_in (entries_of self.now.blocks))) }
    {
        self.left.push_utf8(to)?;
        self.block.text().push_utf8(to)?;
        self.right.push_utf8(to)?;
        Ok(())
    }

    // How many characters its own block has.
    fn len(&self) -> u32
        ensures len { result ≡ length self.now.block.1 }
        ensures run { result ≡ self.now.block.0.1 }
        ensures piece { IsPiece self.now.block.0 self.now.block.1 }
    {
        self.block.len()
    }
}
