//! The text as parts.

ghost use Rattle.std.specs.Prelude.{◌≡◌, ◌++◌, IfOk, OnOk};
ghost use Rattle.rls_model.specs.Parts.{text_runs};
ghost use Rattle.rls_blocks.specs.Trees.{entries_of};
ghost use Rattle.rls_parts.specs.Blocks.{runs_with_texts};

use rls_model::{TextRun, TextRuns};
use rls_tree::{BlockTree, Node};
use std::alloc::{AllocError, Global};

/// The maximal runs of a text with their characters.
pub fn text_runs(alloc: Global, tree: &BlockTree) -> Result<TextRuns, AllocError>
    ensures runs { IfOk result (λ runs. runs ≡ text_runs (entries_of tree.now.blocks)) }
{
    let mut runs = TextRuns::new(alloc);
    let Some(root) = tree.root() else {
        return Ok(runs);
    };
    push_blocks(root, &mut runs)?;
    Ok(runs)
}

// Puts the blocks of a node and of both its sides after others.
fn push_blocks(node: &Node, runs: &mut TextRuns) -> Result<(), AllocError>
    ensures ok { OnOk result (runs.new ≡ runs.old ++ runs_with_texts node.now.blocks) }
{
    let (run, text) = (node.run(), node.text());
    if let Some(left) = node.left() {
        push_blocks(left, runs)?;
    }
    runs.push(TextRun {
        run: run.copy()?,
        text: text.copy()?,
    })?;
    if let Some(right) = node.right() {
        push_blocks(right, runs)?;
    }
    Ok(())
}
