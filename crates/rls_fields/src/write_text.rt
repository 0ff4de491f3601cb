//! The text, written run by run.

ghost use Rattle.std.specs.Prelude.{◌≡◌, ◌<◌, ◌++◌, ◌-◌, ◌^◌, min, length, sum_by, All, OnOk};
ghost use Rattle.std.specs.List.{flat_map};
ghost use Rattle.rls_ops.specs.Spelling.{counted};
ghost use Rattle.rls_model.specs.Parts.{text_runs};
ghost use Rattle.rls_blocks.specs.Trees.{entries_of};
ghost use Rattle.rls_parts.specs.Blocks.{runs_with_texts};
ghost use Rattle.rls_fields.specs.Fields.{text_run_bytes};
ghost use Rattle.rls_fields.specs.FieldSizes.{text_run_size};
ghost use Rattle.rls_fields.specs.Written.{FitsChars};

use crate::sizes::text_run_len;
use rls_codec::{put_run, put_text, put_u32};
use rls_ident::rely;
use rls_runs::{Run, Text};
use rls_tree::{BlockTree, Node};
use std::alloc::AllocError;

// A run and its characters.
fn put_text_run(out: &mut Vec<u8>, run: &Run, text: &Text) -> Result<(), AllocError>
    requires small { text_run_size (record { run = run.now; text = text.now }) < 2 ^ 32 }
    ensures ok { OnOk result (out.new.items ≡ out.old.items ++ text_run_bytes (record { run = run.now; text = text.now })) }
    ensures fits { OnOk result (FitsChars (record { run = run.now; text = text.now })) }
{
    put_run(out, run)?;
    put_text(out, text)?;
    Ok(())
}

// The blocks of a node and of both its sides.
fn put_blocks(out: &mut Vec<u8>, node: &Node) -> Result<(), AllocError>
    requires small { sum_by text_run_size (runs_with_texts node.now.blocks) < 2 ^ 32 }
    ensures ok { OnOk result (out.new.items ≡ out.old.items ++ flat_map text_run_bytes (runs_with_texts node.now.blocks)) }
    ensures fits { OnOk result (All FitsChars (runs_with_texts node.now.blocks)) }
{
    let (run, text) = (node.run(), node.text());
    if let Some(left) = node.left() {
        put_blocks(out, left)?;
    }
    put_text_run(out, run, text)?;
    if let Some(right) = node.right() {
        put_blocks(out, right)?;
    }
    Ok(())
}

// How many blocks a node and both its sides have, or the greatest u64 where there are more.
fn block_count(node: &Node) -> u64
    ensures count { result ≡ min (length node.now.blocks) (2 ^ 64 - 1) }
{
    rely!(let _run = node.run());
    let left = match node.left() {
        None => 0,
        Some(left) => block_count(left),
    };
    let right = match node.right() {
        None => 0,
        Some(right) => block_count(right),
    };
    left.saturating_add(right).saturating_add(1)
}

// How many bytes these have, or the greatest u64 where there are more.
fn blocks_len(node: &Node) -> u64
    ensures size { result ≡ min (sum_by text_run_size (runs_with_texts node.now.blocks)) (2 ^ 64 - 1) }
{
    let own = text_run_len(node.run(), node.text());
    let left = match node.left() {
        None => 0,
        Some(left) => blocks_len(left),
    };
    let right = match node.right() {
        None => 0,
        Some(right) => blocks_len(right),
    };
    left.saturating_add(own).saturating_add(right)
}

/// The maximal runs with their characters, after their number.
pub fn put_text_runs(out: &mut Vec<u8>, tree: &BlockTree) -> Result<(), AllocError>
    requires small { sum_by text_run_size (text_runs (entries_of tree.now.blocks)) < 2 ^ 32 }
    ensures ok { OnOk result (out.new.items ≡ out.old.items ++ counted text_run_bytes (text_runs (entries_of tree.now.blocks))) }
    ensures fits { OnOk result (All FitsChars (text_runs (entries_of tree.now.blocks))) }
{
    let Some(root) = tree.root() else {
        return put_u32(out, 0);
    };
    put_u32(out, block_count(root) as u32)?;
    put_blocks(out, root)?;
    Ok(())
}

/// How many bytes these have without their number, or the greatest u64 where there are more.
pub fn tree_len(tree: &BlockTree) -> u64
    ensures size { result ≡ min (sum_by text_run_size (text_runs (entries_of tree.now.blocks))) (2 ^ 64 - 1) }
{
    match tree.root() {
        None => 0,
        Some(root) => blocks_len(root),
    }
}
