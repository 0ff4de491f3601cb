//! One more run in a tree.

ghost use Rattle.std.specs.Prelude.{◌≡◌, ◌+◌, ◌-◌, ◌^◌, ◌<◌, ◌≤◌, ◌++◌, length, Some, None, IfOk, IfErr, OnOk, OnErr, IsTrue, false};
ghost use Rattle.rls_ident.specs.Identifiers.{follows};
ghost use Rattle.rls_runs.specs.Runs.{run_before, run_last, is_run, is_increasing};
ghost use Rattle.rls_runs.specs.Entries.{idents_in};
ghost use Rattle.rls_blocks.specs.Trees.{piece_entries, entries_of, runs_in, IsPiece};
ghost use Rattle.rls_blocks.specs.Edits.{joined, goes_on, leads_to, are_loose, inserted, located, begins_with, ends_with, Shows};
ghost use Rattle.rls_blocks.specs.Beside.{lent, located_before};

use crate::balance::join;
use crate::block::Block;
use crate::change::Change;
use crate::node::{Link, Place, Single};
use crate::put::put_at;
use crate::side::Side;
use crate::split::{Halves, end_out, split};
use rls_ident::{Ident, rely};
use rls_runs::{Run, Text};
use std::alloc::{AllocError, Global};

/// Puts characters in at a place, with the identifiers from this one on. It costs a step for each level and the characters;
/// if a block is cut in two there, the characters of the shorter part, and if two blocks are joined, those of the shorter one.
/// Where it only makes one block longer, at its end or at its front, no node is made or taken apart and the identifier isn't copied. It
/// answers the new tree.
///
/// # Errors
///
/// The tree with the blocks that it had, if there is no memory.
pub fn insert_at(
    alloc: Global,
    link: Link,
    i: u64,
    first: &Ident,
    text: &Text,
) -> Result<Link, Link>
    requires place { i ≤ length (entries_of link.blocks) }
    requires piece { IsPiece (first.now, length text.now) text.now }
    requires chars_fit { length (entries_of link.blocks) + length text.now < 2 ^ 64 }
    requires loose { IsTrue (are_loose None (runs_in link.blocks)) }
    requires rises { IsTrue (is_increasing (idents_in (inserted i (piece_entries ((first.now, length text.now), text.now)) (entries_of link.blocks)))) }
    ensures ok { IfOk result (λ new. Shows (inserted i (piece_entries ((first.now, length text.now), text.now)) (entries_of link.blocks)) new.blocks) }
    ensures err { IfErr result (λ old. old.blocks ≡ link.blocks) }
{
    rely!(let _chars = link.chars());
    let len = text.len() as u32;
    let (before, after) = link.beside(i);
    let ends = ends_with(before, first);
    if begins_with(after, first, len) {
        if ends {
            return fill_between(link, i, first, text);
        }
        return link.with_change(i, Change::GrowFront(text));
    }
    if ends {
        return link.with_change(i - 1, Change::GrowBehind(text));
    }
    put_alone(alloc, link, i, first, text)
}

// Whether a place is the last one of its block, and the identifier goes on with that.
fn ends_with(place: Option<Place<'_>>, first: &Ident) -> bool
    ensures ends { result ≡ ends_with (lent place.entry) first.now }
{
    let Some((block, at)) = place else {
        return false;
    };
    at == block.len() - 1 && block.run().touches(first)
}

// Whether a place is the first one of its block, and that goes on with this many identifiers from this one on.
fn begins_with(place: Option<Place<'_>>, first: &Ident, len: u32) -> bool
    requires run { IsTrue (is_run (first.now, len)) }
    ensures begins { result ≡ begins_with (lent place.entry) (first.now, len) }
{
    let Some((block, at)) = place else {
        return false;
    };
    at == 0 && block.run().first().follows_by(first, len)
}

// As a block of its own, where it touches neither the block before it nor the one after it.
fn put_alone(alloc: Global, link: Link, i: u64, first: &Ident, text: &Text) -> Result<Link, Link>
    requires place { i ≤ length (entries_of link.blocks) }
    requires piece { IsPiece (first.now, length text.now) text.now }
    requires chars_fit { length (entries_of link.blocks) + length text.now < 2 ^ 64 }
    requires loose { IsTrue (are_loose None (runs_in link.blocks)) }
    requires ends { ends_with (located_before None link.blocks i) first.now ≡ false }
    requires begins { begins_with (located link.blocks i) (first.now, length text.now) ≡ false }
    requires rises { IsTrue (is_increasing (idents_in (inserted i (piece_entries ((first.now, length text.now), text.now)) (entries_of link.blocks)))) }
    ensures ok { IfOk result (λ new. Shows (inserted i (piece_entries ((first.now, length text.now), text.now)) (entries_of link.blocks)) new.blocks) }
    ensures err { IfErr result (λ old. old.blocks ≡ link.blocks) }
{
    rely!(let _chars = link.chars());
    let Ok(piece) = Block::of_text(first, text) else {
        return Err(link);
    };
    if i > 0 {
        return put_at(alloc, link, i - 1, piece);
    }
    match Single::new(alloc, piece) {
        Ok(new) => Ok(join(Link::empty(), new, link)),
        Err(_) => Err(link),
    }
}

// Between two blocks that it joins.
fn fill_between(link: Link, i: u64, first: &Ident, text: &Text) -> Result<Link, Link>
    requires place { i ≤ length (entries_of link.blocks) }
    requires piece { IsPiece (first.now, length text.now) text.now }
    requires chars_fit { length (entries_of link.blocks) + length text.now < 2 ^ 64 }
    requires loose { IsTrue (are_loose None (runs_in link.blocks)) }
    requires ends { IsTrue (ends_with (located_before None link.blocks i) first.now) }
    requires begins { IsTrue (begins_with (located link.blocks i) (first.now, length text.now)) }
    ensures ok { IfOk result (λ new. Shows (inserted i (piece_entries ((first.now, length text.now), text.now)) (entries_of link.blocks)) new.blocks) }
    ensures err { IfErr result (λ old. old.blocks ≡ link.blocks) }
{
    rely!(let _chars = link.chars());
    let Ok(piece) = Block::of_text(first, text) else {
        return Err(link);
    };
    let (run, text) = piece.into_parts();
    match split(link, i) {
        Halves::Between(front, behind) => fill_gap(front, behind, run, text),
        Halves::Within(_, _, _, _) => unreachable!(),
    }
}

// Between the last run and the first one, which it joins.
fn fill_gap(front: Link, behind: Link, run: Run, text: Text) -> Result<Link, Link>
    requires as_many { length text ≡ run.1 }
    requires chars_fit { length (entries_of front.blocks) + length (entries_of behind.blocks) + length text < 2 ^ 64 }
    requires loose { IsTrue (are_loose None (runs_in (front.blocks ++ behind.blocks))) }
    requires ends { IsTrue (goes_on (run_before None (runs_in front.blocks)) run.0) }
    requires begins { IsTrue (leads_to (Some run) (runs_in behind.blocks)) }
    ensures ok { IfOk result (λ new. Shows (entries_of front.blocks ++ piece_entries (run, text) ++ entries_of behind.blocks) new.blocks) }
    ensures err { IfErr result (λ old. old.blocks ≡ front.blocks ++ behind.blocks) }
{
    let Some((last, rest)) = end_out(front, Side::Behind) else {
        unreachable!()
    };
    let Some((first, far)) = end_out(behind, Side::Front) else {
        unreachable!()
    };
    rely!(let _last = last.len());
    rely!(let _first = first.len());
    rely!(let _run = run.len());
    match fill(last, run, text, first) {
        Ok(both) => Ok(join(rest, both, far)),
        Err((last, first)) => Err(join(rest, last, join(Link::empty(), first, far))),
    }
}

// Two blocks, and a run between them that joins them, as one. It costs the run's characters and those of the shorter block.
fn fill(
    mut last: Single,
    run: Run,
    text: Text,
    mut first: Single,
) -> Result<Single, (Single, Single)>
    requires as_many { length text ≡ run.1 }
    requires ends { IsTrue (follows run.0 (run_last last.0)) }
    requires begins { IsTrue (follows first.0.0 (run_last run)) }
    ensures ok { IfOk result (λ both. both ≡ joined last (joined (run, text) first)) }
    ensures err { IfErr result (λ both. (both.0 ≡ last) × (both.1 ≡ first)) }
{
    rely!(let _run = run.len());
    let middle = Block::new(run, text);
    if first.len() <= last.len() {
        return match fill_behind(&mut last, middle, &first) {
            Ok(()) => Ok(last),
            Err(_) => Err((last, first)),
        };
    }
    match fill_front(&last, middle, &mut first) {
        Ok(()) => Ok(first),
        Err(_) => Err((last, first)),
    }
}

// A block grows by the block after it, and by the block after that.
fn fill_behind(last: &mut Single, middle: Block, first: &Single) -> Result<(), AllocError>
    requires ends { IsTrue (follows middle.0.0 (run_last last.old.0)) }
    requires begins { IsTrue (follows first.now.0.0 (run_last middle.0)) }
    ensures ok { OnOk result (last.new ≡ joined last.old (joined middle first.now)) }
    ensures err { OnErr result (last.new ≡ last.old) }
{
    let (run, text) = with_next(middle, first)?;
    last.grow(Side::Behind, &run, &text)
}

// A block grows by the block in front of it, and by the block in front of that.
fn fill_front(last: &Single, middle: Block, first: &mut Single) -> Result<(), AllocError>
    requires ends { IsTrue (follows middle.0.0 (run_last last.now.0)) }
    requires begins { IsTrue (follows first.old.0.0 (run_last middle.0)) }
    ensures ok { OnOk result (first.new ≡ joined last.now (joined middle first.old)) }
    ensures err { OnErr result (first.new ≡ first.old) }
{
    rely!(let _last = last.len());
    rely!(let _middle = middle.len());
    let (run, text) = with_last(last, middle)?;
    first.grow(Side::Front, &run, &text)
}

// A block, grown by the block after it.
fn with_next(mut block: Block, next: &Single) -> Result<(Run, Text), AllocError>
    requires touches { IsTrue (follows next.now.0.0 (run_last block.0)) }
    ensures both { IfOk result (λ both. (both.0, both.1) ≡ joined block next.now) }
    ensures as_many { IfOk result (λ both. length both.1 ≡ both.0.1) }
{
    block.extend(next.run(), next.text())?;
    Ok(block.into_parts())
}

// A block, grown by the block in front of it.
fn with_last(last: &Single, mut block: Block) -> Result<(Run, Text), AllocError>
    requires touches { IsTrue (follows block.0.0 (run_last last.now.0)) }
    ensures both { IfOk result (λ both. (both.0, both.1) ≡ joined last.now block) }
    ensures as_many { IfOk result (λ both. length both.1 ≡ both.0.1) }
{
    block.extend_front(last.run(), last.text())?;
    Ok(block.into_parts())
}
