//! Characters taken out of a tree.

ghost use Rattle.std.specs.Prelude.{◌≡◌, ◌+◌, ◌-◌, ◌^◌, ◌<◌, ◌≤◌, ◌∷◌, ◌++◌, length, None, IfSome, IfOk, IfErr, IsTrue};
ghost use Rattle.rls_ident.specs.Identifiers.{follows};
ghost use Rattle.rls_runs.specs.Runs.{run_last, are_apart};
ghost use Rattle.rls_blocks.specs.Trees.{entries_of, runs_in};
ghost use Rattle.rls_blocks.specs.Edits.{part_of, joined, removed, located, changed_at, gain, MayChange, Shows};

use crate::balance::join;
use crate::change::Change;
use crate::cut::{cut, keep_ends};
use crate::node::{Link, Single};
use crate::side::Side;
use crate::split::{Halves, concat, end_out, ends_before, split};
use rls_ident::rely;
use std::alloc::Global;

/// Takes this many characters out from a place on. It costs a step for each level and for each block that goes,
/// and their number; if it cuts one block in two, also the characters of the shorter part, and if two
/// blocks touch then, those of the shorter one. Where they are the first or the last ones of one block, and not all of it, no
/// node is made or taken apart. It answers the new tree.
///
/// # Errors
///
/// The tree with the blocks that it had, if there is no memory.
pub fn remove_range(alloc: Global, link: Link, i: u64, count: u64) -> Result<Link, Link>
    requires some { 0 < count }
    requires within { i + count ≤ length (entries_of link.blocks) }
    requires apart { IsTrue (are_apart None (runs_in link.blocks)) }
    ensures ok { IfOk result (λ new. Shows (removed i count (entries_of link.blocks)) new.blocks) }
    ensures err { IfErr result (λ old. old.blocks ≡ link.blocks) }
{
    rely!(let _chars = link.chars());
    if let Some(change) = shortening(&link, i, count) {
        return link.with_change(i, change);
    }
    match split(link, i + count) {
        Halves::Between(near, behind) => match split(near, i) {
            Halves::Between(front, gone) => close_gap(front, gone, behind),
            Halves::Within(front, first, at, gone) => remove_back(front, first, at, gone, behind),
        },
        Halves::Within(near, last, end, behind) => {
            let before = near.chars();
            if i > before {
                let at = (i - before) as u32;
                return remove_middle(alloc, near, last, at, end, behind);
            }
            match split(near, i) {
                Halves::Between(front, gone) => remove_front(front, gone, last, end, behind),
                Halves::Within(front, first, at, gone) => {
                    remove_ends(front, first, at, gone, last, end, behind)
                }
            }
        }
    }
}

// How the block of a place changes where these characters are the first or the last ones of it, and not all.
fn shortening(link: &Link, i: u64, count: u64) -> Option<Change<'static>>
    requires some { 0 < count }
    requires within { i + count ≤ length (entries_of link.now.blocks) }
    requires apart { IsTrue (are_apart None (runs_in link.now.blocks)) }
    ensures may { IfSome result (λ change. IfSome (located link.now.blocks i) (λ p. MayChange change p.0)) }
    ensures no_gain { IfSome result (λ change. gain change ≡ 0) }
    ensures shows { IfSome result (λ change. Shows (removed i count (entries_of link.now.blocks)) (changed_at change link.now.blocks i)) }
{
    rely!(let _chars = link.chars());
    let (block, at) = link.locate(i);
    let rest = (block.len() - at) as u64;
    if at == 0 && count < rest {
        return Some(Change::KeepBack(count as u32));
    }
    if at > 0 && count == rest {
        return Some(Change::KeepFront(at));
    }
    None
}

// Whole blocks. What stood on their sides may touch then.
fn close_gap(front: Link, gone: Link, behind: Link) -> Result<Link, Link>
    requires chars_fit { length (entries_of front.blocks) + length (entries_of gone.blocks) + length (entries_of behind.blocks) < 2 ^ 64 }
    requires apart { IsTrue (are_apart None (runs_in (front.blocks ++ gone.blocks ++ behind.blocks))) }
    ensures ok { IfOk result (λ new. Shows (entries_of front.blocks ++ entries_of behind.blocks) new.blocks) }
    ensures err { IfErr result (λ old. old.blocks ≡ front.blocks ++ gone.blocks ++ behind.blocks) }
{
    let Some((first, far)) = end_out(behind, Side::Front) else {
        return Ok(front);
    };
    if !ends_before(&front, first.run().first()) {
        return Ok(join(front, first, far));
    }
    let Some((last, rest)) = end_out(front, Side::Behind) else {
        unreachable!()
    };
    match merge(last, first) {
        Ok(both) => Ok(join(rest, both, far)),
        Err((last, first)) => Err(join(join(rest, last, gone), first, far)),
    }
}

// What a block has from a place on, and whole blocks after it.
fn remove_back(
    front: Link,
    mut first: Single,
    at: u32,
    gone: Link,
    behind: Link,
) -> Result<Link, Link>
    requires some { 0 < at }
    requires within { at < length first.1 }
    requires chars_fit { length (entries_of front.blocks) + length first.1 + length (entries_of gone.blocks) + length (entries_of behind.blocks) < 2 ^ 64 }
    ensures ok { IfOk result (λ new. new.blocks ≡ front.blocks ++ part_of 0 at first ∷ behind.blocks) }
    ensures err { IfErr result (λ old. old.blocks ≡ front.blocks ++ first ∷ gone.blocks ++ behind.blocks) }
{
    match first.keep_front(at) {
        Ok(()) => Ok(join(front, first, behind)),
        Err(_) => Err(join(front, first, concat(gone, behind))),
    }
}

// Whole blocks, and what the block after them has in front of a place.
fn remove_front(
    front: Link,
    gone: Link,
    mut last: Single,
    end: u32,
    behind: Link,
) -> Result<Link, Link>
    requires within { end < length last.1 }
    requires chars_fit { length (entries_of front.blocks) + length (entries_of gone.blocks) + length last.1 + length (entries_of behind.blocks) < 2 ^ 64 }
    ensures ok { IfOk result (λ new. new.blocks ≡ front.blocks ++ part_of end (last.0.1 - end) last ∷ behind.blocks) }
    ensures err { IfErr result (λ old. old.blocks ≡ (front.blocks ++ gone.blocks) ++ last ∷ behind.blocks) }
{
    match last.keep_back(end) {
        Ok(()) => Ok(join(front, last, behind)),
        Err(_) => Err(join(concat(front, gone), last, behind)),
    }
}

// What a block has from a place on, whole blocks after it, and what the next one has in front of a place.
fn remove_ends(
    front: Link,
    first: Single,
    at: u32,
    gone: Link,
    last: Single,
    end: u32,
    behind: Link,
) -> Result<Link, Link>
    requires some { 0 < at }
    requires within_first { at < length first.1 }
    requires within_last { end < length last.1 }
    requires chars_fit { length (entries_of front.blocks) + length first.1 + length (entries_of gone.blocks) + length last.1 + length (entries_of behind.blocks) < 2 ^ 64 }
    ensures ok { IfOk result (λ new. new.blocks ≡ front.blocks ++ part_of 0 at first ∷ part_of end (last.0.1 - end) last ∷ behind.blocks) }
    ensures err { IfErr result (λ old. old.blocks ≡ (front.blocks ++ first ∷ gone.blocks) ++ last ∷ behind.blocks) }
{
    match keep_ends(first, at, last, end) {
        Ok((first, last)) => Ok(join(join(front, first, Link::empty()), last, behind)),
        Err((first, last)) => Err(join(join(front, first, gone), last, behind)),
    }
}

// What a block has between two places.
fn remove_middle(
    alloc: Global,
    front: Link,
    own: Single,
    at: u32,
    end: u32,
    behind: Link,
) -> Result<Link, Link>
    requires some { 0 < at }
    requires order { at < end }
    requires within { end < length own.1 }
    requires chars_fit { length (entries_of front.blocks) + length own.1 + length (entries_of behind.blocks) < 2 ^ 64 }
    ensures ok { IfOk result (λ new. new.blocks ≡ front.blocks ++ part_of 0 at own ∷ part_of end (own.0.1 - end) own ∷ behind.blocks) }
    ensures err { IfErr result (λ old. old.blocks ≡ front.blocks ++ own ∷ behind.blocks) }
{
    match cut(alloc, own, at, end) {
        Ok((near, far)) => Ok(join(join(front, near, Link::empty()), far, behind)),
        Err(own) => Err(join(front, own, behind)),
    }
}

// Two blocks that touch, as one. It costs the characters of the shorter one.
fn merge(mut last: Single, mut first: Single) -> Result<Single, (Single, Single)>
    requires touches { IsTrue (follows first.0.0 (run_last last.0)) }
    ensures ok { IfOk result (λ both. both ≡ joined last first) }
    ensures err { IfErr result (λ both. (both.0 ≡ last) × (both.1 ≡ first)) }
{
    if first.len() <= last.len() {
        return match last.grow(Side::Behind, first.run(), first.text()) {
            Ok(()) => Ok(last),
            Err(_) => Err((last, first)),
        };
    }
    match first.grow(Side::Front, last.run(), last.text()) {
        Ok(()) => Ok(first),
        Err(_) => Err((last, first)),
    }
}
