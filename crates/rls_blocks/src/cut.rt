//! Blocks cut.

ghost use Rattle.std.specs.Prelude.{◌≡◌, ◌+◌, ◌-◌, ◌<◌, ◌≤◌, length, IfOk, IfErr};
ghost use Rattle.rls_blocks.specs.Edits.{part_of};

use crate::block::{Block, part_of_text};
use crate::node::Single;
use rls_ident::rely;
use std::alloc::{AllocError, Global};

/// A block as two: its characters in front of a place, and those from another place on. It costs the characters of the shorter one of
/// these two, and those between the places. If it finds no memory it answers the block as it was.
pub(crate) fn cut(
    alloc: Global,
    mut own: Single,
    at: u32,
    from: u32,
) -> Result<(Single, Single), Single>
    requires some { 0 < at }
    requires order { at ≤ from }
    requires within { from < length own.1 }
    ensures front { IfOk result (λ parts. parts.0 ≡ part_of 0 at own) }
    ensures back { IfOk result (λ parts. parts.1 ≡ part_of from (own.0.1 - from) own) }
    ensures front_chars { IfOk result (λ parts. length parts.0.1 ≡ at) }
    ensures back_chars { IfOk result (λ parts. length parts.1.1 + from ≡ length own.1) }
    ensures err { IfErr result (λ old. old ≡ own) }
{
    let len = own.len();
    if at < len - from {
        let Ok(front) = part_alone(alloc, &own, 0, at) else {
            return Err(own);
        };
        return match own.keep_back(from) {
            Ok(()) => Ok((front, own)),
            Err(_) => Err(own),
        };
    }
    let Ok(back) = part_alone(alloc, &own, from, len - from) else {
        return Err(own);
    };
    match own.keep_front(at) {
        Ok(()) => Ok((own, back)),
        Err(_) => Err(own),
    }
}

/// Two blocks, the first with this many characters at its front, the last with those from a place on. It costs the characters that go.
/// If it finds no memory it answers both as they were.
pub(crate) fn keep_ends(
    mut first: Single,
    at: u32,
    mut last: Single,
    from: u32,
) -> Result<(Single, Single), (Single, Single)>
    requires some { 0 < at }
    requires front { at ≤ length first.1 }
    requires back { from < length last.1 }
    ensures front { IfOk result (λ ends. ends.0 ≡ part_of 0 at first) }
    ensures back { IfOk result (λ ends. ends.1 ≡ part_of from (last.0.1 - from) last) }
    ensures front_chars { IfOk result (λ ends. length ends.0.1 ≡ at) }
    ensures back_chars { IfOk result (λ ends. length ends.1.1 + from ≡ length last.1) }
    ensures err { IfErr result (λ old. (old.0 ≡ first) × (old.1 ≡ last)) }
{
    rely!(let _first = first.len());
    rely!(let _last = last.len());
    let Ok(front) = first.run().part(0, at) else {
        return Err((first, last));
    };
    match last.keep_back(from) {
        Ok(()) => {
            first.keep(0, front);
            Ok((first, last))
        }
        Err(_) => Err((first, last)),
    }
}

// A block of its own with this many characters of a block from a place on. It costs their number.
fn part_alone(alloc: Global, own: &Single, from: u32, len: u32) -> Result<Single, AllocError>
    requires some { 0 < len }
    requires within { from + len ≤ length own.now.1 }
    ensures part { IfOk result (λ part. part ≡ part_of from len own.now) }
{
    rely!(let _len = own.len());
    let run = own.run().part(from, len)?;
    let text = part_of_text(alloc, own.text(), from as usize, len as usize)?;
    Single::new(alloc, Block::new(run, text))
}
