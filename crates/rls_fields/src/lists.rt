//! Lists, read item after item.

ghost use Rattle.std.specs.Prelude.{◌≡◌, ℕ, List, Option, None, option_copied};
ghost use Rattle.rls_codec.specs.Gives.{Gives};
ghost use Rattle.rls_codec.specs.Reading.{Read, chain_at};

use rls_codec::ReadError;
use rls_runs::Sequence;
use std::alloc::Global;

/// What is read from the front of bytes, and the bytes after it.
pub(crate) type Found<'a, T> = Result<(T, &'a [u8]), ReadError>;

/// How the items of a list are read, each after the one before.
pub(crate) trait Items {
    type Item: Drop;

    /// What is read, after the item before where there is one.
    ghost item_at: { Self → Option Self.Item → List ℕ → Read Self.Item };

    /// The next item, and the bytes after it.
    fn next<'a>(&self, before: Option<&Self::Item>, bytes: &'a [u8]) -> Found<'a, Self::Item>
        ensures read { Gives (λ x. (x.0, x.1.now)) result (item_at self.now (option_copied before.entry) bytes.now) };
}

/// This many items, and the bytes after them.
pub(crate) fn list<'a, I: Items>(
    alloc: Global,
    items: &I,
    count: u32,
    bytes: &'a [u8],
) -> Found<'a, Sequence<I::Item>>
    ensures read { Gives (λ x. (x.0, x.1.now)) result (chain_at (I.item_at items.now) None count bytes.now) }
{
    let mut list = Sequence::new(alloc);
    let mut rest = bytes;
    for _ in 0..count {
        let (found, after) = items.next(list.as_slice().last(), rest)?;
        list.push(found)?;
        rest = after;
    }
    Ok((list, rest))
}
