//! Lists that grow at their end.
//! Why: docs/DECISIONS.md, 100.

ghost use Rattle.std.specs.Prelude.{◌≡◌, ◌<◌, ◌++◌, ◌∷◌, ◌==◌, [], OnOk, OnErr, length, slice_get, Some};

use std::alloc::{AllocError, Global};
use std::marker::Model;

/// A list that grows at its end. It is seen as the list of its items.
#[derive(Drop)]
pub struct Sequence<T> {
    items: Vec<T>,
}

impl<T> Model for Sequence<T> {
    ghost use Rattle.std.specs.Prelude.{List};

    ghost Value = { List T };

    ghost view = { λ a. a.items.items };
}

impl<T: Drop> Sequence<T> {
    /// The empty list. It takes no memory.
    pub fn new(alloc: Global) -> Sequence<T>
        ensures empty { result ≡ [] }
    {
        Sequence {
            items: Vec::new(alloc),
        }
    }

    /// Puts an item after the last one. After an error the list is as before, and the item is given up.
    pub fn push(&mut self, item: T) -> Result<(), AllocError>
        ensures ok { OnOk result (self.new ≡ self.old ++ item ∷ []) }
        ensures err { OnErr result (self.new ≡ self.old) }
    {
        self.items.push(item)?;
        Ok(())
    }

    /// The number of items.
    pub fn len(&self) -> usize
        ensures len { result ≡ length self.now }
    {
        self.items.len()
    }

    /// Whether there is none.
    pub fn is_empty(&self) -> bool
        ensures empty { result ≡ (length self.now == 0) }
    {
        self.items.is_empty()
    }

    /// The item at a place, counted from 0.
    pub fn get(&self, i: usize) -> &T
        requires place { i < length self.now }
        ensures item { slice_get self.now i ≡ Some result.now }
    {
        &self.items[i]
    }

    /// The items.
    pub fn as_slice(&self) -> &[T]
        ensures items { result.now ≡ self.now }
    {
        &self.items
    }

    /// The items, to be taken one by one.
    pub fn into_vec(self) -> Vec<T>
        ensures items { result.items ≡ self }
    {
        let Sequence { items } = self;
        items
    }
}
