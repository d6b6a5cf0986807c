//! A list, seen as its items.

ghost use Rattle.std.specs.Prelude.{◌≡◌, ◌==◌, List, IfOk, length};

use std::alloc::{AllocError, Global};
use std::marker::Model;

/// A list over a vector, made from one and giving it back without taking memory.
#[derive(Debug, Drop)]
pub struct Items<T> {
    items: Vec<T>,
}

impl<T> Model for Items<T> {
    ghost Value = { List T };

    ghost view = { λ a. a.items.items };
}

impl<T> Items<T> {
    /// The list of a vector's items.
    pub fn from_vec(items: Vec<T>) -> Self
        ensures { result ≡ items.items }
    {
        Items { items }
    }

    /// The vector of the items.
    pub fn into_vec(self) -> Vec<T>
        ensures { result.items ≡ self }
    {
        let Items { items } = self;
        items
    }

    /// The items, in their order.
    pub fn as_slice(&self) -> &[T]
        ensures { result.now ≡ self.now }
    {
        &self.items
    }

    /// How many items there are.
    pub fn len(&self) -> usize
        ensures { result ≡ length self.now }
    {
        self.items.len()
    }

    /// Whether there is no item.
    pub fn is_empty(&self) -> bool
        ensures { result ≡ (length self.now == 0) }
    {
        self.items.is_empty()
    }
}

impl Items<u8> {
    /// The list of these bytes.
    pub fn of_bytes(alloc: Global, bytes: &[u8]) -> Result<Items<u8>, AllocError>
        ensures { IfOk result (λ items. items ≡ bytes.now) }
    {
        Ok(Items {
            items: Vec::from_slice(alloc, bytes)?,
        })
    }
}

impl<T: Copy> Items<T> {
    /// The same items again.
    pub fn copy(&self, alloc: Global) -> Result<Items<T>, AllocError>
        ensures { IfOk result (λ items. items ≡ self.now) }
    {
        Ok(Items {
            items: Vec::from_slice(alloc, &self.items)?,
        })
    }
}
