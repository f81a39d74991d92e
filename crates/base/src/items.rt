//! Lists that grow.

ghost use Rattle.std.specs.Prelude.{◌≡◌, ◌<◌, ◌≤◌, ◌↔◌, [], ◌∷◌, ◌++◌, length};
ghost use Rattle.std.specs.Prelude.{slice_set, slice_index_or, vec_len, vec_capacity, IsTrue, IfOk, OnOk, OnErr};

use crate::NoMemory;
use std::alloc::Global;
use std::marker::Model;
use std::mem;

/// A list that grows, without a limit of its own. Contracts see the list.
///
/// A type with a limit or a name of its own has one of these as its field.
#[derive(Drop)]
pub struct Items<T> {
    items: Vec<T>,
}

impl<T> Model for Items<T> {
    ghost use Rattle.std.specs.Prelude.{List};
    ghost use Rattle.std.specs.Coded.{coded_list};

    ghost Value = { List T };

    ghost coded = { coded_list T.code };

    ghost view = { λ list. list.items.items };
}

/// A list of bytes, without a limit.
pub type ByteList = Items<u8>;

impl<T> Items<T> {
    /// The empty list.
    pub fn new(alloc: Global) -> Self
        ensures { result ≡ [] }
    {
        Items {
            items: Vec::new(alloc),
        }
    }

    /// The list of these items.
    pub fn from_vec(items: Vec<T>) -> Self
        ensures { result ≡ items.items }
    {
        Items { items }
    }

    /// The items in order.
    pub fn as_slice(&self) -> &[T]
        ensures { result.now ≡ self.now }
    {
        self.items.as_slice()
    }

    /// How many items there are.
    pub fn len(&self) -> usize
        ensures { result ≡ length self.now }
    {
        self.items.len()
    }

    /// Whether there are no items.
    pub fn is_empty(&self) -> bool
        ensures { IsTrue result ↔ (self.now ≡ []) }
    {
        self.items.is_empty()
    }

    /// Moves the items of another list to the end of this one.
    ///
    /// # Errors
    ///
    /// Out of memory: both lists are as before.
    pub fn append(&mut self, other: &mut Items<T>) -> Result<(), NoMemory>
        ensures ok { OnOk result (self.new ≡ self.old ++ other.old) }
        ensures emptied { OnOk result (other.new ≡ []) }
        ensures err { OnErr result (self.new ≡ self.old) }
        ensures kept { OnErr result (other.new ≡ other.old) }
    {
        self.items.append(&mut other.items)?;
        Ok(())
    }

    /// Puts an item in the place of the one that stands there, and answers that one. Places are counted from 0.
    pub fn exchange(&mut self, at: usize, item: T) -> T
        requires { at < length self.old }
        ensures after { self.new ≡ slice_set self.old at item }
        ensures before { result ≡ slice_index_or self.old at result }
    {
        mem::replace(&mut self.items[at], item)
    }

    /// Exchanges the item that stands at a place with another one.
    pub fn exchange_with(&mut self, at: usize, item: &mut T)
        requires { at < length self.old }
        ensures after { self.new ≡ slice_set self.old at item.old }
        ensures before { item.new ≡ slice_index_or self.old at item.old }
    {
        mem::swap(&mut self.items[at], item);
    }

    /// Takes all items out; the list is empty then.
    pub fn take(&mut self) -> Vec<T>
        ensures taken { result.items ≡ self.old }
        ensures emptied { self.new ≡ [] }
        ensures room { length result.items ≤ vec_capacity result }
    {
        let empty = Vec::new(*self.items.allocator());
        mem::replace(&mut self.items, empty)
    }
}

impl<T: Drop> Items<T> {
    /// Adds an item at the end.
    ///
    /// # Errors
    ///
    /// Out of memory: the list is as before.
    pub fn push(&mut self, item: T) -> Result<(), NoMemory>
        ensures ok { OnOk result (self.new ≡ self.old ++ item ∷ []) }
        ensures err { OnErr result (self.new ≡ self.old) }
    {
        self.items.push(item)?;
        Ok(())
    }
}

impl<T: Copy> Items<T> {
    /// A list of these items.
    ///
    /// # Errors
    ///
    /// Out of memory.
    pub fn from_slice(alloc: Global, items: &[T]) -> Result<Self, NoMemory>
        ensures { IfOk result (λ list. list ≡ items.now) }
    {
        let items = Vec::from_slice(alloc, items)?;
        Ok(Items { items })
    }

    /// A list of the same items.
    ///
    /// # Errors
    ///
    /// Out of memory.
    pub fn copy(&self, alloc: Global) -> Result<Self, NoMemory>
        ensures { IfOk result (λ copy. copy ≡ self.now) }
    {
        Items::from_slice(alloc, self.as_slice())
    }

    /// Adds these items at the end.
    ///
    /// # Errors
    ///
    /// Out of memory: the list is as before.
    pub fn extend(&mut self, items: &[T]) -> Result<(), NoMemory>
        ensures ok { OnOk result (self.new ≡ self.old ++ items.now) }
        ensures err { OnErr result (self.new ≡ self.old) }
    {
        self.items.extend_from_slice(items)?;
        Ok(())
    }

    /// Puts an item in the place of the one that stands there. Places are counted from 0.
    pub fn set(&mut self, at: usize, item: T)
        requires { at < length self.old }
        ensures { self.new ≡ slice_set self.old at item }
    {
        self.items[at] = item;
    }
}
