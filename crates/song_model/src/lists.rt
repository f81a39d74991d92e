//! Lists that grow up to a limit.

ghost use Rattle.std.specs.Prelude.{◌≡◌, ◌<◌, ◌≤◌, ◌↔◌, ◌⊎◌, [], ◌∷◌, ◌++◌};
ghost use Rattle.std.specs.Prelude.{length, slice_set, slice_index_or, vec_capacity, IsNone, IfSome, IfOk, IfErr};
ghost use Rattle.std.specs.Prelude.{IsErrOf, OnOk, OnErr};
ghost use Rattle.song_model.specs.LookUp.{IsNumbered, numbered};

use crate::{LimitFault, PushFault};
use base::{Items, NoMemory};
use std::alloc::Global;
use std::marker::Model;

/// A list of at most `LIMIT` items.
#[derive(Drop)]
pub struct Bounded<T, const LIMIT: usize> {
    items: Items<T>,
}

impl<T, const LIMIT: usize> Model for Bounded<T, LIMIT> {
    ghost use Rattle.std.specs.Prelude.{List, length, ◌≤◌};
    ghost use Rattle.std.specs.Coded.{coded_list};

    ghost Value = { List T };

    ghost coded = { coded_list T.code };

    ghost view = { λ list. list.items };

    ghost invariant = { λ list. length list.items ≤ LIMIT };
}

impl<T, const LIMIT: usize> Bounded<T, LIMIT> {
    /// The empty list.
    pub fn new(alloc: Global) -> Self
        ensures { result ≡ [] }
    {
        Bounded {
            items: Items::new(alloc),
        }
    }

    /// The items in order.
    pub fn as_slice(&self) -> &[T]
        ensures items { result.now ≡ self.now }
        ensures limit { length self.now ≤ LIMIT }
    {
        self.items.as_slice()
    }

    /// Item `n`, counted from 1; none at 0 or past the last.
    pub(crate) fn numbered(&self, n: u8) -> Option<&T>
        ensures none { IsNone result ↔ ¬ IsNumbered self.now n }
        ensures some { (zero_item : T) → IfSome result (λ item. item.now ≡
            numbered self.now n zero_item) }
    {
        if n == 0 {
            return None;
        }
        self.items.as_slice().get(usize::from(n) - 1)
    }

    /// The list of these items, which are at most as many as the limit.
    pub fn from_vec(items: Vec<T>) -> Self
        requires { length items.items ≤ LIMIT }
        ensures { result ≡ items.items }
    {
        Bounded {
            items: Items::from_vec(items),
        }
    }

    /// Puts an item in the place of the one that stands there, and answers that one. Places are counted from 0.
    pub fn exchange(&mut self, at: usize, item: T) -> T
        requires { at < length self.old }
        ensures after { self.new ≡ slice_set self.old at item }
        ensures before { result ≡ slice_index_or self.old at result }
    {
        self.items.exchange(at, item)
    }

    /// Exchanges the item that stands at a place with another one.
    pub fn exchange_with(&mut self, at: usize, item: &mut T)
        requires { at < length self.old }
        ensures after { self.new ≡ slice_set self.old at item.old }
        ensures before { item.new ≡ slice_index_or self.old at item.old }
    {
        self.items.exchange_with(at, item);
    }

    /// Takes all items out; the list is empty then.
    pub fn take(&mut self) -> Vec<T>
        ensures taken { result.items ≡ self.old }
        ensures limit { length result.items ≤ LIMIT }
        ensures emptied { self.new ≡ [] }
        ensures room { length result.items ≤ vec_capacity result }
    {
        self.items.take()
    }
}

impl<T: Drop, const LIMIT: usize> Bounded<T, LIMIT> {
    /// Adds an item at the end.
    ///
    /// # Errors
    ///
    /// `Full` where the list has as many items as its limit; out of memory. The list is as before.
    pub fn push(&mut self, item: T) -> Result<(), PushFault>
        ensures ok { OnOk result (self.new ≡ self.old ++ item ∷ []) }
        ensures full { IsErrOf result PushFault.Full ↔ (length self.old ≡ LIMIT) }
        ensures err { OnErr result (self.new ≡ self.old) }
    {
        if self.items.len() >= LIMIT {
            return Err(PushFault::Full);
        }
        match self.items.push(item) {
            Ok(()) => Ok(()),
            Err(NoMemory) => Err(PushFault::NoMemory),
        }
    }
}

impl<T: Copy, const LIMIT: usize> Bounded<T, LIMIT> {
    /// A list of these items.
    ///
    /// # Errors
    ///
    /// `BadLength` where they are more than the limit; out of memory.
    pub fn from_slice(alloc: Global, items: &[T]) -> Result<Self, LimitFault>
        ensures kept { IfOk result (λ list. list ≡ items.now) }
        ensures bad_length { IsErrOf result LimitFault.BadLength ↔ LIMIT < length items.now }
        ensures no_other { IfErr result (λ fault. (fault ≡ LimitFault.BadLength) ⊎
            (fault ≡ LimitFault.NoMemory)) }
    {
        if items.len() > LIMIT {
            return Err(LimitFault::BadLength);
        }
        match Items::from_slice(alloc, items) {
            Ok(items) => Ok(Bounded { items }),
            Err(NoMemory) => Err(LimitFault::NoMemory),
        }
    }

    /// A list of the same items.
    ///
    /// # Errors
    ///
    /// Out of memory.
    pub fn copy(&self, alloc: Global) -> Result<Self, NoMemory>
        ensures { IfOk result (λ copy. copy ≡ self.now) }
    {
        Ok(Bounded {
            items: self.items.copy(alloc)?,
        })
    }
}
