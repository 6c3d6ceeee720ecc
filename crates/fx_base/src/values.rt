ghost use Rattle.std.specs.Prelude.{◌≡◌, ◌<◌, ◌↔◌, [], ◌∷◌, ◌++◌, length, slice_index_or, IsTrue, IfOk, OnErr, OnOk};

use crate::memory::NoMemory;
use std::alloc::Global;
use std::marker::Model;

/// Values in order, which are copied. Clauses see the list.
pub struct Values<T> {
    inner: Vec<T>,
}

// Not derived, so that a place that drops one is proved with one call.
impl<T: Drop> Drop for Values<T> {
    fn drop(self) {
        let Values { inner: _ } = self;
    }
}

impl<T> Model for Values<T> {
    ghost use Rattle.std.specs.Prelude.{List};

    ghost Value = { List T };

    ghost view = { λ a. a.inner.items };
}

impl<T> Values<T> {
    /// An empty list, which takes memory from `alloc` as it grows.
    pub fn new(alloc: Global) -> Values<T>
        ensures { result ≡ [] }
    {
        Values {
            inner: Vec::new(alloc),
        }
    }

    /// A list of these items.
    pub fn from_slice(alloc: Global, items: &[T]) -> Result<Values<T>, NoMemory>
    where
        T: Copy,
        ensures { IfOk result (λ values. values ≡ items.now) }
    {
        let mut values = Values::new(alloc);
        values.extend_from_slice(items)?;
        Ok(values)
    }

    /// The list of a vector's items.
    pub fn from_vec(items: Vec<T>) -> Values<T>
        ensures { result ≡ items.items }
    {
        Values { inner: items }
    }

    /// The vector of the items.
    pub fn into_vec(self) -> Vec<T>
        ensures { result.items ≡ self }
    {
        let Values { inner } = self;
        inner
    }

    pub fn len(&self) -> usize
        ensures { result ≡ length self.now }
    {
        self.inner.len()
    }

    pub fn is_empty(&self) -> bool
        ensures { IsTrue result ↔ (self.now ≡ []) }
    {
        self.inner.is_empty()
    }

    pub fn as_slice(&self) -> &[T]
        ensures { result.now ≡ self.now }
    {
        self.inner.as_slice()
    }

    /// The item at `i`, counted from 0.
    pub fn get(&self, i: usize) -> T
    where
        T: Copy,
        requires { i < length self.now }
        ensures { result ≡ slice_index_or self.now i result }
    {
        self.inner[i]
    }

    /// Adds an item at the end, or leaves the list as it is where memory ran out.
    pub fn push(&mut self, item: T) -> Result<(), NoMemory>
    where
        T: Drop,
        ensures ok { OnOk result (self.new ≡ self.old ++ item ∷ []) }
        ensures err { OnErr result (self.new ≡ self.old) }
    {
        match self.inner.push(item) {
            Ok(()) => Ok(()),
            Err(_) => Err(NoMemory),
        }
    }

    /// Adds these items at the end, or none where memory ran out.
    pub fn extend_from_slice(&mut self, items: &[T]) -> Result<(), NoMemory>
    where
        T: Copy,
        ensures ok { OnOk result (self.new ≡ self.old ++ items.now) }
        ensures err { OnErr result (self.new ≡ self.old) }
    {
        match self.inner.extend_from_slice(items) {
            Ok(()) => Ok(()),
            Err(_) => Err(NoMemory),
        }
    }
}

/// Bytes in order.
pub type Bytes = Values<u8>;
