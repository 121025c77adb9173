//! Lists that contracts see as lists.

ghost use Rattle.std.specs.Prelude.{◌≡◌, [], ◌∷◌, ◌++◌, OnOk, OnErr, IfOk};

use crate::memory::{Duplicate, NoMemory};
use std::alloc::Global;
use std::marker::Model;

/// A list of items. It keeps its allocator.
#[derive(Drop)]
pub struct Items<T> {
    items: Vec<T>,
}

impl<T> Model for Items<T> {
    ghost use Rattle.std.specs.Prelude.{List};

    ghost Value = { List T };

    ghost view = { λ l. l.items.items };
}

impl<T> Items<T> {
    /// The empty list. Takes no memory.
    pub fn new(alloc: Global) -> Items<T>
        ensures { result ≡ [] }
    {
        Items {
            items: Vec::new(alloc),
        }
    }

    /// The list of a vector's items. Takes no memory.
    pub fn of_vec(items: Vec<T>) -> Items<T>
        ensures { result ≡ items.items }
    {
        Items { items }
    }

    /// The vector of the list's items. Takes no memory.
    pub fn into_vec(self) -> Vec<T>
        ensures { result.items ≡ self }
    {
        let Items { items } = self;
        items
    }

    /// The items in order. Takes no memory.
    pub fn as_slice(&self) -> &[T]
        ensures { result.now ≡ self.now }
    {
        self.items.as_slice()
    }
}

impl<T: Drop> Items<T> {
    /// Puts an item at the end. A list that is built item by item grows by doubling; where the length is known,
    /// fill a vector that was made with its room and hand it to [`Items::of_vec`].
    pub fn push(&mut self, item: T) -> Result<(), NoMemory>
        ensures ok { OnOk result (self.new ≡ self.old ++ item ∷ []) }
        ensures err { OnErr result (self.new ≡ self.old) }
    {
        self.items.push(item)?;
        Ok(())
    }
}

/// A copy of a list, item by item, in exactly the room that it needs.
pub fn copies<T: Duplicate + Drop>(alloc: Global, items: &[T]) -> Result<Items<T>, NoMemory>
    ensures { IfOk result (λ twins. twins ≡ items.now) }
{
    let mut twins = Vec::with_capacity(alloc, items.len())?;
    for item in items {
        twins.push(item.copy()?)?;
    }
    Ok(Items { items: twins })
}

impl<T: Duplicate + Drop> Duplicate for Items<T> {
    fn copy(&self) -> Result<Items<T>, NoMemory> {
        copies(*self.items.allocator(), self.items.as_slice())
    }
}

impl<T: PartialEq> PartialEq for Items<T> {
    ghost use Rattle.std.specs.Cmp.Lexicographic.{pointwise, lists_per};

    ghost eq = { pointwise T.eq };

    ghost laws = { lists_per T.PartialEq.laws };

    fn eq(&self, other: &Items<T>) -> bool {
        self.items.as_slice() == other.items.as_slice()
    }
}

impl<T: Eq> Eq for Items<T> {
    ghost use Rattle.std.specs.Cmp.Lexicographic.{lists_equiv};

    ghost laws = { lists_equiv T.Eq.laws };
}
