//! Values that their copies share.

ghost use Rattle.std.specs.Prelude.{◌≡◌, IfOk};

use crate::memory::{Duplicate, NoMemory};
use std::alloc::Global;
use std::hash::{Hash, Hasher};
use std::marker::Model;
use std::sync::Arc;

/// A value that its copies share. Contracts see the value.
///
/// It is one pointer, so a large value is moved and copied at the cost of a small one.
#[derive(Drop)]
pub struct RefCounted<T> {
    value: Arc<T>,
}

impl<T> Model for RefCounted<T> {
    ghost use Rattle.std.specs.Arc.{arc_value};

    ghost Value = { T };

    ghost view = { λ s. arc_value s.value };
}

impl<T: Drop> RefCounted<T> {
    /// The value, in memory of its own.
    pub fn of(alloc: Global, value: T) -> Result<RefCounted<T>, NoMemory>
        ensures { IfOk result (λ shared. shared ≡ value) }
    {
        Ok(RefCounted {
            value: Arc::new(alloc, value)?,
        })
    }
}

impl<T> RefCounted<T> {
    /// The value as it is read. Takes no memory.
    pub fn get(&self) -> &T
        ensures { result.now ≡ self.now }
    {
        &*self.value
    }
}

impl<T> Duplicate for RefCounted<T> {
    fn copy(&self) -> Result<RefCounted<T>, NoMemory> {
        Ok(RefCounted {
            value: Arc::try_clone(&self.value)?,
        })
    }
}

impl<T: PartialEq> PartialEq for RefCounted<T> {
    ghost eq = { T.eq };

    ghost laws = { T.PartialEq.laws };

    fn eq(&self, other: &RefCounted<T>) -> bool {
        self.get() == other.get()
    }
}

impl<T: Eq> Eq for RefCounted<T> {
    ghost laws = { T.Eq.laws };
}

impl<T: Hash> Hash for RefCounted<T> {
    ghost hash_input = { T.hash_input };

    ghost respects_eq = { T.respects_eq };

    fn hash<H: Hasher>(&self, state: &mut H) {
        self.get().hash(state);
    }
}
