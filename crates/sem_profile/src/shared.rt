//! What several formats of a method have in common, kept once.

ghost use Rattle.std.specs.Prelude.{◌≡◌, IfOk};

use std::alloc::{AllocError, Global};
use std::marker::Model;
use std::sync::Arc;

/// A value that is shared with its copies. Contracts see the value.
#[derive(Drop)]
pub struct Shared<T> {
    value: Arc<T>,
}

impl<T> Model for Shared<T> {
    ghost Value = { T };

    ghost coded = { T.code };

    ghost view = { λ s. s.value.value };
}

impl<T: Drop> Shared<T> {
    /// The value, which nothing shares yet.
    pub fn new(alloc: Global, value: T) -> Result<Shared<T>, AllocError>
        ensures { IfOk result (λ s. s ≡ value) }
    {
        Ok(Shared {
            value: Arc::new(alloc, value)?,
        })
    }

    /// The same value. It takes no memory: it fails only where the count of those that share it is full.
    pub fn share(&self) -> Result<Shared<T>, AllocError>
        ensures { IfOk result (λ s. s ≡ self.now) }
    {
        Ok(Shared {
            value: self.value.clone()?,
        })
    }
}

impl<T> Shared<T> {
    /// The value that is shared.
    pub fn get(&self) -> &T
        ensures { result.now ≡ self.now }
    {
        &*self.value
    }
}
