//! Things that are gathered, without asking each time whether there was memory.
use std::alloc::{AllocError, Global};

/// Things in order, and whether memory ran out for one.
#[derive(Drop)]
pub(crate) struct Gathered<T> {
    pub(crate) list: Vec<T>,
    failed: bool,
}

impl<T: Drop> Gathered<T> {
    /// None yet.
    pub(crate) fn new(alloc: Global) -> Gathered<T> {
        Gathered {
            list: Vec::new(alloc),
            failed: false,
        }
    }

    /// Adds one.
    pub(crate) fn add(&mut self, one: T) {
        if self.list.push(one).is_err() {
            self.failed = true;
        }
    }

    /// All of them, unless memory ran out.
    pub(crate) fn into_list(self) -> Result<Vec<T>, AllocError> {
        if self.failed {
            Err(AllocError)
        } else {
            Ok(self.list)
        }
    }
}
