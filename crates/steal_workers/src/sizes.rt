//! About how many classes lie under a key, as a worker learns it.

use ntfe_model::{Geometry, Key};
use std::alloc::{AllocError, Global};

/// So many keys of a length tell how large such a key is.
const KNOWN_FROM: u64 = 2;

/// How many keys of each length a worker probed, and how many classes it found. Each class lies under one key of each
/// length, so the classes divided by the keys of a length tell how many lie under such a key. No answer depends on it,
/// only how work is shared.
#[derive(Drop)]
pub struct Sizes {
    keys: Vec<u64>,
    classes: u64,
}

impl Sizes {
    /// Nothing was probed.
    ///
    /// # Errors
    /// `AllocError` where memory is short.
    pub fn new(alloc: Global, geometry: &Geometry) -> Result<Sizes, AllocError> {
        Ok(Sizes {
            keys: vec![in alloc; 0; geometry.faces().len() + 1]?,
            classes: 0,
        })
    }

    /// Counts a key that was probed.
    pub fn count(&mut self, key: &Key, is_class: bool) {
        if let Some(count) = self.keys.get_mut(key.0.as_slice().len()) {
            *count = count.saturating_add(1);
        }
        self.classes = self.classes.saturating_add(u64::from(is_class));
    }

    /// About how many classes lie under the key; none where too few keys of its length were probed.
    pub fn under(&self, key: &Key) -> Option<u64> {
        match self.keys.get(key.0.as_slice().len()) {
            Some(count) if *count >= KNOWN_FROM => Some(self.classes / *count),
            _ => None,
        }
    }
}
