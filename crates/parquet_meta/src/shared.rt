// Bytes with several owners.
ghost use Rattle.std.specs.Prelude.{◌≡◌, IfOk};

use dm_types::Bytes;
use std::alloc::{AllocError, Global};
use std::marker::Model;
use std::rc::Rc;

/// Bytes that aren't copied for each of their owners, as the name of a top-level element for each
/// leaf below it.
#[derive(Debug, Drop)]
pub struct SharedBytes {
    bytes: Rc<Bytes>,
}

impl Model for SharedBytes {
    ghost use Rattle.std.specs.Prelude.{List, ℕ};

    ghost Value = { List ℕ };

    ghost view = { λ it. it.bytes.value };
}

impl SharedBytes {
    /// The bytes under a first owner. They are moved.
    pub fn new(alloc: Global, bytes: Bytes) -> Result<SharedBytes, AllocError>
        ensures { IfOk result (λ it. it ≡ bytes) }
    {
        match Rc::new(alloc, bytes) {
            Ok(bytes) => Ok(SharedBytes { bytes }),
            Err(_) => Err(AllocError),
        }
    }

    /// The bytes.
    pub fn as_slice(&self) -> &[u8]
        ensures { result.now ≡ self.now }
    {
        (*self.bytes).as_slice()
    }
}

impl Clone for SharedBytes {
    ghost is_clone = { λ it copy. copy ≡ it };

    fn clone(&self) -> Result<SharedBytes, AllocError> {
        let bytes = self.bytes.clone()?;
        Ok(SharedBytes { bytes })
    }
}
