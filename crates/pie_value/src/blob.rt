//! Bytes that are shared and never changed.
ghost use Rattle.std.specs.Prelude.{◌≡◌, IfOk};

use pie_base::OutOfMemory;
use std::alloc::Global;
use std::marker::Model;
use std::rc::Rc;

/// Bytes. Contracts see the list of them. A copy shares the contents of one that is shared.
#[derive(Drop)]
pub struct Blob {
    bytes: Held,
}

// Bytes that came with one owner stay where they are until a copy is asked for, since sharing them takes a
// block of memory and `new` takes none.
#[derive(Drop)]
enum Held {
    Alone(Vec<u8>),
    Shared(Rc<Vec<u8>>),
}

impl Model for Blob {
    ghost use Rattle.std.specs.Prelude.{List, ℕ};

    ghost Value = { List ℕ };

    ghost use Rattle.pie_value.specs.inner.Held.{held_bytes};

    ghost view = { λ b. held_bytes b.bytes };
}

impl Blob {
    /// A blob of these bytes, which isn't shared yet.
    pub fn new(bytes: Vec<u8>) -> Blob
        ensures { result ≡ bytes.items }
    {
        Blob {
            bytes: Held::Alone(bytes),
        }
    }

    /// A blob of these bytes, whose copies share them.
    pub fn shared(alloc: Global, bytes: Vec<u8>) -> Result<Blob, OutOfMemory>
        ensures { IfOk result (λ made. made ≡ bytes.items) }
    {
        let bytes = Rc::new(alloc, bytes)?;
        Ok(Blob {
            bytes: Held::Shared(bytes),
        })
    }

    /// An equal blob. It shares the contents, and where they had one owner it takes a copy that can be shared.
    pub fn copy(&self) -> Result<Blob, OutOfMemory>
        ensures { IfOk result (λ copy. copy ≡ self.now) }
    {
        match &self.bytes {
            Held::Alone(bytes) => {
                let alloc = *bytes.allocator();
                let copied = Vec::from_slice(alloc, bytes.as_slice())?;
                Blob::shared(alloc, copied)
            }
            Held::Shared(bytes) => {
                let bytes = bytes.clone()?;
                Ok(Blob {
                    bytes: Held::Shared(bytes),
                })
            }
        }
    }

    pub fn as_slice(&self) -> &[u8]
        ensures { result.now ≡ self.now }
    {
        match &self.bytes {
            Held::Alone(bytes) => bytes.as_slice(),
            Held::Shared(bytes) => bytes.as_slice(),
        }
    }
}
