//! Names.

ghost use Rattle.std.specs.Prelude.{◌≡◌, ◌↔◌, List, ℕ, IsTrue, IfOk};

use crate::fault::Memory;
use smallvec::SmallVec;
use std::alloc::Global;
use std::marker::Model;
use std::rc::Rc;

/// The name of a variable or a unit, seen as its bytes. Its copies share them; up to 16 bytes lie in one block.
pub struct Name {
    shared: Rc<SmallVec<u8, 16>>,
}

impl Drop for Name {
    fn drop(self) {
        let Name { shared: _shared } = self;
    }
}

impl Model for Name {
    ghost Value = { List ℕ };

    ghost view = { λ n. n.shared.value.items };
}

impl Name {
    /// The name of these bytes.
    pub fn from_slice(alloc: Global, bytes: &[u8]) -> Result<Name, Memory>
        ensures bytes { IfOk result (λ n. n ≡ bytes.now) }
    {
        let shared = Rc::new(alloc, SmallVec::from_slice(alloc, bytes)?)?;
        Ok(Name { shared })
    }

    /// Its bytes.
    pub fn bytes(&self) -> &[u8]
        ensures bytes { result.now ≡ self.now }
    {
        self.shared.as_slice()
    }

    /// The same name once more, which takes no memory: an error means that too many copies are alive to be counted.
    pub fn copy(&self, alloc: Global) -> Result<Name, Memory>
        ensures same { IfOk result (λ n. n ≡ self.now) }
    {
        let shared = self.shared.clone()?;
        Ok(Name { shared })
    }

    /// Whether both are the same bytes.
    pub fn equals(&self, other: &Name) -> bool
        ensures equal { IsTrue result ↔ (self.now ≡ other.now) }
    {
        self.bytes() == other.bytes()
    }
}
