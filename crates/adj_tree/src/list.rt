//! Lists over vectors, which clauses see as the list of their members.

ghost use Rattle.std.specs.Prelude.{◌≡◌, List, [], ◌∷◌, ◌++◌, length, OnOk};

use crate::fault::Memory;
use crate::name::Name;
use crate::unit::{Decl, Extent, Unit};
use std::alloc::Global;
use std::marker::Model;

/// Members in order, seen as their list.
pub struct Items<T> {
    members: Vec<T>,
}

impl<T: Drop> Drop for Items<T> {
    fn drop(self) {
        let Items { members: _members } = self;
    }
}

impl<T> Model for Items<T> {
    ghost Value = { List T };

    ghost view = { λ l. l.members.items };
}

impl<T> Items<T> {
    /// The list of these members.
    pub fn new(members: Vec<T>) -> Items<T>
        ensures members { result ≡ members.items }
    {
        Items { members }
    }

    /// Its members.
    pub fn as_slice(&self) -> &[T]
        ensures members { result.now ≡ self.now }
    {
        self.members.as_slice()
    }

    /// Its members, of which none is copied.
    pub fn into_vec(self) -> Vec<T>
        ensures members { result.items ≡ self }
    {
        let Items { members } = self;
        members
    }
}

/// Bytes in order.
pub type Bytes = Items<u8>;

/// Truth values in order.
pub type Flags = Items<bool>;

/// Words in order.
pub type WordList = Items<i64>;

/// Names in order.
pub type NameList = Items<Name>;

/// The extents of a variable, in order.
pub type Extents = Items<Extent>;

/// Declarations in order.
pub type Decls = Items<Decl>;

/// Units in the order of the text.
pub type Units = Items<Unit>;
