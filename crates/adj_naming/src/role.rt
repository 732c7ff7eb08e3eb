//! The variables that an emitted unit has besides those of its source and their shadows (docs/EMITTED.md, "Fresh names").

ghost use Rattle.std.specs.Prelude.{◌≡◌, ◌++◌, IfOk, OnOk, map};
ghost use Rattle.adj_tree.specs.Code.{role_code};
ghost use Rattle.def_sweep.specs.Naming.{letters_for, wanted_for, outside};
ghost use Rattle.def_sweep.specs.Declared.{helpers_from};
ghost use Rattle.adj_naming.specs.Roles.{role_of, variable_of};
ghost use Rattle.adj_naming.specs.Texts.{derived_of};

use crate::derived::Derived;
use crate::joining::with_number;
use adj_tree::{Memory, Name};
use std::alloc::Global;

/// What such a variable is for. The names that those of a role get where they are free begin with the same letters.
#[derive(Clone, Copy, PartialEq, Eq, Hash, Debug)]
pub enum Role {
    /// The adjoint of an assignment or of a part of its right side: `ADW1`, `ADW2`, .. In a tangent unit the tangent of such a part: `ADY1`, `ADY2`, ..
    Work,
    /// An operand whose value is used: `ADZ1`, `ADZ2`, ..
    Temp,
    /// The control word that was popped, `ADC`: a unit has one, whose number is 0.
    Control,
    /// The first value of a loop, by its depth: `ADM1`, `ADM2`, ..
    First,
    /// The step of a loop: `ADI1`, `ADI2`, ..
    Stride,
    /// The number of a loop's turns: `ADL1`, `ADL2`, ..
    Count,
    /// The turn of a loop that is gone through backward: `ADJ1`, `ADJ2`, ..
    Turn,
    /// The entry of a reversal's list of actions: `ADK1`, `ADK2`, ..
    Entry,
    /// The number of a reversal's actions: `ADN1`, `ADN2`, ..
    Entries,
    /// The kind of an action: `ADA1`, `ADA2`, ..
    Kind,
    /// The lower of an action's two places: `ADF1`, `ADF2`, ..
    Lower,
    /// The upper of an action's two places: `ADT1`, `ADT2`, ..
    Upper,
    /// A reversal's number of snapshots, where a variable gives it: `ADS1`, `ADS2`, ..
    Slots,
}

/// One of these variables: what it is for, and its number.
#[derive(Clone, Copy, PartialEq, Eq, Hash, Debug)]
pub struct Helper {
    pub role: Role,
    pub number: usize,
}

impl Role {
    // A number for each role.
    fn code(self) -> u8
        ensures code { result ≡ role_code (role_of self) }
    {
        match self {
            Role::Work => 0,
            Role::Temp => 1,
            Role::Control => 2,
            Role::First => 3,
            Role::Stride => 4,
            Role::Count => 5,
            Role::Turn => 6,
            Role::Entry => 7,
            Role::Entries => 8,
            Role::Kind => 9,
            Role::Lower => 10,
            Role::Upper => 11,
            Role::Slots => 12,
        }
    }

    // How the names of the role begin.
    fn letters(self, derived: Derived) -> &'static [u8]
        ensures letters { result.now ≡ letters_for (derived_of derived) (role_of self) }
    {
        match self {
            Role::Work => derived.work_letters(),
            Role::Temp => b"ADZ",
            Role::Control => b"ADC",
            Role::First => b"ADM",
            Role::Stride => b"ADI",
            Role::Count => b"ADL",
            Role::Turn => b"ADJ",
            Role::Entry => b"ADK",
            Role::Entries => b"ADN",
            Role::Kind => b"ADA",
            Role::Lower => b"ADF",
            Role::Upper => b"ADT",
            Role::Slots => b"ADS",
        }
    }
}

impl Helper {
    /// The name that it gets where that is free.
    pub fn wanted(&self, alloc: Global, derived: Derived) -> Result<Name, Memory>
        ensures name { IfOk result (λ y. y ≡ wanted_for (derived_of derived) (variable_of self.now)) }
    {
        let front = self.role.letters(derived);
        match self.role {
            Role::Control => { Name::from_slice(alloc, front) }
            _ => { with_number(alloc, front, self.number) }
        }
    }

    /// A name that no text has, one for each.
    pub fn outside(&self, alloc: Global) -> Result<Name, Memory>
        ensures name { IfOk result (λ y. y ≡ outside (variable_of self.now)) }
    {
        with_number(alloc, &[0, 2, self.role.code()], self.number)
    }
}

/// The helpers of a role with the first numbers, from 1, behind the others.
pub fn push_helpers(made: &mut Vec<Helper>, role: Role, count: usize) -> Result<(), Memory>
    ensures helpers { OnOk result (map variable_of made.new.items ≡ map variable_of made.old.items ++ helpers_from (role_of role) 1 count) }
{
    for done in 0..count {
        made.push(Helper {
            role,
            number: done + 1,
        })?;
    }
    Ok(())
}
