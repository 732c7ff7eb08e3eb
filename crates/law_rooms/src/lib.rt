//! What limits mean for runs, the room of a tape and a number of statements: definitions and laws, no code.
//!
//! `specs/Rooms` says that a run which doesn't find its tape full is the run on a tape without a limit, `specs/Adjoints` what runs of
//! an adjoint come to with limits, and `specs/Advances` how many steps their reversals advance. The crate stands on the meaning of
//! programs (`def_meaning`) and on what an adjoint is (`law_emitted`). The layer above, which runs an adjoint, uses `balance_law` and
//! `advance_law`.
#![tactic(auto)]

ghost use Rattle.law_meaning.specs.Laws.{ForBoth};
ghost use Rattle.law_rooms.specs.Adjoints.{AdjointsBalance};
ghost use Rattle.law_rooms.specs.Advances.{AdjointsAdvance};
ghost use Rattle.law_rooms.specs.Rooms.{RoomIsEnough};

/// A run that doesn't find its tape full ends as it ends on a tape without a limit.
pub fn room_laws()
    ensures enough { ForBoth RoomIsEnough }
{}

/// Where the run of a head is done, its adjoint and its dual run never trap, and where they are done their products are equal.
pub fn balance_law()
    ensures balance { AdjointsBalance }
{}

/// Where the run of a head is done, and that of its adjoint, the adjoint's advances by the least costs of the head's runs of the loops that are
/// reversed by schedules, together.
pub fn advance_law()
    ensures { AdjointsAdvance }
{}
