//! What statements use, hand back and pass.

ghost use Rattle.std.specs.Prelude.{◌≡◌, ◌++◌, OnOk};
ghost use Rattle.adj_tree.specs.View.{act_of};
ghost use Rattle.adj_live.specs.Passed.{used_by, handed_by, passed_by};
ghost use Rattle.adj_live.specs.View.{here_at};
ghost use Rattle.adj_symbols_writes.specs.View.{vars_seen};

use crate::known::Site;
use adj_flow::sides::row;
use adj_flow::variables::add_passed;
use adj_symbols_writes::variables::{
    add_handed, add_mark, add_read, add_term, add_terms, add_test,
};
use adj_tree::{Act, Memory, Name};

/// Adds what a statement uses where it is kept.
pub(crate) fn add_used_by<'n>(
    site: Site<'_, '_>,
    act: &'n Act,
    names: &mut Vec<&'n Name>,
) -> Result<(), Memory>
    ensures added { OnOk result (vars_seen names.new.items ≡ vars_seen names.old.items ++ used_by (here_at site.entry).read (act_of act.now)) }
{
    match act {
        Act::Assign(target, right) => {
            add_term(right, names)?;
            add_terms(&target.subs, names)
        }
        Act::If(test, _, _) | Act::While(test, _) => add_test(test, names),
        Act::Loop(_, first, last, by, _, mark) => {
            add_term(first, names)?;
            add_term(last, names)?;
            add_term(by, names)?;
            add_mark(mark, names)
        }
        Act::Call(name, actuals) => {
            let read = row(site.known.sides.read, site.known.units.numbers, name);
            add_read(read, actuals, names)
        }
        Act::Run(_) => Ok(()),
    }
}

/// Adds what a call may write.
pub(crate) fn add_handed_by<'n>(
    site: Site<'_, '_>,
    act: &'n Act,
    names: &mut Vec<&'n Name>,
) -> Result<(), Memory>
    ensures added { OnOk result (vars_seen names.new.items ≡ vars_seen names.old.items ++ handed_by (here_at site.entry).written (act_of act.now)) }
{
    match act {
        Act::Call(name, actuals) => {
            let written = row(site.known.sides.written, site.known.units.numbers, name);
            add_handed(written, actuals, names)
        }
        Act::Assign(_, _)
        | Act::If(_, _, _)
        | Act::Loop(_, _, _, _, _, _)
        | Act::While(_, _)
        | Act::Run(_) => Ok(()),
    }
}

/// Adds what a call passes to dummies that are read.
pub(crate) fn add_passed_by<'n>(
    site: Site<'_, '_>,
    act: &'n Act,
    names: &mut Vec<&'n Name>,
) -> Result<(), Memory>
    ensures added { OnOk result (vars_seen names.new.items ≡ vars_seen names.old.items ++ passed_by (here_at site.entry).read (act_of act.now)) }
{
    match act {
        Act::Call(name, actuals) => {
            let read = row(site.known.sides.read, site.known.units.numbers, name);
            add_passed(read, actuals, names)
        }
        Act::Assign(_, _)
        | Act::If(_, _, _)
        | Act::Loop(_, _, _, _, _, _)
        | Act::While(_, _)
        | Act::Run(_) => Ok(()),
    }
}
