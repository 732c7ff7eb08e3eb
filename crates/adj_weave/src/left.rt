//! What a forward unit leaves on the tape at its end (docs/EMITTED.md, "Split calls").

ghost use Rattle.std.specs.Prelude.{◌≡◌, ◌++◌, ◌∷◌, [], IfOk, OnOk};
ghost use Rattle.adj_weave.specs.Left.{only_read, read_only, unless_among};

use adj_reach::flag_at;
use adj_sets::{NameSet, add_names};
use adj_tree::{Memory, Name};
use std::alloc::Global;

// The name behind the others, unless the unit writes the dummy.
fn add_unwritten(
    alloc: Global,
    dummy: &Name,
    is_written: bool,
    made: &mut Vec<Name>,
) -> Result<(), Memory>
    ensures names { OnOk result (made.new.items ≡ made.old.items ++ only_read is_written (dummy.now ∷ [])) }
{
    if !is_written {
        made.push(dummy.copy(alloc)?)?;
    }
    Ok(())
}

// The dummies that a unit doesn't write, by flags.
fn unwritten(alloc: Global, dummies: &[Name], written: &[bool]) -> Result<Vec<Name>, Memory>
    ensures names { IfOk result (λ v. v.items ≡ read_only dummies.now written.now) }
{
    let mut made = Vec::new(alloc);
    for (k, dummy) in dummies.iter().enumerate() {
        add_unwritten(alloc, dummy, flag_at(written, k), &mut made)?;
    }
    Ok(made)
}

// The name behind the others, unless it is in a set.
fn add_left(alloc: Global, name: &Name, stays: &NameSet, made: &mut Vec<Name>) -> Result<(), Memory>
    ensures names { OnOk result (made.new.items ≡ made.old.items ++ unless_among stays.now (name.now ∷ [])) }
{
    if !stays.has(name.bytes()) {
        made.push(name.copy(alloc)?)?;
    }
    Ok(())
}

// The variables that aren't in a set.
fn others(alloc: Global, stays: &NameSet, variables: &[Name]) -> Result<Vec<Name>, Memory>
    ensures names { IfOk result (λ v. v.items ≡ unless_among stays.now variables.now) }
{
    let mut made = Vec::new(alloc);
    for name in variables {
        add_left(alloc, name, stays, &mut made)?;
    }
    Ok(made)
}

/// The variables of a unit that are left on the tape: all but the dummies that it doesn't write, of which flags tell.
pub fn left(
    alloc: Global,
    dummies: &[Name],
    written: &[bool],
    variables: &[Name],
) -> Result<Vec<Name>, Memory>
    ensures left { IfOk result (λ v. v.items ≡ unless_among (read_only dummies.now written.now) variables.now) }
{
    let kept = unwritten(alloc, dummies, written)?;
    let mut stays = NameSet::new(alloc)?;
    add_names(alloc, &mut stays, kept.as_slice())?;
    let made = others(alloc, &stays, variables)?;
    Ok(made)
}
