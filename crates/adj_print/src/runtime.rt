//! Calls of the runtime: their names and actuals.

ghost use Rattle.std.specs.Prelude.{◌≡◌, ◌++◌, ◌∷◌, [], OnOk};
ghost use Rattle.adj_tree.specs.Code.{plain};
ghost use Rattle.adj_tree.specs.View.{term_of, terms_of, runtime_of};
ghost use Rattle.def_text.specs.Text.{bracketed, term_text, place_text, runtime_name, runtime_actuals};

use crate::expression::{push_expr, push_place};
use crate::list::push_name;
use adj_tree::{Expr, Memory, Name, Place, RunCall};

fn runtime_name(call: &RunCall) -> &'static [u8]
    ensures name { result.now ≡ runtime_name (runtime_of call.now) }
{
    match call {
        RunCall::PushWord(_) => b"PUSHINTEGER8",
        RunCall::PopWord(_) => b"POPINTEGER8",
        RunCall::PushArray(_) => b"PUSHINTEGER8ARRAY",
        RunCall::PopArray(_) => b"POPINTEGER8ARRAY",
        RunCall::PushControl(_) => b"PUSHCONTROL1B",
        RunCall::PopControl(_) => b"POPCONTROL1B",
        RunCall::Zero(_) => b"ADZERO8",
        RunCall::Begin(_, _) => b"ADBEG",
        RunCall::Actions(_, _, _) => b"ADACTN",
        RunCall::Action(_, _, _, _, _, _) => b"ADACT",
        RunCall::End => b"ADEND",
    }
}

/// Adds the name of a call of the runtime.
pub fn push_runtime_name(out: &mut Vec<u8>, call: &RunCall) -> Result<(), Memory>
    ensures characters { OnOk result (out.new.items ≡ out.old.items ++ runtime_name (runtime_of call.now)) }
{
    out.extend_from_slice(runtime_name(call))?;
    Ok(())
}

fn push_one_place(out: &mut Vec<u8>, place: &Place) -> Result<(), Memory>
    ensures characters { OnOk result (out.new.items ≡ out.old.items ++ bracketed (place_text (plain place.now.name) (terms_of place.now.subs) ∷ [])) }
{
    out.push(b'(')?;
    push_place(out, place)?;
    out.push(b')')?;
    Ok(())
}

fn push_one_name(out: &mut Vec<u8>, name: &Name) -> Result<(), Memory>
    ensures characters { OnOk result (out.new.items ≡ out.old.items ++ bracketed (name.now ∷ [])) }
{
    out.push(b'(')?;
    push_name(out, name)?;
    out.push(b')')?;
    Ok(())
}

fn push_one_value(out: &mut Vec<u8>, value: &Expr) -> Result<(), Memory>
    ensures characters { OnOk result (out.new.items ≡ out.old.items ++ bracketed (term_text (term_of value.now) ∷ [])) }
{
    out.push(b'(')?;
    push_expr(out, value)?;
    out.push(b')')?;
    Ok(())
}

// Two expressions with the parenthesis before them, and none behind.
fn push_two_values(out: &mut Vec<u8>, first: &Expr, second: &Expr) -> Result<(), Memory>
    ensures characters { OnOk result (out.new.items ≡ out.old.items ++ 40 ∷ term_text (term_of first.now) ++ 44 ∷ term_text (term_of second.now)) }
{
    out.push(b'(')?;
    push_expr(out, first)?;
    out.push(b',')?;
    push_expr(out, second)
}

// Three expressions with the parenthesis before them, and none behind.
fn push_three_values(
    out: &mut Vec<u8>,
    first: &Expr,
    second: &Expr,
    third: &Expr,
) -> Result<(), Memory>
    ensures characters { OnOk result (out.new.items ≡ out.old.items ++ 40 ∷ term_text (term_of first.now) ++ 44 ∷ term_text (term_of second.now) ++ 44 ∷ term_text (term_of third.now)) }
{
    push_two_values(out, first, second)?;
    out.push(b',')?;
    push_expr(out, third)
}

// Three names, each with a comma before it, and the parenthesis behind them.
fn push_three_names(
    out: &mut Vec<u8>,
    first: &Name,
    second: &Name,
    third: &Name,
) -> Result<(), Memory>
    ensures characters { OnOk result (out.new.items ≡ out.old.items ++ 44 ∷ first.now ++ 44 ∷ second.now ++ 44 ∷ third.now ++ 41 ∷ []) }
{
    out.push(b',')?;
    push_name(out, first)?;
    out.push(b',')?;
    push_name(out, second)?;
    out.push(b',')?;
    push_name(out, third)?;
    out.push(b')')?;
    Ok(())
}

/// Adds the actuals of a call of the runtime, in parentheses where there are any.
pub fn push_runtime_actuals(out: &mut Vec<u8>, call: &RunCall) -> Result<(), Memory>
    ensures characters { OnOk result (out.new.items ≡ out.old.items ++ bracketed (runtime_actuals (runtime_of call.now))) }
{
    match call {
        RunCall::PushWord(place) | RunCall::PopWord(place) => push_one_place(out, place),
        RunCall::PushArray(name)
        | RunCall::PopArray(name)
        | RunCall::PopControl(name)
        | RunCall::Zero(name) => push_one_name(out, name),
        RunCall::PushControl(value) => push_one_value(out, value),
        RunCall::Begin(steps, snapshots) => {
            push_two_values(out, steps, snapshots)?;
            out.push(b')')?;
            Ok(())
        }
        RunCall::Actions(steps, snapshots, number) => {
            push_two_values(out, steps, snapshots)?;
            out.push(b',')?;
            push_name(out, number)?;
            out.push(b')')?;
            Ok(())
        }
        RunCall::Action(steps, snapshots, action, kind, from, to) => {
            push_three_values(out, steps, snapshots, action)?;
            push_three_names(out, kind, from, to)?;
            Ok(())
        }
        RunCall::End => Ok(()),
    }
}
