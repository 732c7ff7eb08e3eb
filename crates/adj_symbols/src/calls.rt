//! The faults of calls: units that aren't there, and actuals that don't fit dummies.

ghost use Rattle.std.specs.Prelude.{◌≡◌, ◌==◌, [], ◌∷◌, ℕ, map, flat_map, if◌then◌else◌};
ghost use Rattle.adj_tree.specs.View.{term_of, terms_of, runtime_of, act_of, procedure_of};
ghost use Rattle.def_meaning.specs.Written.{find_unit};
ghost use Rattle.def_names.specs.Reserved.{is_runtime};
ghost use Rattle.def_names.specs.CallFaults.{variable_rank, is_actual_for, are_actuals_for, array_arguments, faults_of_unit_call, faults_of_call, call_faults};
ghost use Rattle.def_names.specs.Fault.{fault, faults_if, first_of, sooner};
ghost use Rattle.def_names.specs.Statements.{statements};
ghost use Rattle.adj_symbols.specs.Scope.{faults_with};

use crate::first::First;
use crate::outline::Outline;
use crate::scope::Scope;
use adj_tree::{Act, Code, Expr, Exprs, Name, RunCall};
use def_names::is_runtime;

// Whether an actual may stand for a dummy of that rank.
fn is_actual_for(caller: &Outline<'_>, rank: usize, actual: &Expr) -> bool
    ensures { result ≡ is_actual_for (procedure_of caller.now) rank (term_of actual.now) }
{
    match actual {
        Expr::Var(name) => caller.rank(name) == rank,
        Expr::Lit(_)
        | Expr::Elem(_, _)
        | Expr::Neg(_)
        | Expr::Bin(_, _, _)
        | Expr::Pow(_, _)
        | Expr::Power(_, _)
        | Expr::Abs(_) => rank == 0,
    }
}

// Whether there is one actual for each dummy of the called unit.
fn are_actuals_for(caller: &Outline<'_>, called: &Outline<'_>, actuals: &Exprs) -> bool
    ensures { result ≡ are_actuals_for (procedure_of caller.now) (procedure_of called.now) called.now.dummies (terms_of actuals.now) }
{
    let mut rest = actuals;
    for dummy in called.unit().dummies.as_slice() {
        match rest {
            Exprs::Empty => return false,
            Exprs::More(first, next) => {
                if !is_actual_for(caller, called.rank(dummy), first) {
                    return false;
                }
                rest = next;
            }
        }
    }
    matches!(rest, Exprs::Empty)
}

// The fault of a CALL.
fn unit_call_fault(
    scope: &Scope<'_>,
    caller: &Outline<'_>,
    name: &Name,
    actuals: &Exprs,
) -> Option<Code>
    ensures { (line : ℕ) → faults_with result line ≡ (if is_runtime name.now then fault 15 line ∷ [] else faults_of_unit_call (procedure_of caller.now) (find_unit (map procedure_of scope.now) name.now) line (terms_of actuals.now)) }
{
    if is_runtime(name) {
        return Some(Code::Actuals);
    }
    match scope.find(name) {
        None => Some(Code::MissingUnit),
        Some(called) => {
            if are_actuals_for(caller, called, actuals) {
                None
            } else {
                Some(Code::Actuals)
            }
        }
    }
}

// The fault of a runtime call, whose array arguments are arrays.
fn runtime_fault(caller: &Outline<'_>, call: &RunCall) -> Option<Code>
    ensures { (line : ℕ) → faults_with result line ≡ flat_map (λ x. faults_if (variable_rank (procedure_of caller.now) x == 0) (fault 15 line)) (array_arguments (runtime_of call.now)) }
{
    match call {
        RunCall::PushArray(name) | RunCall::PopArray(name) | RunCall::Zero(name) => {
            if caller.rank(name) == 0 {
                Some(Code::Actuals)
            } else {
                None
            }
        }
        RunCall::PushWord(_)
        | RunCall::PopWord(_)
        | RunCall::PushControl(_)
        | RunCall::PopControl(_)
        | RunCall::Begin(_, _)
        | RunCall::Actions(_, _, _)
        | RunCall::Action(_, _, _, _, _, _)
        | RunCall::End => None,
    }
}

// The fault of a statement as a call.
fn call_fault(scope: &Scope<'_>, caller: &Outline<'_>, act: &Act) -> Option<Code>
    ensures { (line : ℕ) → faults_with result line ≡ faults_of_call (map procedure_of scope.now) (procedure_of caller.now) line (act_of act.now) }
{
    match act {
        Act::Call(name, actuals) => unit_call_fault(scope, caller, name, actuals),
        Act::Run(call) => runtime_fault(caller, call),
        Act::Assign(_, _) | Act::If(_, _, _) | Act::Loop(_, _, _, _, _, _) | Act::While(_, _) => {
            None
        }
    }
}

// Adds the faults of the calls in a unit.
fn add_unit_calls(scope: &Scope<'_>, caller: &Outline<'_>, first: &mut First)
    ensures { first.new ≡ sooner first.old (first_of (flat_map (λ s. faults_of_call (map procedure_of scope.now) (procedure_of caller.now) s.0 s.1) (statements (procedure_of caller.now).body))) }
{
    for stmt in caller.statements() {
        first.add_some(call_fault(scope, caller, &stmt.act), stmt.line);
    }
}

/// Adds the faults of all calls.
pub(crate) fn add_calls(scope: &Scope<'_>, first: &mut First)
    ensures { first.new ≡ sooner first.old (first_of (call_faults (map procedure_of scope.now))) }
{
    for caller in scope.outlines() {
        add_unit_calls(scope, caller, first);
    }
}
