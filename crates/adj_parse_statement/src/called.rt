//! Calls of the runtime, by their names and the form of their actuals.

ghost use Rattle.std.specs.Prelude.{◌≡◌, map, IfOk, option_map};
ghost use Rattle.adj_tree.specs.Code.{give_action, plain, name_eq};
ghost use Rattle.adj_tree.specs.Listed.{terms_listed};
ghost use Rattle.adj_tree.specs.View.{term_of, terms_of, runtime_of, act_of};
ghost use Rattle.def_text.specs.Statement.{as_value, as_beginning, as_count, as_action, as_nothing};
ghost use Rattle.adj_parse_statement.specs.Called.{name_of, names_of, place_of, only_of, lexeme_name, control_name, schedule_name, runtime_name, with_actuals, call_of};

use adj_tree::{Act, Expr, Exprs, Memory, Name, Place, RunCall};
use std::alloc::Global;

/// What the runtime's calls are named for.
#[derive(Clone, Copy)]
enum RuntimeName {
    PushWord,
    PopWord,
    PushArray,
    PopArray,
    PushControl,
    PopControl,
    Zero,
    Begin,
    Actions,
    Action,
    End,
}

fn is_named(name: &[u8], lexeme: &[u8]) -> bool
    ensures { result ≡ name_eq name.now lexeme.now }
{
    name == lexeme
}

// The name that an actual is.
fn name_of(alloc: Global, actual: &Expr) -> Result<Option<Name>, Memory>
    ensures { IfOk result (λ found. option_map plain found ≡ name_of (term_of actual.now)) }
{
    match actual {
        Expr::Var(name) => Ok(Some(name.copy(alloc)?)),
        _ => Ok(None),
    }
}

// The place that an actual is.
fn place_of(alloc: Global, actual: &Expr) -> Result<Option<Place>, Memory>
    ensures { IfOk result (λ found. option_map (λ p. (plain p.name, terms_of p.subs)) found ≡ place_of (term_of actual.now)) }
{
    match actual {
        Expr::Var(name) => Ok(Some(Place {
            name: name.copy(alloc)?,
            subs: Exprs::Empty,
        })),
        Expr::Elem(name, subs) => Ok(Some(Place {
            name: name.copy(alloc)?,
            subs: subs.copy(alloc)?,
        })),
        _ => Ok(None),
    }
}

// The place that is the only actual.
#[tactic(auto, using(crate::proofs::Runtime::not_one))]
fn only_place(alloc: Global, actuals: &[Expr]) -> Result<Option<Place>, Memory>
    ensures { IfOk result (λ found. option_map (λ p. (plain p.name, terms_of p.subs)) found ≡ only_of place_of (terms_listed (map term_of actuals.now))) }
{
    match actuals {
        [actual] => place_of(alloc, actual),
        _ => Ok(None),
    }
}

// The name that is the only actual.
#[tactic(auto, using(crate::proofs::Runtime::not_one))]
fn only_name(alloc: Global, actuals: &[Expr]) -> Result<Option<Name>, Memory>
    ensures { IfOk result (λ found. option_map plain found ≡ only_of name_of (terms_listed (map term_of actuals.now))) }
{
    match actuals {
        [actual] => name_of(alloc, actual),
        _ => Ok(None),
    }
}

// `ADBEG`, where its actuals are two values.
#[tactic(auto, using(crate::proofs::Runtime::not_two))]
fn begin(alloc: Global, actuals: &[Expr]) -> Result<Option<RunCall>, Memory>
    ensures { IfOk result (λ found. option_map runtime_of found ≡ as_beginning (terms_listed (map term_of actuals.now))) }
{
    match actuals {
        [steps, snapshots] => Ok(Some(RunCall::Begin(
            steps.copy_boxed(alloc)?,
            snapshots.copy_boxed(alloc)?,
        ))),
        _ => Ok(None),
    }
}

// `ADACTN`, where its actuals are two values and a name.
#[tactic(auto, using(crate::proofs::Runtime::not_three, crate::proofs::Runtime::as_count_three))]
fn actions(alloc: Global, actuals: &[Expr]) -> Result<Option<RunCall>, Memory>
    ensures { IfOk result (λ found. option_map runtime_of found ≡ as_count (terms_listed (map term_of actuals.now))) }
{
    let [steps, snapshots, number] = actuals else {
        return Ok(None);
    };
    let Some(number) = name_of(alloc, number)? else {
        return Ok(None);
    };
    let steps = steps.copy_boxed(alloc)?;
    Ok(Some(RunCall::Actions(steps, snapshots.copy_boxed(alloc)?, number)))
}

// The variables of `ADACT`.
struct Places {
    kind: Name,
    from: Name,
    to: Name,
}

impl Places {
    // `ADACT` of three values and these variables.
    fn into_action(self, steps: Box<Expr>, snapshots: Box<Expr>, number: Box<Expr>) -> RunCall
        ensures { runtime_of result ≡ give_action (term_of steps.value) (term_of snapshots.value) (term_of number.value) (plain self.kind) (plain self.from) (plain self.to) }
    {
        let Places { kind, from, to } = self;
        RunCall::Action(steps, snapshots, number, kind, from, to)
    }
}

impl Drop for Places {
    fn drop(self) {
        let Places {
            kind: _kind,
            from: _from,
            to: _to,
        } = self;
    }
}

// The names that three actuals are.
fn names_of(alloc: Global, kind: &Expr, from: &Expr, to: &Expr) -> Result<Option<Places>, Memory>
    ensures { IfOk result (λ found. option_map (λ p. (plain p.kind, plain p.from, plain p.to)) found ≡ names_of (term_of kind.now) (term_of from.now) (term_of to.now)) }
{
    let Some(kind) = name_of(alloc, kind)? else {
        return Ok(None);
    };
    let Some(from) = name_of(alloc, from)? else {
        return Ok(None);
    };
    let Some(to) = name_of(alloc, to)? else {
        return Ok(None);
    };
    Ok(Some(Places { kind, from, to }))
}

// Three values on the heap.
fn three_boxed(
    alloc: Global,
    first: &Expr,
    second: &Expr,
    third: &Expr,
) -> Result<(Box<Expr>, Box<Expr>, Box<Expr>), Memory>
    ensures first { IfOk result (λ r. term_of r.0.value ≡ term_of first.now) }
    ensures second { IfOk result (λ r. term_of r.1.value ≡ term_of second.now) }
    ensures third { IfOk result (λ r. term_of r.2.value ≡ term_of third.now) }
{
    let first = first.copy_boxed(alloc)?;
    let second = second.copy_boxed(alloc)?;
    let third = third.copy_boxed(alloc)?;
    Ok((first, second, third))
}

// `ADACT` of three values, where what follows them is three names.
fn asked(
    alloc: Global,
    steps: &Expr,
    snapshots: &Expr,
    number: &Expr,
    kind: &Expr,
    from: &Expr,
    to: &Expr,
) -> Result<Option<RunCall>, Memory>
    ensures { IfOk result (λ found. option_map runtime_of found ≡ option_map (λ p. give_action (term_of steps.now) (term_of snapshots.now) (term_of number.now) p.0 p.1 p.2) (names_of (term_of kind.now) (term_of from.now) (term_of to.now))) }
{
    let Some(places) = names_of(alloc, kind, from, to)? else {
        return Ok(None);
    };
    let (steps, snapshots, number) = three_boxed(alloc, steps, snapshots, number)?;
    Ok(Some(places.into_action(steps, snapshots, number)))
}

// `ADACT`, where its actuals are three values and three names.
#[tactic(auto, using(crate::proofs::Runtime::not_six, crate::proofs::Runtime::as_action_six))]
fn action(alloc: Global, actuals: &[Expr]) -> Result<Option<RunCall>, Memory>
    ensures { IfOk result (λ found. option_map runtime_of found ≡ as_action (terms_listed (map term_of actuals.now))) }
{
    match actuals {
        [steps, snapshots, number, kind, from, to] => {
            asked(alloc, steps, snapshots, number, kind, from, to)
        }
        _ => Ok(None),
    }
}

// `PUSHCONTROL1B`, where its actual is one value.
#[tactic(auto, using(crate::proofs::Runtime::not_value))]
fn push_control(alloc: Global, actuals: &[Expr]) -> Result<Option<RunCall>, Memory>
    ensures { IfOk result (λ found. option_map runtime_of found ≡ as_value (terms_listed (map term_of actuals.now))) }
{
    match actuals {
        [value] => Ok(Some(RunCall::PushControl(value.copy(alloc)?))),
        _ => Ok(None),
    }
}

// `ADEND`, where it has no actuals.
fn end(actuals: &[Expr]) -> Option<RunCall>
    ensures { option_map runtime_of result ≡ as_nothing (terms_listed (map term_of actuals.now)) }
{
    match actuals {
        [] => Some(RunCall::End),
        [_first, ..] => None,
    }
}

// The calls of lexemes and arrays.
#[tactic(auto, unfolding(crate::specs::Called::lexeme_name))]
fn lexeme_name(name: &[u8]) -> Option<RuntimeName>
    ensures { result ≡ lexeme_name name.now }
{
    if is_named(name, b"PUSHINTEGER8") {
        Some(RuntimeName::PushWord)
    } else if is_named(name, b"POPINTEGER8") {
        Some(RuntimeName::PopWord)
    } else if is_named(name, b"PUSHINTEGER8ARRAY") {
        Some(RuntimeName::PushArray)
    } else if is_named(name, b"POPINTEGER8ARRAY") {
        Some(RuntimeName::PopArray)
    } else {
        None
    }
}

// The calls of control lexemes, and zeroing.
#[tactic(auto, unfolding(crate::specs::Called::control_name))]
fn control_name(name: &[u8]) -> Option<RuntimeName>
    ensures { result ≡ control_name name.now }
{
    if is_named(name, b"PUSHCONTROL1B") {
        Some(RuntimeName::PushControl)
    } else if is_named(name, b"POPCONTROL1B") {
        Some(RuntimeName::PopControl)
    } else if is_named(name, b"ADZERO8") {
        Some(RuntimeName::Zero)
    } else {
        None
    }
}

// The calls of schedules.
#[tactic(auto, unfolding(crate::specs::Called::schedule_name))]
fn schedule_name(name: &[u8]) -> Option<RuntimeName>
    ensures { result ≡ schedule_name name.now }
{
    if is_named(name, b"ADBEG") {
        Some(RuntimeName::Begin)
    } else if is_named(name, b"ADACTN") {
        Some(RuntimeName::Actions)
    } else if is_named(name, b"ADACT") {
        Some(RuntimeName::Action)
    } else if is_named(name, b"ADEND") {
        Some(RuntimeName::End)
    } else {
        None
    }
}

// The call of the runtime that has a name.
fn runtime_name(name: &[u8]) -> Option<RuntimeName>
    ensures { result ≡ runtime_name name.now }
{
    lexeme_name(name)
        .or(control_name(name))
        .or(schedule_name(name))
}

// A call of the runtime with these actuals, where they have its form.
#[tactic(auto, using(crate::proofs::Runtime::as_place_only, crate::proofs::Runtime::as_name_only), unfolding(crate::specs::Called::with_actuals))]
fn with_actuals(
    alloc: Global,
    name: RuntimeName,
    actuals: &[Expr],
) -> Result<Option<RunCall>, Memory>
    ensures { IfOk result (λ found. option_map runtime_of found ≡ with_actuals name (terms_listed (map term_of actuals.now))) }
{
    match name {
        RuntimeName::PushWord => Ok(only_place(alloc, actuals)?.map(RunCall::PushWord)),
        RuntimeName::PopWord => Ok(only_place(alloc, actuals)?.map(RunCall::PopWord)),
        RuntimeName::PushArray => Ok(only_name(alloc, actuals)?.map(RunCall::PushArray)),
        RuntimeName::PopArray => Ok(only_name(alloc, actuals)?.map(RunCall::PopArray)),
        RuntimeName::PushControl => push_control(alloc, actuals),
        RuntimeName::PopControl => Ok(only_name(alloc, actuals)?.map(RunCall::PopControl)),
        RuntimeName::Zero => Ok(only_name(alloc, actuals)?.map(RunCall::Zero)),
        RuntimeName::Begin => begin(alloc, actuals),
        RuntimeName::Actions => actions(alloc, actuals),
        RuntimeName::Action => action(alloc, actuals),
        RuntimeName::End => Ok(end(actuals)),
    }
}

/// What a CALL of this name with these actuals does: a call of the runtime, where it has the name and the form of one, else one of a unit.
#[tactic(auto, unfolding(crate::specs::Called::call_of))]
pub(crate) fn called(alloc: Global, name: Name, actuals: Vec<Expr>) -> Result<Act, Memory>
    ensures { IfOk result (λ a. act_of a ≡ call_of name (terms_listed (map term_of actuals.items))) }
{
    let call = match runtime_name(name.bytes()) {
        Some(known) => with_actuals(alloc, known, actuals.as_slice())?,
        None => None,
    };
    match call {
        Some(call) => Ok(Act::Run(call)),
        None => Ok(Act::Call(name, Exprs::from_vec(alloc, actuals)?)),
    }
}
