//! CALLs in which one variable is named by two actuals, and CALLs in which no variable is named for a dummy that is written.

ghost use Rattle.std.specs.Prelude.{◌≡◌, [], ℕ, map, flat_map, IfOk, OnOk};
ghost use Rattle.adj_tree.specs.View.{term_of, terms_of, act_of, procedure_of};
ghost use Rattle.def_meaning.specs.LeastSet.{row_of};
ghost use Rattle.def_names.specs.Calls.{call_in};
ghost use Rattle.def_names.specs.Fault.{fault, faults_if, first_of, sooner};
ghost use Rattle.def_names.specs.WriteFaults.{is_whole_array, have_clash, shared_variables, hands_back_values, written_values};
ghost use Rattle.adj_symbols.specs.Sharing.{Named, and_named, is_met, tests_of, and_actual, meets, some_meets};

use crate::first::First;
use crate::outline::Outline;
use crate::scope::Scope;
use crate::written::{Written, variable};
use adj_sets::BorrowedNames;
use adj_tree::{Act, Code, Expr, Exprs, Memory, Name};
use std::alloc::Global;
use std::marker::Model;

/// The variables that actuals of a CALL name so far: all, those for dummies that are written, and those that are whole arrays.
struct Actuals<'a> {
    seen: BorrowedNames<'a>,
    written: BorrowedNames<'a>,
    arrays: BorrowedNames<'a>,
}

impl Drop for Actuals<'_> {
    fn drop(self) {
        let Actuals {
            seen: _seen,
            written: _written,
            arrays: _arrays,
        } = self;
    }
}

impl<'a> Model for Actuals<'a> {
    ghost Value = { Named };

    ghost view = { λ a. record { seen = a.seen; written = a.written; arrays = a.arrays } };
}

impl<'a> Actuals<'a> {
    fn new(alloc: Global) -> Result<Actuals<'a>, Memory>
        ensures none { IfOk result (λ a. a ≡ record { seen = []; written = []; arrays = [] }) }
    {
        let seen = BorrowedNames::new(alloc)?;
        let written = BorrowedNames::new(alloc)?;
        let arrays = BorrowedNames::new(alloc)?;
        Ok(Actuals {
            seen,
            written,
            arrays,
        })
    }

    // Whether an actual clashes with one of these.
    fn meets(&self, name: &Name, is_written: bool, is_array: bool) -> bool
        ensures met { result ≡ is_met self.now name.now is_written is_array }
    {
        (self.seen.contains(name) && is_written)
            || self.written.contains(name)
            || (is_array && self.arrays.contains(name))
    }

    // One more actual.
    fn add(&mut self, name: &'a Name, is_written: bool, is_array: bool) -> Result<(), Memory>
        ensures added { OnOk result (self.new ≡ and_named self.old name.now is_written is_array) }
    {
        self.seen.insert(name)?;
        if is_written {
            self.written.insert(name)?;
        }
        if is_array {
            self.arrays.insert(name)?;
        }
        Ok(())
    }
}

// Whether an actual is a whole array.
fn is_whole_array(caller: &Outline<'_>, actual: &Expr) -> bool
    ensures { result ≡ is_whole_array (procedure_of caller.now) (term_of actual.now) }
{
    match actual {
        Expr::Var(name) => caller.rank(name) != 0,
        Expr::Lit(_)
        | Expr::Elem(_, _)
        | Expr::Neg(_)
        | Expr::Bin(_, _, _)
        | Expr::Pow(_, _)
        | Expr::Power(_, _)
        | Expr::Abs(_) => false,
    }
}

// Looks at one more actual: whether it clashes with one before it.
fn clashes<'a>(
    known: &mut Actuals<'a>,
    caller: &Outline<'_>,
    is_written: bool,
    actual: &'a Expr,
) -> Result<bool, Memory>
    ensures clashes { IfOk result (λ b. b ≡ meets (procedure_of caller.now) (tests_of known.old) is_written (term_of actual.now)) }
    ensures known { OnOk result (tests_of known.new ≡ and_actual (procedure_of caller.now) (tests_of known.old) is_written (term_of actual.now)) }
{
    let Some(name) = variable(actual) else {
        return Ok(false);
    };
    let is_array = is_whole_array(caller, actual);
    let is_met = known.meets(name, is_written, is_array);
    known.add(name, is_written, is_array)?;
    Ok(is_met)
}

// Whether some actual clashes with one of those that are known, or with one before it.
fn some_clash<'a>(
    known: &mut Actuals<'a>,
    caller: &Outline<'_>,
    row: &[bool],
    actuals: &'a Exprs,
) -> Result<bool, Memory>
    ensures { IfOk result (λ b. b ≡ some_meets (procedure_of caller.now) (tests_of known.old) row.now (terms_of actuals.now)) }
{
    let mut rest = actuals;
    for is_written in row {
        match rest {
            Exprs::Empty => return Ok(false),
            Exprs::More(first, next) => {
                if clashes(known, caller, *is_written, first)? {
                    return Ok(true);
                }
                rest = next;
            }
        }
    }
    Ok(false)
}

// Whether some two actuals clash: they name one variable, and one of the dummies is written or both are whole arrays.
fn have_clash<'a>(
    alloc: Global,
    caller: &Outline<'_>,
    row: &[bool],
    actuals: &'a Exprs,
) -> Result<bool, Memory>
    ensures { IfOk result (λ b. b ≡ have_clash (procedure_of caller.now) row.now (terms_of actuals.now)) }
{
    let mut known = Actuals::new(alloc)?;
    let found = some_clash(&mut known, caller, row, actuals)?;
    Ok(found)
}

// Whether a statement is a CALL with such actuals.
fn shares(
    alloc: Global,
    scope: &Scope<'_>,
    written: &Written,
    caller: &Outline<'_>,
    act: &Act,
) -> Result<bool, Memory>
    ensures { IfOk result (λ b. (line : ℕ) → faults_if b (fault 17 line) ≡ flat_map (λ c. faults_if (have_clash (procedure_of caller.now) (row_of (map procedure_of scope.now) written.now c.0) c.1) (fault 17 line)) (call_in (act_of act.now))) }
{
    match act {
        Act::Call(name, actuals) => have_clash(alloc, caller, written.row(scope, name), actuals),
        Act::Assign(_, _)
        | Act::If(_, _, _)
        | Act::Loop(_, _, _, _, _, _)
        | Act::While(_, _)
        | Act::Run(_) => Ok(false),
    }
}

/// Adds a fault at each CALL with two actuals that clash.
pub(crate) fn add_shared_variables(
    alloc: Global,
    scope: &Scope<'_>,
    written: &Written,
    caller: &Outline<'_>,
    first: &mut First,
) -> Result<(), Memory>
    ensures { OnOk result (first.new ≡ sooner first.old (first_of (shared_variables (row_of (map procedure_of scope.now) written.now) (procedure_of caller.now)))) }
{
    for stmt in caller.statements() {
        let is_shared = shares(alloc, scope, written, caller, &stmt.act)?;
        first.add_if(is_shared, Code::Aliasing, stmt.line);
    }
    Ok(())
}

// Whether an actual that is neither a name nor an element stands for a dummy that is written.
fn hands_back_values(row: &[bool], actuals: &Exprs) -> bool
    ensures { result ≡ hands_back_values row.now (terms_of actuals.now) }
{
    let mut rest = actuals;
    for is_written in row {
        match rest {
            Exprs::Empty => return false,
            Exprs::More(first, next) => {
                if *is_written && variable(first).is_none() {
                    return true;
                }
                rest = next;
            }
        }
    }
    false
}

// Whether a statement is a CALL with such an actual.
fn writes_values(scope: &Scope<'_>, written: &Written, act: &Act) -> bool
    ensures { (line : ℕ) → faults_if result (fault 24 line) ≡ flat_map (λ c. faults_if (hands_back_values (row_of (map procedure_of scope.now) written.now c.0) c.1) (fault 24 line)) (call_in (act_of act.now)) }
{
    match act {
        Act::Call(name, actuals) => hands_back_values(written.row(scope, name), actuals),
        Act::Assign(_, _)
        | Act::If(_, _, _)
        | Act::Loop(_, _, _, _, _, _)
        | Act::While(_, _)
        | Act::Run(_) => false,
    }
}

/// Adds a fault at each CALL with such an actual.
pub(crate) fn add_written_values(
    scope: &Scope<'_>,
    written: &Written,
    caller: &Outline<'_>,
    first: &mut First,
)
    ensures { first.new ≡ sooner first.old (first_of (written_values (row_of (map procedure_of scope.now) written.now) (procedure_of caller.now))) }
{
    for stmt in caller.statements() {
        first.add_if(
            writes_values(scope, written, &stmt.act),
            Code::WrittenValue,
            stmt.line,
        );
    }
}
