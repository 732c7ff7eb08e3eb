//! The check of a program: its first fault, pass by pass.

ghost use Rattle.std.specs.Prelude.{◌≡◌, Some, None, map, IfOk, IfErr};
ghost use Rattle.adj_tree.specs.View.{procedure_of, procedures_of};
ghost use Rattle.def_meaning.specs.LeastSet.{least_rows};
ghost use Rattle.def_meaning.specs.Read.{read_rule};
ghost use Rattle.def_meaning.specs.Written.{write_rule};
ghost use Rattle.def_text.specs.Written.{IsWritten};
ghost use Rattle.def_names.specs.CallFaults.{call_faults};
ghost use Rattle.def_names.specs.ChainFaults.{chain_faults};
ghost use Rattle.def_names.specs.Check.{first_fault, IsSound};
ghost use Rattle.def_names.specs.Fault.{first_of};
ghost use Rattle.def_names.specs.NameFaults.{name_faults};
ghost use Rattle.def_names.specs.UnitFaults.{unit_faults};
ghost use Rattle.def_names.specs.Variables.{variables};
ghost use Rattle.def_names.specs.WriteFaults.{write_faults};
ghost use Rattle.adj_symbols.specs.Checked.{IfRefused, IsWrittenIfNamed};
ghost use Rattle.adj_symbols.specs.Rules.{rules_of, rules_for};

use crate::calls::add_calls;
use crate::chains::chain_fault;
use crate::checked::Checked;
use crate::first::First;
use crate::places::add_unit_faults;
use crate::rules::Rules;
use crate::scope::Scope;
use crate::unit_names::add_names;
use crate::write_faults::add_writes;
use crate::written::{Written, handed_back};
use adj_symbols_writes::read_dummies;
use adj_tree::{Fault, Flags, NameList, Program, Refusal, Unit};
use def_text::Mode;
use std::alloc::Global;

/// Stops at a fault, where there is one.
pub(crate) fn stop_at(found: Option<Refusal>) -> Result<(), Fault>
    ensures passes { IfOk result (λ _. found ≡ None) }
    ensures refused { IfErr result (λ f. IfRefused f (λ e. found ≡ Some e)) }
{
    match found {
        None => Ok(()),
        Some(refusal) => Err(Fault::Refused(refusal)),
    }
}

// The names of units.
fn check_units(alloc: Global, units: &[Unit]) -> Result<(), Fault>
    ensures passes { IfOk result (λ _. first_of (unit_faults (map procedure_of units.now)) ≡ None) }
    ensures refused { IfErr result (λ f. IfRefused f (λ e. first_of (unit_faults (map procedure_of units.now)) ≡ Some e)) }
{
    let mut first = First::new();
    add_unit_faults(alloc, units, &mut first)?;
    stop_at(first.fault())
}

// The names in units, and so their variables.
fn check_names(alloc: Global, rules: Rules, scope: &Scope<'_>) -> Result<Vec<NameList>, Fault>
    ensures passes { IfOk result (λ _. first_of (name_faults (rules_of rules) (map procedure_of scope.now)) ≡ None) }
    ensures variables { IfOk result (λ v. v.items ≡ map variables (map procedure_of scope.now)) }
    ensures refused { IfErr result (λ f. IfRefused f (λ e. first_of (name_faults (rules_of rules) (map procedure_of scope.now)) ≡ Some e)) }
{
    let mut first = First::new();
    let variables = add_names(alloc, rules, scope, &mut first)?;
    stop_at(first.fault())?;
    Ok(variables)
}

// The calls.
fn check_calls(scope: &Scope<'_>) -> Result<(), Fault>
    ensures passes { IfOk result (λ _. first_of (call_faults (map procedure_of scope.now)) ≡ None) }
    ensures refused { IfErr result (λ f. IfRefused f (λ e. first_of (call_faults (map procedure_of scope.now)) ≡ Some e)) }
{
    let mut first = First::new();
    add_calls(scope, &mut first);
    stop_at(first.fault())
}

// The chains of calls.
fn check_chains(alloc: Global, rules: Rules, scope: &Scope<'_>) -> Result<(), Fault>
    ensures passes { IfOk result (λ _. first_of (chain_faults (rules_of rules) (map procedure_of scope.now)) ≡ None) }
    ensures refused { IfErr result (λ f. IfRefused f (λ e. first_of (chain_faults (rules_of rules) (map procedure_of scope.now)) ≡ Some e)) }
{
    let found = chain_fault(alloc, rules, scope)?;
    stop_at(found)
}

// What statements write, and so which of their dummies units write.
fn check_writes(alloc: Global, scope: &Scope<'_>, units: &[Unit]) -> Result<Written, Fault>
    requires units { units.now ≡ scope.now }
    ensures passes { IfOk result (λ _. first_of (write_faults (map procedure_of scope.now)) ≡ None) }
    ensures writes { IfOk result (λ w. w ≡ least_rows write_rule (map procedure_of scope.now)) }
    ensures refused { IfErr result (λ f. IfRefused f (λ e. first_of (write_faults (map procedure_of scope.now)) ≡ Some e)) }
{
    let written = handed_back(alloc, units)?;
    let mut first = First::new();
    add_writes(alloc, scope, &written, &mut first)?;
    stop_at(first.fault())?;
    Ok(written)
}

// What is known of checked units: their variables, and which of their dummies they write and read.
#[derive(Drop)]
struct Facts {
    variables: Vec<NameList>,
    writes: Vec<Flags>,
    reads: Vec<Flags>,
}

// All passes over the units, whose tables are known. A later one is looked at only where the earlier ones have no fault.
fn check_known(
    alloc: Global,
    rules: Rules,
    units: &[Unit],
    scope: &Scope<'_>,
) -> Result<Facts, Fault>
    requires units { units.now ≡ scope.now }
    ensures sound { IfOk result (λ _. IsSound (rules_of rules) (map procedure_of units.now)) }
    ensures variables { IfOk result (λ f. f.variables.items ≡ map variables (map procedure_of units.now)) }
    ensures writes { IfOk result (λ f. f.writes.items ≡ least_rows write_rule (map procedure_of units.now)) }
    ensures reads { IfOk result (λ f. f.reads.items ≡ least_rows read_rule (map procedure_of units.now)) }
    ensures refused { IfErr result (λ f. IfRefused f (λ e. first_fault (rules_of rules) (map procedure_of units.now) ≡ Some e)) }
{
    check_units(alloc, units)?;
    let variables = check_names(alloc, rules, scope)?;
    check_calls(scope)?;
    check_chains(alloc, rules, scope)?;
    let written = check_writes(alloc, scope, units)?;
    let reads = read_dummies(alloc, units)?;
    Ok(Facts {
        variables,
        writes: written.into_rows(),
        reads,
    })
}

// The same for units whose tables are made here.
fn check_all(alloc: Global, rules: Rules, units: &[Unit]) -> Result<Facts, Fault>
    ensures sound { IfOk result (λ _. IsSound (rules_of rules) (map procedure_of units.now)) }
    ensures variables { IfOk result (λ f. f.variables.items ≡ map variables (map procedure_of units.now)) }
    ensures writes { IfOk result (λ f. f.writes.items ≡ least_rows write_rule (map procedure_of units.now)) }
    ensures reads { IfOk result (λ f. f.reads.items ≡ least_rows read_rule (map procedure_of units.now)) }
    ensures refused { IfErr result (λ f. IfRefused f (λ e. first_fault (rules_of rules) (map procedure_of units.now) ≡ Some e)) }
{
    let scope = Scope::new(alloc, units)?;
    let facts = check_known(alloc, rules, units, &scope)?;
    Ok(facts)
}

/// The program with its variables and with the dummies that its units write and read, or the first fault of its units (codes 18 and 19),
/// names (7, 8, 9, 12, 18 and 21), calls (14 and 15), chains (16 and 21) and writes (11, 13, 17 and 24). docs/REFUSALS.md says each in words.
pub fn check(alloc: Global, program: Program, mode: Mode) -> Result<Checked, Fault>
    requires written { IsWrittenIfNamed (procedures_of program) }
    ensures written { IfOk result (λ _. IsWritten (procedures_of program)) }
    ensures sound { IfOk result (λ _. IsSound (rules_for mode) (procedures_of program)) }
    ensures program { IfOk result (λ c. c.program ≡ program) }
    ensures variables { IfOk result (λ c. c.variables ≡ map variables (procedures_of program)) }
    ensures writes { IfOk result (λ c. c.writes ≡ least_rows write_rule (procedures_of program)) }
    ensures reads { IfOk result (λ c. c.reads ≡ least_rows read_rule (procedures_of program)) }
    ensures refused { IfErr result (λ f. IfRefused f (λ e. first_fault (rules_for mode) (procedures_of program) ≡ Some e)) }
{
    let rules = Rules::new(mode);
    let facts = check_all(alloc, rules, program.units.as_slice())?;
    Ok(Checked::new(program, facts.variables, facts.writes, facts.reads))
}
