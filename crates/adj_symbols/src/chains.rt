//! Chains of calls that are too long.

ghost use Rattle.std.specs.Prelude.{◌≡◌, ◌&&◌, [], ◌∷◌, ℕ, suc, min, map, flat_map, length, nat_le, nat_lt, IfOk, OnOk, if◌then◌else◌};
ghost use Rattle.adj_tree.specs.Code.{Code};
ghost use Rattle.adj_tree.specs.View.{mark_of, act_of, code_of, procedure_of};
ghost use Rattle.def_names.specs.Calls.{is_marked, with_mark, act_chain, chain, chain_from};
ghost use Rattle.def_names.specs.ChainFaults.{begins_chain, long_chains, chain_faults};
ghost use Rattle.def_names.specs.Fault.{passed, faults_if, first_of, sooner};
ghost use Rattle.def_names.specs.Statements.{inner, statements};
ghost use Rattle.def_names.specs.Variables.{Name};
ghost use Rattle.adj_symbols.specs.Chain.{length_of, faults_of_chain, longer};
ghost use Rattle.adj_symbols.specs.Rules.{rules_of};

use crate::cycles::add_cycles;
use crate::first::First;
use crate::outline::Outline;
use crate::rules::Rules;
use crate::scope::Scope;
use adj_tree::{Act, Mark, Memory, Name, Refusal, Stmts};
use std::alloc::Global;
use std::cmp;

// One more, up to a limit.
fn one_more(limit: usize, length: usize) -> usize
    ensures { result ≡ min limit (suc length) }
{
    if length < limit { length + 1 } else { limit }
}

// Whether a DO is marked.
fn is_marked(mark: &Mark) -> bool
    ensures { result ≡ is_marked (mark_of mark.now) }
{
    match mark {
        Mark::Plain => false,
        Mark::Count(_) | Mark::From(_) => true,
    }
}

// Whether a chain begins with a statement: a CALL, or a marked DO.
fn begins_chain(act: &Act) -> bool
    ensures { result ≡ begins_chain (act_of act.now) }
{
    match act {
        Act::Call(_, _) => true,
        Act::Loop(_, _, _, _, _, mark) => is_marked(mark),
        Act::Assign(_, _) | Act::If(_, _, _) | Act::While(_, _) | Act::Run(_) => false,
    }
}

// Whether the chain that begins with a statement has the limit or more.
fn is_too_long(limit: usize, act: &Act, length: usize) -> bool
    ensures { result ≡ (begins_chain (act_of act.now) && nat_le limit length) }
{
    begins_chain(act) && limit <= length
}

// One more where a DO is marked, up to a limit.
fn with_mark(limit: usize, mark: &Mark, length: usize) -> usize
    ensures { result ≡ min limit (with_mark (mark_of mark.now) length) }
{
    if is_marked(mark) {
        one_more(limit, length)
    } else {
        cmp::min(limit, length)
    }
}

// How many units the longest chain has from the unit of a name on, up to a limit.
fn length_of(scope: &Scope<'_>, lengths: &[usize], limit: usize, name: &Name) -> usize
    ensures { result ≡ min limit (length_of (map procedure_of scope.now) lengths.now name.now) }
{
    match scope.number(name) {
        Some(number) => cmp::min(limit, lengths.get(number).copied().unwrap_or(0)),
        None => 0,
    }
}

// Adds a fault at each statement in a statement with which too long a chain begins, and gives how many units the longest
// chain has that begins in it, up to the limit.
#[cycle(chain)]
fn add_inner(
    scope: &Scope<'_>,
    lengths: &[usize],
    limit: usize,
    act: &Act,
    first: &mut First,
) -> usize
    ensures length { result ≡ min limit (act_chain (length_of (map procedure_of scope.now) lengths.now) (act_of act.now)) }
    ensures faults { first.new ≡ sooner first.old (first_of (flat_map (faults_of_chain limit (length_of (map procedure_of scope.now) lengths.now)) (inner (act_of act.now)))) }
{
    match act {
        Act::If(_, then, other) => {
            let one = add_list(scope, lengths, limit, then, first);
            let two = add_list(scope, lengths, limit, other, first);
            cmp::max(one, two)
        }
        Act::Loop(_, _, _, _, body, mark) => {
            let length = add_list(scope, lengths, limit, body, first);
            with_mark(limit, mark, length)
        }
        Act::While(_, body) => add_list(scope, lengths, limit, body, first),
        Act::Call(name, _) => length_of(scope, lengths, limit, name),
        Act::Assign(_, _) | Act::Run(_) => 0,
    }
}

// The same for a list of statements.
#[cycle(chain)]
fn add_list(
    scope: &Scope<'_>,
    lengths: &[usize],
    limit: usize,
    list: &Stmts,
    first: &mut First,
) -> usize
    ensures length { result ≡ min limit (chain (length_of (map procedure_of scope.now) lengths.now) (code_of list.now)) }
    ensures faults { first.new ≡ sooner first.old (first_of (flat_map (faults_of_chain limit (length_of (map procedure_of scope.now) lengths.now)) (statements (code_of list.now)))) }
{
    let mut most = 0;
    let mut rest = list;
    while let Stmts::More(row) = rest {
        let length = add_inner(scope, lengths, limit, &row.first.act, first);
        first.add_passed_if(
            is_too_long(limit, &row.first.act, length),
            limit,
            row.first.line,
        );
        most = cmp::max(most, length);
        rest = &row.rest;
    }
    most
}

// The lengths of chains with one unit more, up to a limit.
fn one_round(
    alloc: Global,
    scope: &Scope<'_>,
    limit: usize,
    lengths: &[usize],
) -> Result<Vec<usize>, Memory>
    ensures { IfOk result (λ v. v.items ≡ map (longer limit (length_of (map procedure_of scope.now) lengths.now)) (map procedure_of scope.now)) }
{
    let mut next = Vec::new(alloc);
    let mut ignored = First::new();
    for outline in scope.outlines() {
        let length = add_list(scope, lengths, limit, &outline.unit().body, &mut ignored);
        next.push(one_more(limit, length))?;
    }
    Ok(next)
}

// The limit, or the number of units where that is less.
fn fewer(limit: usize, units: &[Outline<'_>]) -> usize
    ensures { result ≡ min limit (length units.now) }
{
    if limit < units.len() {
        limit
    } else {
        units.len()
    }
}

// How many units the longest chain has from each unit on, up to a limit: as many rounds as the limit tell.
fn all_lengths(alloc: Global, scope: &Scope<'_>, limit: usize) -> Result<Vec<usize>, Memory>
    ensures { IfOk result (λ v. (x : Name) → min limit (length_of (map procedure_of scope.now) v.items x) ≡ min limit (chain_from (map procedure_of scope.now) x)) }
{
    let rounds = fewer(limit, scope.outlines());
    let mut lengths = Vec::new(alloc);
    for _step in 0..rounds {
        lengths = one_round(alloc, scope, limit, lengths.as_slice())?;
    }
    Ok(lengths)
}

/// Adds a fault at each statement with which a chain begins that has more units than the rules allow.
pub(crate) fn add_long_chains(
    alloc: Global,
    rules: Rules,
    scope: &Scope<'_>,
    first: &mut First,
) -> Result<(), Memory>
    ensures { OnOk result (first.new ≡ sooner first.old (first_of (long_chains (rules_of rules) (map procedure_of scope.now)))) }
{
    let found = all_lengths(alloc, scope, rules.chain)?;
    let lengths = found.as_slice();
    for outline in scope.outlines() {
        let _length = add_list(scope, lengths, rules.chain, &outline.unit().body, first);
    }
    Ok(())
}

/// The first fault of chains of calls. The length of chains is looked at only where no CALL lies on a cycle.
pub(crate) fn chain_fault(
    alloc: Global,
    rules: Rules,
    scope: &Scope<'_>,
) -> Result<Option<Refusal>, Memory>
    ensures { IfOk result (λ f. f ≡ first_of (chain_faults (rules_of rules) (map procedure_of scope.now))) }
{
    let mut cycles = First::new();
    add_cycles(alloc, scope, &mut cycles)?;
    if cycles.fault().is_some() {
        return Ok(cycles.fault());
    }
    let mut chains = First::new();
    add_long_chains(alloc, rules, scope, &mut chains)?;
    Ok(chains.fault())
}
