//! The calls that the lines of directives mark, by the numbers of statements (docs/ANALYSES.md, "Split calls").

ghost use Rattle.std.specs.Prelude.{◌≡◌, ◌++◌, ◌||◌, ◌==◌, ℕ, IfOk, OnOk, map};
ghost use Rattle.adj_tree.specs.View.{act_of, code_of, mark_of, procedure_of};
ghost use Rattle.def_flow.specs.Splits.{is_line, split_calls};
ghost use Rattle.adj_reach.specs.Edges.{flag};
ghost use Rattle.adj_flow.specs.SplitFlags.{all_flags, flags_in, flags_of, lines_inside};

use adj_reach::flag_at;
use adj_tree::{Act, Flags, Items, Mark, Memory, Stmt, Stmts, Unit};
use std::alloc::Global;

// The flag of a line is set.
fn add_line(flags: &mut Vec<bool>, line: usize) -> Result<(), Memory>
    ensures added { OnOk result ((n : ℕ) → flag flags.new.items n ≡ (flag flags.old.items n || (n == line))) }
{
    while flags.len() <= line {
        flags.push(false)?;
    }
    flags[line] = true;
    Ok(())
}

// Which lines are among these, by flags at their numbers.
fn line_flags(alloc: Global, lines: &[u32]) -> Result<Vec<bool>, Memory>
    ensures flags { IfOk result (λ v. (n : ℕ) → flag v.items n ≡ is_line lines.now n) }
{
    let mut flags = Vec::new(alloc);
    for line in lines {
        add_line(&mut flags, *line as usize)?;
    }
    Ok(flags)
}

// The lines that count in the body of a DO: none where it is marked.
fn inside<'l>(lines: &'l [bool], mark: &Mark) -> &'l [bool]
    ensures lines { (n : ℕ) → flag result.now n ≡ lines_inside (flag lines.now) (mark_of mark.now) n }
{
    match mark {
        Mark::Plain => lines,
        Mark::Count(_) | Mark::From(_) => &[],
    }
}

// Adds the flags of a statement and of those in it.
#[cycle(flags)]
fn add_statement(flags: &mut Vec<bool>, lines: &[bool], stmt: &Stmt) -> Result<(), Memory>
    ensures added { OnOk result (flags.new.items ≡ flags.old.items ++ flags_in (flag lines.now) stmt.now.line (act_of stmt.now.act)) }
{
    match &stmt.act {
        Act::Assign(_, _) | Act::Run(_) => {
            flags.push(false)?;
            Ok(())
        }
        Act::Call(_, _) => {
            flags.push(flag_at(lines, stmt.line as usize))?;
            Ok(())
        }
        Act::If(_, first, second) => {
            flags.push(false)?;
            add_list(flags, lines, first)?;
            add_list(flags, lines, second)
        }
        Act::Loop(_, _, _, _, body, mark) => {
            flags.push(false)?;
            add_list(flags, inside(lines, mark), body)
        }
        Act::While(_, body) => {
            flags.push(false)?;
            add_list(flags, lines, body)
        }
    }
}

// Adds those of a list.
#[cycle(flags)]
fn add_list(flags: &mut Vec<bool>, lines: &[bool], body: &Stmts) -> Result<(), Memory>
    ensures added { OnOk result (flags.new.items ≡ flags.old.items ++ flags_of (flag lines.now) (code_of body.now)) }
{
    let mut current = body;
    while let Stmts::More(row) = current {
        add_statement(flags, lines, &row.first)?;
        current = &row.rest;
    }
    Ok(())
}

// Those of all units.
fn unit_flags(alloc: Global, units: &[Unit], lines: &[bool]) -> Result<Vec<bool>, Memory>
    ensures flags { IfOk result (λ v. v.items ≡ all_flags (flag lines.now) (map procedure_of units.now)) }
{
    let mut flags = Vec::new(alloc);
    for unit in units {
        add_list(&mut flags, lines, &unit.body)?;
    }
    Ok(flags)
}

/// Which statements of some units are calls at these lines, by flags at their numbers. The step call of a marked loop is none of them.
pub fn split_flags(alloc: Global, units: &[Unit], lines: &[u32]) -> Result<Flags, Memory>
    ensures split { IfOk result (λ f. (n : ℕ) → flag f n ≡ split_calls (is_line lines.now) (map procedure_of units.now) n) }
{
    let marked = line_flags(alloc, lines)?;
    let flags = unit_flags(alloc, units, marked.as_slice())?;
    Ok(Items::new(flags))
}
