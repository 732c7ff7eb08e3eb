//! The lines of a plan: a statement each, with its marks.

ghost use Rattle.std.specs.Prelude.{◌≡◌, ◌++◌, ◌∷◌, ◌<◌, ◌^◌, ◌+◌, [], IfOk, OnOk, flat_map, length, map};
ghost use Rattle.adj_tree.specs.Listed.{statement_of};
ghost use Rattle.adj_tree.specs.View.{act_of, mark_of};
ghost use Rattle.adj_symbols_writes.specs.View.{seen};
ghost use Rattle.def_names.specs.VariableLists.{list_if};
ghost use Rattle.adj_flow.specs.Asked.{units_of, variables_of};
ghost use Rattle.adj_flow.specs.NodeView.{vars_of};
ghost use Rattle.adj_flow.specs.Rows.{row_of, rows};
ghost use Rattle.adj_reach.specs.Edges.{flag};
ghost use Rattle.adj_plan.specs.Lines.{letter, letters, lines_from, loop_keyword, plan_line, plan_lines, unit_lines, keyword_of};
ghost use Rattle.adj_plan.specs.View.{is_saved_in, row_lines, said_by, said_in};

use crate::planning::Planned;
use adj_flow::{End, Part, told_by_bit};
use adj_reach::flag_at;
use adj_symbols_writes::statements::statements;
use adj_tree::{Act, BitFlags, Mark, Memory, Name, Stmt};
use itoa::Buffer;
use std::alloc::Global;

/// What the marks say of a statement: whether the forward sweep keeps it, whether it has an adjoint, and whether it saves something.
#[derive(Clone, Copy, Debug)]
pub struct Said {
    pub kept: bool,
    pub adjointed: bool,
    pub saves: bool,
}

// The keyword for a loop.
fn loop_keyword(mark: &Mark) -> &'static [u8]
    ensures { result.now ≡ loop_keyword (mark_of mark.now) }
{
    match mark {
        Mark::Plain => b"DO",
        Mark::Count(_) | Mark::From(_) => b"MARKED",
    }
}

// The keyword for a statement.
fn keyword(act: &Act) -> &'static [u8]
    ensures { result.now ≡ keyword_of (act_of act.now) }
{
    match act {
        Act::Assign(_, _) => b"ASSIGN",
        Act::If(_, _, _) => b"IF",
        Act::Loop(_, _, _, _, _, mark) => loop_keyword(mark),
        Act::While(_, _) => b"WHILE",
        Act::Call(_, _) | Act::Run(_) => b"CALL",
    }
}

// A letter where something holds, and `-` where it doesn't.
fn letter(c: u8, holds: bool) -> u8
    ensures { result ≡ letter c holds }
{
    if holds { c } else { b'-' }
}

// The three letters of a statement.
fn letters(said: Said) -> [u8; 3]
    ensures { result ≡ letters said }
{
    [
        letter(b'K', said.kept),
        letter(b'A', said.adjointed),
        letter(b'P', said.saves),
    ]
}

// Adds the line of a statement of the unit of a name.
fn add_line(out: &mut Vec<u8>, unit: &Name, statement: &Stmt, said: Said) -> Result<(), Memory>
    ensures added { OnOk result (out.new.items ≡ out.old.items ++ plan_line unit.now said (statement_of statement.now)) }
{
    let mut number = Buffer::new();
    out.extend_from_slice(unit.bytes())?;
    out.push(b' ')?;
    out.extend_from_slice(number.format(statement.line).as_bytes())?;
    out.push(b' ')?;
    out.extend_from_slice(keyword(&statement.act))?;
    out.push(b' ')?;
    out.extend_from_slice(&letters(said))?;
    out.push(b'\n')?;
    Ok(())
}

// Whether the statement of a number saves a variable of its unit.
fn is_saved(flags: &BitFlags, width: usize, part: &Part<'_>, statement: usize) -> bool
    requires width { width < 2 ^ 30 }
    requires statement { statement < 2 ^ 30 }
    ensures saved { result ≡ is_saved_in flags.now width (vars_of (row_of part.now)) statement }
{
    for name in part.variables.as_slice() {
        let end = End {
            part,
            point: statement,
            name,
        };
        if told_by_bit(flags, width, end) {
            return true;
        }
    }
    false
}

// What the marks say of the statement of a number in a unit.
fn said_of(planned: &Planned<'_>, part: &Part<'_>, statement: usize) -> Said
    requires statement { statement < 2 ^ 30 }
    ensures said { result ≡ said_by planned.now.marks planned.now.flow.width (vars_of (row_of part.now)) statement }
{
    let marks = &planned.marks;
    Said {
        kept: flag_at(marks.kept.kept.as_slice(), statement),
        adjointed: flag_at(marks.activity.adjointed.as_slice(), statement),
        saves: is_saved(&marks.saved.saved, planned.flow.width, part, statement),
    }
}

// Adds the lines of these statements of a unit, the first of which has a number.
fn add_lines(
    out: &mut Vec<u8>,
    planned: &Planned<'_>,
    part: &Part<'_>,
    statements: &[&Stmt],
) -> Result<(), Memory>
    requires statements { part.now.first + length statements.now < 2 ^ 30 }
    ensures added { OnOk result (out.new.items ≡ out.old.items ++ lines_from (said_by planned.now.marks planned.now.flow.width (vars_of (row_of part.now))) part.now.unit.now.name part.now.first (seen statements.now)) }
{
    for (place, statement) in statements.iter().enumerate() {
        let said = said_of(planned, part, part.first + place);
        add_line(out, &part.unit.name, statement, said)?;
    }
    Ok(())
}

// Adds the lines of a unit.
fn add_unit(
    alloc: Global,
    out: &mut Vec<u8>,
    planned: &Planned<'_>,
    part: &Part<'_>,
) -> Result<(), Memory>
    ensures added { OnOk result (out.new.items ≡ out.old.items ++ unit_lines (said_by planned.now.marks planned.now.flow.width (vars_of (row_of part.now))) (row_of part.now).part) }
{
    let statements = statements(alloc, &part.unit.body)?;
    add_lines(out, planned, part, statements.as_slice())
}

// The same, if the unit takes part.
fn add_taking(
    alloc: Global,
    out: &mut Vec<u8>,
    planned: &Planned<'_>,
    part: &Part<'_>,
) -> Result<(), Memory>
    ensures added { OnOk result (out.new.items ≡ out.old.items ++ row_lines planned.now.marks planned.now.flow.width planned.now.flow.taking (row_of part.now)) }
{
    if flag_at(planned.flow.taking.as_slice(), part.number) {
        add_unit(alloc, out, planned, part)?;
    }
    Ok(())
}

// The lines of all units that take part.
fn lines(alloc: Global, planned: &Planned<'_>) -> Result<Vec<u8>, Memory>
    ensures lines { IfOk result (λ v. v.items ≡ flat_map (row_lines planned.now.marks planned.now.flow.width planned.now.flow.taking) (map row_of planned.now.flow.parts.items)) }
{
    let mut out = Vec::new(alloc);
    for part in planned.flow.parts.as_slice() {
        add_taking(alloc, &mut out, planned, part)?;
    }
    Ok(out)
}

/// The text of a plan: for each statement of each unit that takes part, in their order, a line with the name of the unit, the line in the text,
/// `ASSIGN`, `IF`, `DO`, `MARKED`, `WHILE` or `CALL`, and three letters: `K` where the forward sweep keeps it, `A` where it has an adjoint,
/// `P` where it saves something, each `-` where not. (docs/COMMANDS.md, "plan")
pub fn plan_text(alloc: Global, planned: &Planned<'_>) -> Result<Vec<u8>, Memory>
    requires rows { map row_of planned.now.flow.parts.items ≡ rows (variables_of planned.now.flow) (units_of planned.now.flow) }
    ensures text { IfOk result (λ v. v.items ≡ plan_lines (said_in planned.now.flow planned.now.marks) (flag planned.now.flow.taking) (units_of planned.now.flow)) }
{
    let text = lines(alloc, planned)?;
    Ok(text)
}
