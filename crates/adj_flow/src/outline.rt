//! The statements and the ways of units, from their trees: the statement of a number stands at its number.

ghost use Rattle.std.specs.Prelude.{◌≡◌, ◌*◌, ◌<◌, ◌^◌, ◌++◌, ◌∷◌, [], length, map, OnOk};
ghost use Rattle.adj_tree.specs.Code.{plain};
ghost use Rattle.adj_tree.specs.View.{act_of, code_of, mark_of, terms_of};
ghost use Rattle.def_flow.specs.Standing.{standing, body_of};
ghost use Rattle.def_flow.specs.Ways.{ways, act_ways, way, passing};
ghost use Rattle.def_names.specs.Numbering.{point_inside};
ghost use Rattle.def_names.specs.Numbering.{point_before, point_after};
ghost use Rattle.def_names.specs.Numbers.{behind, next};
ghost use Rattle.adj_flow.specs.Low.{IsLow};
ghost use Rattle.adj_flow.specs.View.{place_of, standing_of, statement_at};
ghost use Rattle.adj_flow.specs.WayView.{number_of, deed_of, assigned_by, way_of};

use crate::deed::Deed;
use crate::place::Place;
use crate::standing::Standing;
use crate::way::{Point, Way};
use adj_tree::{Act, Exprs, Mark, Memory, Name, Stmts};

/// Statements and ways.
pub struct Outline<'a> {
    pub statements: Vec<Standing<'a>>,
    pub ways: Vec<Way<'a>>,
}

impl Drop for Outline<'_> {
    fn drop(self) {
        let Outline {
            statements: _statements,
            ways: _ways,
        } = self;
    }
}

/// Adds the statements of a list and those in them, and the ways of the list: `from` leads to its first point, and its last point to `to`, on which `last` is done.
#[cycle(outline)]
pub fn add_list<'a>(
    outline: &mut Outline<'a>,
    place: Place<'a>,
    from: Point,
    to: Point,
    last: Deed<'a>,
    body: &'a Stmts,
) -> Result<(), Memory>
    requires room { behind (length outline.old.statements.items) (code_of body.now) < 2 ^ 30 }
    requires place { IsLow place }
    requires first { number_of from < 5 * 2 ^ 30 }
    requires next { number_of to < 5 * 2 ^ 30 }
    ensures statements { OnOk result (map standing_of outline.new.statements.items ≡ map standing_of outline.old.statements.items ++ standing (place_of place.entry) (length outline.old.statements.items) (code_of body.now)) }
    ensures ways { OnOk result (map way_of outline.new.ways.items ≡ map way_of outline.old.ways.items ++ ways (length outline.old.statements.items) (number_of from) (number_of to) (deed_of last.entry) (code_of body.now)) }
{
    let mut from = from;
    let mut current = body;
    while let Stmts::More(row) = current {
        let number = outline.statements.len();
        outline.ways.push(Way {
            from,
            to: Point::Before(number),
            deed: Deed::Passing,
        })?;
        add_statement(outline, place, &row.first.act)?;
        from = Point::After(number);
        current = &row.rest;
    }
    outline.ways.push(Way {
        from,
        to,
        deed: last,
    })?;
    Ok(())
}

// Adds a statement and those in it, and their ways.
#[cycle(outline)]
fn add_statement<'a>(
    outline: &mut Outline<'a>,
    place: Place<'a>,
    act: &'a Act,
) -> Result<(), Memory>
    requires room { next (length outline.old.statements.items) (act_of act.now) < 2 ^ 30 }
    requires place { IsLow place }
    ensures statements { OnOk result (map standing_of outline.new.statements.items ≡ map standing_of outline.old.statements.items ++ statement_at (length outline.old.statements.items) (place_of place.entry) (act_of act.now)) }
    ensures ways { OnOk result (map way_of outline.new.ways.items ≡ map way_of outline.old.ways.items ++ act_ways (length outline.old.statements.items) (act_of act.now)) }
{
    let number = outline.statements.len();
    outline.statements.push(Standing { number, place, act })?;
    match act {
        Act::Assign(target, _) => {
            let deed = assigning(number, &target.name, &target.subs);
            add_way(outline, Point::Before(number), Point::After(number), deed)
        }
        Act::Call(_, args) => {
            let deed = Deed::Calling(args);
            add_way(outline, Point::Before(number), Point::After(number), deed)
        }
        Act::Run(_) => {
            let deed = Deed::Passing;
            add_way(outline, Point::Before(number), Point::After(number), deed)
        }
        Act::If(_, first, second) => {
            let (before, after) = (Point::Before(number), Point::After(number));
            let part = Place::PartOf(number);
            add_list(outline, part, before, after, Deed::Passing, first)?;
            add_list(outline, part, before, after, Deed::Passing, second)?;
            Ok(())
        }
        Act::Loop(x, _, _, _, body, mark) => {
            let inside = Point::Inside(number);
            let deed = Deed::Assigning(number, x);
            add_loop_ways(outline, number, deed)?;
            add_list(
                outline,
                body_place(number, x, mark),
                inside,
                inside,
                deed,
                body,
            )?;
            Ok(())
        }
        Act::While(_, body) => {
            let inside = Point::Inside(number);
            add_loop_ways(outline, number, Deed::Passing)?;
            add_list(
                outline,
                Place::PartOf(number),
                inside,
                inside,
                Deed::Passing,
                body,
            )?;
            Ok(())
        }
    }
}

// Adds the ways to the point inside a loop, on which something is done, and from there behind it.
fn add_loop_ways<'a>(outline: &mut Outline<'a>, number: usize, deed: Deed<'a>) -> Result<(), Memory>
    requires number { number < 2 ^ 30 }
    ensures statements { outline.new.statements ≡ outline.old.statements }
    ensures ways { OnOk result (map way_of outline.new.ways.items ≡ map way_of outline.old.ways.items ++ way (point_before number) (point_inside number) (deed_of deed.entry) ∷ way (point_inside number) (point_after number) passing ∷ []) }
{
    add_way(outline, Point::Before(number), Point::Inside(number), deed)?;
    add_way(
        outline,
        Point::Inside(number),
        Point::After(number),
        Deed::Passing,
    )
}

// Adds a way.
fn add_way<'a>(
    outline: &mut Outline<'a>,
    from: Point,
    to: Point,
    deed: Deed<'a>,
) -> Result<(), Memory>
    requires first { number_of from < 5 * 2 ^ 30 }
    requires next { number_of to < 5 * 2 ^ 30 }
    ensures statements { outline.new.statements ≡ outline.old.statements }
    ensures ways { OnOk result (map way_of outline.new.ways.items ≡ map way_of outline.old.ways.items ++ record { from = number_of from; to = number_of to; deed = deed_of deed.entry } ∷ []) }
{
    outline.ways.push(Way { from, to, deed })?;
    Ok(())
}

// What an assignment does on its way: a scalar is assigned whole.
fn assigning<'a>(number: usize, name: &'a Name, subs: &Exprs) -> Deed<'a>
    ensures { deed_of result ≡ assigned_by number (plain name.now) (terms_of subs.now) }
{
    match subs {
        Exprs::Empty => Deed::Assigning(number, name),
        Exprs::More(_, _) => Deed::Passing,
    }
}

// Where the statements in the body of a DO stand.
fn body_place<'a>(number: usize, x: &'a Name, mark: &Mark) -> Place<'a>
    requires number { number < 2 ^ 30 }
    ensures low { IsLow result }
    ensures place { place_of result ≡ body_of number (plain x.now) (mark_of mark.now) }
{
    match mark {
        Mark::Plain => Place::PartOf(number),
        Mark::Count(_) | Mark::From(_) => Place::TurnOf(number, x),
    }
}
