//! Statements of an entry of scalars.

ghost use Rattle.std.specs.Prelude.{◌≡◌, ◌<◌, ◌∷◌, List, ℕ, [], IfOk};
ghost use Rattle.def_meaning.specs.Apart.{AreApart};
ghost use Rattle.adj_interp_frame.specs.Prepared.{IsTermBelow};
ghost use Rattle.adj_interp_frame.specs.Instructed.{task_in, steps_in, IsTaskBelow, AreStepsBelow};
ghost use Rattle.adj_interp_frame.specs.Linked.{IsTaskLinked, AreLinked};
ghost use Rattle.adj_interp_frame.specs.Framed.{IsFrame};
ghost use Rattle.adj_interp_frame.specs.Suited.{HasOneCell, IsSuited, AreSuited};

use adj_interp::{Machine, Spare, Stop, Tally};
use adj_interp_frame::{Cell, Frame, Slot, Step, Steps, Task, Term, Terms, Test};
use adj_tape::Tape;
use adj_tree::{Items, Memory, Name, NameList, Op, Rel, Trap};
use std::alloc::Global;

// The names R, I and N.
fn names(alloc: Global) -> Result<NameList, Memory>
    ensures { IfOk result (λ names. names ≡ (82 ∷ []) ∷ (73 ∷ []) ∷ (78 ∷ []) ∷ []) }
{
    let result = Name::from_slice(alloc, b"R")?;
    let turn = Name::from_slice(alloc, b"I")?;
    let last = Name::from_slice(alloc, b"N")?;
    Ok(Items::new(vec![in alloc; result, turn, last]?))
}

// A machine in an entry of scalars that are all 0, with so many statements left.
fn machine<'a>(alloc: Global, names: &'a NameList, left: u64) -> Result<Machine<'a, i64>, Memory>
    requires { AreApart names.now }
    ensures names { IfOk result (λ m. m.frame.names.now ≡ names.now) }
    ensures framed { IfOk result (λ m. IsFrame names.now m.frame.slots.items) }
{
    let mut slots = Vec::new(alloc);
    'each: while slots.len() < names.as_slice().len() {
        let cells = vec![in alloc; 0]?;
        slots.push(Slot {
            rows: 0,
            cols: 0,
            cells,
        })?;
    }
    Ok(Machine {
        frame: Frame { names, slots },
        base: 0,
        level: 1,
        tape: Tape::with_room(alloc, 0).map_err(|_| Memory)?,
        left,
        tally: Tally::new(alloc),
        cursor: None,
        spare_actuals: Spare::new(alloc),
        spare_slots: Vec::new(alloc),
        alloc,
    })
}

// A statement and the others.
fn step(alloc: Global, task: Task, rest: Steps) -> Result<Steps, Memory>
    requires below { IsTaskBelow 3 task }
    requires linked { IsTaskLinked [] task }
    requires suited { (names : List (List ℕ)) (counts : List ℕ) → IsSuited [] (HasOneCell names counts) (task_in names task) }
    requires rest_below { AreStepsBelow 3 rest }
    requires rest_linked { AreLinked [] rest }
    requires rest_suited { (names : List (List ℕ)) (counts : List ℕ) → AreSuited [] (HasOneCell names counts) (steps_in names rest) }
    ensures below { IfOk result (λ steps. AreStepsBelow 3 steps) }
    ensures linked { IfOk result (λ steps. AreLinked [] steps) }
    ensures suited { IfOk result (λ steps. (names : List (List ℕ)) (counts : List ℕ) → AreSuited [] (HasOneCell names counts) (steps_in names steps)) }
{
    let first = Box::new(alloc, Step { line: 2, task })?;
    Ok(Steps::More(first, Box::new(alloc, rest)?))
}

// variable = term
fn assign(alloc: Global, variable: usize, term: Term, rest: Steps) -> Result<Steps, Memory>
    requires there { variable < 3 }
    requires below { IsTermBelow 3 term }
    requires rest_below { AreStepsBelow 3 rest }
    requires rest_linked { AreLinked [] rest }
    requires rest_suited { (names : List (List ℕ)) (counts : List ℕ) → AreSuited [] (HasOneCell names counts) (steps_in names rest) }
    ensures below { IfOk result (λ steps. AreStepsBelow 3 steps) }
    ensures linked { IfOk result (λ steps. AreLinked [] steps) }
    ensures suited { IfOk result (λ steps. (names : List (List ℕ)) (counts : List ℕ) → AreSuited [] (HasOneCell names counts) (steps_in names steps)) }
{
    let cell = Cell {
        variable,
        subs: Terms::Empty,
    };
    step(alloc, Task::Assign(cell, term), rest)
}

// An operation on a variable and a number.
fn with_number(alloc: Global, op: Op, variable: usize, number: i64) -> Result<Term, Memory>
    requires { variable < 3 }
    ensures { IfOk result (λ term. IsTermBelow 3 term) }
{
    let left = Box::new(alloc, Term::Var(variable))?;
    Ok(Term::Bin(op, left, Box::new(alloc, Term::Lit(number))?))
}

// R = 1, I = 0, and while I is below N: R = R * 2, I = I + 1.
fn doubling(alloc: Global) -> Result<Steps, Memory>
    ensures below { IfOk result (λ steps. AreStepsBelow 3 steps) }
    ensures linked { IfOk result (λ steps. AreLinked [] steps) }
    ensures suited { IfOk result (λ steps. (names : List (List ℕ)) (counts : List ℕ) → AreSuited [] (HasOneCell names counts) (steps_in names steps)) }
{
    let next = assign(alloc, 1, with_number(alloc, Op::Add, 1, 1)?, Steps::Empty)?;
    let body = assign(alloc, 0, with_number(alloc, Op::Mul, 0, 2)?, next)?;
    let turn = Box::new(alloc, Term::Var(1))?;
    let test = Test::Cmp(Rel::Lt, turn, Box::new(alloc, Term::Var(2))?);
    let all = step(alloc, Task::While(test, body), Steps::Empty)?;
    let counted = assign(alloc, 1, Term::Lit(0), all)?;
    assign(alloc, 0, Term::Lit(1), counted)
}

// What the statements come to where N is 5 and so many may run: how they end, how many are left, and R.
fn ended(alloc: Global, left: u64) -> Result<(Result<(), Stop>, u64, Result<i64, Trap>), Memory> {
    let names = names(alloc)?;
    let steps = assign(alloc, 2, Term::Lit(5), doubling(alloc)?)?;
    let mut machine = machine(alloc, &names, left)?;
    let end = machine.run(&[], 0, &steps);
    Ok((end, machine.left, machine.frame.value(&Term::Var(0))))
}

// The last test isn't counted where no statement is left.
#[test]
fn a_do_while_counts_each_test(rt: HostRuntime) {
    assert!(rt; ended(rt.alloc(), 19) == Ok((Ok(()), 0, Ok(32))));
    assert!(rt; ended(rt.alloc(), 18) == Ok((Err(Stop::Budget), 0, Ok(32))));
}
