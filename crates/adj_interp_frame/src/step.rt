//! Prepared statements: variables are the numbers that their unit gives them.

ghost use Rattle.std.specs.Prelude.{◌≡◌, List, ℕ};
ghost use Rattle.adj_tree.specs.Code.{stop, Procedure};
ghost use Rattle.adj_tree.specs.Listed.{code_turned};
ghost use Rattle.adj_interp_frame.specs.Instructed.{steps_in, AreStepsBelow};
ghost use Rattle.adj_interp_frame.specs.Linked.{AreLinked};

use crate::term::{Term, Terms, Test};
use adj_tree::Name;
use std::mem;

/// A scalar or an element: its variable and its subscripts.
pub struct Cell {
    pub variable: usize,
    pub subs: Terms,
}

impl Drop for Cell {
    fn drop(self) {
        let Cell {
            variable: _,
            subs: _subs,
        } = self;
    }
}

/// A call of the runtime. docs/RUNNING.md says what each does.
pub enum Service {
    PushWord(Cell),
    PopWord(Cell),
    PushArray(usize),
    PopArray(usize),
    PushControl(Term),
    PopControl(usize),
    Zero(usize),
    /// A reversal of a number of steps and of snapshots begins.
    Begin(Term, Term),
    /// The number of actions of a schedule of so many steps and snapshots, for a variable.
    Actions(Term, Term, usize),
    /// The action of a number in such a schedule: its kind and its two places, for three variables.
    Action(Term, Term, Term, usize, usize, usize),
    End,
}

impl Drop for Service {
    fn drop(self) {
        match self {
            Service::PushWord(_part) => {}
            Service::PopWord(_part) => {}
            Service::PushArray(_) => {}
            Service::PopArray(_) => {}
            Service::PushControl(_part) => {}
            Service::PopControl(_) => {}
            Service::Zero(_) => {}
            Service::Begin(_part0, _part1) => {}
            Service::Actions(_part0, _part1, _) => {}
            Service::Action(_part0, _part1, _part2, _, _, _) => {}
            Service::End => {}
        }
    }
}

/// First value, limit and step of a DO.
pub struct Bounds {
    pub first: Term,
    pub last: Term,
    pub by: Term,
}

impl Drop for Bounds {
    fn drop(self) {
        let Bounds {
            first: _first,
            last: _last,
            by: _by,
        } = self;
    }
}

/// With how many snapshots a DO is marked.
pub enum Marking {
    Plain,
    Count(u32),
    From(usize),
}

impl Drop for Marking {
    fn drop(self) {
        match self {
            Marking::Plain => {}
            Marking::Count(_) => {}
            Marking::From(_) => {}
        }
    }
}

/// What a statement does.
#[cycle(step)]
pub enum Task {
    Assign(Cell, Term),
    If(Test, Steps, Steps),
    /// Variable, bounds, body and mark.
    Loop(usize, Bounds, Steps, Marking),
    /// A DO WHILE: condition and body.
    While(Test, Steps),
    /// A call: the number of the unit and its name, and the actuals.
    Call(usize, Name, Terms),
    Run(Service),
}

impl Drop for Task {
    #[cycle(step)]
    fn drop(self) {
        match self {
            Task::Assign(_part0, _part1) => {}
            Task::If(_part0, _part1, _part2) => {}
            Task::Loop(_, _part1, _part2, _part3) => {}
            Task::While(_part0, _part1) => {}
            Task::Call(_, _part1, _part2) => {}
            Task::Run(_part) => {}
        }
    }
}

/// A statement with its line in the text.
#[cycle(step)]
pub struct Step {
    pub line: u32,
    pub task: Task,
}

impl Drop for Step {
    #[cycle(step)]
    fn drop(self) {
        let Step {
            line: _,
            task: _task,
        } = self;
    }
}

/// Statements in order, as a linked list.
#[cycle(step)]
pub enum Steps {
    Empty,
    More(Box<Step>, Box<Steps>),
}

impl Steps {
    /// Its members in the other order.
    pub(crate) fn turned(mut self) -> Steps
        ensures turned { (names : List (List ℕ)) → steps_in names result ≡ code_turned (steps_in names self) stop }
        ensures below { (count : ℕ) → AreStepsBelow count self → AreStepsBelow count result }
        ensures linked { (units : List Procedure) → AreLinked units self → AreLinked units result }
    {
        let mut made = Steps::Empty;
        loop {
            match self {
                Steps::Empty => return made,
                Steps::More(first, mut rest) => {
                    self = mem::replace(&mut *rest, made);
                    made = Steps::More(first, rest);
                }
            }
        }
    }
}

impl Drop for Steps {
    #[cycle(step)]
    fn drop(mut self) {
        loop {
            match self {
                Steps::Empty => return,
                Steps::More(_first, rest) => self = Box::into_inner(rest),
            }
        }
    }
}
