//! What the program is asked to do.

ghost use Rattle.std.specs.Prelude.{◌<◌, ◌≤◌};

use adj_tool_answer::RunRequest;
use adj_tree::{Name, NameList};

/// A head with its independents and its dependents.
pub struct Request {
    pub head: Name,
    pub vars: NameList,
    pub outvars: NameList,
}

impl Drop for Request {
    fn drop(self) {
        let Request {
            head: _head,
            vars: _vars,
            outvars: _outvars,
        } = self;
    }
}

/// A run of a head, with its independents and its dependents.
pub struct CheckRequest {
    pub run: RunRequest,
    pub vars: NameList,
    pub outvars: NameList,
}

impl Drop for CheckRequest {
    fn drop(self) {
        let CheckRequest {
            run: _run,
            vars: _vars,
            outvars: _outvars,
        } = self;
    }
}

/// What is wanted of a head: its adjoint, its tangent, or the marks by which the adjoint is written.
#[derive(Clone, Copy, Debug)]
pub enum Wanted {
    Adjoint,
    Tangent,
    Plan,
}

/// A number of steps that is to be reversed with a number of snapshots.
#[derive(Clone, Copy, Debug)]
pub struct Reversal {
    pub steps: u64,
    pub snapshots: u32,
    pub ghost short: { steps ≤ 100000 },
    pub ghost some: { 0 < snapshots },
    pub ghost few: { snapshots ≤ 64 },
}

/// What the program is asked to do. Each command stands here.
#[derive(Drop)]
pub enum Task {
    /// Write the adjoint of a unit.
    Adjoint(Request),
    /// Write the tangent of a unit.
    Tangent(Request),
    /// Write the marks of the kernel.
    Plan(Request),
    /// Run a unit on data.
    Run(RunRequest),
    /// Run a unit, its dual run and its adjoint on data, and compare.
    Check(CheckRequest),
    /// Find the derivative of a unit on data, and write its entries.
    Jacobian(CheckRequest),
    /// Write the schedule of a reversal.
    Schedule(Reversal),
    /// Check a program that is made from a number.
    Sample(u64),
}
