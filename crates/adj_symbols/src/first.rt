//! The first of the faults that are met.

ghost use Rattle.std.specs.Prelude.{◌≡◌, Option, Some, None};
ghost use Rattle.adj_tree.specs.Codes.{code_number};
ghost use Rattle.adj_tree.specs.declared.fault.Refusal.{Refusal};
ghost use Rattle.def_names.specs.Fault.{is_before, fault, passed, faults_if, first_of, sooner};
ghost use Rattle.adj_symbols.specs.Scope.{faults_with};

use adj_tree::{Code, Refusal};
use std::marker::Model;

/// The first fault so far, or none, seen as that.
#[derive(Drop)]
pub(crate) struct First {
    fault: Option<Refusal>,
}

impl Model for First {
    ghost Value = { Option Refusal };

    ghost view = { λ f. f.fault };
}

// Whether a fault comes before another.
fn is_before(a: Refusal, b: Refusal) -> bool
    ensures { result ≡ is_before a b }
{
    a.line < b.line
        || (a.line == b.line && (a.code < b.code || (a.code == b.code && a.number < b.number)))
}

impl First {
    /// No fault.
    pub(crate) fn new() -> First
        ensures none { result ≡ None }
    {
        First { fault: None }
    }

    /// The first fault.
    pub(crate) fn fault(&self) -> Option<Refusal>
        ensures fault { result ≡ self.now }
    {
        self.fault
    }

    /// One more fault.
    pub(crate) fn add(&mut self, found: Refusal)
        ensures added { self.new ≡ sooner self.old (Some found) }
    {
        self.fault = match self.fault {
            Some(first) if !is_before(found, first) => Some(first),
            _ => Some(found),
        };
    }

    /// One more fault with a code at a line, where there is one.
    pub(crate) fn add_if(&mut self, is_fault: bool, code: Code, line: u32)
        ensures added { self.new ≡ sooner self.old (first_of (faults_if is_fault (fault (code_number code) line))) }
    {
        if is_fault {
            self.add(Refusal::new(code, line));
        }
    }

    /// One more fault at a line, where there is a code.
    pub(crate) fn add_some(&mut self, code: Option<Code>, line: u32)
        ensures added { self.new ≡ sooner self.old (first_of (faults_with code line)) }
    {
        if let Some(code) = code {
            self.add(Refusal::new(code, line));
        }
    }

    /// A limit that is passed at a line, where it is.
    pub(crate) fn add_passed_if(&mut self, is_passed: bool, limit: usize, line: u32)
        ensures added { self.new ≡ sooner self.old (first_of (faults_if is_passed (passed limit line))) }
    {
        if is_passed {
            self.add(Refusal::passed(limit as u64, line));
        }
    }
}
