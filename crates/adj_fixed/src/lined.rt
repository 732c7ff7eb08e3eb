//! Statements as their lines give them.

ghost use Rattle.std.specs.Prelude.{◌≡◌, Ok, IsNone};
ghost use Rattle.def_text.specs.Limits.{limits_of};
ghost use Rattle.def_text.specs.Line.{label_of, no_advice, advice_of};
ghost use Rattle.def_text.specs.Lined.{flushed, with_directive, with_initial, has_room, one_less, with_continuation, with_line, ended};
ghost use Rattle.def_text.specs.Lined as lined;
ghost use Rattle.def_text.specs.Refused.{Gives};
ghost use Rattle.adj_fixed.specs.View.{all_lines, pass_of};

use crate::directive::{advice_of, is_directive};
use crate::line::{
    are_allowed, body, column, is_comment, is_continuation, is_data, label_of, next_number,
    push_folded, split_line, without_cr,
};
use adj_tree::{Code, Fault, Mark};
use def_text::{Advice, Mode};
use std::alloc::Global;

/// A statement: its lines, joined.
#[derive(Drop)]
pub(crate) struct Lined {
    pub line: u32,
    pub label: u32,
    pub advice: Advice,
    pub mark_line: u32,
    pub text: Vec<u8>,
    /// How many continuation lines it may still have, where that is limited.
    room: Option<u32>,
}

/// A directive that waits for its statement.
#[derive(Drop)]
struct Directive {
    advice: Advice,
    line: u32,
}

/// The statements before, the one whose lines may go on, and the directive before the next.
#[derive(Drop)]
struct Reader {
    done: Vec<Lined>,
    current: Option<Lined>,
    pending: Option<Directive>,
}

// How many continuation lines a statement may have, where that is limited.
fn continuation_lines(mode: Mode) -> Option<u32>
    ensures { result ≡ (limits_of mode).continuations }
{
    match mode {
        Mode::Source => Some(19),
        Mode::Run => None,
    }
}

impl Reader {
    // Adds the current statement to those before.
    fn flush(&mut self) -> Result<(), Fault>
        ensures { Gives (λ _. pass_of self.new) result (Ok (record { done = flushed (pass_of self.old); current = None; pending = (pass_of self.old).pending })) }
    {
        if let Some(statement) = self.current.take() {
            self.done.push(statement)?;
        }
        Ok(())
    }

    fn directive(&mut self, alloc: Global, number: u32, line: &[u8]) -> Result<(), Fault>
        ensures { Gives (λ _. pass_of self.new) result (with_directive (pass_of self.old) number (advice_of line.now)) }
    {
        let Some(advice) = advice_of(alloc, line)? else {
            return Err(Fault::refused(Code::Directive, number));
        };
        self.flush()?;
        self.pending = Some(Directive {
            advice,
            line: number,
        });
        Ok(())
    }

    fn initial(&mut self, alloc: Global, mode: Mode, number: u32, line: &[u8]) -> Result<(), Fault>
        ensures { Gives (λ _. pass_of self.new) result (with_initial (limits_of mode) (pass_of self.old) number line.now (label_of line.now)) }
    {
        let Some(label) = label_of(line) else {
            return Err(Fault::refused(Code::Columns, number));
        };
        if !matches!(column(line, 6), b' ' | b'0') {
            return Err(Fault::refused(Code::Columns, number));
        }
        if !are_allowed(body(line)) {
            return Err(Fault::refused(Code::Character, number));
        }
        let mut text = Vec::new(alloc);
        push_folded(&mut text, body(line))?;
        self.flush()?;
        let (advice, mark_line) = match self.pending.take() {
            Some(directive) => (directive.advice, directive.line),
            None => (no_advice(), 0),
        };
        self.current = Some(Lined {
            line: number,
            label,
            advice,
            mark_line,
            text,
            room: continuation_lines(mode),
        });
        Ok(())
    }

    fn continuation(&mut self, mode: Mode, number: u32, line: &[u8]) -> Result<(), Fault>
        requires { IsNone self.old.pending }
        ensures { Gives (λ _. pass_of self.new) result (with_continuation (limits_of mode) (pass_of self.old) number line.now (pass_of self.old).current) }
    {
        let Some(mut statement) = self.current.take() else {
            return Err(Fault::refused(Code::Columns, number));
        };
        if !(matches!(column(line, 6), 33..=126) && are_allowed(body(line))) {
            return Err(Fault::refused(Code::Character, number));
        }
        if !has_room(statement.room) {
            return Err(Fault::limited(u64::from(continuation_lines(mode).unwrap_or(0)), number));
        }
        push_folded(&mut statement.text, body(line))?;
        statement.room = one_less(statement.room);
        self.current = Some(statement);
        Ok(())
    }

    // Takes the next line.
    #[tactic(auto, unfolding(def_text::specs::Lined::with_line))]
    fn line(&mut self, alloc: Global, mode: Mode, number: u32, line: &[u8]) -> Result<(), Fault>
        ensures { Gives (λ _. pass_of self.new) result (with_line (limits_of mode) (pass_of self.old) number line.now) }
    {
        if is_directive(line) {
            match &self.pending {
                Some(directive) => Err(Fault::refused(Code::Directive, directive.line)),
                None => self.directive(alloc, number, line),
            }
        } else if is_comment(line) {
            Ok(())
        } else if is_continuation(line) {
            match &self.pending {
                Some(directive) => Err(Fault::refused(Code::Directive, directive.line)),
                None => self.continuation(mode, number, line),
            }
        } else {
            self.initial(alloc, mode, number, line)
        }
    }

    // The end of the text.
    fn finish(self) -> Result<Vec<Lined>, Fault>
        ensures { Gives (λ v. all_lines v.items) result (ended (pass_of self) (pass_of self).pending) }
    {
        let mut reader = self;
        if let Some(directive) = &reader.pending {
            return Err(Fault::refused(Code::Directive, directive.line));
        }
        reader.flush()?;
        Ok(reader.done)
    }
}

// What is said of a statement without a directive.
fn no_advice() -> Advice
    ensures { result ≡ no_advice }
{
    Advice {
        mark: Mark::Plain,
        split: false,
    }
}

fn has_room(room: Option<u32>) -> bool
    ensures { result ≡ has_room room }
{
    match room {
        Some(count) => count > 0,
        None => true,
    }
}

fn one_less(room: Option<u32>) -> Option<u32>
    ensures { result ≡ one_less room }
{
    room.map(|count| count.saturating_sub(1))
}

/// The statements of a text as its lines give them, or the first fault of the lines.
pub(crate) fn lines_of(alloc: Global, mode: Mode, bytes: &[u8]) -> Result<Vec<Lined>, Fault>
    ensures { Gives (λ v. all_lines v.items) result (lined.lines_of (limits_of mode) bytes.now) }
{
    let mut reader = Reader {
        done: Vec::new(alloc),
        current: None,
        pending: None,
    };
    let mut rest = bytes;
    let mut number = 1u32;
    while !rest.is_empty() {
        let (line, after) = split_line(rest);
        let line = without_cr(line);
        if is_data(line) {
            return reader.finish();
        }
        reader.line(alloc, mode, number, line)?;
        number = next_number(number);
        rest = after;
    }
    reader.finish()
}
