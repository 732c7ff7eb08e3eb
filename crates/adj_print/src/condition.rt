//! Conditions. Parentheses stand exactly where an operand's level is below that of its place.

ghost use Rattle.std.specs.Prelude.{◌≡◌, ◌++◌, OnOk, nat_lt};
ghost use Rattle.adj_tree.specs.View.{rel_of, test_of};
ghost use Rattle.def_text.specs.Text.{rel_text, test_level, enclosed, test_text};

use crate::expression::push_expr;
use adj_tree::{Cond, Memory, Rel};

fn rel_text(rel: Rel) -> &'static [u8]
    ensures text { result.now ≡ rel_text (rel_of rel) }
{
    match rel {
        Rel::Lt => b".LT.",
        Rel::Le => b".LE.",
        Rel::Eq => b".EQ.",
        Rel::Ne => b".NE.",
        Rel::Gt => b".GT.",
        Rel::Ge => b".GE.",
    }
}

fn test_level(cond: &Cond) -> u8
    ensures level { result ≡ test_level (test_of cond.now) }
{
    match cond {
        Cond::Cmp(_, _, _) => 3,
        Cond::Not(_) => 2,
        Cond::And(_, _) => 1,
        Cond::Or(_, _) => 0,
    }
}

/// Adds the characters of a condition.
#[cycle(push)]
pub fn push_cond(out: &mut Vec<u8>, cond: &Cond) -> Result<(), Memory>
    ensures characters { OnOk result (out.new.items ≡ out.old.items ++ test_text (test_of cond.now)) }
{
    match cond {
        Cond::Cmp(rel, left, right) => {
            push_expr(out, left)?;
            out.extend_from_slice(rel_text(*rel))?;
            push_expr(out, right)
        }
        Cond::Not(inner) => {
            out.extend_from_slice(b".NOT.")?;
            push_inner(out, inner, 3)
        }
        Cond::And(left, right) => {
            push_inner(out, left, 1)?;
            out.extend_from_slice(b".AND.")?;
            push_inner(out, right, 2)
        }
        Cond::Or(left, right) => {
            push_inner(out, left, 0)?;
            out.extend_from_slice(b".OR.")?;
            push_inner(out, right, 1)
        }
    }
}

#[cycle(push)]
fn push_inner(out: &mut Vec<u8>, cond: &Cond, place: u8) -> Result<(), Memory>
    ensures characters { OnOk result (out.new.items ≡ out.old.items ++ enclosed (nat_lt (test_level (test_of cond.now)) place) (test_text (test_of cond.now))) }
{
    if test_level(cond) < place {
        out.push(b'(')?;
        push_cond(out, cond)?;
        out.push(b')')?;
        Ok(())
    } else {
        push_cond(out, cond)
    }
}
