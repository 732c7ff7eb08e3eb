//! Which variables are active in a statement, and whose values the adjoint of its right side reads.

ghost use Rattle.std.specs.Prelude.{◌≡◌, ◌++◌, ◌&&◌, OnOk};
ghost use Rattle.adj_tree.specs.Code.{plain};
ghost use Rattle.adj_tree.specs.View.{term_of, terms_of};
ghost use Rattle.def_sweep.specs.Occurrences.{is_active_where};
ghost use Rattle.def_names.specs.VariableLists.{list_if, vars_in_terms};
ghost use Rattle.def_flow.specs.AdjointReads.{adjoint_reads_in};
ghost use Rattle.adj_symbols_writes.specs.View.{vars_seen};
ghost use Rattle.adj_flow.specs.Active.{varied_by, shadowed_by, active_by};

use crate::end::End;
use crate::nodes::{number, told, told_by_bit};
use crate::occurring::Occurrences;
use crate::variables::add_terms_if;
use crate::way::Point;
use adj_symbols_writes::variables::add_term;
use adj_tree::{Expr, Exprs, Memory, Name, Op};

impl Occurrences<'_, '_, '_> {
    /// Whether a variable is varied before the statement.
    pub fn was_varied(self, name: &Name) -> bool
        ensures was { result ≡ varied_by self.entry (plain name.now) }
    {
        let before = End {
            part: self.part,
            point: number(Point::Before(self.statement)),
            name,
        };
        told_by_bit(self.varied, self.width, before)
    }

    /// Whether a variable has a shadow.
    pub fn has_shadow(self, name: &Name) -> bool
        ensures has { result ≡ shadowed_by self.entry (plain name.now) }
    {
        let unit = End {
            part: self.part,
            point: self.part.number,
            name,
        };
        told(self.shadowed, self.width, unit)
    }

    /// Whether the statement, a DO with this variable, resets its shadow.
    pub fn resets(self, name: &Name) -> bool
        ensures resets { result ≡ (shadowed_by self.entry (plain name.now) && varied_by self.entry (plain name.now)) }
    {
        let has_shadow = self.has_shadow(name);
        let was_varied = self.was_varied(name);
        has_shadow && was_varied
    }

    // Whether a variable is active: varied before the statement, and with a shadow.
    fn is_on(self, name: &Name) -> bool
        ensures on { result ≡ active_by self.entry (plain name.now) }
    {
        let was_varied = self.was_varied(name);
        let has_shadow = self.has_shadow(name);
        was_varied && has_shadow
    }

    // Whether an active variable stands at a differentiable occurrence.
    fn is_active_where(self, term: &Expr) -> bool
        ensures active { result ≡ is_active_where (active_by self.entry) (term_of term.now) }
    {
        match term {
            Expr::Var(name) | Expr::Elem(name, _) => self.is_on(name),
            Expr::Neg(a) | Expr::Power(a, _) => self.is_active_where(a),
            Expr::Pow(a, exponent) => {
                if *exponent == 0 {
                    false
                } else {
                    self.is_active_where(a)
                }
            }
            Expr::Bin(op, a, b) => match op {
                // (in a chain of products the right operand is a factor, and the left one the rest of the chain)
                Op::Add | Op::Sub | Op::Mul => {
                    if self.is_active_where(b) {
                        return true;
                    }
                    self.is_active_where(a)
                }
                Op::Quot | Op::Mod | Op::Max | Op::Min => false,
            },
            Expr::Lit(_) | Expr::Abs(_) => false,
        }
    }

    // Adds what stands in the subscripts of an element, if its array is active.
    fn add_subscripts<'t>(
        self,
        name: &Name,
        subs: &'t Exprs,
        out: &mut Vec<&'t Name>,
    ) -> Result<(), Memory>
        ensures added { OnOk result (vars_seen out.new.items ≡ vars_seen out.old.items ++ list_if (active_by self.entry (plain name.now)) (vars_in_terms (terms_of subs.now))) }
    {
        let is_on = self.is_on(name);
        add_terms_if(subs, is_on, out)
    }

    /// Adds the variables whose values the adjoint of a right side reads: those in the other factor of an active factor, in the base of an
    /// active power of at least 2, in the base and the exponent of an active power by an expression, and in subscripts of active occurrences.
    /// Where all that stands in a part is read, the part isn't gone through again, so that each occurrence is added once.
    pub fn add_reads<'t>(self, term: &'t Expr, out: &mut Vec<&'t Name>) -> Result<(), Memory>
        ensures added { OnOk result (vars_seen out.new.items ≡ vars_seen out.old.items ++ adjoint_reads_in (active_by self.entry) (term_of term.now)) }
    {
        match term {
            Expr::Lit(_) | Expr::Var(_) | Expr::Abs(_) => Ok(()),
            Expr::Elem(name, subs) => self.add_subscripts(name, subs, out),
            Expr::Neg(a) => self.add_reads(a, out),
            Expr::Pow(a, exponent) => match *exponent {
                0 => Ok(()),
                1 => self.add_reads(a, out),
                _ => {
                    if self.is_active_where(a) {
                        add_term(a, out)
                    } else {
                        self.add_reads(a, out)
                    }
                }
            },
            Expr::Power(a, b) => {
                if self.is_active_where(a) {
                    add_term(a, out)?;
                    add_term(b, out)
                } else {
                    self.add_reads(a, out)
                }
            }
            Expr::Bin(op, a, b) => match op {
                Op::Add | Op::Sub => {
                    self.add_reads(a, out)?;
                    self.add_reads(b, out)
                }
                Op::Mul => {
                    let needs_left = self.is_active_where(b);
                    if needs_left {
                        add_term(a, out)?;
                    } else {
                        self.add_reads(a, out)?;
                    }
                    let needs_right = self.is_active_where(a);
                    if needs_right {
                        add_term(b, out)
                    } else {
                        self.add_reads(b, out)
                    }
                }
                Op::Quot | Op::Mod | Op::Max | Op::Min => Ok(()),
            },
        }
    }
}
