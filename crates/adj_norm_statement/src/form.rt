//! Whether a program is in kernel form. (docs/KERNEL.md, "The form")

ghost use Rattle.std.specs.Prelude.{◌≡◌, ◌↔◌, IsTrue, map};
ghost use Rattle.adj_tree.specs.Code.{plain, name_eq};
ghost use Rattle.adj_tree.specs.View.{term_of, terms_of, act_of, code_of, mark_of, procedure_of, procedures_of};
ghost use Rattle.def_meaning.specs.Read.{reads_term, reads_terms};
ghost use Rattle.def_kernel.specs.Calls.{stands_whole};
ghost use Rattle.def_kernel.specs.Form.{IsKernel};
ghost use Rattle.adj_norm_statement.specs.Form as form;

use adj_tree::{Act, Expr, Exprs, Mark, Name, Op, Program, Stmt, Stmts, Unit};

/// Whether two names are the same.
fn same_name(name: &Name, other: &Name) -> bool
    ensures same { result ≡ name_eq name.now other.now }
{
    name.equals(other)
}

/// Whether the variable of a name stands in an expression.
#[cycle(reads)]
pub(crate) fn stands_in(name: &Name, e: &Expr) -> bool
    ensures stands { result ≡ reads_term (plain name.now) (term_of e.now) }
{
    match e {
        Expr::Lit(_) => false,
        Expr::Var(x) => same_name(name, x),
        Expr::Elem(x, subs) => same_name(name, x) || stands_in_any(name, subs),
        Expr::Neg(a) | Expr::Pow(a, _) | Expr::Abs(a) => stands_in(name, a),
        Expr::Bin(_, a, b) | Expr::Power(a, b) => stands_in(name, a) || stands_in(name, b),
    }
}

/// Whether it stands in one of some expressions.
#[cycle(reads)]
fn stands_in_any(name: &Name, es: &Exprs) -> bool
    ensures stands { result ≡ reads_terms (plain name.now) (terms_of es.now) }
{
    let mut current = es;
    while let Exprs::More(first, rest) = current {
        if stands_in(name, first) {
            return true;
        }
        current = rest;
    }
    false
}

/// Whether no `MAX`, `MIN` or `ABS` stands at a differentiable occurrence.
fn is_reduced(e: &Expr) -> bool
    ensures reduced { result ≡ form.is_reduced (term_of e.now) }
{
    match e {
        Expr::Lit(_) | Expr::Var(_) | Expr::Elem(_, _) => true,
        Expr::Neg(a) | Expr::Power(a, _) => is_reduced(a),
        Expr::Pow(a, power) => *power == 0 || is_reduced(a),
        Expr::Abs(_) => false,
        Expr::Bin(op, a, b) => match op {
            Op::Add | Op::Sub | Op::Mul => is_reduced(a) && is_reduced(b),
            Op::Quot | Op::Mod => true,
            Op::Max | Op::Min => false,
        },
    }
}

/// Whether a name is one of some actuals.
fn is_actual(name: &Name, actuals: &Exprs) -> bool
    ensures stands { result ≡ stands_whole (plain name.now) (terms_of actuals.now) }
{
    let mut current = actuals;
    while let Exprs::More(first, rest) = current {
        if let Expr::Var(x) = &**first {
            if same_name(name, x) {
                return true;
            }
        }
        current = rest;
    }
    false
}

/// Whether the actuals are names, no two of them the same.
fn are_distinct_names(actuals: &Exprs) -> bool
    ensures distinct { result ≡ form.are_distinct_names (terms_of actuals.now) }
{
    let mut current = actuals;
    while let Exprs::More(first, rest) = current {
        let Expr::Var(name) = &**first else {
            return false;
        };
        if is_actual(name, rest) {
            return false;
        }
        current = rest;
    }
    true
}

/// Whether the list is one CALL of a unit.
fn is_one_call(body: &Stmts) -> bool
    ensures call { result ≡ form.is_one_call (code_of body.now) }
{
    match body {
        Stmts::Empty => false,
        Stmts::More(row) => matches!(row.first.act, Act::Call(_, _))
            && matches!(row.rest, Stmts::Empty),
    }
}

/// Whether the loop isn't marked, or has a body that is one CALL.
fn holds_one_call(mark: &Mark, body: &Stmts) -> bool
    ensures call { result ≡ form.holds_one_call (mark_of mark.now) (code_of body.now) }
{
    match mark {
        Mark::Plain => true,
        Mark::Count(_) | Mark::From(_) => is_one_call(body),
    }
}

/// Whether a statement is one of a kernel.
#[cycle(kernel_form)]
pub fn is_kernel_statement(s: &Stmt) -> bool
    ensures form { result ≡ form.is_kernel_act (act_of s.now.act) }
{
    match &s.act {
        Act::Assign(place, e) => !stands_in_any(&place.name, &place.subs) && is_reduced(e),
        Act::If(_, a, b) => is_kernel_list(a) && is_kernel_list(b),
        Act::Loop(_, _, _, _, body, mark) => holds_one_call(mark, body) && is_kernel_list(body),
        Act::While(_, body) => is_kernel_list(body),
        Act::Call(_, actuals) => are_distinct_names(actuals),
        Act::Run(_) => false,
    }
}

/// Whether the statements of a list are.
#[cycle(kernel_form)]
fn is_kernel_list(c: &Stmts) -> bool
    ensures form { result ≡ form.is_kernel_code (code_of c.now) }
{
    let mut current = c;
    while let Stmts::More(row) = current {
        if !is_kernel_statement(&row.first) {
            return false;
        }
        current = &row.rest;
    }
    true
}

/// Whether the statements of some units are.
fn are_kernel_units(units: &[Unit]) -> bool
    ensures form { result ≡ form.are_kernel_units (map procedure_of units.now) }
{
    for unit in units {
        if !is_kernel_list(&unit.body) {
            return false;
        }
    }
    true
}

/// Whether a program is in kernel form.
#[tactic(auto, using(crate::proofs::Decided::units_found, crate::proofs::Decided::units_told))]
pub fn is_kernel(p: &Program) -> bool
    ensures exactly { IsTrue result ↔ IsKernel (procedures_of p.now) }
{
    are_kernel_units(p.units.as_slice())
}
