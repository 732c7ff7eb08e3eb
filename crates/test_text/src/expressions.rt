//! Worked expressions: the texts of their trees, or what is wrong with them.

use crate::fronts::{Deep, is_found, is_found_deep};
use adj_tree::Expr;

// Texts, what their expressions are printed as, or what is wrong with them, and how many tokens stand after them.
const EXPRESSIONS: [(&str, &str, usize); 32] = [
    ("- A + B * C ** 2 ** 1", "-A+B*C**2", 0),
    ("A ** ( 2 * 3 )", "A**6", 0),
    ("A - B - C", "A-B-C", 0),
    ("+ A / 2 , B", "A/2", 2),
    ("MAX ( A , B ) = 1", "MAX(A,B)", 2),
    ("MIN0 ( A , MOD ( B , 3 ) )", "MIN(A,MOD(B,3))", 0),
    ("IABS ( - A )", "ABS(-A)", 0),
    ("A ( I , J + 1 ) )", "A(I,J+1)", 1),
    ("X ** 64", "Exponent", 0),
    ("X ** ( 1 - 2 )", "Exponent", 0),
    ("X ** ( - 1 ) ** 9223372036854775807", "Exponent", 0),
    ("X ** ( - 1 ) ** 9223372036854775806", "X**1", 0),
    ("9223372036854775807", "9223372036854775807", 0),
    ("9223372036854775808", "Large", 0),
    ("X ** 9223372036854775808", "Large", 0),
    ("X ** N", "X**N", 0),
    ("X ** ( N + 1 )", "X**(N+1)", 0),
    ("X ** 2 ** N", "X**2**N", 0),
    ("( X ** 2 ) ** N", "(X**2)**N", 0),
    ("- X ** N", "-X**N", 0),
    ("X ** ( 4 / 2 )", "X**(4/2)", 0),
    ("X ** ( N + 1 + 1 )", "X**(N+1+1)", 0),
    ("X ** ( N + 1 + 1 + 1 )", "Deep", 0),
    ("X ** ( N + 9223372036854775808 )", "Large", 0),
    ("X ** N ** 64", "Exponent", 0),
    ("A ( B + 1 + 1 )", "A(B+1+1)", 0),
    ("A ( B + 1 + 1 + 1 )", "Deep", 0),
    ("MOD ( A )", "none", 0),
    ("A ( I , J , K )", "none", 0),
    ("A ** - 1", "none", 0),
    ("A B", "none", 0),
    (")", "none", 0),
];

#[test]
fn an_expression_is_read_at_the_front(rt: HostRuntime) {
    for case in &EXPRESSIONS {
        let (text, wanted, after) = *case;
        assert!(rt;
            is_found::<Box<Expr>>(rt.alloc(), text, 4, wanted, after) == Ok(true),
            "{text}"
        );
    }
}

const DEEP: [Deep; 10] = [
    ("( ", "A", " )", "A", 0),
    ("ABS ( ", "A", " )", "Deep", 0),
    ("MAX ( A , ", "A", " )", "Deep", 0),
    ("A + ", "A", "", "Deep", 0),
    ("A ** ", "1", "", "Deep", 0),
    ("1 ** ", "2", "", "1**1", 0),
    ("A ** ( ", "B", " )", "Deep", 0),
    ("1 ** ( ", "2", " )", "1**1", 0),
    ("A , ", "A", "", "A", 40000),
    ("( A , ", "A", "", "none", 0),
];

#[test]
fn a_deep_expression_is_read_without_recursion(rt: HostRuntime) {
    for case in &DEEP {
        assert!(rt;
            is_found_deep::<Box<Expr>>(rt.alloc(), case) == Ok(true),
            "{}",
            case.0
        );
    }
}
