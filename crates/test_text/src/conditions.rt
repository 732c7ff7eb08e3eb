//! Worked conditions: the texts of their trees, or what is wrong with them.

use crate::fronts::{Deep, is_found, is_found_deep};
use adj_tree::Cond;

// Texts, what their conditions are printed as, or what is wrong with them, and how many tokens stand after them.
const CONDITIONS: [(&str, &str, usize); 18] = [
    ("( A + B ) .LT. C", "A+B.LT.C", 0),
    ("( A .LE. B ) ) X", "A.LE.B", 2),
    ("( ( A ) .GT. ( B ) )", "A.GT.B", 0),
    ("( ( A ) * B .GT. C )", "A*B.GT.C", 0),
    (
        ".NOT. ( A .LT. B .OR. C .LT. D )",
        ".NOT.(A.LT.B.OR.C.LT.D)",
        0,
    ),
    (
        "A .LT. B .AND. C .GE. D .OR. E .EQ. F",
        "A.LT.B.AND.C.GE.D.OR.E.EQ.F",
        0,
    ),
    (
        "A .LT. B .OR. .NOT. C .NE. D .AND. E .EQ. F , 1",
        "A.LT.B.OR..NOT.C.NE.D.AND.E.EQ.F",
        2,
    ),
    (
        "A .LT. B .OR. C .LT. D .OR. ( E .LT. F )",
        "A.LT.B.OR.C.LT.D.OR.E.LT.F",
        0,
    ),
    ("A .LT. B + 1 + 1 + 1", "A.LT.B+1+1+1", 0),
    ("A .LT. B + 1 + 1 + 1 + 1", "Deep", 0),
    ("A .LT. 9223372036854775808", "Large", 0),
    ("A .LT. B .AND. C .LT. D ** 64", "Exponent", 0),
    ("A .LT. B .LT. C", "none", 0),
    ("A .LT. ( B .LT. C )", "none", 0),
    (".NOT. .NOT. A .LT. B", "none", 0),
    ("( A ) .AND. B .LT. C", "none", 0),
    ("( A .LT. B", "none", 0),
    ("A + B", "none", 0),
];

#[test]
fn a_condition_is_read_at_the_front(rt: HostRuntime) {
    for case in &CONDITIONS {
        let (text, wanted, after) = *case;
        assert!(rt;
            is_found::<Box<Cond>>(rt.alloc(), text, 5, wanted, after) == Ok(true),
            "{text}"
        );
    }
}

const DEEP: [Deep; 4] = [
    ("( ", "A .LT. B", " )", "A.LT.B", 0),
    ("( ", "A", " ) .LT. B", "none", 0),
    (".NOT. ( ", "A .LT. B", " )", "Deep", 0),
    ("A .LT. B .AND. ", "A .LT. B", "", "Deep", 0),
];

#[test]
fn a_deep_condition_is_read_without_recursion(rt: HostRuntime) {
    for case in &DEEP {
        assert!(rt;
            is_found_deep::<Box<Cond>>(rt.alloc(), case) == Ok(true),
            "{}",
            case.0
        );
    }
}
