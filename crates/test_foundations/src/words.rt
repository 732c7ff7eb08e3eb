//! Words, at the ends of their range.

use adj_word::{add, dot, mul, neg, pow, quot, rem, sub, trips};

#[test]
fn sums_products_and_powers_wrap(rt: HostRuntime) {
    let found = [
        add(i64::MAX, 1),
        sub(i64::MIN, 1),
        mul(i64::MAX, 2),
        neg(i64::MIN),
        neg(7),
        pow(0, 0),
        pow(-2, 3),
        pow(-2, 63),
        pow(3, 40),
        pow(2, 64),
        pow(-1, u32::MAX),
        dot(&[1, 2, 3], &[4, -5, 6]),
        dot(&[i64::MAX, 1], &[2, 1]),
        dot(&[], &[]),
    ];
    let wanted = [
        i64::MIN,
        i64::MAX,
        -2,
        i64::MIN,
        -7,
        1,
        -8,
        i64::MIN,
        -6289078614652622815,
        0,
        -1,
        12,
        -1,
        0,
    ];
    assert_eq!(rt; found, wanted);
}

#[test]
fn quotients_are_cut_towards_zero(rt: HostRuntime) {
    let quotients = [
        quot(7, 2),
        quot(-7, 2),
        quot(7, -2),
        quot(-7, -2),
        quot(i64::MIN, -1),
        quot(5, 0),
    ];
    let rests = [
        rem(7, 2),
        rem(-7, 2),
        rem(7, -2),
        rem(-7, -2),
        rem(i64::MIN, -1),
        rem(5, 0),
    ];
    let wanted = [Some(3), Some(-3), Some(-3), Some(3), Some(i64::MIN), None];
    assert!(rt; quotients == wanted, "{quotients:?}");
    let wanted = [Some(1), Some(-1), Some(1), Some(-1), Some(0), None];
    assert!(rt; rests == wanted, "{rests:?}");
}

#[test]
fn loops_turn_as_often_as_without_wrapping(rt: HostRuntime) {
    let found = [
        trips(1, 5, 1),
        trips(5, 1, 1),
        trips(10, 1, -3),
        trips(0, -1, 1),
        trips(i64::MIN, i64::MAX, i64::MAX),
        trips(i64::MIN, i64::MAX, 1),
        trips(1, 2, 0),
    ];
    let wanted = [
        Some(5),
        Some(0),
        Some(4),
        Some(0),
        Some(3),
        Some(1 << 64),
        None,
    ];
    assert_eq!(rt; found, wanted);
}
