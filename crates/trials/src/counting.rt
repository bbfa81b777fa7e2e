// Edge cases of weights and of the three arithmetics.
use arithmetic::{Arithmetic, ArithmeticFault};
use fine::Fine;
use gram::Gram;
use old::Old;
use std::process::Abort;
use std::test::Fail;
use weight::Weight;

// Two places, and what plus, minus, times and over are to show, or the fault's number.
struct Row<P> {
    left: P,
    right: P,
    plus: Result<i32, u8>,
    minus: Result<i32, u8>,
    times: Result<i32, u8>,
    over: Result<i32, u8>,
}

const MAX: i32 = 2147483647;

const MIN: i32 = -2147483648;

const GRAM: [Row<i32>; 12] = [
    Row {
        left: 7,
        right: 2,
        plus: Ok(9),
        minus: Ok(5),
        times: Ok(14),
        over: Ok(3),
    },
    Row {
        left: -7,
        right: 2,
        plus: Ok(-5),
        minus: Ok(-9),
        times: Ok(-14),
        over: Ok(-3),
    },
    Row {
        left: 7,
        right: -2,
        plus: Ok(5),
        minus: Ok(9),
        times: Ok(-14),
        over: Ok(-3),
    },
    Row {
        left: MAX,
        right: 1,
        plus: Err(31),
        minus: Ok(2147483646),
        times: Ok(MAX),
        over: Ok(MAX),
    },
    Row {
        left: -MAX,
        right: 1,
        plus: Ok(-2147483646),
        minus: Err(31),
        times: Ok(-MAX),
        over: Ok(-MAX),
    },
    Row {
        left: -MAX,
        right: -1,
        plus: Err(31),
        minus: Ok(-2147483646),
        times: Ok(MAX),
        over: Ok(MAX),
    },
    Row {
        left: 46341,
        right: 46341,
        plus: Ok(92682),
        minus: Ok(0),
        times: Err(31),
        over: Ok(1),
    },
    Row {
        left: 46340,
        right: 46340,
        plus: Ok(92680),
        minus: Ok(0),
        times: Ok(2147395600),
        over: Ok(1),
    },
    Row {
        left: 5,
        right: 0,
        plus: Ok(5),
        minus: Ok(5),
        times: Ok(0),
        over: Err(32),
    },
    Row {
        left: MIN,
        right: 5,
        plus: Ok(5),
        minus: Ok(-5),
        times: Ok(0),
        over: Ok(0),
    },
    Row {
        left: 5,
        right: MIN,
        plus: Ok(5),
        minus: Ok(5),
        times: Ok(0),
        over: Err(32),
    },
    Row {
        left: MIN,
        right: -1,
        plus: Ok(-1),
        minus: Ok(1),
        times: Ok(0),
        over: Ok(0),
    },
];

const OLD: [Row<i32>; 9] = [
    Row {
        left: 7,
        right: 2,
        plus: Ok(9),
        minus: Ok(5),
        times: Ok(14),
        over: Ok(3),
    },
    Row {
        left: -7,
        right: 2,
        plus: Ok(-5),
        minus: Ok(-9),
        times: Ok(-14),
        over: Ok(-3),
    },
    Row {
        left: MAX,
        right: 1,
        plus: Ok(MIN),
        minus: Ok(2147483646),
        times: Ok(MAX),
        over: Ok(MAX),
    },
    Row {
        left: MIN,
        right: 1,
        plus: Ok(-2147483647),
        minus: Ok(MAX),
        times: Ok(MIN),
        over: Ok(MIN),
    },
    Row {
        left: MIN,
        right: -1,
        plus: Ok(MAX),
        minus: Ok(-2147483647),
        times: Ok(MIN),
        over: Ok(MIN),
    },
    Row {
        left: 46341,
        right: 46341,
        plus: Ok(92682),
        minus: Ok(0),
        times: Ok(-2147479015),
        over: Ok(1),
    },
    Row {
        left: MIN,
        right: MIN,
        plus: Ok(0),
        minus: Ok(0),
        times: Ok(0),
        over: Ok(1),
    },
    Row {
        left: 5,
        right: 0,
        plus: Ok(5),
        minus: Ok(5),
        times: Ok(0),
        over: Err(32),
    },
    Row {
        left: MIN,
        right: 0,
        plus: Ok(MIN),
        minus: Ok(MIN),
        times: Ok(0),
        over: Err(32),
    },
];

const FINE: [Row<f64>; 15] = [
    Row {
        left: 7.0,
        right: 2.0,
        plus: Ok(9),
        minus: Ok(5),
        times: Ok(14),
        over: Ok(3),
    },
    Row {
        left: -7.0,
        right: 2.0,
        plus: Ok(-5),
        minus: Ok(-9),
        times: Ok(-14),
        over: Ok(-3),
    },
    Row {
        left: 2147483647.0,
        right: 1.0,
        plus: Err(31),
        minus: Ok(2147483646),
        times: Ok(MAX),
        over: Ok(MAX),
    },
    Row {
        left: 2147483647.0,
        right: 0.5,
        plus: Err(31),
        minus: Ok(2147483646),
        times: Ok(1073741823),
        over: Err(31),
    },
    Row {
        left: 46341.0,
        right: 46341.0,
        plus: Ok(92682),
        minus: Ok(0),
        times: Err(31),
        over: Ok(1),
    },
    Row {
        left: 5.0,
        right: 0.0,
        plus: Ok(5),
        minus: Ok(5),
        times: Ok(0),
        over: Err(32),
    },
    Row {
        left: 5.0,
        right: -0.0,
        plus: Ok(5),
        minus: Ok(5),
        times: Ok(0),
        over: Err(32),
    },
    Row {
        left: f64::NAN,
        right: 5.0,
        plus: Ok(5),
        minus: Ok(-5),
        times: Ok(0),
        over: Ok(0),
    },
    Row {
        left: 5.0,
        right: f64::NAN,
        plus: Ok(5),
        minus: Ok(5),
        times: Ok(0),
        over: Err(32),
    },
    Row {
        left: f64::INFINITY,
        right: 5.0,
        plus: Ok(5),
        minus: Ok(-5),
        times: Ok(0),
        over: Ok(0),
    },
    Row {
        left: 2147483648.0,
        right: 5.0,
        plus: Ok(5),
        minus: Ok(-5),
        times: Ok(0),
        over: Ok(0),
    },
    Row {
        left: 0.999,
        right: -0.001,
        plus: Ok(0),
        minus: Ok(1),
        times: Ok(0),
        over: Ok(-999),
    },
    Row {
        left: f64::NEG_INFINITY,
        right: 5.0,
        plus: Ok(5),
        minus: Ok(-5),
        times: Ok(0),
        over: Ok(0),
    },
    Row {
        left: -2147483648.0,
        right: 5.0,
        plus: Ok(5),
        minus: Ok(-5),
        times: Ok(0),
        over: Ok(0),
    },
    Row {
        left: -2147483647.0,
        right: -0.0,
        plus: Ok(-MAX),
        minus: Ok(-MAX),
        times: Ok(0),
        over: Err(32),
    },
];

fn told<V: Arithmetic>(answer: Result<V, ArithmeticFault>) -> Result<i32, u8> {
    answer.map(V::shown).map_err(ArithmeticFault::number)
}

// Each row of a table, at the values that stand for its places.
fn holds<V: Arithmetic, P: Copy, F: Fn(P) -> V>(rt: &impl Abort, rows: &[Row<P>], value_of: F)
    requires { F.IsAlwaysCallable value_of }
{
    for row in rows {
        let left = value_of(row.left);
        let right = value_of(row.right);
        assert_eq!(rt; told(left.plus(right)), row.plus, "plus");
        assert_eq!(rt; told(left.minus(right)), row.minus, "minus");
        assert_eq!(rt; told(left.times(right)), row.times, "times");
        assert_eq!(rt; told(left.over(right)), row.over, "over");
    }
}

#[test]
fn gram_table(rt: HostRuntime) {
    holds(&rt, &GRAM, |grams| Gram { grams });
}

#[test]
fn old_table(rt: HostRuntime) {
    holds(&rt, &OLD, |grams| Old { grams });
}

#[test]
fn fine_table(rt: HostRuntime) {
    holds(&rt, &FINE, |grams| Fine { grams });
}

// Results that a display does not tell apart.
#[test]
fn fine_rounds_once(rt: HostRuntime) -> Result<(), Fail> {
    assert!(rt; Fine { grams: 0.1 }.plus(Fine { grams: 0.2 })?.grams == 0.30000000000000004);
    assert!(rt; Fine { grams: -7.0 }.over(Fine { grams: 2.0 })?.grams == -3.5);
    assert!(rt;
        Fine {
            grams: 2147483646.5,
        }
        .plus(Fine { grams: 0.25 })?
        .grams
            == 2147483646.75
    );
    assert!(rt;
        Fine {
            grams: 2147483647.0,
        }
        .plus(Fine { grams: 0.0000001 })?
        .grams
            == 2147483647.0
    );
    Ok(())
}

// The sign of a zero, which no comparison tells: 1 divided by it does.
#[test]
fn fine_keeps_the_sign_of_zero(rt: HostRuntime) -> Result<(), Fail> {
    let minus = Fine { grams: -0.0 };
    assert!(rt; 1.0 / minus.plus(minus)?.grams < 0.0);
    assert!(rt; 1.0 / minus.minus(minus)?.grams > 0.0);
    assert!(rt; 1.0 / minus.times(Fine { grams: 5.0 })?.grams < 0.0);
    assert!(rt; 1.0 / Fine { grams: f64::NAN }.plus(minus)?.grams > 0.0);
    Ok(())
}

#[test]
fn positive_is_above_zero(rt: HostRuntime) {
    assert!(rt;
        Gram { grams: 1 }.positive()
            && !Gram { grams: 0 }.positive()
            && !Gram { grams: -1 }.positive()
    );
    assert!(rt;
        !Gram { grams: MIN }.positive()
            && !Old { grams: MIN }.positive()
            && Old { grams: MAX }.positive()
    );
    assert!(rt;
        Fine { grams: 0.001 }.positive()
            && !Fine { grams: 0.0 }.positive()
            && !Fine { grams: -0.0 }.positive()
    );
    assert!(rt;
        !Fine { grams: f64::NAN }.positive()
            && !Fine {
                grams: f64::INFINITY,
            }
            .positive()
    );
}

#[test]
fn positive_at_more_edges(rt: HostRuntime) {
    assert!(rt; Gram { grams: MAX }.positive());
    assert!(rt;
        Old { grams: 1 }.positive() && !Old { grams: 0 }.positive() && !Old { grams: -1 }.positive()
    );
}

#[test]
fn shown_in_whole_grams(rt: HostRuntime) {
    assert_eq!(rt; Gram { grams: MIN }.shown(), 0);
    assert_eq!(rt; Old { grams: MIN }.shown(), MIN);
    assert_eq!(rt; Fine { grams: -3.9 }.shown(), -3);
    assert_eq!(rt;
        Fine {
            grams: 2147483647.0,
        }
        .shown(),
        MAX
    );
    assert_eq!(rt;
        Fine {
            grams: 2147483648.0,
        }
        .shown(),
        0
    );
    assert_eq!(rt; Fine { grams: f64::NAN }.shown(), 0);
    assert_eq!(rt; Fine { grams: -0.0 }.shown(), 0);
}

// The grams of a weight, or None where there is none.
fn weighed(grams: i32) -> Option<i32> {
    Weight::new(grams).map(Weight::grams)
}

#[test]
fn weights_within_the_limit(rt: HostRuntime) {
    for grams in [0, 1, -1, 268435455, -268435455] {
        assert_eq!(rt; weighed(grams), Some(grams));
    }
    for grams in [268435456, -268435456, MAX, MIN] {
        assert_eq!(rt; weighed(grams), None);
    }
    assert_eq!(rt; Weight::zero().grams(), 0);
}

// What whole makes of a weight at the limit, as shown.
fn whole_shown<V: Arithmetic>(grams: i32) -> Option<i32> {
    Weight::new(grams).map(|weight| V::whole(weight).shown())
}

#[test]
fn whole_of_any_weight(rt: HostRuntime) {
    for grams in [0, -1, 268435455, -268435455] {
        assert_eq!(rt; whole_shown::<Gram>(grams), Some(grams));
        assert_eq!(rt; whole_shown::<Old>(grams), Some(grams));
        assert_eq!(rt; whole_shown::<Fine>(grams), Some(grams));
    }
}
