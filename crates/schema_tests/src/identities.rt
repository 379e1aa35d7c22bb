// Tests of identity_columns.
use delta_schema::IdentityRule;
use dm_types::WholeList;
use identity_columns::{IdentityFault, next_values};
use std::process::Abort;
use std::test::Fail;

// A rule, a number of rows, and the values that they get; None is Overflow.
struct ValueCase {
    start: i64,
    step: i64,
    mark: Option<i64>,
    count: usize,
    wanted: Option<&'static [i64]>,
}

// Without a mark, with marks that are values, and with marks between values.
const MARKS: [ValueCase; 12] = [
    ValueCase {
        start: 1,
        step: 1,
        mark: None,
        count: 3,
        wanted: Some(&[1, 2, 3]),
    },
    ValueCase {
        start: 1,
        step: 1,
        mark: Some(3),
        count: 2,
        wanted: Some(&[4, 5]),
    },
    ValueCase {
        start: 7,
        step: 4,
        mark: Some(7),
        count: 2,
        wanted: Some(&[11, 15]),
    },
    ValueCase {
        start: 0,
        step: 10,
        mark: Some(25),
        count: 2,
        wanted: Some(&[30, 40]),
    },
    ValueCase {
        start: 0,
        step: 10,
        mark: Some(30),
        count: 1,
        wanted: Some(&[40]),
    },
    ValueCase {
        start: -15,
        step: 10,
        mark: Some(-6),
        count: 3,
        wanted: Some(&[-5, 5, 15]),
    },
    ValueCase {
        start: 0,
        step: -10,
        mark: None,
        count: 3,
        wanted: Some(&[0, -10, -20]),
    },
    ValueCase {
        start: 0,
        step: -10,
        mark: Some(-20),
        count: 1,
        wanted: Some(&[-30]),
    },
    ValueCase {
        start: 0,
        step: -10,
        mark: Some(-25),
        count: 2,
        wanted: Some(&[-30, -40]),
    },
    ValueCase {
        start: 0,
        step: -10,
        mark: Some(-29),
        count: 1,
        wanted: Some(&[-30]),
    },
    ValueCase {
        start: 5,
        step: -3,
        mark: Some(4),
        count: 3,
        wanted: Some(&[2, -1, -4]),
    },
    ValueCase {
        start: 5,
        step: -3,
        mark: Some(5),
        count: 0,
        wanted: Some(&[]),
    },
];

// With marks before the start in the step's direction: the first value is the start.
const EARLY_MARKS: [ValueCase; 5] = [
    ValueCase {
        start: 100,
        step: 5,
        mark: Some(7),
        count: 2,
        wanted: Some(&[100, 105]),
    },
    ValueCase {
        start: 100,
        step: 5,
        mark: Some(99),
        count: 1,
        wanted: Some(&[100]),
    },
    ValueCase {
        start: -5,
        step: -2,
        mark: Some(10),
        count: 2,
        wanted: Some(&[-5, -7]),
    },
    ValueCase {
        start: -5,
        step: -2,
        mark: Some(-4),
        count: 1,
        wanted: Some(&[-5]),
    },
    ValueCase {
        start: i64::MAX,
        step: 1,
        mark: Some(i64::MIN),
        count: 1,
        wanted: Some(&[i64::MAX]),
    },
];

// At the ends of the range of `long`.
const ENDS: [ValueCase; 16] = [
    ValueCase {
        start: 9_223_372_036_854_775_806,
        step: 1,
        mark: None,
        count: 3,
        wanted: None,
    },
    ValueCase {
        start: 9_223_372_036_854_775_806,
        step: 1,
        mark: None,
        count: 2,
        wanted: Some(&[9_223_372_036_854_775_806, 9_223_372_036_854_775_807]),
    },
    ValueCase {
        start: 0,
        step: 1,
        mark: Some(i64::MAX),
        count: 1,
        wanted: None,
    },
    ValueCase {
        start: 0,
        step: 1,
        mark: Some(i64::MAX),
        count: 0,
        wanted: Some(&[]),
    },
    ValueCase {
        start: i64::MIN,
        step: 1,
        mark: Some(i64::MAX),
        count: 0,
        wanted: Some(&[]),
    },
    ValueCase {
        start: i64::MIN,
        step: 1,
        mark: Some(9_223_372_036_854_775_806),
        count: 1,
        wanted: Some(&[i64::MAX]),
    },
    ValueCase {
        start: -9_223_372_036_854_775_807,
        step: -1,
        mark: None,
        count: 2,
        wanted: Some(&[-9_223_372_036_854_775_807, i64::MIN]),
    },
    ValueCase {
        start: -9_223_372_036_854_775_807,
        step: -1,
        mark: None,
        count: 3,
        wanted: None,
    },
    ValueCase {
        start: 0,
        step: -1,
        mark: Some(i64::MIN),
        count: 1,
        wanted: None,
    },
    // The greatest steps.
    ValueCase {
        start: i64::MIN,
        step: i64::MAX,
        mark: None,
        count: 3,
        wanted: Some(&[i64::MIN, -1, 9_223_372_036_854_775_806]),
    },
    ValueCase {
        start: i64::MIN,
        step: i64::MAX,
        mark: None,
        count: 4,
        wanted: None,
    },
    ValueCase {
        start: i64::MAX,
        step: i64::MIN,
        mark: None,
        count: 2,
        wanted: Some(&[i64::MAX, -1]),
    },
    ValueCase {
        start: i64::MAX,
        step: i64::MIN,
        mark: Some(0),
        count: 2,
        wanted: None,
    },
    ValueCase {
        start: i64::MAX,
        step: i64::MIN,
        mark: Some(i64::MIN),
        count: 0,
        wanted: Some(&[]),
    },
    // No memory is taken for values that aren't there.
    ValueCase {
        start: 0,
        step: 1,
        mark: None,
        count: usize::MAX,
        wanted: None,
    },
    ValueCase {
        start: i64::MAX,
        step: i64::MIN,
        mark: Some(i64::MIN),
        count: usize::MAX,
        wanted: None,
    },
];

// Whether these values are wanted.
fn are(values: &WholeList, wanted: &[i64]) -> bool {
    values.as_slice() == wanted
}

// Whether the rule of the case gives what is wanted.
fn gives(rt: &(impl Abort + AllocGlobal), case: &ValueCase) -> bool {
    let rule = IdentityRule {
        start: case.start,
        step: case.step,
        mark: case.mark,
        explicit: false,
    };
    assert!(rt; rule.step != 0);
    match next_values(rt.alloc(), &rule, case.count) {
        Ok(values) => case.wanted.is_some_and(|wanted| are(&values, wanted)),
        Err(IdentityFault::Overflow) => case.wanted.is_none(),
        Err(IdentityFault::Memory) => false,
    }
}

#[test]
fn values_follow_the_mark(rt: HostRuntime) -> Result<(), Fail> {
    for case in &MARKS {
        assert!(rt; gives(&rt, case));
    }
    for case in &EARLY_MARKS {
        assert!(rt; gives(&rt, case));
    }
    Ok(())
}

#[test]
fn values_end_with_the_range(rt: HostRuntime) -> Result<(), Fail> {
    for case in &ENDS {
        assert!(rt; gives(&rt, case));
    }
    Ok(())
}
