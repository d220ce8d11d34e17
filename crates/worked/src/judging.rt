// Lines that keep or break the rules of their kind.
use lines::{Fields, Line};
use std::test::*;

const ANY: u32 = 4_294_967_295;

const SQUARED: u32 = 16_777_215;

// The fields of the line, or the refusal's number, the line's and the field's place.
fn judged(given: Fields, number: usize) -> Result<Fields, (u8, usize, usize)> {
    Line::new(given, number)
        .map(|line| line.fields())
        .map_err(|fault| fault.shown())
}

#[test]
fn kept(rt: HostRuntime) -> Result<(), Fail> {
    let cases = [
        (1, 4, 0, ANY, ANY),
        (2, 2, 0, ANY, 0),
        (3, 0, 0, ANY, 0),
        (4, 8, 5_000, ANY, 0),
        (5, 0, 0, SQUARED, 0),
        (6, 2, 0, ANY, 0),
        (7, 1, 0, ANY, ANY),
        (13, 2, 0, ANY, ANY),
        (14, 0, 10_000, ANY, 0),
        (17, 15, 10_000, ANY, 0),
        (18, 0, 0, SQUARED, 0),
        (20, 0, 10_000, ANY, 0),
        (25, 6, 0, ANY, 0),
    ];
    for case in cases {
        let given = Fields::from(case);
        assert_eq!(rt; judged(given, 1), Ok(given));
    }
    Ok(())
}

#[test]
fn broken(rt: HostRuntime) -> Result<(), Fail> {
    let cases = [
        ((0, 0, 0, 0, 0), (4, 9, 1)),
        ((19, 0, 0, 0, 0), (4, 9, 1)),
        ((21, 99, 1, ANY, ANY), (4, 9, 1)),
        ((26, 0, 0, 0, 0), (4, 9, 1)),
        ((1, 0, 0, 0, 0), (5, 9, 2)),
        ((1, 5, 1, 0, 0), (5, 9, 2)),
        ((3, 1, 0, 0, 0), (5, 9, 2)),
        ((17, 16, 0, 0, 0), (5, 9, 2)),
        ((25, 7, 0, 0, 0), (5, 9, 2)),
        ((4, 1, 5_001, 0, 1), (6, 9, 3)),
        ((14, 0, 10_001, 0, 0), (6, 9, 3)),
        ((2, 1, 1, 0, 0), (6, 9, 3)),
        ((5, 0, 0, 16_777_216, 1), (7, 9, 4)),
        ((18, 0, 0, 16_777_216, 0), (7, 9, 4)),
        ((2, 1, 0, 0, 1), (7, 9, 5)),
        ((20, 0, 0, 0, 1), (7, 9, 5)),
    ];
    for (given, shown) in cases {
        assert_eq!(rt; judged(Fields::from(given), 9), Err(shown));
    }
    Ok(())
}
