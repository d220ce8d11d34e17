// Flat charges put through the formula; the figures expected were worked apart from it.
use super::{Five, Flat, Seven, Six, Three, Two};
use charges::{Beside, Charge, Charges, TooLargeAt, work_out};
use roots::{Size, Table};
use std::process::Abort;
use std::slice::Iter;
use std::test::Fail;

// The charges that are left to take.
type Left<'a> = Iter<'a, (u32, u32)>;

// The next charge.
fn charge(given: &mut Left) -> Result<Flat, Fail> {
    let Some((low, high)) = given.next() else {
        return Err(Fail::new("too few charges"));
    };
    let Some(flat) = Flat::new(*low, *high) else {
        return Err(Fail::new("no flat charge"));
    };
    Ok(flat)
}

fn two(given: &mut Left) -> Result<Two, Fail> {
    Ok((charge(given)?, (charge(given)?, ())))
}

fn three(given: &mut Left) -> Result<Three, Fail> {
    Ok((charge(given)?, two(given)?))
}

fn five(given: &mut Left) -> Result<Five, Fail> {
    Ok((charge(given)?, (charge(given)?, three(given)?)))
}

fn six(given: &mut Left) -> Result<Six, Fail> {
    Ok((charge(given)?, five(given)?))
}

fn seven(given: &mut Left) -> Result<Seven, Fail> {
    Ok((charge(given)?, six(given)?))
}

// The 23 charges given through the formula.
fn worked(
    given: &[(u32, u32)],
    table: &Table,
    beside: &Beside,
    place: &mut [(u32, u32); 28],
) -> Result<Result<(), TooLargeAt>, Fail> {
    let mut given = given.iter();
    let charges = Charges {
        market: six(&mut given)?,
        life: seven(&mut given)?,
        health: three(&mut given)?,
        non_life: two(&mut given)?,
        basic: five(&mut given)?,
    };
    Ok(work_out(&charges, table, beside, place))
}

// Figures 1 to 18, no two alike, and these members of the basic SCR.
fn given(members: [(u32, u32); 5]) -> [(u32, u32); 23] {
    let mut all = [(0, 0); 23];
    for (pair, given) in all.iter_mut().zip((0..18).zip(50..68)) {
        *pair = given;
    }
    all[18..23].copy_from_slice(&members);
    all
}

// The table of five members with this entry everywhere off its diagonal.
fn table_of(entry: u8) -> Result<Table, Fail> {
    let Some(size) = Size::new(5) else {
        return Err(Fail::new("no size"));
    };
    let table = Table::from_upper(size, &[entry; 10])?;
    Ok(table)
}

// Figures 1 to 23 as they are given, and the last five.
fn answers(
    rt: &impl Abort,
    given: &[(u32, u32); 23],
    table: &Table,
    beside: &Beside,
    last: [(u32, u32); 5],
) -> Result<(), Fail> {
    let mut place = [(0, 0); 28];
    let told = worked(given, table, beside, &mut place)?;
    assert_eq!(rt; told, Ok(()));
    let mut figures = [(0, 0); 28];
    figures[0..23].copy_from_slice(given);
    figures[23..28].copy_from_slice(&last);
    assert_eq!(rt; place, figures);
    Ok(())
}

// This figure is too large, and the place is as before.
fn refuses(
    rt: &impl Abort,
    given: &[(u32, u32); 23],
    table: &Table,
    beside: &Beside,
    figure: u8,
) -> Result<(), Fail> {
    let mut place = [(7, 9); 28];
    let told = worked(given, table, beside, &mut place)?;
    assert_eq!(rt; told, Err(TooLargeAt(figure)));
    assert_eq!(rt; place, [(7, 9); 28]);
    Ok(())
}

#[test]
fn three_and_four(rt: HostRuntime) -> Result<(), Fail> {
    let Some(size) = Size::new(5) else {
        return Err(Fail::new("no size"));
    };
    let table = Table::uncorrelated(size);
    let beside = Beside {
        premiums: 250,
        provisions: 120,
        least: 10_000,
    };
    let members = [(3, 3), (4, 4), (0, 0), (0, 0), (0, 0)];
    let last = [(5, 5), (1, 2), (6, 7), (10_000, 10_000), (2, 2)];
    answers(&rt, &given(members), &table, &beside, last)
}

#[test]
fn entries_of_100(rt: HostRuntime) -> Result<(), Fail> {
    let beside = Beside {
        premiums: 123_456,
        provisions: 200_001,
        least: 2_500,
    };
    let members = [
        (1_000, 1_010),
        (2_000, 2_050),
        (3_000, 3_000),
        (500, 501),
        (0, 50),
    ];
    let last = [
        (6_500, 6_611),
        (1_950, 1_984),
        (8_450, 8_595),
        (2_816, 2_865),
        (0, 111),
    ];
    answers(&rt, &given(members), &table_of(100)?, &beside, last)
}

#[test]
fn entries_of_0(rt: HostRuntime) -> Result<(), Fail> {
    let beside = Beside {
        premiums: 50_000,
        provisions: 49_999,
        least: 1_000,
    };
    let members = [
        (1_000, 1_010),
        (2_000, 2_050),
        (3_000, 3_000),
        (500, 501),
        (0, 50),
    ];
    let last = [
        (3_774, 3_805),
        (500, 500),
        (4_274, 4_305),
        (1_424, 1_435),
        (2_695, 2_837),
    ];
    answers(&rt, &given(members), &table_of(0)?, &beside, last)
}

#[test]
fn too_large(rt: HostRuntime) -> Result<(), Fail> {
    let beside = Beside {
        premiums: 100,
        provisions: 0,
        least: 0,
    };
    let mut all = given([(16_777_215, 16_777_215), (1, 1), (0, 0), (0, 0), (0, 0)]);
    refuses(&rt, &all, &table_of(100)?, &beside, 24)?;
    all[19] = (0, 0);
    refuses(&rt, &all, &table_of(100)?, &beside, 26)?;
    all[22] = (16_777_200, 16_777_216);
    refuses(&rt, &all, &table_of(0)?, &beside, 23)?;
    all[6] = (16_777_216, 16_777_216);
    refuses(&rt, &all, &table_of(0)?, &beside, 7)
}

#[test]
fn made(rt: HostRuntime) -> Result<(), Fail> {
    assert!(rt; Flat::new(5, 4).is_none());
    assert!(rt; Flat::new(5, 56).is_none());
    assert!(rt; Flat::new(4_294_967_295, 0).is_none());
    let Some(widest) = Flat::new(5, 55) else {
        return Err(Fail::new("not made"));
    };
    assert_eq!(rt; widest.greatest_width(), 50);
    let Ok(pair) = widest.bounds() else {
        return Err(Fail::new("too large"));
    };
    assert_eq!(rt; pair, (5, 55));
    assert!(rt; Flat::new(4_294_967_245, 4_294_967_295).is_some());
    Ok(())
}
