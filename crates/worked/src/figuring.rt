// Lines through our charges, with every table uncorrelated.
use charges::TooLargeAt;
use kinds::figures;
use lines::{Fields, Line, Totals};
use std::test::*;
use tables::{NamedTables, Tables};

fn tables() -> NamedTables {
    NamedTables::from(Tables::uncorrelated())
}

// The figures of one line that stands alone.
fn alone(given: Fields, place: &mut [(u32, u32); 28]) -> Result<Result<(), TooLargeAt>, Fail> {
    let Ok(line) = Line::new(given, 1) else {
        return Err(Fail::new("a line that breaks the rules"));
    };
    let Some(totals) = Totals::of(&[line]) else {
        return Err(Fail::new("too many lines"));
    };
    let tables = tables();
    Ok(figures(&totals, &tables, place))
}

#[test]
fn no_lines(rt: HostRuntime) -> Result<(), Fail> {
    let Some(totals) = Totals::of(&[]) else {
        return Err(Fail::new("too many lines"));
    };
    let mut place = [(1, 2); 28];
    let tables = tables();
    assert_eq!(rt; figures(&totals, &tables, &mut place), Ok(()));
    let mut least = [(0, 0); 28];
    least[26] = (10_000, 10_000);
    assert_eq!(rt; place, least);
    Ok(())
}

#[test]
fn largest_property(rt: HostRuntime) -> Result<(), Fail> {
    let mut place = [(1, 2); 28];
    assert_eq!(rt;
        alone(Fields::from((3, 0, 0, 83_886_075, 0)), &mut place)?,
        Ok(())
    );
    assert_eq!(rt; place[2], (16_777_215, 16_777_215));
    assert_eq!(rt; place[23], (16_777_215, 16_777_215));
    assert_eq!(rt; place[26], (5_592_405, 5_592_405));
    Ok(())
}

#[test]
fn property_too_large(rt: HostRuntime) -> Result<(), Fail> {
    let mut place = [(1, 2); 28];
    assert_eq!(rt;
        alone(Fields::from((3, 0, 0, 83_886_076, 0)), &mut place)?,
        Err(TooLargeAt(3))
    );
    assert_eq!(rt; place, [(1, 2); 28]);
    Ok(())
}

#[test]
fn a_life_line(rt: HostRuntime) -> Result<(), Fail> {
    let mut place = [(1, 2); 28];
    assert_eq!(rt;
        alone(Fields::from((8, 2, 0, 1_000, 1_250)), &mut place)?,
        Ok(())
    );
    assert_eq!(rt; place[7], (250, 250));
    assert_eq!(rt; place[20], (250, 250));
    assert_eq!(rt; place[26], (20_000, 20_000));
    Ok(())
}
