// Filings, and their figures by our charges, which were worked apart from them.
use filing::{Filing, FilingFault};
use kinds::{Ours, figures};
use lines::{Fields, Totals};
use std::process::Abort;
use std::test::Fail;
use tables::NamedTables;
use working::{Figure, WorkOut};

// Done, or the refusal's number and its places.
type Shown = Result<(), (u8, usize, usize)>;

fn opened(rt: &HostRuntime) -> Result<Filing, Fail> {
    Ok(Filing::new(rt.alloc(), 2031, 4)?)
}

fn told(answer: Result<(), FilingFault>) -> Shown {
    answer.map_err(|fault| fault.shown())
}

fn enter(filing: &mut Filing, kind: u8, class: u8, rate: u16, first: u32) -> Shown {
    told(filing.enter(Fields::from((kind, class, rate, first, 0))))
}

fn figure(filing: &Filing, number: u8) -> Result<(u32, u32), Fail> {
    let Some(figure) = Figure::new(number) else {
        return Err(Fail::new("no such figure"));
    };
    Ok(filing.figure::<Ours>(figure)?)
}

// Working out is refused so, and leaves the place as it was.
fn refused(rt: &impl Abort, filing: &Filing, shown: Shown) -> Result<(), Fail> {
    let mut place = [(1, 2); 28];
    assert_eq!(rt; told(filing.work_out::<Ours>(&mut place)), shown);
    assert_eq!(rt; place, [(1, 2); 28]);
    Ok(())
}

#[test]
fn empty(rt: HostRuntime) -> Result<(), Fail> {
    let filing = opened(&rt)?;
    let mut place = [(1, 2); 28];
    assert_eq!(rt; told(filing.work_out::<Ours>(&mut place)), Ok(()));
    let mut least = [(0, 0); 28];
    least[26] = (10_000, 10_000);
    assert_eq!(rt; place, least);
    Ok(())
}

#[test]
fn property_at_the_limit(rt: HostRuntime) -> Result<(), Fail> {
    let mut filing = opened(&rt)?;
    assert_eq!(rt; enter(&mut filing, 3, 0, 0, 83_886_075), Ok(()));
    assert_eq!(rt; figure(&filing, 3)?, (16_777_215, 16_777_215));
    assert_eq!(rt; figure(&filing, 24)?, (16_777_215, 16_777_215));
    assert_eq!(rt; figure(&filing, 27)?, (5_592_405, 5_592_405));
    assert_eq!(rt; told(filing.strike(1)), Ok(()));
    assert_eq!(rt; enter(&mut filing, 3, 0, 0, 83_886_076), Ok(()));
    refused(&rt, &filing, Err((10, 3, 0)))
}

#[test]
fn by_totals(rt: HostRuntime) -> Result<(), Fail> {
    let mut filing = opened(&rt)?;
    assert_eq!(rt; enter(&mut filing, 3, 0, 0, 83_886_075), Ok(()));
    let Some(totals) = Totals::of(filing.lines()) else {
        return Err(Fail::new("too many lines"));
    };
    let tables = NamedTables::from(*filing.tables());
    let mut place = [(1, 2); 28];
    assert!(rt; figures(&totals, &tables, &mut place).is_ok());
    assert_eq!(rt; place[23], (16_777_215, 16_777_215));
    assert_eq!(rt; place[26], (5_592_405, 5_592_405));
    Ok(())
}

#[test]
fn too_large_with_operational(rt: HostRuntime) -> Result<(), Fail> {
    let mut filing = opened(&rt)?;
    assert_eq!(rt; enter(&mut filing, 20, 0, 10_000, 16_777_215), Ok(()));
    assert_eq!(rt; figure(&filing, 26)?, (16_777_215, 16_777_215));
    assert_eq!(rt; enter(&mut filing, 25, 1, 0, 50), Ok(()));
    refused(&rt, &filing, Err((10, 26, 0)))
}

#[test]
fn room(rt: HostRuntime) -> Result<(), Fail> {
    let mut filing = opened(&rt)?;
    assert_eq!(rt; told(filing.strike(1)), Err((9, 1, 0)));
    for _ in 0..16 {
        assert_eq!(rt; enter(&mut filing, 5, 0, 0, 1), Ok(()));
    }
    assert_eq!(rt; enter(&mut filing, 5, 0, 0, 1), Err((8, 17, 0)));
    for _ in 0..112 {
        assert_eq!(rt; enter(&mut filing, 3, 0, 0, 1), Ok(()));
    }
    assert_eq!(rt; enter(&mut filing, 3, 0, 0, 1), Err((8, 129, 0)));
    assert_eq!(rt; enter(&mut filing, 3, 1, 0, 1), Err((5, 129, 2)));
    assert_eq!(rt; told(filing.strike(0)), Err((9, 0, 0)));
    assert_eq!(rt; told(filing.strike(129)), Err((9, 129, 0)));
    assert_eq!(rt; told(filing.strike(128)), Ok(()));
    assert_eq!(rt; enter(&mut filing, 5, 0, 0, 1), Err((8, 128, 0)));
    assert_eq!(rt; told(filing.strike(16)), Ok(()));
    assert_eq!(rt; enter(&mut filing, 5, 0, 0, 1), Ok(()));
    assert!(rt; filing.lines().len() == 127);
    Ok(())
}

#[test]
fn opened_and_replaced(rt: HostRuntime) -> Result<(), Fail> {
    let mut filing = opened(&rt)?;
    assert_eq!(rt; enter(&mut filing, 8, 0, 0, 1), Err((5, 1, 2)));
    assert_eq!(rt; told(filing.replace(0, &[])), Err((3, 0, 0)));
    assert_eq!(rt; told(filing.replace(8, &[1])), Err((3, 8, 0)));
    assert_eq!(rt; told(filing.replace(3, &[])), Err((3, 3, 0)));
    assert_eq!(rt; told(filing.replace(5, &[100, 0, 101])), Err((3, 5, 3)));
    assert_eq!(rt; told(filing.replace(3, &[75])), Ok(()));
    assert_eq!(rt; enter(&mut filing, 2, 1, 0, 100), Ok(()));
    assert_eq!(rt; enter(&mut filing, 2, 2, 0, 100), Ok(()));
    assert_eq!(rt; figure(&filing, 2)?, (72, 73));
    assert_eq!(rt; told(filing.open(1999, 0)), Err((2, 1, 0)));
    assert_eq!(rt; told(filing.open(4096, 1)), Err((2, 1, 0)));
    assert_eq!(rt; told(filing.open(2000, 5)), Err((2, 2, 0)));
    assert_eq!(rt; figure(&filing, 2)?, (72, 73));
    assert_eq!(rt; told(filing.open(4095, 1)), Ok(()));
    assert_eq!(rt; (filing.year(), filing.quarter()), (4095, 1));
    assert!(rt; filing.lines().is_empty());
    assert_eq!(rt; enter(&mut filing, 2, 1, 0, 100), Ok(()));
    assert_eq!(rt; enter(&mut filing, 2, 2, 0, 100), Ok(()));
    assert_eq!(rt; figure(&filing, 2)?, (55, 56));
    Ok(())
}
