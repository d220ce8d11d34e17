// A filing worked out by a choice of flat charges; the figures expected were worked apart from it.
use super::PerLine;
use filing::Filing;
use lines::Fields;
use std::process::Abort;
use std::test::Fail;
use working::WorkOut;

fn enter(filing: &mut Filing, kind: u8, rate: u16) -> Result<(), Fail> {
    filing.enter(Fields::from((kind, 0, rate, 4_294_967_295, 0)))?;
    Ok(())
}

fn answers(rt: &impl Abort, filing: &Filing, figures: &[(usize, u32, u32)]) -> Result<(), Fail> {
    let mut place = [(1, 2); 28];
    filing.work_out::<PerLine>(&mut place)?;
    for (number, low, high) in figures {
        assert_eq!(rt; place.get(number.saturating_sub(1)), Some(&(*low, *high)));
    }
    Ok(())
}

#[test]
fn per_line(rt: HostRuntime) -> Result<(), Fail> {
    let mut filing = Filing::new(rt.alloc(), 2031, 4)?;
    enter(&mut filing, 3, 0)?;
    enter(&mut filing, 3, 0)?;
    enter(&mut filing, 3, 0)?;
    enter(&mut filing, 20, 1)?;
    enter(&mut filing, 20, 10_000)?;
    let apart = [
        (1, 0, 0),
        (3, 3, 3),
        (19, 100, 100),
        (20, 2, 2),
        (24, 200, 201),
        (26, 200, 201),
        (27, 10_000, 10_000),
        (28, 201, 202),
    ];
    answers(&rt, &filing, &apart)?;
    filing.replace(1, &[100; 10])?;
    filing.strike(2)?;
    let together = [(3, 2, 2), (20, 2, 2), (24, 402, 402), (28, 0, 0)];
    answers(&rt, &filing, &together)
}
