// Lines of business under tables from outside: the shares of a total among eight of them, in percent.
use filing::Filing;
use kinds::Ours;
use lines::Fields;
use std::test::Fail;
use working::{Figure, WorkOut};

// These entries from a place on.
fn put(all: &mut [u8], from: usize, row: &[u8]) {
    for (entry, given) in all.iter_mut().skip(from).zip(row) {
        *entry = *given;
    }
}

// The entries above the diagonal of the first eight members of fifteen; the others are uncorrelated.
fn entries(eight: &[u8; 28]) -> [u8; 105] {
    let mut all = [0; 105];
    put(&mut all, 0, &eight[0..7]);
    put(&mut all, 14, &eight[7..13]);
    put(&mut all, 27, &eight[13..18]);
    put(&mut all, 39, &eight[18..22]);
    put(&mut all, 50, &eight[22..25]);
    put(&mut all, 60, &eight[25..27]);
    put(&mut all, 69, &eight[27..28]);
    all
}

// Figure 17 of volumes of 1,000 for each percent, at a rate of 1.
fn figure(rt: &HostRuntime, shares: [u32; 8], eight: &[u8; 28]) -> Result<(u32, u32), Fail> {
    let mut filing = Filing::new(rt.alloc(), 2031, 4)?;
    filing.replace(7, &entries(eight))?;
    for (class, share) in (1..9).zip(shares) {
        let volume = share.saturating_mul(1_000);
        filing.enter(Fields::from((17, class, 10_000, volume, 0)))?;
    }
    let Some(number) = Figure::new(17) else {
        return Err(Fail::new("no such figure"));
    };
    Ok(filing.figure::<Ours>(number)?)
}

#[test]
fn first(rt: HostRuntime) -> Result<(), Fail> {
    let eight = [
        75, 75, 50, 75, 25, 75, 75, 75, 50, 75, 50, 75, 75, 25, 75, 25, 50, 50, 50, 25, 75, 50, 50,
        75, 75, 50, 25, 75,
    ];
    let shares = [3, 10, 37, 19, 3, 12, 9, 7];
    assert_eq!(rt; figure(&rt, shares, &eight)?, (230_219, 230_220));
    Ok(())
}

#[test]
fn second(rt: HostRuntime) -> Result<(), Fail> {
    let eight = [
        50, 25, 25, 25, 25, 25, 75, 25, 25, 25, 25, 25, 25, 25, 25, 25, 25, 25, 25, 75, 25, 50, 25,
        75, 25, 25, 50, 25,
    ];
    let shares = [5, 16, 22, 21, 1, 7, 13, 16];
    assert_eq!(rt; figure(&rt, shares, &eight)?, (197_065, 197_066));
    Ok(())
}
