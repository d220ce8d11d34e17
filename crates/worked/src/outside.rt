// Roots under tables from outside, and the largest amounts.
use roots::{Amounts, Size, Table};
use std::process::Abort;
use std::test::*;

fn combined(amounts: &[u32], entries: &[u8]) -> Result<(u32, u32), Fail> {
    let Some(size) = Size::new(amounts.len()) else {
        return Err(Fail::new("a wrong count of amounts"));
    };
    let table = Table::from_upper(size, entries)?;
    let amounts = Amounts::from_slice(amounts)?;
    Ok(table.combined(&amounts))
}

// What the root leaves of the sum, in whole percent.
fn diversification(sum: u64, root: u32) -> u64 {
    let left = sum.saturating_sub(u64::from(root));
    left.saturating_mul(200).saturating_add(sum) / sum.max(1).saturating_mul(2).max(1)
}

// Shares of a total among eight lines of business, in thousandths, with the diversification
// that was printed for them in whole percent.
fn printed(rt: &impl Abort, shares: &[u32], entries: &[u8], percent: u64) -> Result<(), Fail> {
    let sum = shares
        .iter()
        .fold(0, |sum: u64, share| sum.saturating_add(u64::from(*share)));
    let (low, high) = combined(shares, entries)?;
    assert_eq!(rt; diversification(sum, low), percent);
    assert_eq!(rt; diversification(sum, high), percent);
    Ok(())
}

#[test]
fn first_printed(rt: HostRuntime) -> Result<(), Fail> {
    let shares = [3000, 10000, 37000, 19000, 3000, 12000, 9000, 7000];
    let entries = [
        75, 75, 50, 75, 25, 75, 75, 75, 50, 75, 50, 75, 75, 25, 75, 25, 50, 50, 50, 25, 75, 50, 50,
        75, 75, 50, 25, 75,
    ];
    printed(&rt, &shares, &entries, 23)
}

#[test]
fn second_printed(rt: HostRuntime) -> Result<(), Fail> {
    let shares = [5000, 16000, 22000, 21000, 1000, 7000, 13000, 16000];
    let entries = [
        50, 25, 25, 25, 25, 25, 75, 25, 25, 25, 25, 25, 25, 25, 25, 25, 25, 25, 25, 75, 25, 50, 25,
        75, 25, 25, 50, 25,
    ];
    printed(&rt, &shares, &entries, 35)
}

#[test]
fn largest(rt: HostRuntime) -> Result<(), Fail> {
    assert_eq!(rt;
        combined(&[16_777_215; 16], &[100; 120])?,
        (268_435_440, 268_435_440)
    );
    Ok(())
}
