ghost use Rattle.std.specs.Prelude.{◌≡◌, ◌≤◌, length};
ghost use Rattle.combination.specs.Listed.{NumbersRead};
ghost use Rattle.combination.specs.Reading.{words, at_most};

use super::text::{next_word, number};
use arrayvec::ArrayVec;

/// As many numbers as a table of 16 members has entries above its diagonal.
pub(super) const MOST: usize = 120;

/// Why a line has no numbers to give.
#[derive(Clone, Copy)]
pub(super) enum LineFault {
    /// The first word that is no number, by its place from 1.
    NoNumber(usize),
    /// How many numbers there are, more than 120.
    TooMany(usize),
}

/// The numbers of a line.
pub(super) fn read_numbers(line: &[u8]) -> Result<ArrayVec<u32, MOST>, LineFault>
    ensures { NumbersRead (words line.now) result }
{
    let mut numbers = ArrayVec::new();
    // by hand: the count goes on where there is no more room, and is wanted behind the loop
    let mut count = 0;
    // word by word: `split` hands out what stands between every two blanks, and is slower on many of them
    let mut rest = line;
    while let Some((word, behind)) = next_word(rest) {
        rest = behind;
        count += 1;
        let n = number(word).ok_or(LineFault::NoNumber(count))?;
        // past the room the words are only counted
        let _ = numbers.try_push(n);
    }
    if count > MOST {
        return Err(LineFault::TooMany(count));
    }
    Ok(numbers)
}

/// The numbers as bytes, 255 for what is larger.
pub(super) fn to_bytes(values: &[u32]) -> ArrayVec<u8, MOST>
    requires { length values.now ≤ 120 }
    ensures { result.items ≡ at_most 255 values.now }
{
    let mut bytes = ArrayVec::new();
    for v in values {
        bytes.push((*v).min(255) as u8);
    }
    bytes
}
