ghost use Rattle.std.specs.Prelude.{◌≡◌};
ghost use Rattle.roots.specs.Held.{members_of};
ghost use Rattle.combination.specs.Judged.{judged};
ghost use Rattle.combination.specs.Parts.{amount_fault, entry_fault, AmountsRead, TableRead};
ghost use Rattle.combination.specs.Reading.{words};
ghost use Rattle.combination.specs.Replies.{Replies};
ghost use Rattle.combination.specs.declared.reading.NoReply.TheVariants.{Memory};

use super::answer::{Combination, Fault};
use super::numbers::{LineFault, read_numbers, to_bytes};
use super::text::{has_words, split_line};
use roots::{AmountFault, Amounts, Size, Table, TableFault};
use std::alloc::{AllocError, Global};

const LONGEST: usize = 65_536;

// This and the next are no `From`: they take counts beside the fault.
fn amount_fault(fault: AmountFault, given: usize) -> Fault
    ensures { result ≡ amount_fault fault given }
{
    match fault {
        AmountFault::Count => Fault::AmountCount(given),
        AmountFault::Large(word) => Fault::AmountLarge(word),
    }
}

fn entry_fault(fault: TableFault, given: usize, wanted: usize) -> Fault
    ensures { result ≡ entry_fault fault given wanted }
{
    match fault {
        TableFault::Count => Fault::EntryCount(given, wanted),
        TableFault::Entry(word) => Fault::EntryLarge(word),
    }
}

// The amounts of the first line, and how many they are.
fn read_amounts(line: &[u8]) -> Result<(Size, Amounts), Fault>
    ensures { AmountsRead (words line.now) result }
{
    let numbers = read_numbers(line).map_err(|fault| match fault {
        LineFault::NoNumber(word) => Fault::NoNumber(1, word),
        LineFault::TooMany(given) => Fault::AmountCount(given),
    })?;
    let given = numbers.len();
    let size = Size::new(given).ok_or(Fault::AmountCount(given))?;
    let amounts = Amounts::from_slice(numbers.as_slice()).map_err(|e| amount_fault(e, given))?;
    Ok((size, amounts))
}

// The table of the second line.
fn read_table(size: Size, line: &[u8]) -> Result<Table, Fault>
    ensures { TableRead (members_of size) (words line.now) result }
{
    let wanted = size.entries();
    let numbers = read_numbers(line).map_err(|fault| match fault {
        LineFault::NoNumber(word) => Fault::NoNumber(2, word),
        LineFault::TooMany(given) => Fault::EntryCount(given, wanted),
    })?;
    let given = numbers.len();
    let bytes = to_bytes(numbers.as_slice());
    Table::from_upper(size, bytes.as_slice()).map_err(|e| entry_fault(e, given, wanted))
}

/// The amounts of the first line combined under the table of the second.
pub fn combined(text: &[u8]) -> Result<Combination, Fault>
    ensures { result ≡ judged text.now }
{
    if text.len() > LONGEST {
        return Err(Fault::Long);
    }
    let (first, rest) = split_line(text);
    let (second, more) = split_line(rest);
    let (size, amounts) = read_amounts(first)?;
    let table = read_table(size, second)?;
    if has_words(more) {
        return Err(Fault::Extra);
    }
    let form = table.form(&amounts);
    let (low, high) = table.combined(&amounts);
    Ok(Combination {
        members: amounts.len(),
        form,
        low,
        high,
    })
}

/// Why there is no combination to print.
#[derive(Debug, Drop)]
pub enum NoReply {
    /// The input is at fault: the line that says so.
    Refused(String),
    /// No memory for what is to be printed.
    Memory(AllocError),
}

impl From<AllocError> for NoReply {
    ghost from_gives = { λ error result. result ≡ Memory error };

    fn from(error: AllocError) -> NoReply {
        NoReply::Memory(error)
    }
}

/// What is printed of a text: the lines of its combination, or why there are none.
pub fn respond(heap: Global, text: &[u8]) -> Result<String, NoReply>
    ensures { Replies (judged text.now) result }
{
    match combined(text) {
        Ok(combination) => Ok(combination.to_string(heap)?),
        Err(fault) => Err(NoReply::Refused(fault.to_string(heap)?)),
    }
}
