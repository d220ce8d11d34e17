ghost use Rattle.std.specs.Prelude.{Some};
ghost use Rattle.combination.specs.Texts.{combination_text, fault_text};

use std::fmt;

/// The amounts combined.
#[derive(Clone, Copy, PartialEq, Eq, Debug)]
pub struct Combination {
    /// How many amounts.
    pub members: usize,
    /// Their form under the table.
    pub form: u64,
    /// The lower root of the form.
    pub low: u32,
    /// The upper root.
    pub high: u32,
}

/// Why a text gives no combination. Lines, words and places count from 1.
#[derive(Clone, Copy, PartialEq, Eq, Debug)]
pub enum Fault {
    /// More than 65,536 bytes.
    Long,
    /// The line and the word there that is no whole number.
    NoNumber(usize, usize),
    /// How many amounts there are, outside 2 to 16.
    AmountCount(usize),
    /// The word of the first amount above 16,777,215.
    AmountLarge(usize),
    /// How many entries there are, and how many are wanted.
    EntryCount(usize, usize),
    /// The word of the first entry above 100.
    EntryLarge(usize),
    /// Words behind the second line.
    Extra,
}

// Written out: the text is part of the contracts, and a derived one would promise none.
impl fmt::Display for Combination {
    ghost output = { λ c. Some (combination_text c) };

    fn fmt<W: fmt::Write>(&self, f: &mut fmt::Formatter<W>) -> fmt::Result {
        let Combination {
            members,
            form,
            low,
            high,
        } = *self;
        write!(
            f,
            "members {members}\nform {form}\nlow {low}\nhigh {high}\n"
        )
    }
}

impl fmt::Display for Fault {
    ghost output = { λ e. Some (fault_text e) };

    fn fmt<W: fmt::Write>(&self, f: &mut fmt::Formatter<W>) -> fmt::Result {
        match *self {
            Fault::Long => write!(f, "the input has more than 65536 bytes\n"),
            Fault::NoNumber(line, word) => write!(
                f,
                "line {line}, word {word}: not a whole number\n"
            ),
            Fault::AmountCount(n) => write!(f, "line 1: {n} amounts, where 2 to 16 are wanted\n"),
            Fault::AmountLarge(word) => write!(
                f,
                "line 1, word {word}: an amount above 16777215\n"
            ),
            Fault::EntryCount(n, wanted) => write!(
                f,
                "line 2: {n} entries, where {wanted} are wanted\n"
            ),
            Fault::EntryLarge(word) => write!(f, "line 2, word {word}: an entry above 100\n"),
            Fault::Extra => write!(f, "line 3: text behind the two lines\n"),
        }
    }
}
