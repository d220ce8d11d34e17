//! A trial quarter from beginning to end: opens a filing, replaces its tables by those of QIS3, enters
//! the lines of a company, is refused once, strikes a line, and works out the 28 figures.
#![tactic(auto)]

use filing::{Filing, FilingFault, OpenFault};
use kinds::Ours;
use lines::Fields;
use sample::{book, entries};
use std::process::ExitCode;
use std::{env, io};
use tables::Which;
use working::WorkOut;

const USAGE: &str = "usage: trial
Files a trial quarter and prints each step, then the 28 figures, one a line: number, low, high.
";

const YEAR: u16 = 2031;

const QUARTER: u8 = 4;

// The number of the line that is struck.
const STRUCK: usize = 8;

// That line: the property before it once more, with a digit lost.
const WRONG: Fields = Fields {
    kind: 3,
    class: 0,
    rate: 0,
    first: 5_120,
    second: 0,
};

// A line that is refused: its duration is over 50 years.
const TOO_LONG: Fields = Fields {
    kind: 4,
    class: 3,
    rate: 5_001,
    first: 1_000,
    second: 0,
};

// How the step before ended.
fn tell(rt: &HostRuntime, answer: Result<(), FilingFault>) -> io::Result<()> {
    match answer {
        Ok(()) => print!(rt; "done\n"),
        Err(fault) => {
            let (number, first, second) = fault.shown();
            print!(rt; "refused {number} {first} {second}\n")
        }
    }
}

fn enter(rt: &HostRuntime, filing: &mut Filing, given: Fields) -> io::Result<()> {
    let Fields {
        kind,
        class,
        rate,
        first,
        second,
    } = given;
    print!(rt; "enter {kind} {class} {rate} {first} {second}: ")?;
    tell(rt, filing.enter(given))
}

fn replace(rt: &HostRuntime, filing: &mut Filing, which: Which) -> io::Result<()> {
    let table = u8::from(which);
    print!(rt; "replace {table}: ")?;
    tell(rt, filing.replace(table, entries(which)))
}

// The quarter's calls on a newly opened filing.
fn fill(rt: &HostRuntime, filing: &mut Filing) -> io::Result<()> {
    for which in Which::ALL {
        replace(rt, filing, which)?;
    }
    let book = book();
    let (before, behind) = book.split_at(STRUCK - 1);
    for given in before {
        enter(rt, filing, *given)?;
    }
    enter(rt, filing, WRONG)?;
    for given in behind {
        enter(rt, filing, *given)?;
    }
    enter(rt, filing, TOO_LONG)?;
    print!(rt; "strike {STRUCK}: ")?;
    tell(rt, filing.strike(STRUCK))
}

fn work_out(rt: &HostRuntime, filing: &Filing) -> io::Result<ExitCode> {
    print!(rt; "work out: ")?;
    let mut place = [(0, 0); 28];
    let answer = filing.work_out::<Ours>(&mut place);
    tell(rt, answer)?;
    if answer.is_err() {
        return Ok(ExitCode::FAILURE);
    }
    for (i, (low, high)) in place.iter().enumerate() {
        print!(rt; "{} {low} {high}\n", i + 1)?;
    }
    Ok(ExitCode::SUCCESS)
}

fn file(rt: &HostRuntime) -> io::Result<ExitCode> {
    print!(rt; "open {YEAR} {QUARTER}: ")?;
    let mut filing = match Filing::new(rt.alloc(), YEAR, QUARTER) {
        Ok(filing) => filing,
        Err(OpenFault::Memory) => {
            eprint!(rt; "trial: no memory for a filing\n")?;
            return Ok(ExitCode::FAILURE);
        }
        Err(OpenFault::Filing(fault)) => {
            tell(rt, Err(fault))?;
            return Ok(ExitCode::FAILURE);
        }
    };
    tell(rt, Ok(()))?;
    fill(rt, &mut filing)?;
    work_out(rt, &filing)
}

// The programs share no `main`: it would take a usage text and a closure, and be no plainer than these lines.
fn main(rt: HostRuntime) -> anyhow::Result<ExitCode> {
    let Some(word) = env::args(&rt)?.nth(1) else {
        return Ok(file(&rt)?);
    };
    if word.as_str() == "--help" {
        print!(rt; "{USAGE}")?;
        return Ok(ExitCode::SUCCESS);
    }
    eprint!(rt; "{USAGE}")?;
    Ok(ExitCode::FAILURE)
}
