//! Prints the 28 figures of a sample company under the tables of QIS3.
#![tactic(auto)]

use kinds::figures;
use lines::{Line, Totals};
use sample::{book, entries};
use std::env;
use std::process::ExitCode;
use tables::{EntriesFault, NamedTables, Tables, Which};

const USAGE: &str = "usage: company
Prints the 28 figures of a company under the tables of QIS3, one a line: number, low, high.
";

// The totals of the company's lines.
fn totals(rt: &HostRuntime) -> anyhow::Result<Option<Totals>> {
    let mut lines = Vec::new(rt.alloc());
    for given in book() {
        let Ok(line) = Line::new(given, lines.len() + 1) else {
            return Ok(None);
        };
        lines.push(line)?;
    }
    Ok(Totals::of(&lines))
}

// The tables of QIS3.
fn tables() -> Result<NamedTables, EntriesFault> {
    let mut tables = Tables::uncorrelated();
    for which in Which::ALL {
        tables.replace(u8::from(which), entries(which))?;
    }
    Ok(NamedTables::from(tables))
}

fn print_figures(rt: &HostRuntime) -> anyhow::Result<ExitCode> {
    let Some(totals) = totals(rt)? else {
        eprint!(rt; "company: a line breaks the rules of its kind\n")?;
        return Ok(ExitCode::FAILURE);
    };
    let Ok(tables) = tables() else {
        eprint!(rt; "company: a table is not in order\n")?;
        return Ok(ExitCode::FAILURE);
    };
    let mut place = [(0, 0); 28];
    if let Err(at) = figures(&totals, &tables, &mut place) {
        eprint!(rt; "company: figure {} is too large\n", at.0)?;
        return Ok(ExitCode::FAILURE);
    }
    for (i, (low, high)) in place.iter().enumerate() {
        print!(rt; "{} {low} {high}\n", i + 1)?;
    }
    Ok(ExitCode::SUCCESS)
}

// The programs share no `main`: it would take a usage text and a closure, and be no plainer than these lines.
fn main(rt: HostRuntime) -> anyhow::Result<ExitCode> {
    let Some(word) = env::args(&rt)?.nth(1) else {
        return print_figures(&rt);
    };
    if word.as_str() == "--help" {
        print!(rt; "{USAGE}")?;
        return Ok(ExitCode::SUCCESS);
    }
    eprint!(rt; "{USAGE}")?;
    Ok(ExitCode::FAILURE)
}
