//! Combines amounts under a correlation table: two lines of numbers in, the low and the high of the root out.
#![tactic(auto)]

use combination::{NoReply, respond};
use std::env;
use std::io::Read;
use std::process::ExitCode;

const USAGE: &str = "usage: combine < INPUT
Combines amounts under a correlation table, and prints the low and the high of the root.
INPUT has two lines of whole numbers, parted by blanks:
  line 1  2 to 16 amounts, each at most 16777215
  line 2  the table's entries above its diagonal, row by row, in hundredths, each at most 100
";

// One byte more than the library takes, so that a longer input is seen to be longer.
const ENOUGH: u64 = 65_537;

// Prints the combination, or what is wrong with the input.
fn combine(rt: &HostRuntime) -> anyhow::Result<ExitCode> {
    let mut input = Vec::new(rt.alloc());
    rt.stdin().take(ENOUGH).read_to_end(&mut input)?;
    match respond(rt.alloc(), input.as_slice()) {
        Ok(lines) => {
            print!(rt; "{lines}")?;
            Ok(ExitCode::SUCCESS)
        }
        Err(NoReply::Refused(line)) => {
            eprint!(rt; "combine: {line}")?;
            Ok(ExitCode::FAILURE)
        }
        Err(NoReply::Memory(error)) => Err(error.into()),
    }
}

// The programs share no `main`: it would take a usage text and a closure, and be no plainer than these lines.
fn main(rt: HostRuntime) -> anyhow::Result<ExitCode> {
    let Some(word) = env::args(&rt)?.nth(1) else {
        return combine(&rt);
    };
    if word.as_str() == "--help" {
        print!(rt; "{USAGE}")?;
        return Ok(ExitCode::SUCCESS);
    }
    eprint!(rt; "{USAGE}")?;
    Ok(ExitCode::FAILURE)
}
