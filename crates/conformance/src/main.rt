//! Reads tables of cases from the files that its arguments name. It reports how many of them agree with the
//! tables, and for each other what was expected and what was found.
//!
//! A file `.cases` has cases of several lines, `.calls` calls of one line. A file `.txt` has examples in the
//! form of the CommonMark specification, with the older rules in `older.txt`. docs/testing.md says how to
//! add a case. After `--once` each text is tried once: whole, as `run` renders and lists it.
#![tactic(auto)]

mod calls;
mod commands;
mod devices;
mod examples;
mod runs;
mod tally;
mod texts;

use std::process::ExitCode;
use std::{env, fs};
use tally::tally_of;
use texts::Tries;

fn main(rt: HostRuntime) -> anyhow::Result<ExitCode> {
    let (mut agree, mut total) = (0_usize, 0_usize);
    let mut tries = Tries::InAllWays;
    for name in env::args(&rt)?.skip(1) {
        if name.as_str() == "--once" {
            tries = Tries::Once;
            continue;
        }
        let table = fs::read_to_string(&rt, name.as_str())?;
        let tally = tally_of(rt.alloc(), tries, name.as_str(), table.as_str())?;
        for told in tally.differ() {
            println!(rt; "{told}")?;
        }
        println!(rt; "{name}: {} of {} agree", tally.agree(), tally.total())?;
        agree = agree.saturating_add(tally.agree());
        total = total.saturating_add(tally.total());
    }
    println!(rt; "{agree} of {total} agree")?;
    Ok(if agree == total {
        ExitCode::SUCCESS
    } else {
        ExitCode::FAILURE
    })
}
