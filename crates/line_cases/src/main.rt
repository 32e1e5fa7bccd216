//! Reads lines of every kind from a table of cases, and prints of each whether it is taken, or why and where it is not.
//! A case is `KIND SERVICE` or `KIND SERVICE CONTEXT`, a `|`, and the bytes of the line. A `~` at its end takes the line feed away.
#![tactic(auto)]

mod case;
mod contexts;
mod judge;
mod verdict;

use case::{cut_feed, read_case};
use judge::judge;
use std::io::Read;
use std::str;

fn main(rt: HostRuntime) -> anyhow::Result<()> {
    run(&rt)
}

/// Answers each line of the table. What follows the last line feed is none.
fn run(rt: &HostRuntime) -> anyhow::Result<()> {
    let mut table = Vec::new(rt.alloc());
    rt.stdin().read_to_end(&mut table)?;
    let rows = table.split_inclusive(|byte| *byte == b'\n');
    for row in rows.filter(|row| row.ends_with(b"\n")) {
        answer(rt, row)?;
    }
    Ok(())
}

/// Prints the verdict on one case. A row that begins with `#` is a heading, and is printed as it is.
fn answer(rt: &HostRuntime, row: &[u8]) -> anyhow::Result<()> {
    if let [b'#', ..] = row {
        let heading = str::from_utf8(row).unwrap_or("#\n");
        rt.print(heading)?;
        return Ok(());
    }
    let Some(case) = read_case(row) else {
        rt.println("no case")?;
        return Ok(());
    };
    let header = str::from_utf8(case.header).unwrap_or("");
    match judge(&case, cut_feed(case.line)) {
        Ok(again) => println!(rt; "{header}: {again}")?,
        Err(refusal) => println!(rt; "{header}: {refusal}")?,
    }
    Ok(())
}
