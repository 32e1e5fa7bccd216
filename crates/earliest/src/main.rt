//! Prints, for each service letter and opening date, the earliest processing day and the days that a file may use then.
#![tactic(auto)]

mod question;
mod refusal;
mod report;

use calendars::{AllDays, Weekdays};
use question::{read_opening, read_service};
use refusal::Refusal;
use report::Report;
use std::env;
use terms::Service;

fn main(rt: HostRuntime) -> anyhow::Result<()> {
    run(&rt)
}

/// Answers each pair of arguments as it comes, or a sample where there is none; an opening date that is missing is no date.
// Not by `chunks`: the words would be kept a second time before the first answer.
fn run(rt: &HostRuntime) -> anyhow::Result<()> {
    let words = env::args(rt)?.skip(1);
    if words.len() == 0 {
        return answer(rt, "C", "16003");
    }
    let mut letter: Option<String> = None;
    for word in words {
        match letter.take() {
            None => letter = Some(word),
            Some(first) => answer(rt, first.as_str(), word.as_str())?,
        }
    }
    match letter {
        Some(last) => answer(rt, last.as_str(), ""),
        None => Ok(()),
    }
}

/// Prints the report for one question, or why it is refused.
fn answer(rt: &HostRuntime, letter: &str, date: &str) -> anyhow::Result<()> {
    println!(rt; "service `{letter}`, opening date `{date}`")?;
    match report_on(letter, date) {
        Ok(report) => rt.println(report)?,
        Err(refusal) => println!(rt; "  {refusal}")?,
    }
    Ok(())
}

/// The report for one question. Faster Payments run on all days, Bacs on Mondays to Fridays.
fn report_on(letter: &str, date: &str) -> Result<Report, Refusal> {
    let service = read_service(letter.as_bytes()).map_err(Refusal::Letter)?;
    let opening = read_opening(date.as_bytes()).map_err(Refusal::Date)?;
    match service {
        Service::FasterPayments => Report::new(service, opening, &AllDays),
        _ => Report::new(service, opening, &Weekdays),
    }
    .map_err(Refusal::Opening)
}
