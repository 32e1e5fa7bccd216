ghost use Rattle.std.specs.Prelude.{◌≡◌};
ghost use Rattle.earliest.specs.Questions.{reporting};

use calendars::{Calendar, UsableDays, usable_days};
use days::{Weekday, Year, weekday_of};
use std::fmt;
use terms::{InputCause, Service};

/// What is told of a service and an opening day.
#[derive(Clone, Copy)]
pub struct Report {
    pub service: Service,
    pub opening: u32,
    pub usable: Option<UsableDays>,
}

impl Report {
    /// The report under a calendar. A number above 36,524 is no opening day.
    pub fn new<C: Calendar>(
        service: Service,
        opening: u32,
        calendar: &C,
    ) -> Result<Report, InputCause>
        ensures { result ≡ reporting service opening (C.opens calendar.now) }
    {
        let usable = usable_days(service, opening, calendar)?;
        Ok(Report {
            service,
            opening,
            usable,
        })
    }
}

/// A day as people read it: its year and place in the year, number and weekday.
#[derive(Clone, Copy)]
struct ShownDay(u32);

impl fmt::Display for ShownDay {
    fn fmt<W: fmt::Write>(&self, f: &mut fmt::Formatter<W>) -> fmt::Result {
        let day = self.0;
        let weekday = weekday_of(day);
        match Year::of_day(day) {
            Ok(year) => {
                let number = year.number();
                let place = day - year.first_day() + 1;
                write!(f, "{number:02}{place:03}, day number {day}, a {weekday}")
            }
            Err(_) => write!(f, "day number {day}"),
        }
    }
}

impl fmt::Display for Report {
    fn fmt<W: fmt::Write>(&self, f: &mut fmt::Formatter<W>) -> fmt::Result {
        let service = self.service;
        let opening = ShownDay(self.opening);
        writeln!(f, "  service                  {service}")?;
        writeln!(f, "  opening day              {opening}")?;
        match self.usable {
            None => write!(f, "  earliest processing day  none: no later day is open"),
            Some(days) => show_usable(f, service, days),
        }
    }
}

fn show_usable<W: fmt::Write>(
    f: &mut fmt::Formatter<W>,
    service: Service,
    days: UsableDays,
) -> fmt::Result {
    let first = ShownDay(days.first);
    let last = ShownDay(days.last);
    let open_days = days.open_days;
    writeln!(f, "  earliest processing day  {first}")?;
    match service {
        Service::FasterPayments => writeln!(
            f,
            "  last day of its file     {last}: never multi-day"
        )?,
        _ => writeln!(f, "  last day if multi-day    {last}")?,
    }
    write!(
        f,
        "  open days of these       {open_days}, both ends counted"
    )
}
