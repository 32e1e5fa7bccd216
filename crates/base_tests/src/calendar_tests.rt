use calendars::{
    AllDays, Calendar, ClosedDays, Weekdays, YearTable, earliest_processing_day, usable_days,
};
use std::test::Fail;
use terms::{Cause, InputCause, Service, StateCause};

#[test]
fn all_days(rt: HostRuntime) {
    assert!(rt; AllDays.is_open(0) && AllDays.is_open(36524));
    assert!(rt; !AllDays.is_open(36525) && !AllDays.is_open(4294967295));
    assert!(rt; AllDays.next_open(0) == Some(0));
    assert!(rt; AllDays.next_open(36524) == Some(36524));
    assert!(rt; AllDays.next_open(36525) == None);
}

#[test]
fn mondays_to_fridays(rt: HostRuntime) {
    assert!(rt; !Weekdays.is_open(0) && !Weekdays.is_open(1) && Weekdays.is_open(2));
    assert!(rt; Weekdays.is_open(6) && !Weekdays.is_open(7) && Weekdays.is_open(36524));
    assert!(rt; !Weekdays.is_open(36525) && !Weekdays.is_open(4294967295));
    assert!(rt; Weekdays.next_open(0) == Some(2));
    assert!(rt; Weekdays.next_open(1) == Some(2));
    assert!(rt; Weekdays.next_open(6) == Some(6));
    assert!(rt; Weekdays.next_open(7) == Some(9));
    assert!(rt; Weekdays.next_open(36524) == Some(36524));
    assert!(rt; Weekdays.next_open(36525) == None);
}

/// A table of the year 2016, with its first and last day and day 60 open.
fn table_2016() -> Result<YearTable, InputCause> {
    let mut flags = [false; 366];
    flags[0] = true;
    flags[59] = true;
    flags[365] = true;
    YearTable::new(16, flags)
}

#[test]
fn year_tables(rt: HostRuntime) -> Result<(), Fail> {
    let table = table_2016()?;
    assert!(rt; !table.is_open(5843) && table.is_open(5844) && !table.is_open(5845));
    assert!(rt; table.is_open(5903) && table.is_open(6209) && !table.is_open(6210));
    assert!(rt; table.next_open(0) == Some(5844));
    assert!(rt; table.next_open(5845) == Some(5903));
    assert!(rt; table.next_open(6209) == Some(6209));
    assert!(rt; table.next_open(6210) == None);
    assert!(rt; table.next_open(4294967295) == None);
    let never = YearTable::new(16, [false; 366])?;
    assert!(rt; never.next_open(0) == None);
    // A year of 365 days has no day for the last flag.
    let all_2015 = YearTable::new(15, [true; 366])?;
    assert!(rt; all_2015.is_open(5843) && !all_2015.is_open(5844));
    assert!(rt; YearTable::new(99, [true; 366]).is_ok());
    assert!(rt; YearTable::new(100, [true; 366]).is_err());
    Ok(())
}

#[test]
fn closed_days_over_closed_days(rt: HostRuntime) -> Result<(), Fail> {
    let mut inner = ClosedDays::over(table_2016()?);
    assert!(rt; inner.enter(5844) == Ok(1));
    let mut outer = ClosedDays::over(inner);
    assert!(rt; outer.next_open(0) == Some(5903));
    assert!(rt; outer.enter(5903) == Ok(1));
    assert!(rt; outer.next_open(0) == Some(6209) && !outer.is_open(5903));
    assert!(rt; outer.enter(6209) == Ok(2));
    assert!(rt; outer.next_open(0) == None);
    Ok(())
}

#[test]
fn sixty_four_closed_days(rt: HostRuntime) {
    let mut closed = ClosedDays::over(AllDays);
    for day in 0..64u32 {
        assert!(rt; closed.enter(36461 + day) == Ok(day as usize + 1));
    }
    assert!(rt; closed.enter(36524) == Ok(64), "entered already");
    assert!(rt; closed.enter(36460) == Err(Cause::State(StateCause::TableFull)));
    assert!(rt; closed.enter(36525) == Err(Cause::Input(InputCause::NoDate)));
    assert!(rt; closed.is_open(36460) && closed.next_open(36460) == Some(36460));
    assert!(rt; closed.next_open(36461) == None);
}

#[test]
fn refused_entries_change_nothing(rt: HostRuntime) {
    let mut closed = ClosedDays::over(Weekdays);
    assert!(rt; closed.enter(2) == Ok(1));
    assert!(rt; closed.enter(2) == Ok(1));
    assert!(rt; closed.enter(36525) == Err(Cause::Input(InputCause::NoDate)));
    assert!(rt; closed.enter(3) == Ok(2));
    assert!(rt; closed.next_open(0) == Some(4));
}

#[test]
fn earliest_processing_days(rt: HostRuntime) {
    assert!(rt; earliest_processing_day(Service::Credits, 5846, &Weekdays) == Ok(Some(5847)));
    assert!(rt; earliest_processing_day(Service::Debits, 5847, &Weekdays) == Ok(Some(5848)));
    assert!(rt;
        earliest_processing_day(Service::FasterPayments, 5846, &Weekdays) == Ok(Some(5846))
    );
    assert!(rt; earliest_processing_day(Service::Credits, 36524, &AllDays) == Ok(None));
    let past = earliest_processing_day(Service::FasterPayments, 36525, &AllDays);
    assert!(rt; past == Err(InputCause::NoDate));
}

#[test]
fn days_that_a_file_may_use(rt: HostRuntime) -> Result<(), Fail> {
    let Some(days) = usable_days(Service::Credits, 5846, &Weekdays)? else {
        return Err(Fail::new("no day"));
    };
    assert_eq!(rt; days.first, 5847);
    assert_eq!(rt; days.last, 5886);
    assert_eq!(rt; days.open_days, 30);
    let Some(end) = usable_days(Service::Debits, 36500, &AllDays)? else {
        return Err(Fail::new("no day"));
    };
    assert_eq!(rt; end.last, 36524);
    assert_eq!(rt; end.open_days, 24);
    Ok(())
}
