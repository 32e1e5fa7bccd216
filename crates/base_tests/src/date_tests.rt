use days::{Weekday, read_date, weekday_of, write_date};
use std::process::Abort;
use std::test::Fail;
use terms::InputCause;

fn reads(rt: &impl Abort, text: &[u8], day: u32) {
    assert!(rt; read_date(text) == Ok(day), "a date and its day");
}

fn no_date(rt: &impl Abort, text: &[u8]) {
    assert!(rt; read_date(text) == Err(InputCause::NoDate), "no date");
}

#[test]
fn samples(rt: HostRuntime) {
    reads(&rt, b" 16004", 5847);
    reads(&rt, b" 16366", 6209);
    reads(&rt, b" 99365", 36524);
    no_date(&rt, b" 15366");
}

#[test]
fn first_and_last_days(rt: HostRuntime) {
    reads(&rt, b" 00001", 0);
    reads(&rt, b" 00366", 365);
    reads(&rt, b" 01001", 366);
    reads(&rt, b" 96366", 35429);
    no_date(&rt, b" 00000");
    no_date(&rt, b" 00367");
    no_date(&rt, b" 01366");
    no_date(&rt, b" 99366");
}

#[test]
fn faults_of_form(rt: HostRuntime) {
    no_date(&rt, b"");
    no_date(&rt, b"16004");
    no_date(&rt, b" 16004 ");
    no_date(&rt, b"016004");
    no_date(&rt, b" 1600 ");
    no_date(&rt, b" 16:04");
    no_date(&rt, b" 16/04");
    no_date(&rt, b" A6004");
}

#[test]
fn written_days(rt: HostRuntime) {
    assert!(rt; write_date(0) == Ok(*b" 00001"));
    assert!(rt; write_date(365) == Ok(*b" 00366"));
    assert!(rt; write_date(366) == Ok(*b" 01001"));
    assert!(rt; write_date(5847) == Ok(*b" 16004"));
    assert!(rt; write_date(36524) == Ok(*b" 99365"));
    assert!(rt; write_date(36525) == Err(InputCause::NoDate));
    assert!(rt; write_date(4294967295) == Err(InputCause::NoDate));
}

#[test]
fn all_days_come_back(rt: HostRuntime) -> Result<(), Fail> {
    for day in 0..36525u32 {
        let text = write_date(day)?;
        assert!(rt; read_date(&text) == Ok(day));
    }
    Ok(())
}

#[test]
fn weekdays(rt: HostRuntime) {
    assert_eq!(rt; weekday_of(0), Weekday::Saturday);
    assert_eq!(rt; weekday_of(1), Weekday::Sunday);
    assert_eq!(rt; weekday_of(2), Weekday::Monday);
    assert_eq!(rt; weekday_of(6), Weekday::Friday);
    assert_eq!(rt; weekday_of(5847), Weekday::Monday);
    assert_eq!(rt; weekday_of(36524), Weekday::Thursday);
}
