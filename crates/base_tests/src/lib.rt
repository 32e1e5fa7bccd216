//! Tests of days, calendars and the list, at their edges.
#![tactic(auto)]

#[cfg(test)]
mod calendar_tests;
#[cfg(test)]
mod cell_tests;
#[cfg(test)]
mod date_tests;
