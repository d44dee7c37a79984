//! Tests of what neither contracts nor the built program show: workers at clocks of the tests, a gate that
//! was used before, and notes of what closed sites.

mod notes;
mod readings;
mod shift;
