//! Pay runs: days against the calendar, and tables.
use jiff::civil::Date;
use payroll_records::{Day, read_table};
use std::test::Fail;
use trial_rows::all_rows;

#[test]
fn the_calendar_decides_which_days_there_are(rt: HostRuntime) {
    for year in 1899u16..3001 {
        for month in 1u8..13 {
            for day in 27u8..33 {
                let known = Date::new(year as i16, month as i8, day as i8).is_ok();
                let wanted = known && year > 1899 && year < 3000;
                assert_eq!(rt; Day::new(year, month, day).is_some(), wanted);
            }
        }
    }
}

/// Tables, and how many records they have, or their first fault. Others stand in
/// `examples/answers`, with the records.
const TABLES: &str =
    r#"﻿employee,month,day,STKL,RE4\nE2,2025-01,2025-01-31,,250055\n"E1",2025-01,2025-01-31,1,-0.50\n => 2
employee,month,day,RE4\n => 0
 => the first row is not employee,month,day and then at most 256 different names
employee,month,day,RE4\nE2,2025-01,2025-01-31\n => row 1 has not as many fields as the header
employee,month,day,RE4\nE2,2025-01,2025-01-31,1\nE2,2025-01,2025-01-31,1\n => row 2: an earlier row has the same employee and day"#;

/// Writes how many records a table has, or its fault.
fn read(asked: &str, text: &mut String) -> Result<(), Fail> {
    match read_table(*text.allocator(), asked.as_bytes()) {
        Ok(records) => write!(text, "{}", records.len())?,
        Err(fault) => write!(text, "{fault}")?,
    }
    Ok(())
}

#[test]
fn a_table_has_its_records_or_its_first_fault(rt: HostRuntime) -> Result<(), Fail> {
    all_rows(rt.alloc(), TABLES, read)
}
