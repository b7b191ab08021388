//! The texts of fields.
ghost use Rattle.std.specs.Prelude.{◌≡◌, ◌<◌, ◌++◌, IfSome, OnOk};
ghost use Rattle.scaled_decimal.specs.Decimals.{decimal};
ghost use Rattle.scaled_decimal.specs.PlainTexts.{plain_text};
ghost use Rattle.payroll_records.specs.Days.{day_text, month_text, two_digits};

use itoa::Buffer;
use payroll_records::Day;
use scaled_decimal::{Dec, write_dec};
use std::alloc::AllocError;

/// A day, `YYYY-MM-DD`.
pub(crate) fn day_text(day: Day) -> [u8; 10]
    ensures { result ≡ day_text day.year day.month day.day }
{
    let [a, b, c, d, dash, e, f] = month_text(day);
    let [g, h] = two_digits(day.day as u16);
    [a, b, c, d, dash, e, f, b'-', g, h]
}

/// The month of a day, `YYYY-MM`.
pub(crate) fn month_text(day: Day) -> [u8; 7]
    ensures { result ≡ month_text day.year day.month }
{
    let [a, b] = two_digits(day.year / 100);
    let [c, d] = two_digits(day.year % 100);
    let [e, f] = two_digits(day.month as u16);
    [a, b, c, d, b'-', e, f]
}

/// The two digits of a number.
fn two_digits(n: u16) -> [u8; 2]
    requires { n < 1000 }
    ensures { result ≡ two_digits n }
{
    [b'0' + (n / 10) as u8, b'0' + (n % 10) as u8]
}

/// Appends a number in plain digits to a text.
pub(crate) fn put_number(value: Dec, text: &mut Vec<u8>) -> Result<(), AllocError>
    ensures { OnOk result (text.new.items ≡ text.old.items ++ plain_text value) }
{
    match whole_word(value) {
        Some(n) => text.extend_from_slice(Buffer::new().format(n).as_bytes()),
        None => {
            let alloc = *text.allocator();
            write_dec(alloc, value, text)
        }
    }
}

/// The number, where it has no places and 64 bits hold it.
fn whole_word(value: Dec) -> Option<i64>
    ensures { IfSome result (λ n. value ≡ decimal n 0) }
{
    if value.scale() != 0 {
        return None;
    }
    i64::try_from(value.numerator()).ok()
}
