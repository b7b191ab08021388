//! Writing a decimal as its plain text.
ghost use Rattle.std.specs.Prelude.{◌≡◌, ◌+◌, ◌/◌, ◌^◌, ◌<◌, ◌≤◌, List, [], ◌∷◌, ◌++◌, length, OnOk, OnErr};
ghost use Rattle.scaled_decimal.specs.NumberTexts.{sign_text, point_text};
ghost use Rattle.scaled_decimal.specs.PlainTexts.{EachPlainTextSpellsItsDecimal, plain_text, whole_text, last_digits};
ghost use Rattle.scaled_decimal.specs.Limits.{most_places};
ghost use Rattle.scaled_decimal.specs.private.Limits.{longest_places, longest_text};

use crate::decimal::Dec;
use std::alloc::{AllocError, Global};
use std::marker::Model;
use std::{fmt, str};

/// Appends the plain text of a decimal: a `-` for a number below 0, at least one digit, and a point and a digit for
/// each place where the scale isn't 0. After a refusal `out` is as before. The memory is that of `out`'s own allocator.
pub fn write_dec(_alloc: Global, d: Dec, out: &mut Vec<u8>) -> Result<(), AllocError>
    ensures ok { OnOk result (out.new.items ≡ out.old.items ++ plain_text d) }
    ensures err { OnErr result (out.new.items ≡ out.old.items) }
{
    out.extend_from_slice(plain_text(d).as_slice())
}

/// A law, with nothing to run: the plain text of each decimal spells that decimal.
pub fn each_plain_text_spells_its_decimal()
    ensures { EachPlainTextSpellsItsDecimal }
{}

impl fmt::Display for Dec {
    ghost use Rattle.std.specs.Prelude.{Some};
    ghost use Rattle.scaled_decimal.specs.PlainTexts.{plain_text};

    ghost output = { λ d. Some (plain_text d) };

    fn fmt<W: fmt::Write>(&self, f: &mut fmt::Formatter<W>) -> fmt::Result {
        match str::from_utf8(plain_text(*self).as_slice()) {
            Ok(text) => f.write_str(text),
            Err(_) => Err(fmt::Error),
        }
    }
}

/// The plain text of a decimal.
fn plain_text(d: Dec) -> BackText
    ensures { result ≡ plain_text d }
{
    let mut text = BackText::new();
    let whole = text.put_fraction(d.numerator().unsigned_abs(), d.scale());
    text.put_whole(whole);
    text.put_sign(d.numerator() < 0);
    text
}

/// The longest plain text: a sign, 39 digits of 128 bits, a point and 30 digits.
const LONGEST: usize = 71;

/// A text that grows at its front.
#[derive(Drop)]
struct BackText {
    bytes: [u8; LONGEST],
    start: usize,
}

impl Model for BackText {
    ghost use Rattle.std.specs.Prelude.{◌≤◌, List, ℕ, drop};
    ghost use Rattle.scaled_decimal.specs.private.Limits.{longest_text};

    ghost Value = { List ℕ };

    ghost view = { λ t. drop t.start t.bytes };

    ghost invariant = { λ t. t.start ≤ longest_text };
}

impl BackText {
    fn new() -> BackText
        ensures { result ≡ [] }
    {
        BackText {
            bytes: [0; LONGEST],
            start: LONGEST,
        }
    }

    fn as_slice(&self) -> &[u8]
        ensures { result.now ≡ self.now }
    {
        &self.bytes[self.start..]
    }

    fn put(&mut self, byte: u8)
        requires { length self.old < longest_text }
        ensures { self.new ≡ byte ∷ self.old }
    {
        self.start -= 1;
        self.bytes[self.start] = byte;
    }

    /// Puts the sign of a number in front.
    fn put_sign(&mut self, negative: bool)
        requires { length self.old < longest_text }
        ensures { self.new ≡ sign_text negative ++ self.old }
    {
        if negative {
            self.put(b'-');
        }
    }

    /// Puts the digits of a whole number in front. One that 64 bits hold is divided as such, which is several times faster.
    fn put_whole(&mut self, n: u128)
        requires { length self.old ≤ longest_places }
        ensures text { self.new ≡ whole_text n ++ self.old }
        ensures room { length self.new < longest_text }
    {
        match u64::try_from(n) {
            Ok(short) => self.put_short_whole(short),
            Err(_) => self.put_long_whole(n),
        }
    }

    /// The same, in 64 bits.
    fn put_short_whole(&mut self, n: u64)
        requires { length self.old ≤ longest_places }
        ensures text { self.new ≡ whole_text n ++ self.old }
        ensures room { length self.new < longest_text }
    {
        if n == 0 {
            self.put(b'0');
            return;
        }
        let mut left = n;
        while left > 0 {
            self.put(b'0' + (left % 10) as u8);
            left /= 10;
        }
    }

    /// The same, in 128 bits.
    fn put_long_whole(&mut self, n: u128)
        requires { length self.old ≤ longest_places }
        ensures text { self.new ≡ whole_text n ++ self.old }
        ensures room { length self.new < longest_text }
    {
        if n == 0 {
            self.put(b'0');
            return;
        }
        let mut left = n;
        while left > 0 {
            self.put(b'0' + (left % 10) as u8);
            left /= 10;
        }
    }

    /// Puts a point and the last digits of a number in front, where they are any, and gives the number before them.
    fn put_fraction(&mut self, n: u128, places: u8) -> u128
        requires empty { self.old ≡ [] }
        requires places { places ≤ most_places }
        ensures text { self.new ≡ point_text (last_digits places n) }
        ensures whole { result ≡ n / 10 ^ places }
        ensures room { length self.new ≤ longest_places }
    {
        if places == 0 {
            return n;
        }
        let whole = self.put_places(n, places);
        self.put(b'.');
        whole
    }

    /// Puts the last digits of a number in front, and gives the number before them.
    fn put_places(&mut self, n: u128, places: u8) -> u128
        requires empty { self.old ≡ [] }
        requires places { places ≤ most_places }
        ensures text { self.new ≡ last_digits places n }
        ensures whole { result ≡ n / 10 ^ places }
        ensures room { length self.new ≡ places }
    {
        match u64::try_from(n) {
            Ok(short) => u128::from(self.put_short_places(short, places)),
            Err(_) => self.put_long_places(n, places),
        }
    }

    /// The same, in 64 bits.
    fn put_short_places(&mut self, n: u64, places: u8) -> u64
        requires empty { self.old ≡ [] }
        requires places { places ≤ most_places }
        ensures text { self.new ≡ last_digits places n }
        ensures whole { result ≡ n / 10 ^ places }
        ensures room { length self.new ≡ places }
    {
        let mut front = n;
        for _ in 0..places {
            self.put(b'0' + (front % 10) as u8);
            front /= 10;
        }
        front
    }

    /// The same, in 128 bits.
    fn put_long_places(&mut self, n: u128, places: u8) -> u128
        requires empty { self.old ≡ [] }
        requires places { places ≤ most_places }
        ensures text { self.new ≡ last_digits places n }
        ensures whole { result ≡ n / 10 ^ places }
        ensures room { length self.new ≡ places }
    {
        let mut front = n;
        for _ in 0..places {
            self.put(b'0' + (front % 10) as u8);
            front /= 10;
        }
        front
    }
}
