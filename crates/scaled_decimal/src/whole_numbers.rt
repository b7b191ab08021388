//! Whole numbers of 32 and of 64 bits.
ghost use Rattle.std.specs.Prelude.{◌≡◌, ◌↔◌, IsTrue};
ghost use Rattle.scaled_decimal.specs.WholeNumbers.{int_bits, long_bits, IsOfBits, is_of_bits};

/// Whether an `int` holds the number.
pub fn is_int(n: i128) -> bool
    ensures value { result ≡ is_of_bits int_bits n }
    ensures held { IsTrue result ↔ IsOfBits int_bits n }
{
    i32::try_from(n).is_ok()
}

/// Whether a `long` holds the number.
pub fn is_long(n: i128) -> bool
    ensures value { result ≡ is_of_bits long_bits n }
    ensures held { IsTrue result ↔ IsOfBits long_bits n }
{
    i64::try_from(n).is_ok()
}
