//! Employees.
ghost use Rattle.std.specs.Prelude.{◌≡◌, ◌↔◌, IsSome, IfSome, IsTrue, Some};
ghost use Rattle.std.specs.List.{list_all};
ghost use Rattle.std.specs.Fmt.{debug_str};
ghost use Rattle.payroll_records.specs.Employees.{is_employee, is_employee_byte};

use pap_tree::{ShortText, is_word};
use std::fmt;
use std::marker::Model;

/// An employee: 1 to 32 bytes of letters, digits, `_`, `-` and `.`. Employees are ordered by their bytes.
#[derive(Clone, Copy, PartialEq, Eq, PartialOrd, Ord, Hash)]
pub struct Employee {
    text: ShortText,
}

impl Model for Employee {
    ghost use Rattle.std.specs.Prelude.{ℕ, List, IsTrue};
    ghost use Rattle.payroll_records.specs.Employees.{is_employee};

    ghost Value = { List ℕ };

    ghost view = { λ e. e.text };

    ghost invariant = { λ e. IsTrue (is_employee e.text) };

    ghost inverse = { λ bs. record { text = bs } };
}

impl Employee {
    /// The employee that a text is. `None` exactly where the text has not the form of an employee.
    pub fn read(text: &[u8]) -> Option<Employee>
        ensures exact { IsSome result ↔ IsTrue (is_employee text.now) }
        ensures read { IfSome result (λ e. e ≡ text.now) }
    {
        if !is_employee(text) {
            return None;
        }
        let text = ShortText::read(text)?;
        Some(Employee { text })
    }

    /// The bytes of the employee's text.
    pub fn bytes(&self) -> &[u8]
        ensures bytes { result.now ≡ self.now }
        ensures named { IsTrue (is_employee self.now) }
    {
        self.text.bytes()
    }

    /// The employee as text.
    pub fn as_str(&self) -> &str
        ensures { result.now ≡ self.now }
    {
        self.text.as_str()
    }
}

impl fmt::Debug for Employee {
    ghost debug_output = { debug_str };

    fn fmt<W: fmt::Write>(&self, f: &mut fmt::Formatter<W>) -> fmt::Result {
        fmt::Debug::fmt(&self.text, f)
    }
}

impl fmt::Display for Employee {
    ghost output = { λ employee. Some employee };

    fn fmt<W: fmt::Write>(&self, f: &mut fmt::Formatter<W>) -> fmt::Result {
        fmt::Display::fmt(&self.text, f)
    }
}

/// Whether a byte is a letter, a digit, `_`, `-` or `.`.
fn is_employee_byte(byte: u8) -> bool
    ensures { result ≡ is_employee_byte byte }
{
    is_word(byte) || byte == b'-' || byte == b'.'
}

/// Whether all bytes of a text are such.
fn has_employee_bytes(text: &[u8]) -> bool
    ensures { result ≡ list_all is_employee_byte text.now }
{
    text.iter().all(|b| is_employee_byte(*b))
}

/// Whether a text has the form of an employee.
fn is_employee(text: &[u8]) -> bool
    ensures { result ≡ is_employee text.now }
{
    if text.is_empty() || text.len() > 32 {
        return false;
    }
    has_employee_bytes(text)
}
