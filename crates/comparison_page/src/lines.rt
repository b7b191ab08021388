//! Lines of at most some hundred columns, each of which begins with a sign.
ghost use Rattle.std.specs.Prelude.{◌≡◌, ◌++◌, ◌≤◌, IfOk, OnOk};
ghost use Rattle.comparison_page.specs.Texts.{is_break, laid_byte, next_column, laid, signed_lines};

use std::alloc::AllocError;

/// From this column on a text goes on in a new line at its next space or point.
const FULL: usize = 80;

/// From this column on a text goes on in a new line anywhere.
const LAST: usize = 100;

/// Where the later lines of a text begin.
const MARGIN: usize = 7;

/// Appends a text behind a sign and what leads to it, in lines that all begin with the sign.
pub(crate) fn write_signed(
    out: &mut Vec<u8>,
    sign: u8,
    lead: &[u8],
    text: &[u8],
) -> Result<(), AllocError>
    ensures { OnOk result (out.new.items
        ≡ out.old.items ++ signed_lines sign lead.now text.now) }
{
    out.push(sign)?;
    out.extend_from_slice(b" ")?;
    out.extend_from_slice(lead)?;
    write_laid(out, sign, lead.len().min(LAST), text)?;
    out.extend_from_slice(b"\n")
}

/// Appends a text that begins at a column, in as many lines as it takes.
fn write_laid(out: &mut Vec<u8>, sign: u8, column: usize, text: &[u8]) -> Result<(), AllocError>
    requires { column ≤ 100 }
    ensures { OnOk result (out.new.items ≡ out.old.items ++ laid sign column text.now) }
{
    let mut column = column;
    for byte in text {
        column = place_byte(out, sign, column, *byte)?;
    }
    Ok(())
}

/// Appends a byte at a column, on a new line where it has to; gives the column behind it.
fn place_byte(out: &mut Vec<u8>, sign: u8, column: usize, byte: u8) -> Result<usize, AllocError>
    requires { column ≤ 100 }
    ensures placed { OnOk result (out.new.items ≡ out.old.items ++ laid_byte sign column byte) }
    ensures next { IfOk result (λ next. next ≡ next_column column byte) }
    ensures within { IfOk result (λ next. next ≤ 100) }
{
    if !is_break(column, byte) {
        out.push(byte)?;
        return Ok(column + 1);
    }
    out.extend_from_slice(b"\n")?;
    out.push(sign)?;
    out.extend_from_slice(b"      ")?;
    out.push(byte)?;
    Ok(MARGIN + 1)
}

/// Whether a byte begins a new line, at a column.
fn is_break(column: usize, byte: u8) -> bool
    ensures { result ≡ is_break column byte }
{
    column >= LAST || ((byte == b' ' || byte == b'.') && column >= FULL)
}
