//! Messages as objects of JSON.
ghost use Rattle.std.specs.Prelude.{◌≡◌, ◌++◌, ◌<◌, OnOk};
ghost use Rattle.std.specs.List.{flat_map};
ghost use Rattle.messages.specs.Json.{hex_digit, json_string, string_byte};
ghost use Rattle.messages.specs.Objects.{HaveNoControl, cause_fields, further_fields, json_text, message_field};
ghost use Rattle.messages.specs.Objects.{number_field, number_field_of, site_fields, text_field, text_field_of};

use crate::message::{Message, Site};
use std::alloc::AllocError;

/// Appends a message as an object of JSON, without a line end.
pub fn push_json(out: &mut Vec<u8>, message: &Message<'_>) -> Result<(), AllocError>
    ensures { OnOk result (out.new.items ≡ out.old.items ++ json_text message.now) }
{
    out.push(b'{')?;
    push_wrong(out, message.wrong)?;
    push_further(out, message)?;
    out.push(b'}')?;
    Ok(())
}

/// Appends the field of what is wrong.
fn push_wrong(out: &mut Vec<u8>, wrong: &str) -> Result<(), AllocError>
    ensures { OnOk result (out.new.items ≡ out.old.items ++ message_field wrong.now) }
{
    push_string(out, "message")?;
    out.push(b':')?;
    push_string(out, wrong)
}

/// Appends the fields behind what is wrong.
fn push_further(out: &mut Vec<u8>, message: &Message<'_>) -> Result<(), AllocError>
    ensures { OnOk result (out.new.items ≡ out.old.items ++ further_fields message.now) }
{
    push_text_of(out, "help", message.help)?;
    push_site(out, message.site)?;
    push_cause(out, message)
}

/// Appends the fields of the refusal and of the script's line.
fn push_cause(out: &mut Vec<u8>, message: &Message<'_>) -> Result<(), AllocError>
    ensures { OnOk result (out.new.items ≡ out.old.items ++ cause_fields message.now) }
{
    push_text_of(out, "code", message.code)?;
    push_text_of(out, "place", message.place)?;
    push_number_of(out, "script_line", message.script_line)
}

/// Appends the fields of a place in a file, where there is one.
fn push_site(out: &mut Vec<u8>, site: Option<Site<'_>>) -> Result<(), AllocError>
    ensures { OnOk result (out.new.items ≡ out.old.items ++ site_fields site.entry) }
{
    let Some(site) = site else {
        return Ok(());
    };
    push_text(out, "file", site.file)?;
    if let Some(position) = site.at {
        push_number(out, "line", position.line)?;
        push_number(out, "column", position.column)?;
    }
    Ok(())
}

/// Appends a field that is a text, where there is one.
fn push_text_of(out: &mut Vec<u8>, name: &str, text: Option<&str>) -> Result<(), AllocError>
    ensures { OnOk result (out.new.items ≡ out.old.items ++ text_field_of name.now text.entry) }
{
    match text {
        Some(text) => push_text(out, name, text),
        None => Ok(()),
    }
}

/// Appends a field that is a number, where there is one.
fn push_number_of(out: &mut Vec<u8>, name: &str, number: Option<u64>) -> Result<(), AllocError>
    ensures { OnOk result (out.new.items ≡ out.old.items ++ number_field_of name.now number) }
{
    match number {
        Some(number) => push_number(out, name, number),
        None => Ok(()),
    }
}

/// Appends a field that is a text, behind a comma.
fn push_text(out: &mut Vec<u8>, name: &str, text: &str) -> Result<(), AllocError>
    ensures { OnOk result (out.new.items ≡ out.old.items ++ text_field name.now text.now) }
{
    out.push(b',')?;
    push_string(out, name)?;
    out.push(b':')?;
    push_string(out, text)
}

/// Appends a field that is a number, behind a comma.
fn push_number(out: &mut Vec<u8>, name: &str, number: u64) -> Result<(), AllocError>
    ensures { OnOk result (out.new.items ≡ out.old.items ++ number_field name.now number) }
{
    out.push(b',')?;
    push_string(out, name)?;
    out.push(b':')?;
    let digits = format!(in *out.allocator(); "{number}")?;
    out.extend_from_slice(digits.as_bytes())
}

/// Appends a text as a string of JSON.
fn push_string(out: &mut Vec<u8>, text: &str) -> Result<(), AllocError>
    ensures { OnOk result (out.new.items ≡ out.old.items ++ json_string text.now) }
{
    out.push(b'"')?;
    push_bytes(out, text.as_bytes())?;
    out.push(b'"')?;
    Ok(())
}

/// Appends the bytes of a text as a string of JSON has them.
fn push_bytes(out: &mut Vec<u8>, text: &[u8]) -> Result<(), AllocError>
    ensures { OnOk result (out.new.items ≡ out.old.items ++ flat_map string_byte text.now) }
{
    for byte in text {
        push_byte(out, *byte)?;
    }
    Ok(())
}

/// Appends a byte of a text as a string of JSON has it.
fn push_byte(out: &mut Vec<u8>, byte: u8) -> Result<(), AllocError>
    ensures { OnOk result (out.new.items ≡ out.old.items ++ string_byte byte) }
{
    match byte {
        b'"' => out.extend_from_slice(b"\\\""),
        b'\\' => out.extend_from_slice(b"\\\\"),
        0..=0x1F => {
            let digits = [
                b'\\',
                b'u',
                b'0',
                b'0',
                hex_digit(byte / 16),
                hex_digit(byte % 16),
            ];
            out.extend_from_slice(&digits)
        }
        _ => out.extend_from_slice(&[byte]),
    }
}

/// The hexadecimal digit of a number below 16.
fn hex_digit(number: u8) -> u8
    requires { number < 16 }
    ensures { result ≡ hex_digit number }
{
    if number < 10 {
        b'0' + number
    } else {
        b'a' + (number - 10)
    }
}

/// The law of a message as JSON: it has no control characters, and so stands in one line.
pub fn json_laws()
    ensures line { HaveNoControl }
{}
