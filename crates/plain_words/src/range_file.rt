//! Where a range file is refused, by itself or beside its plan.
ghost use Rattle.std.specs.Prelude.{◌≡◌, ◌++◌, IfOk, OnOk, true, false};
ghost use Rattle.std.specs.String.{string_bytes};
ghost use Rattle.plain_words.specs.Refusals.{IsPlaceOfLimits};
ghost use Rattle.plain_words.specs.RefusalTexts.{limit_name_text, binding_text};
ghost use Rattle.plain_words.specs.private.FoundViews.{place_of, IsOfPlan, IsOfRanges};
ghost use Rattle.plain_words.specs.private.SiteViews.{declares_input};

use crate::entry_faults::find_first;
use crate::entry_lines::entry_byte;
use crate::found::Found;
use crate::place::TextFile;
use crate::refusal_texts::{write_binding, write_limit_name};
use crate::sites::{Source, declaration_of, declares_input, named_byte};
use crate::toml_causes::write_cause;
use limits_file::LimitsFault;
use pap_tree::{Kind, Name};
use range_faults::Section;
use std::alloc::AllocError;

/// Where a range file is refused by itself; what is wrong with its keys, or why it isn't TOML, is appended.
pub(crate) fn find_entry(
    limits: TextFile<'_>,
    fault: &LimitsFault,
    told: &mut String,
) -> Result<Found, AllocError>
    ensures { IfOk result (λ found. IsPlaceOfLimits fault.now (place_of found)) }
{
    match fault {
        LimitsFault::Toml => find_toml(limits, told),
        LimitsFault::Key { .. } | LimitsFault::Bound { .. } => find_first(limits, told),
        LimitsFault::LimitsLong => Ok(Found::in_ranges(None)),
        LimitsFault::Memory(_) => Err(AllocError),
    }
}

/// Where a text is no TOML; why is appended.
fn find_toml(limits: TextFile<'_>, told: &mut String) -> Result<Found, AllocError>
    ensures { IfOk result (λ found. IsOfRanges found) }
{
    match toml::table_from_slice(*told.allocator(), limits.bytes) {
        Ok(_) => Ok(Found::in_ranges(None)),
        Err(error) => {
            let Some(span) = error.span() else {
                return Err(AllocError);
            };
            write_cause(told, limits.bytes, span.start, error.message())?;
            Ok(Found::in_ranges(Some(span.start)))
        }
    }
}

/// Where an input is declared without a limit, or a limit of no input stands; which of these it is is appended.
pub(crate) fn find_limit_name(
    source: Source<'_>,
    limits: TextFile<'_>,
    name: &Name,
    told: &mut String,
) -> Result<Found, AllocError>
    ensures input { declares_input source.entry.elements.now name.now ≡ true
        → IfOk result (λ found. IsOfPlan found) }
    ensures none { declares_input source.entry.elements.now name.now ≡ false
        → IfOk result (λ found. IsOfRanges found) }
    ensures told { OnOk result (string_bytes told.new ≡ string_bytes told.old
        ++ limit_name_text name.now (declares_input source.entry.elements.now name.now)) }
{
    let declared = declares_input(source, name);
    write_limit_name(told, name, declared)?;
    if declared {
        let help = "add the entry with low, high and places";
        return Ok(Found::in_plan(named_byte(source, name)).with_help(help));
    }
    let at = entry_byte(limits.bytes, Section::Input, name.as_str());
    Ok(Found::in_ranges(at).with_help("correct the name, or take the entry out"))
}

/// Where the range of an input stands that doesn't suit its type.
pub(crate) fn find_limit_kind(source: Source<'_>, limits: TextFile<'_>, name: &Name) -> Found
    ensures { IsOfRanges result }
{
    let at = entry_byte(limits.bytes, Section::Input, name.as_str());
    let rule = match declaration_of(source, name) {
        Some(found) => kind_rule(found.declared.kind),
        None => "see its type",
    };
    Found::in_ranges(at).with_help(rule)
}

/// Which ranges suit a type.
fn kind_rule(kind: Kind) -> &'static str {
    match kind {
        Kind::Int => "an int has places = 0, and bounds from -2147483648 to 2147483647",
        Kind::Long => {
            "a long has places = 0, and bounds from -9223372036854775808 to 9223372036854775807"
        }
        Kind::Factor => "a double has at most three places, and bounds of at most three places",
        Kind::Big | Kind::Table => "any range suits a BigDecimal",
    }
}

/// Where a binding of no input stands, or one to no output; which of these it is is appended.
pub(crate) fn find_binding(
    source: Source<'_>,
    limits: TextFile<'_>,
    name: &Name,
    told: &mut String,
) -> Result<Found, AllocError>
    ensures place { IfOk result (λ found. IsOfRanges found) }
    ensures told { OnOk result (string_bytes told.new ≡ string_bytes told.old
        ++ binding_text name.now (declares_input source.entry.elements.now name.now)) }
{
    let declared = declares_input(source, name);
    write_binding(told, name, declared)?;
    let at = entry_byte(limits.bytes, Section::Bind, name.as_str());
    let help = if declared {
        "correct the name of the output"
    } else {
        "correct the name of the entry, or take it out"
    };
    Ok(Found::in_ranges(at).with_help(help))
}
