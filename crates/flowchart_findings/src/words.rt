//! The words of findings.
ghost use Rattle.std.specs.Prelude.{◌≡◌, IfOk, string_bytes};
ghost use Rattle.flowchart_findings.specs.Texts.{group_word, then_words, else_words, carry_cause, carry_remedy, finding_words};

use crate::finding::{Finding, Group};
use pap_tree::Name;
use std::alloc::{AllocError, Global};

/// What a declaration of a group is.
fn group_word(group: Group) -> &'static str
    ensures { result.now ≡ group_word group }
{
    match group {
        Group::Input => "input",
        Group::Output => "output",
        Group::Internal => "internal name",
        Group::Constant => "constant",
    }
}

/// The word of a finding, and its sentence.
pub(crate) fn finding_words(alloc: Global, finding: &Finding) -> Result<String, AllocError>
    ensures { IfOk result (λ words. string_bytes words ≡ finding_words finding.now) }
{
    match finding {
        Finding::Unread(site) => {
            let group = group_word(site.group);
            let name = site.name;
            format!(in alloc; "unread: by the text alone, no expression names the {group} {name}")
        }
        Finding::Unassigned(site) => {
            let group = group_word(site.group);
            let name = site.name;
            format!(in alloc;
                "unassigned: by the text alone, no EVAL assigns the {group} {name}, so it keeps the value that it begins with"
            )
        }
        Finding::DeadMethod { method, .. } => format!(in alloc;
            "dead-method: by the ranges of the inputs, no run executes the method {method}"
        ),
        Finding::DeadStatement(site) => {
            let method = site.method;
            format!(in alloc;
                "dead: by the ranges of the inputs, no run executes this statement of {method}"
            )
        }
        Finding::UnusedValue { target, .. } => format!(in alloc;
            "unused: by the text alone, no expression names {target}, so the value of this EVAL is never read"
        ),
        Finding::NeverTrue { first, .. } => {
            let so = then_words(*first);
            format!(in alloc;
                "never-true: by the ranges of the inputs, the test of this IF never holds{so}"
            )
        }
        Finding::NeverFalse { first, .. } => {
            let so = else_words(*first);
            format!(in alloc;
                "never-false: by the ranges of the inputs, the test of this IF always holds{so}"
            )
        }
        Finding::LongCarry {
            site,
            input,
            places,
            takes,
        } => {
            let output = site.name;
            let cause = carry_cause(alloc, input, *places, *takes)?;
            let remedy = carry_remedy(alloc, input, *places, *takes)?;
            format!(in alloc;
                "long-carry: by the ranges of the inputs, the output {output} may have more places than the input that carries it over, {cause}; {remedy}"
            )
        }
    }
}

/// By how much an output has more places than the limit of an input that carries it over, and what comes of it.
fn carry_cause(alloc: Global, input: &Name, places: u8, takes: u8) -> Result<String, AllocError>
    ensures { IfOk result (λ words. string_bytes words ≡ carry_cause input.now places takes) }
{
    let name = *input;
    format!(in alloc;
        "{places} where the range file lets {name} have {takes}, so the next run of the year may have no inputs"
    )
}

/// What helps there.
fn carry_remedy(alloc: Global, input: &Name, places: u8, takes: u8) -> Result<String, AllocError>
    ensures { IfOk result (λ words. string_bytes words ≡ carry_remedy input.now places takes) }
{
    let name = *input;
    format!(in alloc;
        "end its value with setScale({takes}, BigDecimal.ROUND_..), or write places = {places} in [input.{name}] where that is a BigDecimal"
    )
}

/// What follows from a test that never holds, where its THEN has a first statement.
fn then_words(first: Option<u32>) -> &'static str
    ensures { result.now ≡ then_words first }
{
    match first {
        Some(_) => ", so no run executes its THEN",
        None => "",
    }
}

/// What follows from a test that always holds, where its ELSE has a first statement.
fn else_words(first: Option<u32>) -> &'static str
    ensures { result.now ≡ else_words first }
{
    match first {
        Some(_) => ", so no run executes its ELSE",
        None => "",
    }
}
