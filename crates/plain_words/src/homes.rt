//! Where the elements of a plan's file stand, and what they have inside.
use plan_notes::Element;

/// Where an element may stand.
pub(crate) fn home_of(element: Element) -> &'static str {
    match element {
        Element::Pap => "PAP stands once, as the root of the file",
        Element::Interface | Element::Variables => "a PAP has one INTERFACE or VARIABLES",
        Element::Inputs => "INPUTS stands at most once, in INTERFACE or VARIABLES",
        Element::Outputs => "OUTPUTS stands in INTERFACE or VARIABLES, and has at least one OUTPUT",
        Element::Internals => {
            "INTERNALS stands at most once in the file, in PAP, INTERFACE or VARIABLES"
        }
        Element::Constants => "CONSTANTS stands at most once, in PAP",
        Element::Methods => "METHODS stands once, in PAP, and has a MAIN",
        Element::Input => "an INPUT stands in INPUTS, and has nothing inside",
        Element::Output => "an OUTPUT stands in OUTPUTS, and has nothing inside",
        Element::Internal => "an INTERNAL stands in INTERNALS, and has nothing inside",
        Element::Constant => "a CONSTANT stands in CONSTANTS, and has nothing inside",
        Element::Main => "MAIN stands once, in METHODS",
        Element::Method => "a METHOD stands in METHODS",
        Element::Eval | Element::Execute => {
            "an EVAL or EXECUTE stands in MAIN, METHOD, THEN or ELSE, and has nothing inside"
        }
        Element::If => "an IF stands in MAIN, METHOD, THEN or ELSE, and has a THEN",
        Element::Then | Element::Else => "an IF has one THEN, and behind it at most one ELSE",
    }
}

/// What an element has to have inside.
pub(crate) fn needed_inside(element: Element) -> &'static str {
    match element {
        Element::Pap => "a PAP has an INTERFACE or VARIABLES, and METHODS",
        Element::Interface | Element::Variables => "INTERFACE and VARIABLES have OUTPUTS",
        Element::Outputs => "OUTPUTS has at least one OUTPUT",
        Element::Methods => "METHODS has a MAIN",
        Element::If => "an IF has a THEN",
        _ => "write what it needs before its end tag",
    }
}

/// Whether an element is a statement.
pub(crate) fn is_statement(element: Element) -> bool {
    matches!(element, Element::Eval | Element::Execute | Element::If)
}

/// Whether an element has nothing inside.
pub(crate) fn is_leaf(element: Element) -> bool {
    matches!(
        element,
        Element::Input
            | Element::Output
            | Element::Internal
            | Element::Constant
            | Element::Eval
            | Element::Execute
    )
}

/// Whether an element may have another directly inside, however often.
pub(crate) fn may_hold(outer: Element, inner: Element) -> bool {
    match inner {
        Element::Pap => false,
        Element::Interface | Element::Variables | Element::Constants | Element::Methods => {
            outer == Element::Pap
        }
        Element::Internals => matches!(
            outer,
            Element::Pap | Element::Interface | Element::Variables
        ),
        Element::Inputs | Element::Outputs => {
            matches!(outer, Element::Interface | Element::Variables)
        }
        Element::Input => outer == Element::Inputs,
        Element::Output => outer == Element::Outputs,
        Element::Internal => outer == Element::Internals,
        Element::Constant => outer == Element::Constants,
        Element::Main | Element::Method => outer == Element::Methods,
        Element::Eval | Element::Execute | Element::If => matches!(
            outer,
            Element::Main | Element::Method | Element::Then | Element::Else
        ),
        Element::Then | Element::Else => outer == Element::If,
    }
}
