//! The kinds of declared names.
use plan_notes::Element;

/// What a declaration declares.
#[derive(Clone, Copy, PartialEq, Eq)]
pub(crate) enum Group {
    Input,
    Output,
    Internal,
    Constant,
}

impl Group {
    /// The name of its elements.
    pub(crate) fn name(self) -> &'static str {
        match self {
            Group::Input => "INPUT",
            Group::Output => "OUTPUT",
            Group::Internal => "INTERNAL",
            Group::Constant => "CONSTANT",
        }
    }

    /// Its elements.
    pub(crate) fn element(self) -> Element {
        match self {
            Group::Input => Element::Input,
            Group::Output => Element::Output,
            Group::Internal => Element::Internal,
            Group::Constant => Element::Constant,
        }
    }
}
