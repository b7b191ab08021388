//! The elements of a plan's file, and which of them may stand in one.

ghost use Rattle.std.specs.Prelude.{◌≡◌, ◌<◌, List, []};
ghost use Rattle.pap_reader.specs.Table.{number, has, may_stand, is_complete};
ghost use Rattle.pap_reader.specs.Marks.{tag_name, element_of};
ghost use Rattle.pap_reader.specs.private.Views.{is_in_body, HasFlags, AddsChild};
ghost use Rattle.pap_reader.specs.declared.element.Element.{Element as Kind};

/// The elements of a plan's file.
#[derive(Clone, Copy, Debug, PartialEq, Eq)]
pub enum Element {
    /// The root.
    Pap,
    /// The group of declarations.
    Interface,
    /// Another name of the group.
    Variables,
    /// The declarations of inputs.
    Inputs,
    /// The declarations of outputs.
    Outputs,
    /// The declarations of internal names.
    Internals,
    /// The declarations of constants.
    Constants,
    /// The declaration of an input.
    Input,
    /// The declaration of an output.
    Output,
    /// The declaration of an internal name.
    Internal,
    /// The declaration of a constant.
    Constant,
    /// The group of methods.
    Methods,
    /// The method that a run begins with.
    Main,
    /// Another method.
    Method,
    /// An assignment.
    Eval,
    /// The call of a method.
    Execute,
    /// A test with its branches.
    If,
    /// The statements of an IF where its test holds.
    Then,
    /// Those where it doesn't hold.
    Else,
}

/// All elements.
const ELEMENTS: [Element; 19] = [
    Element::Pap,
    Element::Interface,
    Element::Variables,
    Element::Inputs,
    Element::Outputs,
    Element::Internals,
    Element::Constants,
    Element::Input,
    Element::Output,
    Element::Internal,
    Element::Constant,
    Element::Methods,
    Element::Main,
    Element::Method,
    Element::Eval,
    Element::Execute,
    Element::If,
    Element::Then,
    Element::Else,
];

impl Element {
    /// The name of its tags.
    fn name(self) -> &'static [u8]
        ensures { result.now ≡ tag_name self }
    {
        match self {
            Element::Pap => b"PAP",
            Element::Interface => b"INTERFACE",
            Element::Variables => b"VARIABLES",
            Element::Inputs => b"INPUTS",
            Element::Outputs => b"OUTPUTS",
            Element::Internals => b"INTERNALS",
            Element::Constants => b"CONSTANTS",
            Element::Input => b"INPUT",
            Element::Output => b"OUTPUT",
            Element::Internal => b"INTERNAL",
            Element::Constant => b"CONSTANT",
            Element::Methods => b"METHODS",
            Element::Main => b"MAIN",
            Element::Method => b"METHOD",
            Element::Eval => b"EVAL",
            Element::Execute => b"EXECUTE",
            Element::If => b"IF",
            Element::Then => b"THEN",
            Element::Else => b"ELSE",
        }
    }

    /// The element of a tag's name.
    pub fn named(name: &[u8]) -> Option<Element>
        ensures { result ≡ element_of name.now }
    {
        ELEMENTS
            .iter()
            .copied()
            .find(|element| element.name() == name)
    }

    /// Whether it stands in a body: a statement, or a branch of an IF.
    pub(crate) fn is_in_body(self) -> bool
        ensures { result ≡ is_in_body self }
    {
        matches!(
            self,
            Element::Eval | Element::Execute | Element::If | Element::Then | Element::Else
        )
    }

    /// Its place in the list of all elements.
    fn number(self) -> usize
        ensures place { result ≡ number self }
        ensures within { result < 19 }
    {
        self as usize
    }
}

/// Which elements are among the children of an open one.
#[derive(Clone, Copy)]
pub(crate) struct Children {
    stands: [bool; 19],
}

impl Children {
    /// No children.
    pub(crate) fn none() -> Children
        ensures { HasFlags result.stands [] }
    {
        Children {
            stands: [false; 19],
        }
    }

    /// Whether one of them is of this kind.
    pub(crate) fn has(&self, element: Element) -> bool
        ensures { (children : List Kind) → HasFlags self.now.stands children
            → result ≡ has children element }
    {
        self.stands[element.number()]
    }

    /// One child more.
    pub(crate) fn add(&mut self, element: Element)
        ensures { AddsChild self.old self.new element }
    {
        self.stands[element.number()] = true;
    }

    /// Whether an element may stand next, after these children of the parent. The whole text is `None`.
    pub(crate) fn may_stand(&self, parent: Option<Element>, child: Element) -> bool
        ensures { (children : List Kind) → HasFlags self.now.stands children
            → result ≡ may_stand parent children child }
    {
        match (parent, child) {
            (None, Element::Pap)
            | (Some(Element::Pap), Element::Internals | Element::Constants | Element::Methods)
            | (Some(Element::Interface | Element::Variables), Element::Inputs | Element::Internals)
            | (Some(Element::Methods), Element::Main)
            | (Some(Element::If), Element::Then) => !self.has(child),
            (Some(Element::Pap), Element::Interface | Element::Variables) => {
                !self.has(Element::Interface) && !self.has(Element::Variables)
            }
            (Some(Element::Interface | Element::Variables), Element::Outputs)
            | (Some(Element::Inputs), Element::Input)
            | (Some(Element::Outputs), Element::Output)
            | (Some(Element::Internals), Element::Internal)
            | (Some(Element::Constants), Element::Constant)
            | (Some(Element::Methods), Element::Method)
            | (
                Some(Element::Main | Element::Method | Element::Then | Element::Else),
                Element::Eval | Element::Execute | Element::If,
            ) => true,
            (Some(Element::If), Element::Else) => self.has(Element::Then)
                && !self.has(Element::Else),
            _ => false,
        }
    }

    /// Whether nothing is missing among these children of the parent.
    pub(crate) fn is_complete(&self, parent: Option<Element>) -> bool
        ensures { (children : List Kind) → HasFlags self.now.stands children
            → result ≡ is_complete parent children }
    {
        match parent {
            None => self.has(Element::Pap),
            Some(Element::Pap) => {
                (self.has(Element::Interface) || self.has(Element::Variables))
                    && self.has(Element::Methods)
            }
            Some(Element::Interface | Element::Variables) => self.has(Element::Outputs),
            Some(Element::Outputs) => self.has(Element::Output),
            Some(Element::Methods) => self.has(Element::Main),
            Some(Element::If) => self.has(Element::Then),
            _ => true,
        }
    }
}
