//! Where the statements, the methods and the declared names of a plan stand in its file.
ghost use Rattle.std.specs.Prelude.{◌≡◌, IfOk, IfSome, IfNone};
ghost use Rattle.pap_reader.specs.Trees.{tree_of, ElementTree};
ghost use Rattle.pap_reader.specs.Elements.{IsElements};
ghost use Rattle.pap_reader.specs.Contents.{AreRead};
ghost use Rattle.plain_words.specs.private.SiteViews.{declares_input};

use crate::group::Group;
use crate::ordinal::Ordinal;
use crate::place::TextFile;
use crate::quotes::write_quoted;
use crate::statements::{statement_in, statement_text};
use pap_reader::{Elements, RawDeclared, RawStmt, ReadFault, Tokens, elements_of, read_tokens};
use pap_tree::Name;
use plan_notes::{Element, Notes, Starts, Walk, notes_of, value_byte};
use std::alloc::{AllocError, Global};

/// What is read of a plan's file.
#[derive(Drop)]
pub(crate) struct Outline<'a> {
    tokens: Tokens<'a>,
    elements: Elements,
    notes: Notes,
}

impl<'a> Outline<'a> {
    /// What is read of a plan's file. `None` where it isn't read.
    pub(crate) fn read(alloc: Global, plan: TextFile<'a>) -> Result<Option<Outline<'a>>, AllocError>
        ensures read { IfOk result (λ read. IfSome read
            (λ outline. IsElements plan.entry.bytes.now (tree_of outline.elements))) }
        ensures unread { IfOk result (λ read. IfNone read
            ((tree : ElementTree) → ¬ (IsElements plan.entry.bytes.now tree))) }
    {
        let tokens = read_tokens(alloc, plan.bytes)?;
        match parts_of(alloc, plan.bytes, &tokens)? {
            Some((elements, notes)) => Ok(Some(Outline {
                tokens,
                elements,
                notes,
            })),
            None => Ok(None),
        }
    }

    /// The file with what is read of it.
    pub(crate) fn source<'s>(&'s self, file: TextFile<'s>) -> Source<'s>
        ensures { result.elements.now ≡ self.now.elements }
    {
        Source {
            file,
            tokens: &self.tokens,
            elements: &self.elements,
            notes: &self.notes,
        }
    }
}

/// The elements and the notes of a file's tokens. `None` where it isn't read as a plan.
fn parts_of(
    alloc: Global,
    file: &[u8],
    tokens: &Tokens<'_>,
) -> Result<Option<(Elements, Notes)>, AllocError>
    requires { AreRead file.now tokens.now }
    ensures read { IfOk result (λ read. IfSome read
        (λ parts. IsElements file.now (tree_of parts.0))) }
    ensures unread { IfOk result (λ read. IfNone read
        ((tree : ElementTree) → ¬ (IsElements file.now tree))) }
{
    match elements_of(alloc, file, tokens) {
        Ok(elements) => {
            let notes = notes_of(alloc, tokens)?;
            Ok(Some((elements, notes)))
        }
        Err(ReadFault::Memory) => Err(AllocError),
        Err(_) => Ok(None),
    }
}

/// A plan's file with its tokens, its elements and its tags.
#[derive(Clone, Copy)]
pub(crate) struct Source<'a> {
    pub file: TextFile<'a>,
    pub tokens: &'a Tokens<'a>,
    pub elements: &'a Elements,
    pub notes: &'a Notes,
}

/// The statement of a number in a method.
pub(crate) fn statement_of<'a>(
    source: Source<'a>,
    method: &Name,
    number: u32,
) -> Option<&'a RawStmt> {
    let elements = source.elements;
    if *method == Name::main() {
        return statement_in(&elements.main, number);
    }
    let found = elements
        .methods
        .iter()
        .find(|candidate| candidate.name == *method)?;
    statement_in(&found.body, number)
}

/// The byte at which a method's start tag begins; the walk along the file's tags goes on behind it.
fn method_tag(source: Source<'_>, walk: &mut Walk<'_>, method: &Name) -> Option<usize> {
    if *method == Name::main() {
        return walk.find_start(Starts::Of(Element::Main), 0);
    }
    let methods = &source.elements.methods;
    let number = methods
        .iter()
        .position(|candidate| candidate.name == *method)?;
    walk.find_start(Starts::Of(Element::Method), number)
}

/// The byte at which a method's tag begins.
pub(crate) fn method_byte(source: Source<'_>, method: &Name) -> Option<usize> {
    let mut walk = source.notes.walk();
    method_tag(source, &mut walk, method)
}

/// The byte at which the start tag of a statement begins.
fn statement_tag(source: Source<'_>, method: &Name, number: u32) -> Option<usize> {
    let mut walk = source.notes.walk();
    method_tag(source, &mut walk, method)?;
    walk.find_start(Starts::OfStatements, number as usize)
}

/// The byte of the file at which a byte of a statement's text stands: of its assignment, its test or the name of its method.
pub(crate) fn statement_byte(
    source: Source<'_>,
    method: &Name,
    number: u32,
    at: usize,
) -> Option<usize> {
    let tag = statement_tag(source, method, number)?;
    let attribute = match statement_of(source, method, number)? {
        RawStmt::Eval { .. } => b"exec".as_slice(),
        RawStmt::If { .. } => b"expr".as_slice(),
        RawStmt::Execute { .. } => b"method".as_slice(),
    };
    value_in(source, tag, attribute, at)
}

/// The byte of the file at which a byte of an attribute's value stands, in the tag that begins at a byte; else that byte.
fn value_in(source: Source<'_>, tag: usize, attribute: &[u8], at: usize) -> Option<usize> {
    value_byte(source.file.bytes, source.tokens, tag, attribute, at).or(Some(tag))
}

/// Appends a statement as it is quoted: ``EVAL `A= B`, the 4th statement of MZVE``. Of a long text the part round a place is
/// shown.
pub(crate) fn write_statement(
    out: &mut String,
    source: Source<'_>,
    method: &Name,
    number: u32,
    at: usize,
) -> Result<(), AllocError> {
    if let Some(statement) = statement_of(source, method, number) {
        out.push_str(element_of(statement))?;
        write_quoted(out, statement_text(statement), at)?;
        out.push_str(", ")?;
    }
    let count = Ordinal(u64::from(number) + 1);
    write!(out, "the {count} statement of {method}")
}

/// A statement's element.
fn element_of(statement: &RawStmt) -> &'static str {
    match statement {
        RawStmt::Eval { .. } => "EVAL ",
        RawStmt::If { .. } => "IF ",
        RawStmt::Execute { .. } => "EXECUTE ",
    }
}

/// A declared name, and its tag among those of its kind.
#[derive(Clone, Copy)]
pub(crate) struct DeclaredSite<'a> {
    pub declared: &'a RawDeclared,
    pub group: Group,
    pub number: usize,
}

/// The declarations of a kind.
fn declarations_of(elements: &Elements, group: Group) -> &[RawDeclared] {
    match group {
        Group::Input => &elements.inputs,
        Group::Output => &elements.outputs,
        Group::Internal => &elements.internals,
        Group::Constant => &elements.constants,
    }
}

/// The kinds of declarations, in the order in which they are read.
const GROUPS: [Group; 4] = [
    Group::Input,
    Group::Output,
    Group::Internal,
    Group::Constant,
];

/// The first declaration of a name.
pub(crate) fn declaration_of<'a>(source: Source<'a>, name: &Name) -> Option<DeclaredSite<'a>> {
    GROUPS
        .iter()
        .find_map(|group| declaration_among(source, *group, 0, name))
}

/// The first declaration of a name among those of a kind, from a number on.
fn declaration_among<'a>(
    source: Source<'a>,
    group: Group,
    from: usize,
    name: &Name,
) -> Option<DeclaredSite<'a>> {
    let declarations = declarations_of(source.elements, group);
    for number in from..declarations.len() {
        let declared = &declarations[number];
        if declared.name == *name {
            return Some(DeclaredSite {
                declared,
                group,
                number,
            });
        }
    }
    None
}

/// The next declaration of the same name.
fn next_declaration<'a>(source: Source<'a>, site: DeclaredSite<'a>) -> Option<DeclaredSite<'a>> {
    let mut from = site.number.saturating_add(1);
    let mut passed = false;
    for group in GROUPS {
        passed = passed || group == site.group;
        if passed {
            let next = declaration_among(source, group, from, &site.declared.name);
            if next.is_some() {
                return next;
            }
            from = 0;
        }
    }
    None
}

/// The bytes of the first two declarations of a name, or else of the first and the last method that has it.
pub(crate) fn repeated_bytes(
    source: Source<'_>,
    name: &Name,
) -> Option<(Option<usize>, Option<usize>)> {
    let declared = declaration_of(source, name);
    if let Some(first) = declared
        && let Some(second) = next_declaration(source, first)
    {
        return Some((
            declaration_byte(source, first),
            declaration_byte(source, second),
        ));
    }
    repeated_methods(source, name)
}

/// The bytes of the first and the last method of a name, of which MAIN may be the first.
fn repeated_methods(source: Source<'_>, name: &Name) -> Option<(Option<usize>, Option<usize>)> {
    let methods = &source.elements.methods;
    let number = methods.iter().rposition(|method| method.name == *name)?;
    let mut walk = source.notes.walk();
    let second = walk.find_start(Starts::Of(Element::Method), number);
    Some((method_byte(source, name), second))
}

/// The byte at which a declaration's tag begins.
pub(crate) fn declaration_byte(source: Source<'_>, site: DeclaredSite<'_>) -> Option<usize> {
    let mut walk = source.notes.walk();
    walk.find_start(Starts::Of(site.group.element()), site.number)
}

/// Whether an input of this name is declared.
pub(crate) fn declares_input(source: Source<'_>, name: &Name) -> bool
    ensures { result ≡ declares_input source.entry.elements.now name.now }
{
    let inputs = &source.elements.inputs;
    inputs.iter().any(|declared| *name == declared.name)
}

/// Whether a METHOD of this name is there.
pub(crate) fn is_method(source: Source<'_>, name: &Name) -> bool {
    let methods = &source.elements.methods;
    methods.iter().any(|method| method.name == *name)
}

/// Appends that a name is a METHOD's.
pub(crate) fn write_method(out: &mut String, name: &Name) -> Result<(), AllocError> {
    write!(
        out,
        "; {name} is a METHOD, which `<EXECUTE method=\"{name}\"/>` executes"
    )
}

/// The byte at which the tag of the first declaration of a name begins.
pub(crate) fn named_byte(source: Source<'_>, name: &Name) -> Option<usize> {
    declaration_byte(source, declaration_of(source, name)?)
}

/// The byte of the file at which a byte of a declaration's literal stands.
pub(crate) fn literal_byte(source: Source<'_>, site: DeclaredSite<'_>, at: usize) -> Option<usize> {
    let attribute = match site.group {
        Group::Constant => b"value".as_slice(),
        _ => b"default".as_slice(),
    };
    let tag = declaration_byte(source, site)?;
    value_in(source, tag, attribute, at)
}
