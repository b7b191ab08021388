//! The reader: it goes through the tags of a text with the open elements in hand.

ghost use Rattle.std.specs.Prelude.{◌≡◌, ℕ, List, ◌∷◌, [], ◌++◌, map, is_some, OnOk, ◌&&◌, ◌||◌};
ghost use Rattle.pap_reader.specs.Structure.{Shape, opens, opens_internals};
ghost use Rattle.pap_reader.specs.private.NestingDecisions.{Open, fresh, is_inside, step, start, is_ended};
ghost use Rattle.pap_reader.specs.Table.{is_complete};
ghost use Rattle.pap_reader.specs.Tags.{Attribute as AnyAttribute, attributes_of, tag_of};
ghost use Rattle.pap_reader.specs.Marks.{begins, ends, marks_of};
ghost use Rattle.pap_reader.specs.Trees.{raw_declaration_of};
ghost use Rattle.pap_reader.specs.Meaning.{declared};
ghost use Rattle.pap_reader.specs.private.VerdictDecisions.{Work, begun, ending};
ghost use Rattle.pap_reader.specs.private.Views.{DeclaresOf};
ghost use Rattle.pap_reader.specs.private.ReaderViews.{ShowsOpen, Closed, ClosedInBody, ClosedInPlan, Stands, IsFresh, BeginsElement, EndsElement, TakesMarks, Gives};

use crate::attributes::{TagValue, read_attributes};
use crate::counts::Counts;
use crate::element::{Children, Element};
use crate::elements::{Elements, RawDeclared, RawMethod, RawStmt};
use crate::fault::ReadFault;
use crate::tags::{Attribute, Form, Tag};
use std::alloc::{AllocError, Global};
use std::mem;

/// An element that is open, or the whole text, and what is read of it so far.
#[derive(Drop)]
struct OpenElement {
    /// The element. `None` is the whole text.
    element: Option<Element>,
    children: Children,
    /// What its attributes say.
    value: TagValue,
    statements: Vec<RawStmt>,
    /// The statements of a THEN in it.
    yes: Vec<RawStmt>,
    /// The statements of an ELSE in it.
    no: Vec<RawStmt>,
}

impl OpenElement {
    /// One of which nothing is read.
    fn new(alloc: Global, element: Option<Element>, value: TagValue) -> OpenElement
        ensures { IsFresh result (fresh element) value }
    {
        OpenElement {
            element,
            children: Children::none(),
            value,
            statements: Vec::new(alloc),
            yes: Vec::new(alloc),
            no: Vec::new(alloc),
        }
    }

    /// Whether this element may end here.
    fn may_end(&self, element: Element) -> bool
        ensures { (o : Open) (w : Work) → ShowsOpen self.now o w
            → result ≡ (is_inside o.inside element && is_complete o.inside o.children) }
    {
        self.element == Some(element) && self.children.is_complete(self.element)
    }
}

/// One more declared name.
fn declare(names: &mut Vec<RawDeclared>, value: TagValue) -> Result<(), AllocError>
    ensures { OnOk result ((word : List ℕ) (attributes : List AnyAttribute)
        → DeclaresOf word attributes value
        → map raw_declaration_of names.new.items
        ≡ map raw_declaration_of names.old.items ++ (declared word attributes ∷ [])) }
{
    if let TagValue::Declared(declared) = value {
        names.push(declared)?;
    }
    Ok(())
}

/// The parent takes what the element in it says. What stands outside of both goes to the plan. What the attributes say is
/// of the element's own kind (`read_attributes`), so no statement and no method is ever left out.
fn close_in(
    element: Element,
    child: OpenElement,
    parent: &mut OpenElement,
    plan: &mut Elements,
) -> Result<(), AllocError>
    ensures { OnOk result (Closed element child parent.old parent.new plan.old plan.new) }
{
    if element.is_in_body() {
        close_in_body(element, child, parent)
    } else {
        close_in_plan(element, child, plan)
    }
}

/// A statement, or a branch of an IF, ends in its parent.
fn close_in_body(
    element: Element,
    child: OpenElement,
    parent: &mut OpenElement,
) -> Result<(), AllocError>
    ensures { OnOk result (ClosedInBody element child parent.old parent.new) }
{
    let OpenElement {
        value,
        statements,
        yes,
        no,
        ..
    } = child;
    match element {
        Element::Eval => {
            let TagValue::Text(exec) = value else {
                return Ok(());
            };
            parent.statements.push(RawStmt::Eval { exec })?;
        }
        Element::Execute => {
            let TagValue::Named(method) = value else {
                return Ok(());
            };
            parent.statements.push(RawStmt::Execute { method })?;
        }
        Element::If => {
            let TagValue::Text(test) = value else {
                return Ok(());
            };
            parent.statements.push(RawStmt::If { test, yes, no })?;
        }
        Element::Then => parent.yes = statements,
        Element::Else => parent.no = statements,
        _ => {}
    }
    Ok(())
}

/// A declared name, or a method, ends; what it says goes to the plan.
fn close_in_plan(
    element: Element,
    child: OpenElement,
    plan: &mut Elements,
) -> Result<(), AllocError>
    ensures { OnOk result (ClosedInPlan element child plan.old plan.new) }
{
    let OpenElement {
        value,
        statements,
        ..
    } = child;
    match element {
        Element::Input => declare(&mut plan.inputs, value),
        Element::Output => declare(&mut plan.outputs, value),
        Element::Internal => declare(&mut plan.internals, value),
        Element::Constant => declare(&mut plan.constants, value),
        Element::Main => {
            plan.main = statements;
            Ok(())
        }
        Element::Method => {
            let TagValue::Named(name) = value else {
                return Ok(());
            };
            let body = statements;
            plan.methods.push(RawMethod { name, body })?;
            Ok(())
        }
        _ => Ok(()),
    }
}

/// The open elements of a text, and the plan that is read so far.
#[derive(Drop)]
pub(crate) struct Reader {
    alloc: Global,
    /// The inmost open element.
    top: OpenElement,
    /// Those outside of it, the inmost last.
    outer: Vec<OpenElement>,
    /// Whether an INTERNALS was read.
    internals: bool,
    counts: Counts,
    plan: Elements,
}

impl Reader {
    /// Nothing is read.
    pub(crate) fn new(alloc: Global) -> Reader
        ensures { Stands result [] start begun }
    {
        Reader {
            alloc,
            top: OpenElement::new(alloc, None, TagValue::Nothing),
            outer: Vec::new(alloc),
            internals: false,
            counts: Counts::none(),
            plan: Elements::empty(alloc),
        }
    }

    /// Whether the element may begin here.
    fn may_open(&self, element: Element) -> bool
        ensures { (before : List Shape) (os : List Open) (ws : List Work)
            → Stands self.now before os ws
            → result ≡ is_some (step before os (opens element)) }
    {
        let is_second = element == Element::Internals && self.internals;
        self.top.children.may_stand(self.top.element, element) && !is_second
    }

    /// Whether an INTERNALS was read, or this is one.
    fn has_internals_with(&self, element: Element) -> bool
        ensures { result ≡ (self.now.internals || opens_internals (opens element)) }
    {
        self.internals || element == Element::Internals
    }

    /// An element begins.
    fn open(
        &mut self,
        element: Element,
        attributes: &[Attribute],
        at: usize,
    ) -> Result<(), ReadFault>
        ensures { BeginsElement self.old self.new result element (attributes_of attributes.now) at }
    {
        if !self.may_open(element) {
            return Err(ReadFault::Element { at });
        }
        let Some(value) = read_attributes(self.alloc, element, attributes)? else {
            return Err(ReadFault::Attribute { at });
        };
        self.counts.open(element);
        if let Some(which) = self.counts.first_over() {
            return Err(ReadFault::Many { which });
        }
        self.internals = self.has_internals_with(element);
        self.top.children.add(element);
        let child = OpenElement::new(self.alloc, Some(element), value);
        let parent = mem::replace(&mut self.top, child);
        self.outer.push(parent)?;
        Ok(())
    }

    /// An element ends.
    fn close(&mut self, element: Element, at: usize) -> Result<(), ReadFault>
        ensures { EndsElement self.old self.new result element at }
    {
        if !self.top.may_end(element) {
            return Err(ReadFault::Element { at });
        }
        let Some(parent) = self.outer.pop() else {
            return Err(ReadFault::Element { at });
        };
        let child = mem::replace(&mut self.top, parent);
        self.counts.close(element);
        close_in(element, child, &mut self.top, &mut self.plan)?;
        Ok(())
    }

    /// An element begins and ends in one tag.
    fn open_and_close(
        &mut self,
        element: Element,
        attributes: &[Attribute],
        at: usize,
    ) -> Result<(), ReadFault>
        ensures { TakesMarks self.old self.new result
            (begins element (attributes_of attributes.now) ∷ ends element ∷ []) at }
    {
        if !Children::none().is_complete(Some(element)) {
            return Err(ReadFault::Element { at });
        }
        self.open(element, attributes, at)?;
        self.close(element, at)
    }

    /// One more tag, whose first byte stands at that place.
    pub(crate) fn take(&mut self, tag: &Tag, at: usize) -> Result<(), ReadFault>
        ensures { TakesMarks self.old self.new result (marks_of (tag_of tag.now)) at }
    {
        let Some(element) = Element::named(tag.name) else {
            return Err(ReadFault::Element { at });
        };
        match tag.form {
            Form::Start => self.open(element, &tag.attributes, at),
            Form::Empty => self.open_and_close(element, &tag.attributes, at),
            Form::End => self.close(element, at),
        }
    }

    /// Whether the text may end here.
    fn is_ended(&self) -> bool
        ensures { (before : List Shape) (os : List Open) (ws : List Work)
            → Stands self.now before os ws
            → result ≡ is_ended os }
    {
        self.outer.is_empty() && self.top.children.is_complete(self.top.element)
    }

    /// The plan, where the text may end here, after so many bytes.
    pub(crate) fn finish(self, end: usize) -> Result<Elements, ReadFault>
        ensures { (before : List Shape) (os : List Open) (ws : List Work) → Stands self before os ws
            → Gives result (ending end os ws) }
    {
        if self.is_ended() {
            Ok(self.plan)
        } else {
            Err(ReadFault::Element { at: end })
        }
    }
}
