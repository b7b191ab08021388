//! Where the elements of a flowchart's file begin.
ghost use Rattle.std.specs.Prelude.{◌≡◌, ◌++◌, IfOk, OnOk};
ghost use Rattle.plan_notes.specs.Walks.{is_start};
ghost use Rattle.source_lines.specs.Lines.{starts_before};
ghost use Rattle.flowchart_findings.specs.Places.{tag_bytes, tag_places, declaration_byte, statement_byte, finding_byte};

use crate::finding::{DeclarationSite, Finding, Group, StatementSite};
use plan_notes::{Element, Mark, Starts};
use std::alloc::{AllocError, Global};
use std::marker::Model;

/// The bytes at which the elements of a file begin.
#[derive(Drop)]
pub(crate) struct TagPlaces {
    inputs: Vec<usize>,
    outputs: Vec<usize>,
    internals: Vec<usize>,
    constants: Vec<usize>,
    /// MAIN first.
    methods: Vec<usize>,
    /// Of each method, MAIN first, how many statements of the file begin before it.
    firsts: Vec<usize>,
    statements: Vec<usize>,
}

impl Model for TagPlaces {
    ghost use Rattle.flowchart_findings.specs.Places.{TagBytes};

    ghost Value = { TagBytes };

    ghost view = { λ t. record {
      inputs = t.inputs.items;
      outputs = t.outputs.items;
      internals = t.internals.items;
      constants = t.constants.items;
      methods = t.methods.items;
      firsts = t.firsts.items;
      statements = t.statements.items;
    } };
}

impl TagPlaces {
    /// Those of a file with these tags.
    pub fn of(alloc: Global, marks: &[Mark]) -> Result<TagPlaces, AllocError>
        ensures { IfOk result (λ places. places ≡ tag_places marks.now) }
    {
        let mut methods = tag_bytes(alloc, marks, Starts::Of(Element::Main))?;
        methods.extend_from_slice(&tag_bytes(alloc, marks, Starts::Of(Element::Method))?)?;
        let mut firsts = Vec::new(alloc);
        add_firsts(&mut firsts, marks, Element::Main)?;
        add_firsts(&mut firsts, marks, Element::Method)?;
        Ok(TagPlaces {
            inputs: tag_bytes(alloc, marks, Starts::Of(Element::Input))?,
            outputs: tag_bytes(alloc, marks, Starts::Of(Element::Output))?,
            internals: tag_bytes(alloc, marks, Starts::Of(Element::Internal))?,
            constants: tag_bytes(alloc, marks, Starts::Of(Element::Constant))?,
            methods,
            firsts,
            statements: tag_bytes(alloc, marks, Starts::OfStatements)?,
        })
    }

    /// The byte at which the element of a finding begins.
    pub fn byte_of(&self, finding: &Finding) -> Option<usize>
        ensures { result ≡ finding_byte self.now finding.now }
    {
        match finding {
            Finding::Unread(site) | Finding::Unassigned(site) | Finding::LongCarry { site, .. } =>
                self.declaration(*site),
            Finding::DeadMethod { method_number, .. } => self.methods.get(*method_number).copied(),
            Finding::DeadStatement(site)
            | Finding::UnusedValue { site, .. }
            | Finding::NeverTrue { site, .. }
            | Finding::NeverFalse { site, .. } => self.statement(*site),
        }
    }

    fn declaration(&self, site: DeclarationSite) -> Option<usize>
        ensures { result ≡ declaration_byte self.now site }
    {
        let group = match site.group {
            Group::Input => &self.inputs,
            Group::Output => &self.outputs,
            Group::Internal => &self.internals,
            Group::Constant => &self.constants,
        };
        group.get(site.number).copied()
    }

    fn statement(&self, site: StatementSite) -> Option<usize>
        ensures { result ≡ statement_byte self.now site }
    {
        let first = *self.firsts.get(site.method_number)?;
        let statements = self.statements.get(first..)?;
        statements.get(site.statement as usize).copied()
    }
}

/// The bytes at which the start tags that are looked for begin.
#[tactic(auto, using(crate::proofs::TagLemmas::one_byte, crate::proofs::TagLemmas::no_byte))]
fn tag_bytes(alloc: Global, marks: &[Mark], starts: Starts) -> Result<Vec<usize>, AllocError>
    ensures { IfOk result (λ bytes. bytes.items ≡ tag_bytes starts marks.now) }
{
    let mut bytes = Vec::new(alloc);
    for mark in marks {
        if is_start(starts, mark) {
            bytes.push(mark.at)?;
        }
    }
    Ok(bytes)
}

/// Whether a tag is one of the start tags that are looked for.
fn is_start(starts: Starts, mark: &Mark) -> bool
    ensures { result ≡ is_start starts mark.now }
{
    let is_sought = match starts {
        Starts::Of(element) => mark.element == element,
        Starts::OfStatements => {
            matches!(mark.element, Element::Eval | Element::Execute | Element::If)
        }
    };
    is_sought && !mark.is_end
}

/// Appends, for each start tag of an element, how many statements begin before it.
#[tactic(auto, using(crate::proofs::TagLemmas::one_first, crate::proofs::TagLemmas::one_counted, crate::proofs::TagLemmas::one_passed))]
fn add_firsts(firsts: &mut Vec<usize>, marks: &[Mark], element: Element) -> Result<(), AllocError>
    ensures { OnOk result (firsts.new.items
        ≡ firsts.old.items ++ starts_before element 0 marks.now) }
{
    let mut count = 0;
    for mark in marks {
        if is_start(Starts::Of(element), mark) {
            firsts.push(count)?;
        } else if is_start(Starts::OfStatements, mark) {
            count += 1;
        }
    }
    Ok(())
}
