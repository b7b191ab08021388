//! The places of a flowchart's statements.
ghost use Rattle.std.specs.Prelude.{◌≡◌, IfOk, string_bytes};
ghost use Rattle.std.specs.BTreeSet.{contains};
ghost use Rattle.interval_analysis.specs.Surveys.{place_cmp};
ghost use Rattle.run_trace.specs.StepLines.{line_words};
ghost use Rattle.coverage_text.specs.FlowchartItems.{site_words};
ghost use Rattle.coverage_text.specs.private.SiteViews.{site_of, sites_of};

use pap_tree::Name;
use source_lines::SourceLines;
use std::alloc::{AllocError, Global};
use std::collections::BTreeSet;

/// What is known of a flowchart's places.
#[derive(Clone, Copy)]
pub struct Known<'a> {
    /// The lines of its file.
    pub lines: &'a SourceLines,
    /// The statements to which a run within the ranges may come.
    pub reached: &'a BTreeSet<(Name, u32)>,
}

/// A statement: its method and its number in it, its line, and whether a run may come there.
#[derive(Clone, Copy)]
pub(crate) struct Site {
    pub method: Name,
    pub statement: u32,
    pub line: Option<usize>,
    pub is_reachable: bool,
}

/// The places of a method's statements.
#[derive(Clone, Copy)]
pub(crate) struct MethodSites<'a> {
    pub lines: &'a SourceLines,
    pub reached: &'a BTreeSet<(Name, u32)>,
    /// The number of the method: MAIN is method 0, the others are counted from 1.
    pub number: usize,
}

impl<'a> MethodSites<'a> {
    /// The statement of a number, in a method of this name. No memory holds so many statements that a number doesn't fit.
    pub fn site(self, name: &Name, at: usize) -> Result<Site, AllocError>
        ensures { IfOk result (λ site. site_of site ≡ sites_of self.entry name.now at) }
    {
        let Ok(statement) = u32::try_from(at) else {
            return Err(AllocError);
        };
        Ok(Site {
            method: *name,
            statement,
            line: self.lines.line(self.number, at),
            is_reachable: is_among(self.reached, *name, statement),
        })
    }
}

/// Whether a statement is among some.
fn is_among(reached: &BTreeSet<(Name, u32)>, method: Name, statement: u32) -> bool
    ensures { result ≡ contains place_cmp reached.now (method, statement) }
{
    reached.contains(&(method, statement))
}

impl Site {
    /// Its place and its line in the file.
    pub fn words(&self, alloc: Global) -> Result<String, AllocError>
        ensures { IfOk result (λ words. string_bytes words ≡ site_words (site_of self.now)) }
    {
        let method = self.method;
        let statement = self.statement;
        let line = line_words(alloc, self.line)?;
        format!(in alloc; "{method}:{statement}  {line}")
    }
}

/// The words for a line of the file, where it is known.
fn line_words(alloc: Global, line: Option<usize>) -> Result<String, AllocError>
    ensures { IfOk result (λ words. string_bytes words ≡ line_words line) }
{
    match line {
        Some(line) => format!(in alloc; "line {line}  "),
        None => Ok(String::new(alloc)),
    }
}
