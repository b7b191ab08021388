//! What is known of a flowchart's statements while its run is told.
ghost use Rattle.std.specs.Prelude.{◌≡◌, ◌++◌, ◌||◌, false, is_some, OnOk, IfOk, option_map, string_bytes};
ghost use Rattle.pap_tree.specs.Flowchart.{flowchart_of};
ghost use Rattle.run_trace.specs.VariableValues.{variable_value};
ghost use Rattle.run_trace.specs.StepLines.{method_number, listed_at, source_line, step_place, line_words, place_words, listed_words, told_line, told_operands, more_operands, brackets, operand_text};
ghost use Rattle.run_trace.specs.RunPages.{listed_reads};
ghost use Rattle.run_trace.specs.RunMarks.{no_brackets};
ghost use Rattle.run_trace.specs.private.TellingViews.{KnowsStatements, place_of_told};

use crate::values::variable_value;
use pap_tree::Name;
use pap_types::Typed;
use scaled_decimal::Dec;
use source_lines::SourceLines;
use statement_list::{ListedMethod, ListedStatement};
use std::alloc::{AllocError, Global};

/// A flowchart with its statements and their lines.
#[derive(Clone, Copy)]
pub(crate) struct Telling<'a> {
    pub alloc: Global,
    pub plan: &'a Typed,
    pub methods: &'a [ListedMethod],
    pub lines: &'a SourceLines,
}

/// A place of a run, and what is told of it before its expression and behind it.
#[derive(Clone, Copy)]
pub(crate) struct Told<'a> {
    pub method: Name,
    pub statement: u32,
    pub before: &'a [u8],
    pub behind: &'a [u8],
}

/// The number of a method: 0 is MAIN, and the others are counted from 1 in the order of the text.
pub(crate) fn method_number(plan: &Typed, name: &Name) -> Option<usize>
    ensures { result ≡ method_number (flowchart_of plan.now) name.now }
{
    if *name == Name::main() {
        return Some(0);
    }
    let _counted = plan.plan().methods.len();
    let number = plan.method(name)?;
    Some(number + 1)
}

impl<'a> Telling<'a> {
    /// The statement of a place.
    pub fn listed(self, method: &Name, statement: u32) -> Option<&'a ListedStatement>
        requires { KnowsStatements self }
        ensures { option_map (λ s. s.now) result
            ≡ listed_at (flowchart_of self.entry.plan.now) (step_place method.now statement) }
    {
        let number = method_number(self.plan, method)?;
        let method = self.methods.get(number)?;
        method.statements().get(statement as usize)
    }

    /// The words for the line of the file on which a statement begins, where it is known.
    pub fn line_words(self, method: &Name, statement: u32) -> Result<String, AllocError>
        ensures { IfOk result (λ words. string_bytes words ≡ line_words
            (source_line (flowchart_of self.entry.plan.now) self.entry.lines.now
            (step_place method.now statement))) }
    {
        match self.line(method, statement) {
            Some(line) => format!(in self.alloc; "line {line}  "),
            None => Ok(String::new(self.alloc)),
        }
    }

    /// The line of the file on which a statement begins.
    fn line(self, method: &Name, statement: u32) -> Option<usize>
        ensures { result ≡ source_line (flowchart_of self.entry.plan.now) self.entry.lines.now
            (step_place method.now statement) }
    {
        let number = method_number(self.plan, method)?;
        self.lines.line(number, statement as usize)
    }

    /// Appends the line of a place: with what is told of it, with its expression, and with the values of the variables that this
    /// reads.
    pub fn write(self, out: &mut Vec<u8>, values: &[Dec], told: Told<'_>) -> Result<(), AllocError>
        requires { KnowsStatements self }
        ensures { OnOk result (out.new.items ≡ out.old.items
            ++ told_line (flowchart_of self.entry.plan.now) self.entry.lines.now values.now
            (place_of_told told.entry) told.entry.before.now told.entry.behind.now) }
    {
        let Told {
            method,
            statement,
            before,
            behind,
        } = told;
        let place = self.place_words(&method, statement)?;
        let listed = self.listed(&method, statement);
        out.extend_from_slice(place.as_bytes())?;
        out.extend_from_slice(before)?;
        self.write_found(out, values, listed, behind)?;
        out.extend_from_slice(b"\n")
    }

    /// A place, and its line in the file.
    fn place_words(self, method: &Name, statement: u32) -> Result<String, AllocError>
        ensures { IfOk result (λ words. string_bytes words ≡ place_words
            (flowchart_of self.entry.plan.now) self.entry.lines.now
            (step_place method.now statement)) }
    {
        let words = self.line_words(method, statement)?;
        format!(in self.alloc; "{method}:{statement}  {words}")
    }

    /// Appends what is told of a statement, where there is one, and what is told behind its expression.
    fn write_found(
        self,
        out: &mut Vec<u8>,
        values: &[Dec],
        listed: Option<&ListedStatement>,
        behind: &[u8],
    ) -> Result<(), AllocError>
        ensures { OnOk result (out.new.items ≡ out.old.items
            ++ listed_words (flowchart_of self.entry.plan.now) values.now behind.now
            (option_map (λ s. s.now) listed.entry)) }
    {
        match listed {
            Some(listed) => self.write_listed(out, values, listed, behind),
            None => out.extend_from_slice(behind),
        }
    }

    /// Appends the expression of a statement, what is told behind it, and the values of the variables that it reads.
    fn write_listed(
        self,
        out: &mut Vec<u8>,
        values: &[Dec],
        listed: &ListedStatement,
        behind: &[u8],
    ) -> Result<(), AllocError>
        ensures { OnOk result (out.new.items ≡ out.old.items
            ++ (listed.now.text ++ (behind.now
            ++ told_operands (flowchart_of self.entry.plan.now) values.now listed.now.reads))) }
    {
        out.extend_from_slice(listed.text())?;
        out.extend_from_slice(behind)?;
        self.write_operands(out, values, listed.reads(), "  (", b")")
    }

    /// The values of the variables that a statement reads, in round brackets.
    pub fn operands(
        self,
        values: &[Dec],
        listed: Option<&ListedStatement>,
    ) -> Result<Vec<u8>, AllocError>
        ensures { IfOk result (λ operands. operands.items ≡ told_operands
            (flowchart_of self.entry.plan.now) values.now
            (listed_reads (option_map (λ s. s.now) listed.entry))) }
    {
        self.values_read(values, listed, "  (", b")")
    }

    /// The values of the variables that a test reads, before its answer.
    pub fn test_operands(
        self,
        values: &[Dec],
        listed: Option<&ListedStatement>,
    ) -> Result<Vec<u8>, AllocError>
        ensures { IfOk result (λ operands. operands.items ≡ more_operands
            (flowchart_of self.entry.plan.now) values.now no_brackets false
            (listed_reads (option_map (λ s. s.now) listed.entry))) }
    {
        self.values_read(values, listed, "", b" ")
    }

    /// The values of the variables that a statement reads, with what opens and closes them.
    fn values_read(
        self,
        values: &[Dec],
        listed: Option<&ListedStatement>,
        opening: &str,
        closing: &[u8],
    ) -> Result<Vec<u8>, AllocError>
        ensures { IfOk result (λ operands. operands.items ≡ more_operands
            (flowchart_of self.entry.plan.now) values.now (brackets opening.now closing.now) false
            (listed_reads (option_map (λ s. s.now) listed.entry))) }
    {
        let mut operands = Vec::new(self.alloc);
        match listed {
            Some(listed) => {
                self.write_operands(&mut operands, values, listed.reads(), opening, closing)?
            }
            None => {}
        }
        Ok(operands)
    }

    /// Appends the values of the variables among some names, with what opens and closes them.
    fn write_operands(
        self,
        out: &mut Vec<u8>,
        values: &[Dec],
        reads: &[Name],
        opening: &str,
        closing: &[u8],
    ) -> Result<(), AllocError>
        ensures { OnOk result (out.new.items ≡ out.old.items
            ++ more_operands (flowchart_of self.entry.plan.now) values.now
            (brackets opening.now closing.now) false reads.now) }
    {
        let mut is_open = false;
        for name in reads {
            is_open = self.write_operand(out, values, name, opening, is_open)?;
        }
        if is_open {
            out.extend_from_slice(closing)?;
        }
        Ok(())
    }

    /// Appends the value of a variable, behind what opens the values or a comma; gives whether they are open. Nothing where the name
    /// is no variable's.
    fn write_operand(
        self,
        out: &mut Vec<u8>,
        values: &[Dec],
        name: &Name,
        opening: &str,
        is_open: bool,
    ) -> Result<bool, AllocError>
        ensures text { OnOk result (out.new.items ≡ out.old.items
            ++ operand_text opening.now name.now is_open
            (variable_value (flowchart_of self.entry.plan.now) values.now name.now)) }
        ensures opened { IfOk result (λ opened. opened ≡ (is_open
            || is_some (variable_value (flowchart_of self.entry.plan.now) values.now name.now))) }
    {
        let Some(value) = variable_value(self.plan, values, name) else {
            return Ok(is_open);
        };
        let lead = if is_open { ", " } else { opening };
        let text = format!(in self.alloc; "{lead}{name} = {value}")?;
        out.extend_from_slice(text.as_bytes())?;
        Ok(true)
    }
}
