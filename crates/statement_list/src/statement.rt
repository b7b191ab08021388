//! A statement as it is listed.
ghost use Rattle.std.specs.Prelude.{◌≡◌};
ghost use Rattle.statement_list.specs.Statements.{listed_statement};

use pap_tree::Name;
use std::marker::Model;

/// What a statement does.
#[derive(Clone, Copy)]
pub enum Form {
    /// An assignment to this variable.
    Set(Name),
    /// An IF.
    Test,
    /// An EXECUTE of this method.
    Enter(Name),
}

/// A statement: what it does, the canonical spelling of its expression, and the names that this reads, each once, in the order of
/// the text. An EXECUTE has no expression.
#[derive(Drop)]
pub struct ListedStatement {
    form: Form,
    text: Vec<u8>,
    reads: Vec<Name>,
}

impl Model for ListedStatement {
    ghost use Rattle.statement_list.specs.Statements.{Listed};

    ghost Value = { Listed };

    ghost view = { λ s. record { form = s.form; text = s.text.items; reads = s.reads.items } };
}

impl ListedStatement {
    /// A statement of these parts.
    pub(crate) fn new(form: Form, text: Vec<u8>, reads: Vec<Name>) -> ListedStatement
        ensures { result ≡ listed_statement form text.items reads.items }
    {
        ListedStatement { form, text, reads }
    }

    /// What it does.
    pub fn form(&self) -> Form
        ensures { result ≡ self.now.form }
    {
        self.form
    }

    /// Its expression in canonical spelling. Empty for an EXECUTE.
    pub fn text(&self) -> &[u8]
        ensures { result.now ≡ self.now.text }
    {
        &self.text
    }

    /// The names of variables and constants that its expression reads, each once, in the order of the text. Tables aren't among them.
    pub fn reads(&self) -> &[Name]
        ensures { result.now ≡ self.now.reads }
    {
        &self.reads
    }
}
