//! What a refusal names.
ghost use Rattle.std.specs.Prelude.{◌≡◌};
ghost use Rattle.flowchart_methods.specs.Sites.{is_in, named_statement, number_in};

use pap_tree::Name;

/// What a refusal names of the plan.
#[derive(Clone, Copy, PartialEq)]
pub enum Site {
    /// A statement, by its number in its method.
    Statement { method: Name, number: u32 },
    /// A method as a whole.
    Method(Name),
    /// A declared name, by its row in the table.
    Declared(Name),
    /// Nothing that the page shows.
    Nowhere,
}

impl Site {
    /// Whether a method or one of its statements is named.
    pub fn is_in(&self, name: &Name) -> bool
        ensures { result ≡ is_in self.now name.now }
    {
        match self {
            Site::Statement { method, .. } => method == name,
            Site::Method(method) => method == name,
            Site::Declared(_) | Site::Nowhere => false,
        }
    }

    /// The number of the statement of a method that is named.
    pub(crate) fn statement_in(&self, name: &Name) -> Option<u32>
        ensures { result ≡ number_in (named_statement self.now) name.now }
    {
        match self {
            Site::Statement { method, number } if method == name => Some(*number),
            _ => None,
        }
    }
}
