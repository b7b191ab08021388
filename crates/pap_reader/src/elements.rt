//! What is written in a plan's file.

ghost use Rattle.pap_reader.specs.Meaning.{nothing};
ghost use Rattle.pap_reader.specs.private.ReaderViews.{ShowsPlan};

use pap_tree::{Kind, Name};
use std::alloc::Global;

/// A declared name.
#[derive(Drop)]
pub struct RawDeclared {
    /// The text of the attribute `name`.
    pub name: Name,
    /// `int`, `long`, `BigDecimal` or `double` of an INPUT and an INTERNAL; the first three of an OUTPUT; these or
    /// `BigDecimal[]` of a CONSTANT.
    pub kind: Kind,
    /// The text of the attribute `default`, where there is one, and of the attribute `value` of a CONSTANT, which always
    /// has it. Escapes stand decoded.
    pub value: Option<Vec<u8>>,
}

/// A statement.
#[derive(Drop)]
pub enum RawStmt {
    /// EVAL, with the text of its assignment.
    Eval {
        exec: Vec<u8>,
    },
    /// IF, with the text of its test and the statements of THEN and of ELSE; none where there is no ELSE.
    If {
        test: Vec<u8>,
        yes: Vec<RawStmt>,
        no: Vec<RawStmt>,
    },
    /// EXECUTE, with the name of its method.
    Execute {
        method: Name,
    },
}

/// A method other than MAIN.
#[derive(Drop)]
pub struct RawMethod {
    /// The text of the attribute `name`.
    pub name: Name,
    /// Its statements.
    pub body: Vec<RawStmt>,
}

/// What is written in a plan's file, in the order of the text: at most 256 inputs, 256 outputs, 1,024 internals, 512
/// constants, 256 methods and 20,000 statements, with at most 32 IFs in one another.
#[derive(Drop)]
pub struct Elements {
    /// Its INPUTs.
    pub inputs: Vec<RawDeclared>,
    /// Its OUTPUTs.
    pub outputs: Vec<RawDeclared>,
    /// Its INTERNALs.
    pub internals: Vec<RawDeclared>,
    /// Its CONSTANTs.
    pub constants: Vec<RawDeclared>,
    /// The statements of MAIN.
    pub main: Vec<RawStmt>,
    /// Its METHODs.
    pub methods: Vec<RawMethod>,
}

impl Elements {
    /// Nothing is written.
    pub(crate) fn empty(alloc: Global) -> Elements
        ensures { ShowsPlan result nothing }
    {
        Elements {
            inputs: Vec::new(alloc),
            outputs: Vec::new(alloc),
            internals: Vec::new(alloc),
            constants: Vec::new(alloc),
            main: Vec::new(alloc),
            methods: Vec::new(alloc),
        }
    }
}
