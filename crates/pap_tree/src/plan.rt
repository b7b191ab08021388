//! The statements of a plan, and the plan as it is written.

use crate::{Declared, Expr, Name};

/// A statement of the flowchart.
#[derive(Drop)]
pub enum Stmt {
    /// Gives the target the expression's value.
    Eval {
        target: Name,
        value: Expr,
    },
    /// The first list where the test holds, else the second.
    If {
        test: Expr,
        yes: Vec<Stmt>,
        no: Vec<Stmt>,
    },
    /// The body of a method.
    Execute {
        method: Name,
    },
}

/// A method other than MAIN.
#[derive(Drop)]
pub struct Method {
    /// Its name.
    pub name: Name,
    /// Its statements.
    pub body: Vec<Stmt>,
}

/// A plan as it is written: its declarations and methods in the order of the text.
#[derive(Drop)]
pub struct PlanText {
    /// The variables that a run is given.
    pub inputs: Vec<Declared>,
    /// The variables that a run answers.
    pub outputs: Vec<Declared>,
    /// The other variables.
    pub internals: Vec<Declared>,
    /// The constants.
    pub constants: Vec<Declared>,
    /// The statements of MAIN.
    pub main: Vec<Stmt>,
    /// The methods other than MAIN.
    pub methods: Vec<Method>,
}
