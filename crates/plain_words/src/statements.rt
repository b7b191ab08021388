//! The statements of a plan by their numbers.
use pap_reader::RawStmt;

/// What came of a search for the statement of a number: the statement, or how many numbers are left behind those that were
/// passed.
enum Search<'a> {
    Found(&'a RawStmt),
    Left(u32),
}

/// The statement of a number in a list and in the statements inside it, an IF before its THEN and this before its ELSE.
pub(crate) fn statement_in(body: &[RawStmt], number: u32) -> Option<&RawStmt> {
    match search_body(body, number) {
        Search::Found(statement) => Some(statement),
        Search::Left(_) => None,
    }
}

#[cycle(search_body)]
fn search_body(body: &[RawStmt], number: u32) -> Search<'_> {
    let mut left = number;
    for statement in body {
        match search_statement(statement, left) {
            Search::Left(behind) => left = behind,
            found => return found,
        }
    }
    Search::Left(left)
}

#[cycle(search_body)]
fn search_statement(statement: &RawStmt, number: u32) -> Search<'_> {
    if number == 0 {
        return Search::Found(statement);
    }
    match statement {
        RawStmt::Eval { .. } | RawStmt::Execute { .. } => Search::Left(number - 1),
        RawStmt::If { yes, no, .. } => match search_body(yes, number - 1) {
            Search::Left(left) => search_body(no, left),
            found => found,
        },
    }
}

/// The text of a statement: its assignment, its test or the name of its method.
pub(crate) fn statement_text(statement: &RawStmt) -> &[u8] {
    match statement {
        RawStmt::Eval { exec } => exec,
        RawStmt::If { test, .. } => test,
        RawStmt::Execute { method } => method.bytes(),
    }
}
