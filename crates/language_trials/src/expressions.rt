//! The texts of expressions: what they stand for, by its canonical spelling.
use pap_expr::{
    Stretch, parse_assign, parse_assign_placed, parse_constant, parse_expr, parse_expr_placed,
};
use pap_tree::{Expr, Literal, print_expr};
use std::str::from_utf8;
use std::test::Fail;
use trial_rows::all_rows;

/// Tests with their canonical spelling.
const SPELLINGS: &str = r#"A => A
A.add( B ) => A.add(B)
A.subtract(B).multiply(C) => A.subtract(B).multiply(C)
A.compareTo(B) == -1 => A.compareTo(B) == -1
A.min(B).max(C) => A.min(B).max(C)
-5.add(x) => -5.add(x)
a ? b : c ? d : e => a ? b : c ? d : e
(a ? b : c) ? d : e => (a ? b : c) ? d : e
((a)) => a
T[ 1 ] => T[1]
BigDecimal . ZERO => BigDecimal.ZERO
BigDecimal.ONE => BigDecimal.ONE
BigDecimal.TEN => BigDecimal.TEN
BigDecimal.valueOf(x, 2) => BigDecimal.valueOf(x, 2)
BigDecimal.valueOf(x) => BigDecimal.valueOf(x)
new BigDecimal("-0.40") => new BigDecimal("-0.40")
new BigDecimal( 7 ) => new BigDecimal(7)
A.divide(B) => A.divide(B)
A.divide(B,2,RoundingMode.UP) => A.divide(B, 2, BigDecimal.ROUND_UP)
A.setScale(0, RoundingMode.HALF_EVEN) => A.setScale(0, BigDecimal.ROUND_HALF_EVEN)
A.setScale(30, BigDecimal.ROUND_CEILING) => A.setScale(30, BigDecimal.ROUND_CEILING)
A.setScale(1, BigDecimal.ROUND_FLOOR) => A.setScale(1, BigDecimal.ROUND_FLOOR)
A.setScale(1, BigDecimal.ROUND_DOWN) => A.setScale(1, BigDecimal.ROUND_DOWN)
A.setScale(1, BigDecimal.ROUND_HALF_UP) => A.setScale(1, BigDecimal.ROUND_HALF_UP)
A.setScale(1, BigDecimal.ROUND_HALF_DOWN) => A.setScale(1, BigDecimal.ROUND_HALF_DOWN)
A.negate().abs() => A.negate().abs()
-x => -x
- -5 => -(-5)
- (5) => -(5)
!a && b || c => !a && b || c
a && (b || c) => a && (b || c)
a == b != c => a == b != c
a < b + c * d => a < b + c * d
a <= b >= c > d => a <= b >= c > d
a * b / c % d => a * b / c % d
a - b - c => a - b - c
a - (b - c) => a - (b - c)
12L => 12L
-9223372036854775807L => -9223372036854775807L
2147483647 => 2147483647
1.50 => 1.50
BigDecimal.valueOf(0.40) => BigDecimal.valueOf(0.40)
new BigDecimal((0.4)) => new BigDecimal((0.4))
new BigDecimal(- (0.4)) => new BigDecimal(-(0.4))
(a + b).multiply(c) => (a + b).multiply(c)"#;

/// Writes an expression's canonical spelling.
fn write_spelling(expression: &Expr, text: &mut String) -> Result<(), Fail> {
    let spelling = print_expr(*text.allocator(), expression)?;
    Ok(text.push_str(from_utf8(spelling.as_slice()).unwrap_or(""))?)
}

/// Writes the canonical spelling of a test.
fn spelled(asked: &str, text: &mut String) -> Result<(), Fail> {
    let test = parse_expr(*text.allocator(), asked.as_bytes())?;
    write_spelling(&test, text)
}

#[test]
fn texts_stand_for_their_trees(rt: HostRuntime) -> Result<(), Fail> {
    all_rows(rt.alloc(), SPELLINGS, spelled)
}

/// Assignments, and their targets and values.
const ASSIGNMENTS: &str = r#"X= RE4.subtract (FREI) => X = RE4.subtract(FREI)
 X = RE4.subtract(FREI) ;  => X = RE4.subtract(FREI)"#;

/// Writes the target and the canonical spelling of the value of an assignment.
fn assigned(asked: &str, text: &mut String) -> Result<(), Fail> {
    let (target, value) = parse_assign(*text.allocator(), asked.as_bytes())?;
    text.push_str(target.as_str())?;
    text.push_str(" = ")?;
    write_spelling(&value, text)
}

#[test]
fn assignments_name_their_target(rt: HostRuntime) -> Result<(), Fail> {
    all_rows(rt.alloc(), ASSIGNMENTS, assigned)
}

/// Tests with the bytes of their nodes, by number.
const NODES: &str = r#" ( A + B ) * C => A | B | A + B | C | ( A + B ) * C
((a)) => a
-5.add(x)  => -5 | x | -5.add(x)
- (5) => 5 | - (5)
T[ T[1] ].negate( ) => 1 | T[1] | T[ T[1] ] | T[ T[1] ].negate( )
a ? b : c ? d : e => a | b | c | d | e | c ? d : e | a ? b : c ? d : e
!a && b || c => a | !a | b | !a && b | c | !a && b || c
BigDecimal.valueOf(1, 1) => 1 | BigDecimal.valueOf(1, 1)
new BigDecimal( "1.5" ).max(BigDecimal . ZERO) => new BigDecimal( "1.5" ) | BigDecimal . ZERO | new BigDecimal( "1.5" ).max(BigDecimal . ZERO)
A.divide((B), 2, RoundingMode.UP) > C => A | B | A.divide((B), 2, RoundingMode.UP) | C | A.divide((B), 2, RoundingMode.UP) > C
A.setScale(0 , BigDecimal.ROUND_UP) => A | A.setScale(0 , BigDecimal.ROUND_UP)
a - b - c => a | b | a - b | c | a - b - c
new BigDecimal(-(0.4)) => 0.4 | -(0.4) | new BigDecimal(-(0.4))"#;

/// Writes the bytes of nodes.
fn write_nodes(asked: &str, nodes: &[Stretch], text: &mut String) -> Result<(), Fail> {
    for node in nodes {
        if !text.is_empty() {
            text.push_str(" | ")?;
        }
        text.push_str(asked.get(node.first..node.end).unwrap_or(""))?;
    }
    Ok(())
}

/// Writes the bytes of a test's nodes.
fn placed(asked: &str, text: &mut String) -> Result<(), Fail> {
    let (_, nodes) = parse_expr_placed(*text.allocator(), asked.as_bytes())?;
    write_nodes(asked, &nodes, text)
}

#[test]
fn nodes_of_tests_have_their_bytes(rt: HostRuntime) -> Result<(), Fail> {
    all_rows(rt.alloc(), NODES, placed)
}

/// Assignments with the bytes of the nodes of their values.
const VALUES: &str = r#"X= RE4.subtract (FREI) => RE4 | FREI | RE4.subtract (FREI)
 X = (A) ;  => A"#;

/// Writes the bytes of the nodes of an assignment's value.
fn placed_value(asked: &str, text: &mut String) -> Result<(), Fail> {
    let (_, _, nodes) = parse_assign_placed(*text.allocator(), asked.as_bytes())?;
    write_nodes(asked, &nodes, text)
}

#[test]
fn nodes_of_values_have_their_bytes(rt: HostRuntime) -> Result<(), Fail> {
    all_rows(rt.alloc(), VALUES, placed_value)
}

/// Declared literals, and what they are.
const DECLARED: &str = r#"-12 => Int
12L => Long
0.5 => Point
BigDecimal.valueOf (0.40) => Big
BigDecimal.valueOf(4, 2) => Big
BigDecimal.TEN => Big
new BigDecimal(-7) => Big
{BigDecimal.valueOf (0), new BigDecimal("1.50")} => Table"#;

/// What a declared literal is.
fn class(literal: &Literal) -> &'static str {
    match literal {
        Literal::Int(_) => "Int",
        Literal::Long(_) => "Long",
        Literal::Point(_) => "Point",
        Literal::Big(_) => "Big",
        Literal::Table(_) => "Table",
    }
}

/// Writes what a declared literal is.
fn declared(asked: &str, text: &mut String) -> Result<(), Fail> {
    let literal = parse_constant(*text.allocator(), asked.as_bytes())?;
    Ok(text.push_str(class(&literal))?)
}

#[test]
fn declared_literals_are_read(rt: HostRuntime) -> Result<(), Fail> {
    all_rows(rt.alloc(), DECLARED, declared)
}
