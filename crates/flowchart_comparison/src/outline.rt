//! A flowchart as lists of texts.
ghost use Rattle.std.specs.Prelude.{◌≡◌, ◌∷◌, ◌++◌, codes, IfOk, OnOk, map};
ghost use Rattle.std.specs.Option.{option_map};
ghost use Rattle.pap_tree.specs.Declarations.{declaration_of, declared_of};
ghost use Rattle.pap_tree.specs.Flowchart.{body_of, routine_of, flowchart_of};
ghost use Rattle.pap_tree.specs.Names.{main_name};
ghost use Rattle.scaled_decimal.specs.Decimals.{decimal};
ghost use Rattle.scaled_decimal.specs.PlainTexts.{plain_text};
ghost use Rattle.flowchart_comparison.specs.Outlines.{kind_word, items_text, literal_text, value_text, declared_item, declared_items, lined, lined_methods, outline_of};

use crate::statements::method_lines;
use crate::{Item, Line};
use pap_tree::{Declared, Kind, Literal, Method, Name, PlanText, Stmt};
use scaled_decimal::{Dec, write_dec};
use std::alloc::{AllocError, Global};
use std::marker::Model;

/// A method as its lines.
#[derive(Drop)]
pub struct MethodOutline {
    name: Name,
    lines: Vec<Line>,
}

impl Model for MethodOutline {
    ghost use Rattle.flowchart_comparison.specs.Outlines.{LinedMethod};

    ghost Value = { LinedMethod };

    ghost view = { λ m. record { name = m.name; lines = m.lines.items } };
}

impl MethodOutline {
    /// The method's name.
    pub fn name(&self) -> Name
        ensures { result ≡ self.now.name }
    {
        self.name
    }

    /// The bytes of its name.
    pub fn name_bytes(&self) -> &[u8]
        ensures { result.now ≡ self.now.name }
    {
        self.name.bytes()
    }

    /// The lines of its statements, in the order of the text.
    pub fn lines(&self) -> &[Line]
        ensures { result.now ≡ self.now.lines }
    {
        &self.lines
    }
}

/// A flowchart as lists of texts.
#[derive(Drop)]
pub struct Outline {
    declarations: Vec<Item>,
    methods: Vec<MethodOutline>,
}

impl Model for Outline {
    ghost use Rattle.flowchart_comparison.specs.Outlines.{TextOutline};

    ghost Value = { TextOutline };

    ghost view = { λ o. record { declarations = o.declarations.items; methods = o.methods.items } };
}

impl Outline {
    /// The declarations: inputs, outputs, internals, constants, each in the order of the text.
    pub fn declarations(&self) -> &[Item]
        ensures { result.now ≡ self.now.declarations }
    {
        &self.declarations
    }

    /// The methods, MAIN first.
    pub fn methods(&self) -> &[MethodOutline]
        ensures { result.now ≡ self.now.methods }
    {
        &self.methods
    }
}

/// A flowchart as lists of texts. Fails only for lack of memory.
pub fn read_outline(alloc: Global, plan: &PlanText) -> Result<Outline, AllocError>
    ensures { IfOk result (λ outline. outline ≡ outline_of (flowchart_of plan.now)) }
{
    let declarations = read_items(alloc, plan)?;
    let methods = outline_methods(alloc, &plan.main, &plan.methods)?;
    Ok(Outline {
        declarations,
        methods,
    })
}

/// All declarations, in the order of their groups.
fn read_items(alloc: Global, plan: &PlanText) -> Result<Vec<Item>, AllocError>
    ensures { IfOk result (λ items. items.items ≡ declared_items (flowchart_of plan.now)) }
{
    let mut items = Vec::new(alloc);
    push_items(alloc, &mut items, "INPUT", &plan.inputs)?;
    push_items(alloc, &mut items, "OUTPUT", &plan.outputs)?;
    push_items(alloc, &mut items, "INTERNAL", &plan.internals)?;
    push_items(alloc, &mut items, "CONSTANT", &plan.constants)?;
    Ok(items)
}

/// Appends the declarations of a group.
fn push_items(
    alloc: Global,
    items: &mut Vec<Item>,
    group: &str,
    declared: &[Declared],
) -> Result<(), AllocError>
    ensures { OnOk result (items.new.items ≡ items.old.items
        ++ map (declared_item group.now) (map declaration_of declared.now)) }
{
    for declaration in declared {
        items.push(read_item(alloc, group, declaration)?)?;
    }
    Ok(())
}

/// A declaration of a group.
fn read_item(alloc: Global, group: &str, declared: &Declared) -> Result<Item, AllocError>
    ensures { IfOk result (λ item. item ≡ declared_item group.now (declaration_of declared.now)) }
{
    let mut text = Vec::from_slice(alloc, group.as_bytes())?;
    text.extend_from_slice(b" ")?;
    text.extend_from_slice(kind_word(declared.kind))?;
    push_value(alloc, &mut text, &declared.value)?;
    Ok(Item::new(declared.name, text))
}

/// Appends the value of a declaration, where one is written.
fn push_value(alloc: Global, text: &mut Vec<u8>, value: &Option<Literal>) -> Result<(), AllocError>
    ensures { OnOk result (text.new.items
        ≡ text.old.items ++ value_text (option_map declared_of value.now)) }
{
    match value {
        None => Ok(()),
        Some(literal) => {
            text.extend_from_slice(b" =")?;
            push_literal(alloc, text, literal)
        }
    }
}

/// The word for a type.
fn kind_word(kind: Kind) -> &'static [u8]
    ensures { result.now ≡ kind_word kind }
{
    match kind {
        Kind::Int => b"int",
        Kind::Long => b"long",
        Kind::Big => b"BigDecimal",
        Kind::Factor => b"double",
        Kind::Table => b"BigDecimal[]",
    }
}

/// Appends a literal, behind a space.
fn push_literal(alloc: Global, text: &mut Vec<u8>, literal: &Literal) -> Result<(), AllocError>
    ensures { OnOk result (text.new.items
        ≡ text.old.items ++ literal_text (declared_of literal.now)) }
{
    match literal {
        Literal::Int(number) => push_number(alloc, text, Dec::new(i128::from(*number), 0)),
        Literal::Long(number) => push_long(alloc, text, *number),
        Literal::Point(number) | Literal::Big(number) => push_number(alloc, text, *number),
        Literal::Table(items) => push_table(alloc, text, items),
    }
}

/// Appends a number of `long`, behind a space.
fn push_long(alloc: Global, text: &mut Vec<u8>, number: i64) -> Result<(), AllocError>
    ensures { OnOk result (text.new.items
        ≡ text.old.items ++ (codes " " ++ (plain_text (decimal number 0) ++ codes "L"))) }
{
    push_number(alloc, text, Dec::new(i128::from(number), 0))?;
    text.extend_from_slice(b"L")
}

/// Appends a number, behind a space.
fn push_number(alloc: Global, text: &mut Vec<u8>, number: Dec) -> Result<(), AllocError>
    ensures { OnOk result (text.new.items
        ≡ text.old.items ++ (codes " " ++ plain_text number)) }
{
    text.extend_from_slice(b" ")?;
    write_dec(alloc, number, text)
}

/// Appends the items of a table, each behind a space.
fn push_table(alloc: Global, text: &mut Vec<u8>, items: &[Dec]) -> Result<(), AllocError>
    ensures { OnOk result (text.new.items ≡ text.old.items ++ items_text items.now) }
{
    for item in items {
        push_number(alloc, text, *item)?;
    }
    Ok(())
}

/// The methods, MAIN first.
fn outline_methods(
    alloc: Global,
    main: &[Stmt],
    others: &[Method],
) -> Result<Vec<MethodOutline>, AllocError>
    ensures { IfOk result (λ methods. methods.items
        ≡ lined main_name (body_of main.now)
        ∷ map (λ m. lined m.name m.body) (map routine_of others.now)) }
{
    let mut methods = Vec::new(alloc);
    methods.push(outline_method(alloc, Name::main(), main)?)?;
    for method in others {
        methods.push(outline_method(alloc, method.name, &method.body)?)?;
    }
    Ok(methods)
}

/// A method with its lines.
fn outline_method(alloc: Global, name: Name, body: &[Stmt]) -> Result<MethodOutline, AllocError>
    ensures { IfOk result (λ m. m ≡ lined name (body_of body.now)) }
{
    let lines = method_lines(alloc, body)?;
    Ok(MethodOutline { name, lines })
}
