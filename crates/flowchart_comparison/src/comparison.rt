//! The comparison of two flowcharts.
ghost use Rattle.std.specs.Prelude.{◌≡◌, IfOk, map, All};
ghost use Rattle.flowchart_comparison.specs.Comparisons.{IsComparison, AreLinesTold, item_names, item_texts, lined_names, line_texts, texts_in, lines_text, method_text, is_same, is_kept, method_name, differs};
ghost use Rattle.flowchart_comparison.specs.Entries.{IsPairing, PairsNames};
ghost use Rattle.std.specs.List.{list_all};

use crate::alignment::align;
use crate::pairing::pair_up;
use crate::proposals::{same_names, same_names_or_texts};
use crate::{Entry, Item, Line, MethodOutline, Outline};
use std::alloc::{AllocError, Global};
use std::marker::Model;

/// A method with what is told of its lines.
#[derive(Drop)]
pub struct MethodComparison {
    /// The method, by its places among the methods of both flowcharts. It is the same where all its lines are, whatever its name.
    pub method: Entry,
    /// Its lines, by their places in the method of either flowchart.
    pub lines: Vec<Entry>,
}

impl Model for MethodComparison {
    ghost use Rattle.flowchart_comparison.specs.Comparisons.{ComparedMethod};

    ghost Value = { ComparedMethod };

    ghost view = { λ m. record { method = m.method; lines = m.lines.items } };
}

/// What is told of two flowcharts.
#[derive(Drop)]
pub struct Comparison {
    /// The declarations, in the order of the new flowchart, then those that are gone.
    pub declarations: Vec<Entry>,
    /// The methods, in the order of the new flowchart, then those that are gone.
    pub methods: Vec<MethodComparison>,
}

impl Model for Comparison {
    ghost use Rattle.flowchart_comparison.specs.Comparisons.{TextComparison};

    ghost Value = { TextComparison };

    ghost view = { λ c. record { declarations = c.declarations.items; methods = c.methods.items } };
}

/// Compares two flowcharts: declarations are paired by their names; methods by their names too, and a method of a new name with a
/// gone one of the same lines; the lines of paired methods are aligned, and what both begin with is the same. Takes time nearly linear
/// in the statements. Fails only for lack of memory.
pub fn compare(alloc: Global, old: &Outline, new: &Outline) -> Result<Comparison, AllocError>
    ensures { IfOk result (λ c. IsComparison old.now new.now c) }
{
    let old_items = old.declarations();
    let new_items = new.declarations();
    let declarations = pair_items(alloc, old_items, new_items)?;
    let old_methods = old.methods();
    let new_methods = new.methods();
    let pairs = pair_methods(alloc, old_methods, new_methods)?;
    let methods = compare_methods(alloc, old_methods, new_methods, &pairs)?;
    Ok(Comparison {
        declarations,
        methods,
    })
}

/// The pairs of declarations.
fn pair_items(alloc: Global, old: &[Item], new: &[Item]) -> Result<Vec<Entry>, AllocError>
    ensures paired { IfOk result (λ pairs.
        IsPairing (item_texts old.now) (item_texts new.now) pairs.items) }
    ensures by_name { IfOk result (λ pairs.
        PairsNames (item_names old.now) (item_names new.now) pairs.items) }
{
    let proposed = same_names(alloc, old, new)?;
    pair_up(alloc, old, new, &proposed)
}

/// The pairs of items by their names or their texts.
fn pair_texts(alloc: Global, old: &[Item], new: &[Item]) -> Result<Vec<Entry>, AllocError>
    ensures paired { IfOk result (λ pairs.
        IsPairing (item_texts old.now) (item_texts new.now) pairs.items) }
    ensures by_name { IfOk result (λ pairs.
        PairsNames (item_names old.now) (item_names new.now) pairs.items) }
{
    let proposed = same_names_or_texts(alloc, old, new)?;
    pair_up(alloc, old, new, &proposed)
}

/// The pairs of methods.
fn pair_methods(
    alloc: Global,
    old: &[MethodOutline],
    new: &[MethodOutline],
) -> Result<Vec<Entry>, AllocError>
    ensures paired { IfOk result (λ pairs.
        IsPairing (map method_text old.now) (map method_text new.now) pairs.items) }
    ensures by_name { IfOk result (λ pairs.
        PairsNames (lined_names old.now) (lined_names new.now) pairs.items) }
{
    let old = whole_texts(alloc, old)?;
    let new = whole_texts(alloc, new)?;
    pair_texts(alloc, &old, &new)
}

/// The methods, each with its whole text.
fn whole_texts(alloc: Global, methods: &[MethodOutline]) -> Result<Vec<Item>, AllocError>
    ensures texts { IfOk result (λ items. item_texts items.items ≡ map method_text methods.now) }
    ensures names { IfOk result (λ items. item_names items.items ≡ lined_names methods.now) }
{
    let mut items = Vec::with_capacity(alloc, methods.len())?;
    for method in methods {
        let text = lines_text(alloc, method.lines())?;
        items.push(Item::new(method.name(), text))?;
    }
    Ok(items)
}

/// Lines one below the other.
fn lines_text(alloc: Global, lines: &[Line]) -> Result<Vec<u8>, AllocError>
    ensures { IfOk result (λ text. text.items ≡ lines_text lines.now) }
{
    let mut text = Vec::new(alloc);
    for line in lines {
        text.extend_from_slice(line.text())?;
        text.extend_from_slice(b"\n")?;
    }
    Ok(text)
}

/// The methods of some pairs, with what is told of their lines.
fn compare_methods(
    alloc: Global,
    old: &[MethodOutline],
    new: &[MethodOutline],
    pairs: &[Entry],
) -> Result<Vec<MethodComparison>, AllocError>
    ensures methods { IfOk result (λ methods. map (λ m. m.method) methods.items ≡ pairs.now) }
    ensures lines { IfOk result (λ methods.
        All (λ m. AreLinesTold old.now new.now m.method m.lines) methods.items) }
{
    let mut methods = Vec::with_capacity(alloc, pairs.len())?;
    for pair in pairs {
        methods.push(compare_method(alloc, old, new, *pair)?)?;
    }
    Ok(methods)
}

/// A method with what is told of its lines.
fn compare_method(
    alloc: Global,
    old: &[MethodOutline],
    new: &[MethodOutline],
    pair: Entry,
) -> Result<MethodComparison, AllocError>
    ensures method { IfOk result (λ m. m.method ≡ pair) }
    ensures lines { IfOk result (λ m. AreLinesTold old.now new.now pair m.lines) }
{
    let old_lines = lines_at(old, pair.old_place());
    let new_lines = lines_at(new, pair.new_place());
    let lines = align(alloc, old_lines, new_lines)?;
    Ok(MethodComparison {
        method: pair,
        lines,
    })
}

/// The lines of the method at a place, where there is one.
fn lines_at(methods: &[MethodOutline], place: Option<usize>) -> &[Line]
    ensures { line_texts result.now ≡ texts_in methods.now place }
{
    let Some(place) = place else {
        return &[];
    };
    if place < methods.len() {
        methods[place].lines()
    } else {
        &[]
    }
}

/// Whether something differs: a declaration or a method isn't the same, or a method has another name.
pub fn differs(old: &Outline, new: &Outline, comparison: &Comparison) -> bool
    ensures { result ≡ differs old.now new.now comparison.now }
{
    let same = all_same(&comparison.declarations);
    let kept = all_kept(old.methods(), new.methods(), &comparison.methods);
    !(same && kept)
}

/// Whether all entries are those of texts that are the same.
fn all_same(entries: &[Entry]) -> bool
    ensures { result ≡ list_all is_same entries.now }
{
    entries.iter().all(|entry| is_same(*entry))
}

/// Whether an entry is that of a text that is the same.
fn is_same(entry: Entry) -> bool
    ensures { result ≡ is_same entry }
{
    matches!(entry, Entry::Same(..))
}

/// Whether all methods are the same, each with its old name.
fn all_kept(old: &[MethodOutline], new: &[MethodOutline], methods: &[MethodComparison]) -> bool
    ensures { result ≡ list_all (λ m. is_kept old.now new.now m.method) methods.now }
{
    methods
        .iter()
        .all(|method| is_kept(old, new, method.method))
}

/// Whether a method is the same, and has its old name.
fn is_kept(old: &[MethodOutline], new: &[MethodOutline], entry: Entry) -> bool
    ensures { result ≡ is_kept old.now new.now entry }
{
    let Entry::Same(before, after) = entry else {
        return false;
    };
    method_name(old, before) == method_name(new, after)
}

/// The name of the method at a place, and nothing where there is none.
fn method_name(methods: &[MethodOutline], place: usize) -> &[u8]
    ensures { result.now ≡ method_name methods.now place }
{
    if place < methods.len() {
        methods[place].name_bytes()
    } else {
        &[]
    }
}
