//! The items of a flowchart.
ghost use Rattle.std.specs.Prelude.{◌≡◌, ◌++◌, IfOk, OnOk, option_map, slice_get, string_bytes};
ghost use Rattle.pap_tree.specs.Flowchart.{flowchart_of};
ghost use Rattle.run_trace.specs.StepLines.{answer_words};
ghost use Rattle.coverage_text.specs.FlowchartItems.{known_in, form_words, statement_words, exit_runs, statement_item, exit_item, exit_items, counted_site, site_items};
ghost use Rattle.coverage_text.specs.FlowchartItems.{body_items, covered_methods, all_names, flowchart_items};
ghost use Rattle.coverage_text.specs.private.SiteViews.{known_of, site_of, sites_of, counted_items, counted_method};

use crate::item::{ExitRuns, Item, MethodItems};
use crate::sites::{Known, MethodSites, Site};
use pap_tree::{Name, PlanText};
use run_coverage::{MethodRuns, StatementRuns};
use statement_list::{Form, ListedMethod, ListedStatement, list_statements};
use std::alloc::{AllocError, Global};

/// The statements and exits of a flowchart by method, each with how many runs came there. Takes time linear in the flowchart, with a
/// factor logarithmic in its statements at each of them. Fails only for lack of memory.
pub fn flowchart_items(
    alloc: Global,
    plan: &PlanText,
    known: Known<'_>,
    runs: &[MethodRuns],
) -> Result<Vec<MethodItems>, AllocError>
    ensures { IfOk result (λ methods. methods.items
        ≡ flowchart_items (flowchart_of plan.now) (known_in known.entry) runs.now) }
{
    let names = all_names(alloc, plan)?;
    let listed = list_statements(alloc, plan)?;
    cover_methods(alloc, known, &names, &listed, runs)
}

/// The names of the methods, MAIN first.
fn all_names(alloc: Global, plan: &PlanText) -> Result<Vec<Name>, AllocError>
    ensures { IfOk result (λ names. names.items ≡ all_names (flowchart_of plan.now)) }
{
    let methods = plan.methods.as_slice();
    let mut names = Vec::with_capacity(alloc, methods.len() + 1)?;
    names.push(Name::main())?;
    for method in methods {
        names.push(method.name)?;
    }
    Ok(names)
}

/// Methods of these names with the items of their statements.
fn cover_methods(
    alloc: Global,
    known: Known<'_>,
    names: &[Name],
    listed: &[ListedMethod],
    runs: &[MethodRuns],
) -> Result<Vec<MethodItems>, AllocError>
    ensures { IfOk result (λ methods. methods.items
        ≡ covered_methods (known_in known.entry) 0 names.now listed.now runs.now) }
{
    let mut methods = Vec::with_capacity(alloc, names.len())?;
    for (number, name) in names.iter().enumerate() {
        let sites = MethodSites {
            lines: known.lines,
            reached: known.reached,
            number,
        };
        add_method(
            alloc,
            &mut methods,
            sites,
            name,
            listed_at(listed, number),
            method_runs_at(runs, number),
        )?;
    }
    Ok(methods)
}

/// The statements of the method of a number, where there is one.
fn listed_at(listed: &[ListedMethod], number: usize) -> Option<&ListedMethod>
    ensures { option_map (λ m. m.now) result ≡ slice_get listed.now number }
{
    listed.get(number)
}

/// The runs of the method of a number, where they are known.
fn method_runs_at(runs: &[MethodRuns], number: usize) -> Option<&MethodRuns>
    ensures { option_map (λ m. m.now) result ≡ slice_get runs.now number }
{
    runs.get(number)
}

/// The runs of the statement of a number, where they are known.
fn runs_at(runs: &[StatementRuns], number: usize) -> Option<&StatementRuns>
    ensures { option_map (λ r. r.now) result ≡ slice_get runs.now number }
{
    runs.get(number)
}

/// Appends a method with the items of its statements, where they and their runs are known.
fn add_method(
    alloc: Global,
    methods: &mut Vec<MethodItems>,
    sites: MethodSites<'_>,
    name: &Name,
    listed: Option<&ListedMethod>,
    runs: Option<&MethodRuns>,
) -> Result<(), AllocError>
    ensures { OnOk result (methods.new.items ≡ methods.old.items
        ++ counted_method (known_of sites.entry) sites.entry.number name.now
        (option_map (λ m. m.now) listed.entry) (option_map (λ m. m.now) runs.entry)) }
{
    let Some(listed) = listed else {
        return Ok(());
    };
    let Some(runs) = runs else {
        return Ok(());
    };
    let items = cover_statements(alloc, sites, name, listed.statements(), runs.statements())?;
    methods.push(MethodItems { name: *name, items })?;
    Ok(())
}

/// The items of a method's statements.
fn cover_statements(
    alloc: Global,
    sites: MethodSites<'_>,
    name: &Name,
    statements: &[ListedStatement],
    runs: &[StatementRuns],
) -> Result<Vec<Item>, AllocError>
    ensures { IfOk result (λ items. items.items
        ≡ body_items (sites_of sites.entry name.now) 0 statements.now runs.now) }
{
    let mut items = Vec::with_capacity(alloc, statements.len())?;
    for (at, statement) in statements.iter().enumerate() {
        let site = sites.site(name, at)?;
        add_counted(alloc, &mut items, &site, statement, runs_at(runs, at))?;
    }
    Ok(items)
}

/// Appends the items of a statement, where its runs are known.
fn add_counted(
    alloc: Global,
    items: &mut Vec<Item>,
    site: &Site,
    statement: &ListedStatement,
    runs: Option<&StatementRuns>,
) -> Result<(), AllocError>
    ensures { OnOk result (items.new.items ≡ items.old.items
        ++ counted_items (site_of site.now) statement.now (option_map (λ r. r.now) runs.entry)) }
{
    match runs {
        Some(runs) => add_items(alloc, items, site, statement, runs),
        None => Ok(()),
    }
}

/// Appends the items of a statement.
fn add_items(
    alloc: Global,
    items: &mut Vec<Item>,
    site: &Site,
    statement: &ListedStatement,
    runs: &StatementRuns,
) -> Result<(), AllocError>
    ensures { OnOk result (items.new.items
        ≡ items.old.items ++ site_items (site_of site.now) statement.now runs.now) }
{
    let exits = exit_runs(statement.form(), site, runs);
    add_site(alloc, items, site, statement, runs.runs, exits)
}

/// Appends the items of a statement to which so many runs came, and of whose exits so many took each.
fn add_site(
    alloc: Global,
    items: &mut Vec<Item>,
    site: &Site,
    statement: &ListedStatement,
    runs: u64,
    exits: Option<ExitRuns>,
) -> Result<(), AllocError>
    ensures { OnOk result (items.new.items
        ≡ items.old.items ++ counted_site (site_of site.now) statement.now runs exits) }
{
    items.push(statement_item(alloc, site, statement, runs, exits)?)?;
    add_exits(alloc, items, site, statement, exits)
}

/// How many of a statement's runs took its exits, where it is a test to which a run may come.
fn exit_runs(form: Form, site: &Site, runs: &StatementRuns) -> Option<ExitRuns>
    ensures { result ≡ exit_runs form (site_of site.now) runs.now }
{
    match form {
        Form::Test if site.is_reachable => Some(ExitRuns {
            yes: runs.yes,
            no: runs.no,
        }),
        Form::Test | Form::Set(_) | Form::Enter(_) => None,
    }
}

/// Appends the items of a test's exits.
fn add_exits(
    alloc: Global,
    items: &mut Vec<Item>,
    site: &Site,
    test: &ListedStatement,
    exits: Option<ExitRuns>,
) -> Result<(), AllocError>
    ensures { OnOk result (items.new.items ≡ items.old.items
        ++ exit_items (site_of site.now) test.now exits) }
{
    if let Some(exits) = exits {
        items.push(exit_item(alloc, site, test, true, exits.yes)?)?;
        items.push(exit_item(alloc, site, test, false, exits.no)?)?;
    }
    Ok(())
}

/// The item of a statement.
fn statement_item(
    alloc: Global,
    site: &Site,
    statement: &ListedStatement,
    runs: u64,
    exits: Option<ExitRuns>,
) -> Result<Item, AllocError>
    ensures { IfOk result (λ item.
        item ≡ statement_item (site_of site.now) statement.now runs exits) }
{
    Ok(Item {
        statement: site.statement,
        words: statement_words(alloc, site, statement, b"")?,
        is_exit: false,
        is_reachable: site.is_reachable,
        runs,
        exits,
    })
}

/// The item of an exit of a test.
fn exit_item(
    alloc: Global,
    site: &Site,
    test: &ListedStatement,
    yes: bool,
    runs: u64,
) -> Result<Item, AllocError>
    ensures { IfOk result (λ item. item ≡ exit_item (site_of site.now) test.now yes runs) }
{
    Ok(Item {
        statement: site.statement,
        words: statement_words(alloc, site, test, answer_words(yes))?,
        is_exit: true,
        is_reachable: true,
        runs,
        exits: None,
    })
}

/// How a test is answered.
fn answer_words(yes: bool) -> &'static [u8]
    ensures { result.now ≡ answer_words yes }
{
    if yes { b" -> yes" } else { b" -> no" }
}

/// A statement at its place, with what is told behind it.
fn statement_words(
    alloc: Global,
    site: &Site,
    statement: &ListedStatement,
    behind: &[u8],
) -> Result<Vec<u8>, AllocError>
    ensures { IfOk result (λ words. words.items
        ≡ statement_words (site_of site.now) statement.now behind.now) }
{
    let mut words = site.words(alloc)?.into_bytes();
    let form = form_words(alloc, statement.form())?;
    words.extend_from_slice(form.as_bytes())?;
    words.extend_from_slice(statement.text())?;
    words.extend_from_slice(behind)?;
    Ok(words)
}

/// What stands before the expression of a statement.
fn form_words(alloc: Global, form: Form) -> Result<String, AllocError>
    ensures { IfOk result (λ words. string_bytes words ≡ form_words form) }
{
    match form {
        Form::Set(name) => format!(in alloc; "set {name} by "),
        Form::Test => Ok(String::new(alloc)),
        Form::Enter(name) => format!(in alloc; "execute {name}"),
    }
}
