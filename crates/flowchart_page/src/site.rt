//! What a refusal names.
ghost use Rattle.std.specs.Prelude.{◌≡◌};
ghost use Rattle.pap_reader.specs.Trees.{tree_of};
ghost use Rattle.flowchart_page.specs.Sites.{named_by, named_by_spot, named_by_types, named_by_key};
ghost use Rattle.flowchart_page.specs.private.Sites.{has_row, has_method, site_of_name, site_of};
ghost use Rattle.flowchart_methods.specs.Sites.{named_statement};
ghost use Rattle.flowchart_page.specs.Findings.{marked};
ghost use Rattle.flowchart_page.specs.Judged.{finding_of};
ghost use Rattle.flowchart_page.specs.private.SiteViews.{site_shown, declares, names_method};

use crate::verdict::Verdict;
use call_order::OrderFault;
use flowchart_methods::Site;
use interval_analysis::RangeFault;
use limits_file::{Label, LimitsFault};
use pap_plan::{PlanRefusal, Spot};
use pap_reader::{Elements, RawDeclared, RawMethod};
use pap_tree::Name;
use pap_types::TypeFault;

/// What the page shows of a verdict: where a plan is refused what that names.
#[tactic(auto, using(crate::proofs::SiteLemmas::named_on))]
pub(crate) fn site_shown(elements: &Elements, verdict: &Verdict) -> Site
    ensures site { result ≡ site_shown (tree_of elements.now) (finding_of verdict.now) }
    ensures statement { named_statement result ≡ marked (finding_of verdict.now) }
{
    match verdict {
        Verdict::Refused(reason) => site_of(elements, &reason.refusal),
        Verdict::Accepted(_) | Verdict::InOrder => Site::Nowhere,
    }
}

/// What a refusal names, where the page has it.
fn site_of(elements: &Elements, refusal: &PlanRefusal) -> Site
    ensures { result ≡ site_of (tree_of elements.now) refusal.now }
{
    match named_by(refusal) {
        Site::Declared(name) => site_of_name(elements, &name),
        site => site,
    }
}

/// Where a name stands: among the declared names, or else as a method's.
fn site_of_name(elements: &Elements, name: &Name) -> Site
    ensures { result ≡ site_of_name (tree_of elements.now) name.now }
{
    if has_row(elements, name) {
        Site::Declared(*name)
    } else if has_method(elements, name) {
        Site::Method(*name)
    } else {
        Site::Nowhere
    }
}

/// What a refusal names.
fn named_by(refusal: &PlanRefusal) -> Site
    ensures { result ≡ named_by refusal.now }
{
    match refusal {
        PlanRefusal::Expr { spot, .. } => named_by_spot(spot),
        PlanRefusal::Types(fault) => named_by_types(fault),
        PlanRefusal::Order(OrderFault::Cycle { method } | OrderFault::Chain { method }) => {
            Site::Method(*method)
        }
        PlanRefusal::Limits(LimitsFault::Key { name } | LimitsFault::Bound { name }) => {
            named_by_key(name)
        }
        PlanRefusal::LimitName { name }
        | PlanRefusal::LimitKind { name }
        | PlanRefusal::Bind { name }
        | PlanRefusal::Range(RangeFault::Output { name }) => Site::Declared(*name),
        PlanRefusal::Range(RangeFault::At { place, .. }) => Site::Statement {
            method: place.method,
            number: place.stmt,
        },
        _ => Site::Nowhere,
    }
}

/// What the spot of a refused text names.
fn named_by_spot(spot: &Spot) -> Site
    ensures { result ≡ named_by_spot spot.now }
{
    match spot {
        Spot::Statement { method, stmt } => Site::Statement {
            method: *method,
            number: *stmt,
        },
        Spot::Declared { name } => Site::Declared(*name),
    }
}

/// What a fault of names and types names.
fn named_by_types(fault: &TypeFault) -> Site
    ensures { result ≡ named_by_types fault.now }
{
    match fault {
        TypeFault::Twice { name } | TypeFault::Value { name } => Site::Declared(*name),
        TypeFault::Unknown { place, .. }
        | TypeFault::Kind { place }
        | TypeFault::ConstantWritten { place }
        | TypeFault::NoMethod { place } => Site::Statement {
            method: place.method,
            number: place.stmt,
        },
        TypeFault::Memory(_) => Site::Nowhere,
    }
}

/// What a key of a range file names: an input, where it has the form of a name.
#[tactic(auto, using(crate::proofs::SiteLemmas::key_is, crate::proofs::SiteLemmas::key_is_none))]
fn named_by_key(key: &Label) -> Site
    ensures { result ≡ named_by_key key.now }
{
    match Name::read(key.as_str().as_bytes()) {
        Some(name) => Site::Declared(name),
        None => Site::Nowhere,
    }
}

/// Whether a name has a row in the table of declarations.
#[tactic(auto, using(crate::proofs::SiteLemmas::declares_among))]
fn has_row(elements: &Elements, name: &Name) -> bool
    ensures { result ≡ has_row (tree_of elements.now) name.now }
{
    declares(&elements.inputs, name)
        || declares(&elements.outputs, name)
        || declares(&elements.internals, name)
        || declares(&elements.constants, name)
}

/// Whether a name is among declared ones.
fn declares(group: &[RawDeclared], name: &Name) -> bool
    ensures { result ≡ declares group.now name.now }
{
    group.iter().any(|declared| *name == declared.name)
}

/// Whether there is a method of a name.
#[tactic(auto, using(crate::proofs::SiteLemmas::method_among))]
fn has_method(elements: &Elements, name: &Name) -> bool
    ensures { result ≡ has_method (tree_of elements.now) name.now }
{
    *name == Name::main() || names_method(&elements.methods, name)
}

/// Whether a name is among those of methods.
fn names_method(methods: &[RawMethod], name: &Name) -> bool
    ensures { result ≡ names_method methods.now name.now }
{
    methods.iter().any(|method| *name == method.name)
}
