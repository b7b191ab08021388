//! The methods of a plan through which a method executes itself.
use crate::sites::Source;
use pap_reader::{RawMethod, RawStmt};
use pap_tree::Name;
use std::alloc::{AllocError, Global};
use std::collections::{BTreeMap, BTreeSet};

/// The most methods that are named beside the first.
const MOST_NAMED: usize = 8;

/// A method to which a search comes, and the step from which it comes.
#[derive(Clone, Copy)]
struct Step {
    method: Name,
    from: usize,
}

/// Appends how a method executes itself, by as few others as can be: `; A executes B, which executes A`.
pub(crate) fn write_circle(
    out: &mut String,
    source: Source<'_>,
    method: &Name,
) -> Result<(), AllocError> {
    let circle = circle_of(*out.allocator(), &source.elements.methods, method)?;
    if circle.is_empty() {
        return Ok(());
    }
    write!(out, "; {method}")?;
    for (place, name) in circle.iter().enumerate() {
        if place > MOST_NAMED {
            out.push_str(" executes others, which")?;
            break;
        }
        if place > 0 {
            write!(out, " executes {name}, which")?;
        }
    }
    write!(out, " executes {method}")
}

/// The methods of a circle from one on, in the order in which they execute each other; none where it doesn't execute itself.
fn circle_of(alloc: Global, methods: &[RawMethod], first: &Name) -> Result<Vec<Name>, AllocError> {
    let numbers = numbers_of(alloc, methods)?;
    let mut seen = BTreeSet::new(alloc);
    let mut steps = Vec::new(alloc);
    steps.push(Step {
        method: *first,
        from: 0,
    })?;
    for number in 0..=methods.len() {
        let Some(executed) = executed_at(alloc, methods, &numbers, &steps, number)? else {
            break;
        };
        for method in &executed {
            if *method == *first {
                return way_to(alloc, &steps, number);
            }
            if seen.insert(*method)? {
                steps.push(Step {
                    method: *method,
                    from: number,
                })?;
            }
        }
    }
    Ok(Vec::new(alloc))
}

/// The numbers of methods by their names.
fn numbers_of(alloc: Global, methods: &[RawMethod]) -> Result<BTreeMap<Name, usize>, AllocError> {
    let mut numbers = BTreeMap::new(alloc);
    for (number, method) in methods.iter().enumerate() {
        numbers.insert(method.name, number)?;
    }
    Ok(numbers)
}

/// The methods that the method of a step executes. `None` where there is no step of this number.
fn executed_at(
    alloc: Global,
    methods: &[RawMethod],
    numbers: &BTreeMap<Name, usize>,
    steps: &[Step],
    number: usize,
) -> Result<Option<Vec<Name>>, AllocError> {
    let Some(step) = steps.get(number) else {
        return Ok(None);
    };
    let mut executed = Vec::new(alloc);
    if let Some(place) = numbers.get(&step.method)
        && let Some(method) = methods.get(*place)
    {
        put_executed(&mut executed, &method.body)?;
    }
    Ok(Some(executed))
}

/// Appends the methods that statements execute.
fn put_executed(names: &mut Vec<Name>, body: &[RawStmt]) -> Result<(), AllocError> {
    for statement in body {
        match statement {
            RawStmt::Eval { .. } => {}
            RawStmt::Execute { method } => names.push(*method)?,
            RawStmt::If { yes, no, .. } => {
                put_executed(names, yes)?;
                put_executed(names, no)?;
            }
        }
    }
    Ok(())
}

/// The methods of the steps by which the search comes to one, the first step's first.
fn way_to(alloc: Global, steps: &[Step], last: usize) -> Result<Vec<Name>, AllocError> {
    let mut names = Vec::new(alloc);
    let mut number = last;
    for _passed in 0..steps.len() {
        let Some(step) = steps.get(number) else {
            break;
        };
        names.push(step.method)?;
        if number == 0 {
            break;
        }
        number = step.from;
    }
    names.reverse();
    Ok(names)
}
