//! What may fail on inputs within their ranges.
ghost use Rattle.std.specs.Prelude.{IfOk};
ghost use Rattle.plain_words.specs.private.FoundViews.{IsOfPlan};

use crate::found::Found;
use crate::nodes::write_node;
use crate::sites::{Source, declaration_of, named_byte, statement_byte};
use interval_analysis::RangeFault;
use interval_num::RangeCause;
use pap_expr::{ExprFault, parse_constant};
use pap_tree::{Literal, Name};
use std::alloc::{AllocError, Global};

/// Where something may fail on inputs within their ranges; what stands there is appended.
pub(crate) fn find_range(
    source: Source<'_>,
    fault: &RangeFault,
    quote: &mut String,
) -> Result<Found, AllocError>
    ensures { IfOk result (λ found. IsOfPlan found) }
{
    match fault {
        RangeFault::At { place, cause } => {
            let node = write_node(quote, source, place)?;
            if let RangeCause::Index = cause
                && let Some(table) = node.table
            {
                write_items(quote, source, &table)?;
            }
            let at = statement_byte(source, &place.method, place.stmt, node.at);
            Ok(Found::in_plan(at))
        }
        RangeFault::Output { name } => Ok(Found::in_plan(named_byte(source, name))),
        RangeFault::Memory(_) => Err(AllocError),
    }
}

/// Appends which items a table has: `; T has the items 0 to 20`.
fn write_items(quote: &mut String, source: Source<'_>, table: &Name) -> Result<(), AllocError> {
    let count = count_items(*quote.allocator(), source, table)?;
    match count.checked_sub(1) {
        None => Ok(()),
        Some(0) => write!(quote, "; {table} has the item 0 alone"),
        Some(last) => write!(quote, "; {table} has the items 0 to {last}"),
    }
}

/// How many items a table has; 0 where no table of this name is declared.
fn count_items(alloc: Global, source: Source<'_>, table: &Name) -> Result<usize, AllocError> {
    let Some(site) = declaration_of(source, table) else {
        return Ok(0);
    };
    let Some(text) = &site.declared.value else {
        return Ok(0);
    };
    match parse_constant(alloc, text) {
        Ok(Literal::Table(items)) => Ok(items.len()),
        Err(ExprFault::Memory) => Err(AllocError),
        _ => Ok(0),
    }
}
