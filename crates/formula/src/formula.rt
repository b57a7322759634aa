//! A formula over lent tables: its literals, and where each clause lies among them.
ghost use Rattle.std.specs.Prelude.{◌≤◌, length};
ghost use Rattle.tables.specs.Filled.{filled};
ghost use Rattle.formula.specs.Spans.{Inside, Ranged};

use crate::span::Span;
use tables::fill::Fill;

pub mod iter;
mod pass;
pub mod read;
pub mod store;

// Runs of one lent table and no `Vec` of clauses: there is no heap.
/// A formula within the limits: 1 to 4,096 variables, at most 65,536 clauses, each a run of the
/// table of literals, each literal of one of its variables.
#[derive(Drop)]
pub struct Formula<'f> {
    literals: Fill<'f, i32>,
    spans: Fill<'f, Span>,
    variables: usize,
    ghost some: { 1 ≤ variables },
    ghost low: { variables ≤ 4096 },
    ghost few: { length (filled spans) ≤ 65536 },
    ghost inside: { Inside (length (filled literals)) (filled spans) },
    ghost ranged: { Ranged variables (filled literals) },
}
