//! Lines over lent tables, beside the formula whose clauses their hints may name.
ghost use Rattle.std.specs.Prelude.{length};
ghost use Rattle.tables.specs.Filled.{filled};
ghost use Rattle.formula.specs.Formulas.{variables_of, clauses_of};
ghost use Rattle.lines.specs.Rows.{rows_of, heads_of};
ghost use Rattle.lines.specs.Index.{Indexed};

use crate::entry::Entry;
use formula::formula::Formula;
use tables::fill::Fill;

pub mod clause;
pub mod find;
pub mod kill;
pub mod over;
pub mod store;

/// Every literal is of one of the formula's variables, every run lies inside its table, and the
/// index leads to every line.
#[derive(Drop)]
pub struct Lines<'b, 'f, 't> {
    formula: &'b Formula<'f>,
    literals: Fill<'t, i32>,
    hints: Fill<'t, u32>,
    entries: Fill<'t, Entry>,
    ghost indexed: { ∥ Indexed (variables_of formula.now) (length (clauses_of formula.now)) (filled literals) (filled hints) (rows_of entries) (heads_of entries) ∥₁ },
}
