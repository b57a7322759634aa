//! Look and step on a source of any kind.
ghost use Rattle.sources.specs.Kinds.{any_items, any_ending, any_within, any_ends, any_few, AnyLeads};

use crate::kind::AnySource;
use answers::refusal::Refusal;
use source::head::{Head, Mark};
use source::marked::Marked;
use source::source::Source;

impl Source for AnySource<'_> {
    ghost items = { any_items };

    ghost ending = { any_ending };

    ghost within = { any_within };

    ghost ends = { any_ends };

    ghost few = { any_few };

    fn look(&self, literals: &mut [i32], hints: &mut [u32]) -> Result<Head, Refusal> {
        match self {
            AnySource::Text(t) => t.look(literals, hints),
            AnySource::Records(r) => r.look(literals, hints),
        }
    }

    fn step(&mut self) -> Result<(), Refusal> {
        match self {
            AnySource::Text(t) => t.step(),
            AnySource::Records(r) => r.step(),
        }
    }
}

impl Marked for AnySource<'_> {
    ghost leads = { AnyLeads };

    fn fetch(&self, literals: &mut [i32], hints: &mut [u32]) -> Result<(Head, Mark), Refusal> {
        match self {
            AnySource::Text(t) => t.fetch(literals, hints),
            AnySource::Records(r) => r.fetch(literals, hints),
        }
    }

    fn pass(&mut self, mark: Mark) {
        match self {
            AnySource::Text(t) => t.pass(mark),
            AnySource::Records(r) => r.pass(mark),
        }
    }
}
