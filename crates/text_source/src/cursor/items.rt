//! Look and step on a text.
ghost use Rattle.text_source.specs.Lefts.{items_left, ending_left};
ghost use Rattle.text_source.specs.Keeps.{items_keep, ending_keeps, items_few};

use crate::cursor::TextSource;
use answers::refusal::Refusal;
use source::body::Body;
use source::head::Head;
use source::marked::Marked;
use source::source::Source;

impl Source for TextSource<'_> {
    ghost items = { items_left };

    ghost ending = { ending_left };

    ghost within = { items_keep };

    ghost ends = { ending_keeps };

    ghost few = { items_few };

    fn look(&self, literals: &mut [i32], hints: &mut [u32]) -> Result<Head, Refusal> {
        let (head, _) = self.fetch(literals, hints)?;
        Ok(head)
    }

    fn step(&mut self) -> Result<(), Refusal> {
        let (_, mark) = self.next_line(&mut Body::new())?;
        self.pass(mark);
        Ok(())
    }
}
