//! Look with a mark, and a step to it.
ghost use Rattle.text_source.specs.Lefts.{LeadsOn};

use crate::cursor::TextSource;
use answers::refusal::Refusal;
use source::body::{Body, check_space};
use source::head::{Head, Mark};
use source::marked::Marked;

// These lines and those of `look` and `step` stand in the record source too: a trait of both would
// have to say in words of its own what `next_line` tells.
impl Marked for TextSource<'_> {
    ghost leads = { LeadsOn };

    fn fetch(&self, literals: &mut [i32], hints: &mut [u32]) -> Result<(Head, Mark), Refusal> {
        check_space(literals, hints)?;
        let mut body = Body::new();
        let (head, mark) = self.next_line(&mut body)?;
        body.write(head, literals, hints);
        Ok((head, mark))
    }

    fn pass(&mut self, mark: Mark) {
        self.at = mark.at;
        self.lines = mark.place;
    }
}
