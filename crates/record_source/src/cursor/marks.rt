//! Look with a mark, and a step to it.
ghost use Rattle.record_source.specs.Cursors.{LeadsOn};

use crate::cursor::RecordSource;
use answers::refusal::Refusal;
use source::body::{Body, check_space};
use source::head::{Head, Mark};
use source::marked::Marked;

impl Marked for RecordSource<'_> {
    ghost leads = { LeadsOn };

    fn fetch(&self, literals: &mut [i32], hints: &mut [u32]) -> Result<(Head, Mark), Refusal> {
        check_space(literals, hints)?;
        let mut body = Body::new();
        let (head, mark) = self.next(&mut body)?;
        body.write(head, literals, hints);
        Ok((head, mark))
    }

    fn pass(&mut self, mark: Mark) {
        self.mark = mark;
    }
}
