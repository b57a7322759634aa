//! A new cursor, and the next line at a cursor.
ghost use Rattle.std.specs.Prelude.{◌≡◌};
ghost use Rattle.text_source.specs.Laws.{ReadsBack};
ghost use Rattle.text_source.specs.Reading.{reading};
ghost use Rattle.text_source.specs.Lefts.{items_left, ending_left};
ghost use Rattle.text_source.specs.Lines.{Starts, Nexts};

use crate::cursor::TextSource;
use crate::parser::line;
use answers::fault::Fault;
use answers::refusal::Refusal;
use source::body::Body;
use source::head::{Head, Mark};
use text::scan::Scan;
use text::scanner::scan;

impl<'a> TextSource<'a> {
    /// A source at the first line of a text. Its law: what is written reads back.
    #[tactic(auto, using(crate::proofs::Texts::reads_back))]
    pub fn new(bytes: &'a [u8]) -> TextSource<'a>
        ensures items { items_left result ≡ (reading bytes.now).items }
        ensures ending { ending_left result ≡ (reading bytes.now).ending }
        ensures law { ReadsBack }
    {
        TextSource {
            bytes,
            at: 0,
            lines: 0,
        }
    }

    // How the next line that is not blank begins: its first number, what stands behind that, and
    // the line's place.
    fn seek(&self) -> Result<(i32, &'a [u8], usize), Refusal>
        ensures { Starts self.now result }
    {
        let clean = Refusal::at(Fault::NoItem, 0);
        if self.lines > self.at {
            return Err(clean);
        }
        let mut rest = self.bytes.get(self.at..).ok_or(clean)?;
        let mut lines = self.lines;
        loop {
            match scan(rest) {
                Scan::LineEnd(behind) => {
                    rest = behind;
                    lines += 1;
                }
                Scan::Number(z, behind) => return Ok((z, behind, lines + 1)),
                Scan::Word(_, _) => return Err(Refusal::at(Fault::MisshapenLine, lines + 1)),
                Scan::TextEnd => return Err(clean),
            }
        }
    }

    // Reads the next line that is not blank into a body, and answers a mark behind it; or the ending.
    pub(crate) fn next_line(&self, body: &mut Body) -> Result<(Head, Mark), Refusal>
        ensures { Nexts self.now body.new result }
    {
        let (first, text, place) = self.seek()?;
        let (head, rest) = line(first, text, place, body).map_err(|f| Refusal::at(f, place))?;
        let mark = Mark {
            at: self.bytes.len() - rest.len(),
            place,
            additions: 0,
        };
        Ok((head, mark))
    }
}
