//! A new source, and look and step on it.
ghost use Rattle.std.specs.Prelude.{◌≡◌};
ghost use Rattle.record_source.specs.Cursors.{items_left, ending_left};
ghost use Rattle.record_source.specs.Keeps.{left_within, left_ends, left_few};
ghost use Rattle.record_source.specs.Laws.{ReadsBack};
ghost use Rattle.record_source.specs.Reading.{reading};
ghost use Rattle.record_source.specs.Tells.{Stands, Nexts};

use crate::cursor::RecordSource;
use crate::found::Found;
use crate::records::first;
use answers::fault::Fault;
use answers::refusal::Refusal;
use source::body::Body;
use source::head::{Head, Mark};
use source::marked::Marked;
use source::source::Source;

impl<'a> RecordSource<'a> {
    /// A source of all items of a record file. Its law: what is written reads back.
    #[tactic(auto, using(crate::proofs::ReadBack::reads_back))]
    pub fn new(bytes: &'a [u8]) -> RecordSource<'a>
        ensures items { items_left result ≡ (reading bytes.now).items }
        ensures ending { ending_left result ≡ (reading bytes.now).ending }
        ensures law { ReadsBack }
    {
        RecordSource {
            bytes,
            mark: Mark {
                at: 0,
                place: 0,
                additions: 0,
            },
        }
    }

    // The record at the cursor, with its numbers in the body, and what is left behind it; or the
    // ending. No reading comes to a cursor behind the end, or with more records before it than bytes
    // for them, or more additions than records: nothing is left there.
    fn record(&self, body: &mut Body) -> Result<(Found, &[u8]), Refusal>
        ensures { Stands self.now body.new result }
    {
        let Mark {
            at,
            place: records,
            additions,
        } = self.mark;
        if at > self.bytes.len() || records > at / 4 || additions > records {
            return Err(Refusal::at(Fault::NoItem, 0));
        }
        let place = records + 1;
        first(&self.bytes[at..], place, body).map_err(|flaw| Refusal::at(flaw.into(), place))
    }

    // The first item's head, with its numbers in the body, and a mark behind it; or the ending.
    pub(crate) fn next(&self, body: &mut Body) -> Result<(Head, Mark), Refusal>
        ensures { Nexts self.now body.new result }
    {
        let (found, rest) = self.record(body)?;
        let place = self.mark.place + 1;
        match found {
            Found::Item(head) => {
                let is_addition = matches!(head, Head::Addition(..));
                let mark = Mark {
                    at: self.bytes.len() - rest.len(),
                    place,
                    additions: self.mark.additions + usize::from(is_addition),
                };
                Ok((head, mark))
            }
            Found::Last(n) => Err(if n as usize != self.mark.additions {
                Refusal::at(Fault::Record, place)
            } else if rest.is_empty() {
                Refusal::at(Fault::NoItem, 0)
            } else {
                Refusal::at(Fault::Record, place + 1)
            }),
        }
    }
}

impl Source for RecordSource<'_> {
    ghost items = { items_left };

    ghost ending = { ending_left };

    ghost within = { λ s. left_within s.bytes.now s.mark.at s.mark.place s.mark.additions };

    ghost ends = { λ s. left_ends s.bytes.now s.mark.at s.mark.place s.mark.additions };

    ghost few = { λ s. left_few s.bytes.now s.mark.at s.mark.place s.mark.additions };

    fn look(&self, literals: &mut [i32], hints: &mut [u32]) -> Result<Head, Refusal> {
        let (head, _) = self.fetch(literals, hints)?;
        Ok(head)
    }

    fn step(&mut self) -> Result<(), Refusal> {
        let (_, mark) = self.next(&mut Body::new())?;
        self.pass(mark);
        Ok(())
    }
}
