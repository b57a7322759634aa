//! One type over all kinds of sources.
use record_source::cursor::RecordSource;
use text_source::cursor::TextSource;

// An enum and no `dyn`: sources of both kinds lie by value in one slice.
/// A source of some kind.
#[derive(Clone, Copy)]
pub enum AnySource<'a> {
    Text(TextSource<'a>),
    Records(RecordSource<'a>),
}
