//! The heads of buckets in the slots of the table of lines.
ghost use Rattle.std.specs.Prelude.{◌≡◌, map, slice_index, slice_set};
ghost use Rattle.tables.specs.Filled.{slots_of, SameLender};
ghost use Rattle.lines.specs.Rows.{row_of, rows_of, heads_of};

use crate::entry::Entry;
use tables::fill::Fill;

// The head in slot `i`, 0 where there is no such slot.
pub(crate) fn head_at(entries: &Fill<Entry>, i: usize) -> usize
    ensures { result ≡ slice_index (heads_of entries.now) i }
{
    entries.slot(i).map_or(0, |entry| entry.head)
}

// Writes the head in slot `i`, where there is such a slot, and leaves its row.
pub(crate) fn set_head(entries: &mut Fill<Entry>, i: usize, head: usize)
    ensures heads { heads_of entries.new ≡ slice_set (heads_of entries.old) i head }
    ensures rows { rows_of entries.new ≡ rows_of entries.old }
    ensures slots { map row_of (slots_of entries.new) ≡ map row_of (slots_of entries.old) }
    ensures lender { SameLender entries.old entries.new }
{
    if let Some(entry) = entries.slot(i) {
        let _ = entries.set_slot(i, Entry { head, ..entry });
    }
}
