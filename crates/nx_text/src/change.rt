//! Changes of a text, one after another.

ghost use Rattle.std.specs.Prelude.{◌≡◌, ◌+◌, ◌<◌, ◌≤◌, ◌^◌, length, IfSome};
ghost use Rattle.std.specs.List.{count_by};
ghost use Rattle.std.specs.Str.{IsUtf8};
ghost use Rattle.nx_base.specs.Text.{edited};
ghost use Rattle.nx_text.specs.Changing.{texts_of};
ghost use Rattle.nx_text.specs.Editing.{IsRange};
ghost use Rattle.nx_text.specs.Feeds.{IsKept, joined};
ghost use Rattle.nx_text.specs.Places.{is_line_feed};

use crate::gap_buffer::GapBuffer;
use crate::line_feeds::{count_feeds, move_gaps, push_feeds, take_out};
use nx_base::change::Change;

/// How many bytes changes put in, and how many line feeds; none where that is more than memory can have.
pub(crate) fn put_in(changes: &[Change]) -> Option<(usize, usize)>
    ensures { IfSome result (λ n. (n.0 ≡ length (texts_of changes.now)) × (n.1 ≡ count_by is_line_feed (texts_of changes.now))) }
{
    let mut bytes: usize = 0;
    let mut feeds: usize = 0;
    let mut left = changes;
    while let Some((change, others)) = left.split_first() {
        bytes = bytes.checked_add(change.text.len())?;
        feeds = feeds.checked_add(count_feeds(change.text.as_slice()))?;
        left = others;
    }
    Some((bytes, feeds))
}

/// Makes a change of a text that has room for it.
pub(crate) fn make(bytes: &mut GapBuffer<u8>, feeds: &mut GapBuffer<usize>, change: &Change)
    requires kept { IsKept bytes.old feeds.old }
    requires range { IsRange (joined bytes.old) change.now.from change.now.to }
    requires utf8 { IsUtf8 change.now.text }
    requires room { length change.now.text ≤ bytes.old.room }
    requires feeds_room { count_by is_line_feed change.now.text ≤ feeds.old.room }
    ensures kept { IsKept bytes.new feeds.new }
    ensures text { joined bytes.new ≡ edited (joined bytes.old) change.now.from change.now.to change.now.text }
    ensures room { bytes.old.room ≤ bytes.new.room + length change.now.text }
    ensures feeds_room { feeds.old.room ≤ feeds.new.room + count_by is_line_feed change.now.text }
{
    move_gaps(bytes, feeds, change.to);
    take_out(bytes, feeds, change.from, 0);
    bytes.push_all(change.text.as_slice());
    push_feeds(feeds, change.from, change.text.as_slice());
}
