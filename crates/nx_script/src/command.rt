//! The commands of a script.

use nx_base::sequence::Bytes;
use nx_base::way::Way;

/// A command. Numbers and texts stand in the order of the line, the texts after their escapes.
#[derive(Drop)]
pub enum Command {
    /// A line that is passed over.
    Nothing,
    /// `open "URI"`: edits the file's text from now on.
    OpenFile(Bytes),
    /// `save "URI"`: stores the text.
    Save(Bytes),
    /// `insert N "TEXT"`: puts the text in at the byte offset.
    Insert(u64, Bytes),
    /// `delete N N`: takes the bytes from the first offset to the second away.
    Delete(u64, u64),
    /// `print`: prints the text.
    Print,
    /// `errors`: lists the faults of the text.
    Errors,
    /// `slice N`: reads N tokens of the text on.
    Slice(u64),
    /// `stats`: tells how many tokens the last `slice` or `errors` took.
    Stats,
    /// `schema "URI"`: holds the document against the schema of the file from now on.
    SchemaFile(Bytes),
    /// `schema none`: holds it against none.
    SchemaNone,
    /// `schema auto`: holds it against the schema that the rules locate, or against none.
    SchemaAuto,
    /// `complete N`: lists what may stand at the byte offset.
    Complete(u64),
    /// `goto N`: puts the caret at the byte offset.
    Goto(u64),
    /// `move W`: takes the caret this way along the tags, by the words `forward`, `backward`, `up`, `back-up` and
    /// `down`.
    Move(Way),
    /// `next`: takes the caret over the grapheme cluster behind it.
    Next,
    /// `previous`: takes it over the one before it.
    Previous,
    /// `where`: tells the caret's line and column.
    Position,
    /// `view N`: lists the faults that this view shows.
    View(u64),
    /// `close N`: closes this view.
    Close(u64),
    /// `make N N`: edits a large document that is made from the two numbers, from now on. The first is at most
    /// 2,147,483,647, the second, its number of pieces, at most 200,000.
    Make(u64, u64),
    /// `finish N`: ends the innermost element that is open at the byte offset.
    Finish(u64),
    /// `split N`: ends it there, and begins another of its name.
    Split(u64),
    /// `pair N "QNAME"`: puts an element of this written name in at the byte offset, without content.
    Pair(u64, Bytes),
    /// `rename N "QNAME"`: gives the element whose tag begins at the byte offset this written name.
    Rename(u64, Bytes),
}
