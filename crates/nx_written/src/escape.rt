//! Strings as they are written.

ghost use Rattle.std.specs.Prelude.{◌≡◌, ◌++◌, OnOk};
ghost use Rattle.nx_written.specs.Escaping.{escape, escaped};

use nx_base::memory::NoMemory;

/// Adds a byte of a string, as a reference where it would end the string, begin markup, or be read as another one.
#[tactic(auto, unfolding(crate::specs::Escaping::escape))]
fn push_byte(out: &mut Vec<u8>, byte: u8) -> Result<(), NoMemory>
    ensures { OnOk result (out.new.items ≡ out.old.items ++ escape byte) }
{
    match byte {
        b'\t' => out.extend_from_slice(b"&#9;")?,
        b'\n' => out.extend_from_slice(b"&#10;")?,
        b'\r' => out.extend_from_slice(b"&#13;")?,
        b'&' => out.extend_from_slice(b"&amp;")?,
        b'\'' => out.extend_from_slice(b"&apos;")?,
        b'<' => out.extend_from_slice(b"&lt;")?,
        b'>' => out.extend_from_slice(b"&gt;")?,
        _ => out.push(byte)?,
    }
    Ok(())
}

/// Adds a string as it is written in a value or between tags.
pub(crate) fn push_escaped(out: &mut Vec<u8>, string: &[u8]) -> Result<(), NoMemory>
    ensures { OnOk result (out.new.items ≡ out.old.items ++ escaped string.now) }
{
    let mut rest = string;
    'bytes: while let Some((first, behind)) = rest.split_first() {
        push_byte(out, *first)?;
        rest = behind;
    }
    Ok(())
}
