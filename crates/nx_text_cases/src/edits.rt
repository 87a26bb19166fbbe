//! Edits of a text, and what is read of it then.

ghost use Rattle.std.specs.Prelude.{◌≡◌, IfOk};
ghost use Rattle.nx_text.specs.Changing.{AreChanges};

use crate::places::place_in;
use nx_base::change::{Change, Changes};
use nx_base::memory::NoMemory;
use nx_base::sequence::Bytes;
use nx_text::{Text, TextFault};
use std::alloc::Global;
use std::test::Fail;

#[test]
fn edits_and_reads(rt: HostRuntime) -> Result<(), Fail> {
    let mut text = Text::new(rt.alloc());
    text.insert(0, "é")?;
    text.insert(2, "xy")?;
    text.delete(3, 4)?;
    let whole = text.copy_range(0, 3).ok().ok_or("no memory")?;
    assert_eq!(rt; whole.as_slice(), "éx".as_bytes());
    assert_eq!(rt; text.len(), 3);
    assert_eq!(rt;
        (text.is_place(1), text.is_place(2), text.is_place(4)),
        (false, true, false)
    );
    assert_eq!(rt; (text.byte_at(2), text.byte_at(3)), (Some(b'x'), None));
    assert_eq!(rt;
        (text.char_at(0), text.char_at(1), text.char_at(3)),
        (Some('é'), None, None)
    );
    assert_eq!(rt;
        (
            text.find_byte(0, b'x'),
            text.find_byte(3, b'x'),
            text.find_byte(0, b'y')
        ),
        (2, 3, 3)
    );
    assert_eq!(rt;
        (text.piece_at(0), text.piece_at(3)),
        ("éx".as_bytes(), "".as_bytes())
    );
    for (refused, at) in [
        (text.insert(1, "x"), 1),
        (text.delete(3, 2), 3),
        (text.delete(0, 1), 1),
    ] {
        match refused {
            Err(TextFault::BadPosition { at: place, len }) => assert_eq!(rt; (place, len), (at, 3)),
            _ => panic!(rt; "an edit at {at}"),
        }
    }
    assert_eq!(rt; text.len(), 3);
    Ok(())
}

#[test]
fn bytes_that_were_read_become_a_text(rt: HostRuntime) -> Result<(), Fail> {
    let read = Vec::from_slice(rt.alloc(), "a\né, and more than sixteen bytes".as_bytes())?;
    let mut text = Text::from_bytes(Bytes::from_vec(read))
        .ok()
        .ok_or("no memory")?;
    text.insert(4, "\nb")?;
    let whole = text.copy_range(0, text.len()).ok().ok_or("no memory")?;
    assert_eq!(rt;
        whole.as_slice(),
        "a\né\nb, and more than sixteen bytes".as_bytes()
    );
    assert_eq!(rt;
        (place_in(&mut text, 2), place_in(&mut text, 5)),
        (Some((2, 0)), Some((3, 0)))
    );
    Ok(())
}

/// A change that puts these bytes in the place of others.
fn change(alloc: Global, from: usize, to: usize, bytes: &[u8]) -> Result<Change, NoMemory>
    ensures { IfOk result (λ change. change ≡ record { from = from; to = to; text = bytes.now }) }
{
    Ok(Change {
        from,
        to,
        text: Bytes::from_vec(Vec::from_slice(alloc, bytes)?),
    })
}

/// Whether a text has these bytes.
fn has_bytes(text: &Text, bytes: &[u8]) -> bool {
    for (at, byte) in bytes.iter().enumerate() {
        match text.byte_at(at) {
            Some(found) => {
                if found != *byte {
                    return false;
                }
            }
            None => return false,
        }
    }
    text.len() == bytes.len()
}

/// Whether changes make this text.
fn makes(text: &mut Text, changes: &Changes, new: &[u8]) -> Result<bool, NoMemory>
    requires { AreChanges text.old changes.now }
{
    text.apply(changes)?;
    Ok(has_bytes(text, new))
}

#[test]
fn changes_are_made_one_after_another(rt: HostRuntime) -> Result<(), Fail> {
    let mut text = Text::new(rt.alloc());
    text.insert(0, "<d><p>ab</p></d>")?;
    let mut changes = Changes::new(rt.alloc());
    changes.push(change(rt.alloc(), 10, 11, b"long\n")?)?;
    changes.push(change(rt.alloc(), 4, 5, b"long\n")?)?;
    let made = makes(&mut text, &changes, b"<d><long\n>ab</long\n></d>")?;
    assert!(rt; made);
    Ok(())
}
