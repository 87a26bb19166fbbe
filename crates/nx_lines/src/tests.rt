//! Positions, worked out by hand.

use crate::cursor::Cursor;
use nx_position::position::{Encoding, Position};
use nx_text::text::{Text, TextFault};
use std::alloc::Global;

/// `a😀`, CR LF, `b`, CR, `c`, with the text's gap between CR and LF.
fn parted(alloc: Global) -> Result<Text, TextFault> {
    let mut text = Text::new(alloc);
    text.insert(0, "\nb\rc")?;
    text.insert(0, "a😀\r")?;
    Ok(text)
}

/// Places of that text, one move after another, forth and back, with line, and columns in UTF-8, UTF-16 and characters.
const MOVES: [(usize, usize, usize, usize, usize); 16] = [
    (0, 0, 0, 0, 0),
    (1, 0, 1, 1, 1),
    (5, 0, 5, 3, 2),
    (6, 0, 5, 3, 2),
    (7, 1, 0, 0, 0),
    (8, 1, 1, 1, 1),
    (9, 2, 0, 0, 0),
    (10, 2, 1, 1, 1),
    (9, 2, 0, 0, 0),
    (8, 1, 1, 1, 1),
    (6, 0, 5, 3, 2),
    (5, 0, 5, 3, 2),
    (99, 2, 1, 1, 1),
    (7, 1, 0, 0, 0),
    (1, 0, 1, 1, 1),
    (10, 2, 1, 1, 1),
];

#[test]
fn cursors_go_forth_and_back(rt: HostRuntime) {
    let text = parted(rt.alloc()).expect(&rt, "memory");
    let mut bytes = Cursor::new(Encoding::Utf8);
    let mut units = Cursor::new(Encoding::Utf16);
    let mut characters = Cursor::new(Encoding::Utf32);
    for row in MOVES.iter() {
        let (at, line, column8, column16, column32) = *row;
        assert!(rt;
            bytes.move_to(&text, at)
                == Position {
                    line,
                    column: column8
                }
        );
        assert!(rt;
            units.move_to(&text, at)
                == Position {
                    line,
                    column: column16
                }
        );
        assert!(rt;
            characters.move_to(&text, at)
                == Position {
                    line,
                    column: column32
                }
        );
    }
}

/// Places of a mark, `x`, LF, `y`, with the line and the column that are shown.
const SHOWN: [(usize, usize, usize); 7] = [
    (0, 0, 0),
    (2, 0, 0),
    (3, 0, 0),
    (4, 0, 1),
    (5, 1, 0),
    (6, 1, 1),
    (4, 0, 1),
];

#[test]
fn marks_are_not_counted(rt: HostRuntime) {
    let mut text = Text::new(rt.alloc());
    text.insert(0, "\u{FEFF}x\ny").expect(&rt, "memory");
    let mut bytes = Cursor::new(Encoding::Utf8);
    let mut characters = Cursor::new(Encoding::Utf32);
    for row in SHOWN.iter() {
        let (at, line, column) = *row;
        assert!(rt; bytes.shown_at(&text, at) == Position { line, column });
        assert!(rt; characters.shown_at(&text, at) == Position { line, column });
    }
    let plain = parted(rt.alloc()).expect(&rt, "memory");
    let mut characters = Cursor::new(Encoding::Utf32);
    assert!(rt; characters.shown_at(&plain, 8) == Position { line: 1, column: 1 });
}
