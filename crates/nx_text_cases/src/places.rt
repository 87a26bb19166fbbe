//! Borders of clusters, lines and columns.

use nx_text::Text;
use std::test::Fail;

/// Texts with the borders of their clusters, as Unicode's annex 29 tells them.
const CLUSTERS: [(&str, &[usize]); 11] = [
    ("", &[0]),
    ("ab\n", &[0, 1, 2, 3]),
    // an accent that stands behind its letter
    ("e\u{301}x", &[0, 3, 4]),
    ("\r\n\r\r\n", &[0, 2, 3, 5]),
    // three flags, of two letters each, and half of one
    (
        "\u{1F1E6}\u{1F1F9}\u{1F1E9}\u{1F1EA}\u{1F1EB}",
        &[0, 8, 16, 20],
    ),
    // Hangul in letters: two syllables of three and of two
    ("\u{1112}\u{1161}\u{11AB}\u{1100}\u{1173}", &[0, 9, 15]),
    ("한글", &[0, 3, 6]),
    // a family, joined, and a face behind it
    (
        "\u{1F468}\u{200D}\u{1F469}\u{200D}\u{1F467}\u{1F600}",
        &[0, 18, 22],
    ),
    // a hand with the colour of its skin
    ("\u{1F44D}\u{1F3FD}!", &[0, 8, 9]),
    // a sign of Devanagari that joins two letters
    ("\u{915}\u{94D}\u{937}\u{91F}", &[0, 9, 12]),
    // a joiner behind a letter joins nothing to it
    ("a\u{200D}b", &[0, 4, 5]),
];

/// Texts, a place of each, and its line and column.
const COLUMNS: [(&str, usize, usize, usize); 12] = [
    ("", 0, 1, 0),
    ("ab\ncd", 2, 1, 2),
    ("ab\ncd", 3, 2, 0),
    ("ab\ncd", 5, 2, 2),
    ("\n\n", 2, 3, 0),
    ("e\u{301}x", 3, 1, 1),
    ("e\u{301}x", 4, 1, 2),
    ("\n한글", 4, 2, 2),
    ("\n한글", 7, 2, 4),
    ("\u{1F600}a", 5, 1, 3),
    ("\u{1F468}\u{200D}\u{1F469}", 11, 1, 2),
    ("é\nß", 5, 2, 1),
];

/// The first of the borders from which the next one isn't found, or the other way round.
fn lost_border(text: &mut Text, borders: &[usize]) -> Option<usize> {
    let mut last = None;
    for border in borders {
        if !text.is_place(*border) || text.prev_grapheme(*border) != last {
            return Some(*border);
        }
        if let Some(before) = last
            && text.is_place(before)
            && text.next_grapheme(before) != Some(*border)
        {
            return Some(before);
        }
        last = Some(*border);
    }
    last.filter(|end| text.is_place(*end) && text.next_grapheme(*end).is_some())
}

#[test]
fn clusters_have_their_borders(rt: HostRuntime) -> Result<(), Fail> {
    for (row, (text, borders)) in CLUSTERS.iter().enumerate() {
        let mut made = Text::new(rt.alloc());
        made.insert(0, text)?;
        assert_eq!(rt; lost_border(&mut made, borders), None, "row {row}");
    }
    Ok(())
}

/// The line and the column of a place.
pub(crate) fn place_in(text: &mut Text, at: usize) -> Option<(usize, usize)> {
    if text.is_place(at) {
        Some((text.line_of(at), text.column_of(at)))
    } else {
        None
    }
}

#[test]
fn places_have_lines_and_columns(rt: HostRuntime) -> Result<(), Fail> {
    for (row, (text, at, line, column)) in COLUMNS.iter().enumerate() {
        let mut made = Text::new(rt.alloc());
        made.insert(0, text)?;
        assert_eq!(rt;
            place_in(&mut made, *at),
            Some((*line, *column)),
            "row {row}"
        );
    }
    Ok(())
}
