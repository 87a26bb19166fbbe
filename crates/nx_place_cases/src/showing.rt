//! Views that are shown faults, moved and closed, and what each shows then.

use nx_base::detail::Detail;
use nx_base::edit::Edit;
use nx_base::fault::{Fault, Faults, Kind, Span};
use nx_base::memory::NoMemory;
use nx_views::numbered::close_at;
use nx_views::pane::{FaultPane, LimitedPane, RefusingPane};
use nx_views::refresh::refresh;
use nx_views::shift::shift_all;
use nx_views::view::View;
use std::alloc::Global;
use std::test::Fail;

/// Views, what is done with them, and what they show then.
///
/// `F` is a pane of faults, a digit one with room for so many puts, `R` one that refuses its second put. Digits are a refresh with
/// faults that begin at these places, `-` one with none, `s` moves all by 10, `c` closes the first. Behind that each view stands in
/// brackets, with a `!` where it isn't live, and `NoMemory` in front for each refresh that was refused.
const SHOWN: [(&str, &str, &str); 21] = [
    ("", "0", ""),
    ("F2", "012", "[0 1 2]"),
    ("F3", "012", "[0 1 2][0 1 2]"),
    ("2F", "012", "[0 1 2]"),
    ("0", "-", "[]"),
    ("0", "0", ""),
    ("3", "012 012", "[0 1 2]"),
    ("3", "012 01", "[0 1]"),
    ("3", "012 0123", ""),
    ("4", "012 0123", "[0 1 2 3]"),
    ("4", "012 02", "[0 2]"),
    ("3", "012 02", ""),
    ("F", "01 s", "[10 11]"),
    ("F", "01 s 01", "[0 1]"),
    ("FF", "0 c", "[0]![0]"),
    ("FF", "0 c s 1", "[1]"),
    ("R", "01", "NoMemory [0]"),
    ("R", "01 01", "NoMemory [0 1]"),
    ("FR", "01", "NoMemory [0 1][0]"),
    ("RF", "01", "NoMemory [0][]"),
    ("1R", "01", "NoMemory [0]"),
];

/// Faults that begin at these places.
fn faults_at(alloc: Global, places: &str) -> Result<Faults, NoMemory> {
    let mut faults = Faults::new(alloc);
    for byte in places.bytes() {
        if b'0' <= byte && byte <= b'9' {
            let from = usize::from(byte - b'0');
            faults.push(Fault {
                span: Span { from, to: from + 1 },
                kind: Kind::BadMarkup,
                detail: Detail::new(),
            })?;
        }
    }
    Ok(faults)
}

/// Writes where the faults begin.
fn write_places(told: &mut String, faults: &Faults) -> Result<(), Fail> {
    let mut between = "";
    for fault in faults.as_slice() {
        let from = fault.span.from;
        write!(told, "{between}{from}")?;
        between = " ";
    }
    Ok(())
}

/// Writes what a view shows, and whether it is live.
fn write_view(told: &mut String, view: &Box<dyn View>) -> Result<(), Fail> {
    told.push_str("[")?;
    write_places(told, view.shown())?;
    told.push_str(if view.is_live() { "]" } else { "]!" })?;
    Ok(())
}

/// Does with the views what a word says.
fn done(alloc: Global, views: &mut Vec<Box<dyn View>>, word: &str) -> Result<(), NoMemory> {
    match word {
        "s" => shift_all(
            views,
            &Edit {
                from: 0,
                to: 0,
                added: 10,
            },
        ),
        "c" => {
            if views.len() > 0 {
                close_at(views, 0);
            }
        }
        places => refresh(views, &faults_at(alloc, places)?)?,
    }
    Ok(())
}

/// What these views show behind all that.
fn shown(alloc: Global, panes: &str, words: &str) -> Result<String, Fail> {
    let mut views: Vec<Box<dyn View>> = Vec::new(alloc);
    for byte in panes.bytes() {
        match byte {
            b'F' => views.push(Box::new(alloc, FaultPane::new(alloc))?)?,
            b'R' => views.push(Box::new(alloc, RefusingPane::new(alloc, 2))?)?,
            digit => {
                let room = u64::from(digit.saturating_sub(b'0'));
                views.push(Box::new(alloc, LimitedPane::new(alloc, room))?)?;
            }
        }
    }
    let mut told = String::new(alloc);
    for word in words.split(' ') {
        if let Err(NoMemory) = done(alloc, &mut views, word) {
            told.push_str("NoMemory ")?;
        }
    }
    for view in &views {
        write_view(&mut told, view)?;
    }
    Ok(told)
}

#[test]
fn views_show(rt: HostRuntime) -> Result<(), Fail> {
    let mut wrong = String::new(rt.alloc());
    for (panes, words, want) in &SHOWN {
        let told = shown(rt.alloc(), panes, words)?;
        if told.as_str() != *want {
            let told = told.as_str();
            write!(wrong, "{panes} {words}: {told}\n")?;
        }
    }
    assert_eq!(rt; wrong.as_str(), "");
    Ok(())
}
