//! Replies, and the text that each prints.

ghost use Rattle.std.specs.Prelude.{ℕ, List, Option, None};

use nx_base::cause::Cause;
use nx_base::detail::Detail;
use nx_base::fault::{Fault, Faults, Kind, Span};
use nx_base::locate_fault::LocateFault;
use nx_base::memory::NoMemory;
use nx_base::name::Name;
use nx_base::offer::{Offer, OfferList, Offers};
use nx_base::sequence::Bytes;
use nx_host::out::{Out, OutFault};
use nx_script::reply::{Refusal, Reply};
use nx_script::write::write_reply;
use std::alloc::Global;

/// Keeps the bytes, and counts the writes.
#[derive(Drop)]
struct Kept {
    bytes: Vec<u8>,
    writes: u64,
}

impl Out for Kept {
    ghost told = { λ _. None };

    ghost faults = { λ _. 0 };

    fn write(&mut self, _alloc: Global, bytes: &[u8]) -> Result<(), OutFault> {
        self.writes = self.writes.saturating_add(1);
        self.bytes
            .extend_from_slice(bytes)
            .map_err(|_| OutFault::NoMemory)?;
        Ok(())
    }
}

fn bytes_of(alloc: Global, text: &str) -> Result<Bytes, NoMemory> {
    Ok(Bytes::from_vec(Vec::from_slice(alloc, text.as_bytes())?))
}

/// Two faults, the second without a detail.
fn faults(alloc: Global) -> Result<Faults, NoMemory> {
    let mut faults = Faults::new(alloc);
    faults.push(Fault {
        span: Span { from: 3, to: 14 },
        kind: Kind::BadName,
        detail: Detail::of(bytes_of(alloc, "é \n\u{7f}\\\u{80}")?)?,
    })?;
    faults.push(Fault {
        span: Span { from: 0, to: 0 },
        kind: Kind::NoRoot,
        detail: Detail::new(),
    })?;
    Ok(faults)
}

fn name(alloc: Global, ns: &str, local: &str) -> Result<Offer, NoMemory> {
    let ns = bytes_of(alloc, ns)?;
    let local = bytes_of(alloc, local)?;
    Ok(Offer::Name(Name { ns, local }))
}

/// The offer of a kind, with a text.
fn offer_of(kind: &str, text: Bytes) -> Offer {
    match kind {
        "any-in" => Offer::AnyIn(text),
        "value" => Offer::Value(text),
        "end" => Offer::End(text),
        _ => Offer::AnyElse,
    }
}

fn puts_name(alloc: Global, offers: &mut OfferList, ns: &str, local: &str) -> bool {
    match name(alloc, ns, local) {
        Ok(offer) => offers.push(offer).is_ok(),
        Err(NoMemory) => false,
    }
}

fn puts(alloc: Global, offers: &mut OfferList, kind: &str, text: &str) -> bool {
    match bytes_of(alloc, text) {
        Ok(text) => offers.push(offer_of(kind, text)).is_ok(),
        Err(NoMemory) => false,
    }
}

fn puts_each(alloc: Global, offers: &mut OfferList) -> bool {
    puts_name(alloc, offers, "", "b\n")
        && puts_name(alloc, offers, "u\\", "a")
        && puts(alloc, offers, "any-in", "v\t")
        && puts(alloc, offers, "any-else", "")
        && puts(alloc, offers, "value", "1 2\u{7f}")
        && puts(alloc, offers, "end", "p:é")
}

/// An offer of each kind.
fn offers(alloc: Global) -> Option<Offers> {
    let mut offers = OfferList::new(alloc);
    if puts_each(alloc, &mut offers) {
        Some(Offers::List(offers))
    } else {
        None
    }
}

/// Whether the reply to the third line prints this, in so many writes.
fn prints(alloc: Global, reply: &Reply, want: &str, writes: u64) -> bool {
    let mut out = Kept {
        bytes: Vec::new(alloc),
        writes: 0,
    };
    write_reply(alloc, &mut out, 3, reply).is_ok()
        && out.bytes.as_slice() == want.as_bytes()
        && out.writes == writes
}

/// Whether the reply prints this at once.
fn prints_line(alloc: Global, reply: Reply, want: &str) -> bool {
    prints(alloc, &reply, want, 1)
}

fn prints_text(alloc: Global, text: &str, want: &str) -> bool {
    match bytes_of(alloc, text) {
        Ok(text) => prints(alloc, &Reply::Printed(text), want, 2),
        Err(NoMemory) => false,
    }
}

#[test]
fn texts_are_written(rt: HostRuntime) {
    assert!(rt; prints(rt.alloc(), &Reply::Silent, "", 0));
    assert!(rt; prints_text(rt.alloc(), "é\n", "é\n\n"));
}

const FAULT_LINES: &str = "3-14 BadName é \\u{a}\\u{7f}\\u{5c}\u{80}\n0-0 NoRoot\n";

fn below(alloc: Global, heading: &str) -> Option<String> {
    format!(in alloc; "{heading}{FAULT_LINES}").ok()
}

/// The reply of faults that begins with this line.
fn headed(heading: &str, faults: Faults) -> Reply {
    match heading {
        "view 1: 2\n" => Reply::Shown(1, faults),
        _ => Reply::Errors(faults),
    }
}

/// Whether the reply of both faults prints this line and theirs.
fn prints_faults(alloc: Global, heading: &str) -> bool {
    match (faults(alloc), below(alloc, heading)) {
        (Ok(faults), Some(want)) => prints_line(alloc, headed(heading, faults), want.as_str()),
        _ => false,
    }
}

fn prints_no_faults(alloc: Global) -> bool {
    prints_line(alloc, Reply::Errors(Faults::new(alloc)), "errors: 0\n")
}

#[test]
fn faults_are_listed(rt: HostRuntime) {
    assert!(rt; prints_no_faults(rt.alloc()));
    assert!(rt; prints_faults(rt.alloc(), "errors: 2\n"));
    assert!(rt; prints_faults(rt.alloc(), "view 1: 2\n"));
}

/// This many faults without a detail, each of no bytes at the start.
fn many_faults(alloc: Global, count: u64) -> Result<Faults, NoMemory> {
    let mut faults = Faults::new(alloc);
    for _ in 0..count {
        faults.push(Fault {
            span: Span { from: 0, to: 0 },
            kind: Kind::NoRoot,
            detail: Detail::new(),
        })?;
    }
    Ok(faults)
}

/// How a list of so many of them prints.
fn many_lines(alloc: Global, count: u64) -> Option<String> {
    let mut text = format!(in alloc; "errors: {count}\n").ok()?;
    for _ in 0..count {
        text.push_str("0-0 NoRoot\n").ok()?;
    }
    Some(text)
}

/// Whether a list of so many faults prints in so many writes.
fn prints_many(alloc: Global, count: u64, writes: u64) -> bool {
    match (many_faults(alloc, count), many_lines(alloc, count)) {
        (Ok(faults), Some(want)) => prints(alloc, &Reply::Errors(faults), want.as_str(), writes),
        _ => false,
    }
}

/// At most 64 lines are written at once.
#[test]
fn long_lists_are_written_in_parts(rt: HostRuntime) {
    let alloc = rt.alloc();
    assert!(rt; prints_many(alloc, 64, 1));
    assert!(rt; prints_many(alloc, 65, 2));
    assert!(rt; prints_many(alloc, 200, 4));
}

const OFFER_LINES: &str =
    "offers: 6\nname b\\u{a}\nname {u\\u{5c}}a\nany-in v\\u{9}\nany-else\nvalue 1 2\\u{7f}\nend p:é\n";

fn prints_offers(alloc: Global, offers: Option<Offers>, want: &str) -> bool {
    match offers {
        Some(offers) => prints_line(alloc, Reply::Offered(offers), want),
        None => false,
    }
}

/// Whether no offers, as where nothing is said and as an empty list, print this.
fn none_are_printed(alloc: Global) -> bool {
    let none = Offers::List(OfferList::new(alloc));
    prints_offers(alloc, Some(none), "offers: 0\n")
        && prints_offers(alloc, Some(Offers::Nowhere), "offers: none\n")
}

#[test]
fn offers_are_listed(rt: HostRuntime) {
    assert!(rt; none_are_printed(rt.alloc()));
    assert!(rt; prints_offers(rt.alloc(), offers(rt.alloc()), OFFER_LINES));
}

/// The fault of rules in a file that the word stands for.
fn fault_of(word: &str, uri: Bytes) -> LocateFault {
    match word {
        "absent rules" => LocateFault::RulesAbsent(uri),
        "rules that are no text" => LocateFault::RulesNotUtf8(uri, 3),
        "bad rules" => LocateFault::BadRules(uri),
        "rules in a loop" => LocateFault::RulesLoop(uri),
        _ => LocateFault::BadUri(uri),
    }
}

/// The refusal that the word stands for, with a file.
fn refusal_of(word: &str, uri: Bytes) -> Refusal {
    match word {
        "command" => Refusal::BadCommand,
        "place" => Refusal::BadPosition {
            at: 999999999999999999,
            len: 2,
        },
        "uri" => Refusal::BadUri,
        "schema" => Refusal::Unreadable(Cause::NothingValid),
        "markup" => Refusal::Unreadable(Cause::BadMarkup),
        "form" => Refusal::Unreadable(Cause::BadForm),
        "view" => Refusal::NoView(7),
        "failed" => Refusal::Failed,
        "memory" => Refusal::NoMemory,
        "absent" => Refusal::Absent(uri),
        "no text" => Refusal::NotUtf8(uri, 3),
        _ => Refusal::from(fault_of(word, uri)),
    }
}

/// The reply that the word stands for, with a file.
fn reply_of(word: &str, uri: Bytes) -> Reply {
    match word {
        "located" => Reply::Located(Some(uri)),
        "located none" => Reply::Located(None),
        "caret" => Reply::Caret(12),
        "stay" => Reply::Stay,
        "position" => Reply::Position { line: 1, column: 0 },
        "frontier" => Reply::Frontier { at: 13, len: 25 },
        "taken" => Reply::Taken(27),
        _ => Reply::Refused(refusal_of(word, uri)),
    }
}

/// Words of replies, the file that they tell of, and the line that each prints at once.
const LINES: &str = "\
located|file:///work/s.rnc|schema file:///work/s.rnc
located none||schema none
caret||caret 12
stay||stay
position||line 1 column 0
frontier||frontier 13 of 25
taken||taken 27
command||line 3 refused: BadCommand
place||line 3 refused: BadPosition 999999999999999999 2
uri||line 3 refused: BadUri
schema||line 3 refused: Unreadable NothingValid
markup||line 3 refused: Unreadable BadMarkup
form||line 3 refused: Unreadable BadForm
view||line 3 refused: NoView 7
failed||line 3 refused: Failed
memory||line 3 refused: NoMemory
absent|file:///work/b|line 3 refused: Absent file:///work/b
no text|file:///work/c|line 3 refused: NotUtf8 file:///work/c 3
absent rules|r:a|line 3 refused: BadRules Absent r:a
rules that are no text|r:b|line 3 refused: BadRules NotUtf8 r:b
bad rules|r:c|line 3 refused: BadRules Malformed r:c
rules in a loop|r:d|line 3 refused: BadRules Loop r:d
bad uri of rules|r:e|line 3 refused: BadUri";

/// The first part of a row, and the others.
fn cut(row: &str) -> (&str, &str) {
    row.split_once("|").unwrap_or((row, ""))
}

/// Whether the reply prints this line, with its end, at once.
fn prints_ended(alloc: Global, reply: &Reply, line: &str) -> bool {
    match format!(in alloc; "{line}\n") {
        Ok(want) => prints(alloc, reply, want.as_str(), 1),
        Err(_) => false,
    }
}

fn prints_row(alloc: Global, row: &str) -> bool {
    let (word, rest) = cut(row);
    let (uri, line) = cut(rest);
    match bytes_of(alloc, uri) {
        Ok(uri) => prints_ended(alloc, &reply_of(word, uri), line),
        Err(NoMemory) => false,
    }
}

#[test]
fn replies_of_a_line_are_told(rt: HostRuntime) {
    for row in LINES.split("\n") {
        assert!(rt; prints_row(rt.alloc(), row), "{row}");
    }
}
