//! The lists, and where edits move things: each call once, with memory to be had.

use nx_base::character::{is_name, is_nc_name};
use nx_base::character_code::{char_of_code, code_of_digits};
use nx_base::detail::Detail;
use nx_base::edit::{Edit, moved};
use nx_base::equal::Equal;
use nx_base::fault::{Fault, Faults, Kind, Span};
use nx_base::memory::NoMemory;
use nx_base::name::{Name, Names};
use nx_base::offer::{Offer, OfferList};
use nx_base::sequence::{Bytes, Sequence, TryCopy};
use nx_base::shared_bytes::SharedBytes;
use std::alloc::Global;

fn bytes_of(alloc: Global, text: &str) -> Result<Bytes, NoMemory> {
    Ok(Bytes::from_vec(Vec::from_slice(alloc, text.as_bytes())?))
}

fn digits(alloc: Global) -> Result<Bytes, NoMemory> {
    let mut bytes = Bytes::new(alloc);
    for byte in 0..5u8 {
        bytes.push(byte)?;
    }
    Ok(bytes)
}

// Whether two bytes are cut out of five, and one is put in.
fn is_cut(bytes: &mut Bytes) -> bool {
    if bytes.len() != 5 {
        return false;
    }
    bytes.cut(1, 3);
    bytes.len() > 1 && bytes.insert(1, 9).is_ok() && bytes.reserve(2).is_ok()
}

// Whether bytes come behind others, and are taken again.
fn is_appended(alloc: Global, bytes: &mut Bytes) -> bool {
    let Ok(more) = vec![in alloc; 6, 7] else {
        return false;
    };
    bytes.append(Sequence::from_vec(more)).is_ok()
        && bytes.pop() == Some(7)
        && bytes.pop() == Some(6)
}

// Whether the copy is of what is left.
fn has_copy(bytes: &Bytes) -> bool {
    match bytes.copy() {
        Ok(copied) => {
            copied.as_slice() == [0, 9, 3, 4].as_slice()
                && copied.get(1).copied() == Some(9)
                && copied.get(4).is_none()
        }
        Err(NoMemory) => false,
    }
}

fn is_edited(alloc: Global) -> bool {
    match digits(alloc) {
        Ok(mut bytes) => {
            is_cut(&mut bytes) && is_appended(alloc, &mut bytes) && has_copy(&bytes)
        }
        Err(NoMemory) => false,
    }
}

#[test]
fn lists_are_edited(rt: HostRuntime) {
    assert!(rt; Bytes::new(rt.alloc()).is_empty());
    assert!(rt; is_edited(rt.alloc()));
}

fn name_of(alloc: Global, ns: &str, local: &str) -> Result<Name, NoMemory> {
    Ok(Name {
        ns: bytes_of(alloc, ns)?,
        local: bytes_of(alloc, local)?,
    })
}

fn add(alloc: Global, names: &mut Names, ns: &str, local: &str) -> Result<(), NoMemory> {
    names.push(name_of(alloc, ns, local)?)?;
    Ok(())
}

fn two_names(alloc: Global) -> Result<Names, NoMemory> {
    let mut names = Names::new(alloc);
    add(alloc, &mut names, "", "a")?;
    add(alloc, &mut names, "urn:x", "b")?;
    Ok(names)
}

// Whether a name has these parts.
fn has_parts(name: &Name, ns: &str, local: &str) -> bool {
    name.ns.as_slice() == ns.as_bytes() && name.local.as_slice() == local.as_bytes()
}

// Whether its copy isn't nothing.
fn is_something(name: &Name) -> bool {
    match name.copy() {
        Ok(copied) => !Some(copied).equals(&None),
        Err(NoMemory) => false,
    }
}

fn is_last(name: Option<&Name>) -> bool {
    match name {
        Some(last) => has_parts(last, "urn:x", "b") && is_something(last),
        None => false,
    }
}

fn has_same_copy(names: &Names) -> bool {
    match names.copy() {
        Ok(copied) => copied.equals(names) && is_last(copied.get(1)),
        Err(NoMemory) => false,
    }
}

fn are_copied(names: Result<Names, NoMemory>) -> bool {
    match names {
        Ok(names) => has_same_copy(&names),
        Err(NoMemory) => false,
    }
}

#[test]
fn lists_of_lists_are_copied(rt: HostRuntime) {
    assert!(rt; are_copied(two_names(rt.alloc())));
}

fn two_offers(alloc: Global) -> Result<OfferList, NoMemory> {
    let mut offers = OfferList::new(alloc);
    offers.push(Offer::AnyElse)?;
    offers.push(Offer::Value(bytes_of(alloc, "on")?))?;
    Ok(offers)
}

fn copy_of_offers(alloc: Global) -> Result<OfferList, NoMemory> {
    two_offers(alloc)?.copy()
}

fn is_value(offer: Option<&Offer>, literal: &str) -> bool {
    match offer {
        Some(Offer::Value(value)) => value.as_slice() == literal.as_bytes(),
        _ => false,
    }
}

fn has_value(offers: Result<OfferList, NoMemory>) -> bool {
    match offers {
        Ok(copied) => is_value(copied.get(1), "on"),
        Err(NoMemory) => false,
    }
}

#[test]
fn offers_are_copied(rt: HostRuntime) {
    assert!(rt; has_value(copy_of_offers(rt.alloc())));
}

const EDIT: Edit = Edit {
    from: 4,
    to: 6,
    added: 5,
};

fn are_moved() -> bool {
    moved(3, &EDIT) == 3
        && moved(4, &EDIT) == 4
        && moved(5, &EDIT) == 4
        && moved(6, &EDIT) == 9
        && moved(usize::MAX, &EDIT) == usize::MAX
}

fn one_fault(alloc: Global) -> Result<Faults, NoMemory> {
    let mut faults = Faults::new(alloc);
    faults.push(Fault {
        span: Span { from: 2, to: 7 },
        kind: Kind::Unknown,
        detail: Detail::of(bytes_of(alloc, "x")?)?,
    })?;
    Ok(faults)
}

fn shifted(alloc: Global) -> Result<Faults, NoMemory> {
    let mut faults = one_fault(alloc)?;
    faults.shift(&EDIT);
    faults.copy()
}

fn is_shifted(fault: Option<&Fault>) -> bool {
    match fault {
        Some(fault) => {
            fault.span == Span { from: 2, to: 10 }
                && fault.kind == Kind::Unknown
                && fault.detail.pieces().0 == b"x".as_slice()
        }
        None => false,
    }
}

fn are_shifted(faults: Result<Faults, NoMemory>) -> bool {
    match faults {
        Ok(faults) => is_shifted(faults.get(0)),
        Err(NoMemory) => false,
    }
}

#[test]
fn edits_move_places_and_faults(rt: HostRuntime) {
    assert!(rt; are_moved());
    assert!(rt; are_shifted(shifted(rt.alloc())));
}

// A detail of these two pieces.
fn pieces(alloc: Global, front: &str, end: &str) -> Result<Detail, NoMemory> {
    Detail::with_end(
        bytes_of(alloc, front)?,
        SharedBytes::of(bytes_of(alloc, end)?)?,
    )
}

// Whether two details of two pieces each are equal, and so are a copy of the first and the second.
fn are_equal(alloc: Global, a: (&str, &str), b: (&str, &str)) -> Result<bool, NoMemory> {
    let one = pieces(alloc, a.0, a.1)?;
    let other = pieces(alloc, b.0, b.1)?;
    Ok(one.equals(&other) && other.equals(&one.copy()?))
}

fn is_equal(alloc: Global, a: (&str, &str), b: (&str, &str)) -> bool {
    are_equal(alloc, a, b) == Ok(true)
}

fn are_joined(alloc: Global) -> bool {
    is_equal(alloc, ("a needs", " b c"), ("a needs b", " c"))
        && is_equal(alloc, ("abc", ""), ("", "abc"))
        && is_equal(alloc, ("", ""), ("", ""))
        && !is_equal(alloc, ("ab", "c"), ("ab", "d"))
        && !is_equal(alloc, ("ab", "c"), ("abc", "d"))
        && !is_equal(alloc, ("ab", ""), ("", "abc"))
}

#[test]
fn details_are_their_pieces_joined(rt: HostRuntime) {
    assert!(rt; are_joined(rt.alloc()));
}

// Whether a text is a name or not, and one without a colon or not.
fn is_named(text: &str, name: bool, without_colon: bool) -> bool {
    is_name(text) == name && is_nc_name(text) == without_colon
}

fn are_named() -> bool {
    is_named("a:b", true, false)
        && is_named("é-1", true, true)
        && is_named("1a", false, false)
        && is_named("", false, false)
}

fn are_coded() -> bool {
    char_of_code(code_of_digits(b"e9", 16)) == Some('é')
        && char_of_code(code_of_digits(b"11", 10)) == None
        && code_of_digits(b"99999999999", 10) == 0x11_0000
}

#[test]
fn names_and_codes_are_read(rt: HostRuntime) {
    assert!(rt; are_named());
    assert!(rt; are_coded());
}
