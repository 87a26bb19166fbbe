//! Open elements, the innermost last, and their ends (XML 1.0, 3, Element Type Match).

ghost use Rattle.std.specs.Prelude.{◌≡◌, ◌-◌, ◌++◌, ◌<◌, ◌≤◌, true, length, reverse, Some, OnOk, IfSome};
ghost use Rattle.std.specs.List.{flat_map};
ghost use Rattle.nx_events.specs.Items.{around_innermost, left_out};
ghost use Rattle.nx_events.specs.Tags.{end_name};

use crate::item::{Event, Item, Items};
use crate::stack::{Named, Stack};
use crate::state::OpenElement;
use crate::tag::is_end_tag_of;
use nx_base::detail::Detail;
use nx_base::equal::same_each;
use nx_base::fault::{Fault, Kind, Span};
use nx_base::memory::NoMemory;

/// Whether the innermost element has this written name.
pub(crate) fn is_innermost(name: &[u8], elements: &Stack<OpenElement>) -> bool
    ensures place { result ≡ true → around_innermost name.now elements.now ≡ Some (length elements.now - 1) }
    ensures some { result ≡ true → 0 < length elements.now }
{
    let all = elements.as_slice();
    let len = all.len();
    if len == 0 {
        return false;
    }
    let innermost = &all[len - 1];
    same_each(innermost.name(), name)
}

/// Whether an end tag is the written name of the innermost element alone, as nearly all are.
#[inline(always)]
pub(crate) fn is_end_of_innermost(bytes: &[u8], elements: &Stack<OpenElement>) -> bool
    ensures place { result ≡ true → around_innermost (end_name bytes.now) elements.now ≡ Some (length elements.now - 1) }
    ensures some { result ≡ true → 0 < length elements.now }
{
    let all = elements.as_slice();
    let len = all.len();
    if len == 0 {
        return false;
    }
    let innermost = &all[len - 1];
    is_end_tag_of(innermost.name(), bytes)
}

/// How many elements stand around the innermost one with this written name, if there is one.
pub(crate) fn around_innermost(name: &[u8], elements: &Stack<OpenElement>) -> Option<usize>
    ensures value { result ≡ around_innermost name.now elements.now }
    ensures bound { IfSome result (λ n. n < length elements.now) }
{
    // Nearly every end tag ends the innermost element.
    if is_innermost(name, elements) {
        return Some(elements.len() - 1);
    }
    elements.last_place(name)
}

// Adds the fault of an element without an end tag of its own, and its end.
fn push_left_out(
    items: &mut Items,
    kind: Kind,
    span: Span,
    element: &OpenElement,
) -> Result<(), NoMemory>
    ensures { OnOk result (items.new ≡ items.old ++ left_out kind span element.now) }
{
    items.push(Item::Fault(Fault {
        span,
        kind,
        detail: Detail::of(element.written.to_bytes()?)?,
    }))?;
    items.push(Item::Event(Event::Leave, span))?;
    Ok(())
}

/// Adds the fault and the end of each of these elements, the innermost first.
pub(crate) fn push_all_left_out(
    items: &mut Items,
    kind: Kind,
    span: Span,
    elements: &[OpenElement],
) -> Result<(), NoMemory>
    ensures { OnOk result (items.new ≡ items.old ++ flat_map (left_out kind span) (reverse elements.now)) }
{
    let mut n = elements.len();
    while n > 0 {
        n -= 1;
        push_left_out(items, kind, span, &elements[n])?;
    }
    Ok(())
}
