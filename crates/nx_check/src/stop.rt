//! Where reading a schema file stops.

ghost use Rattle.std.specs.Prelude.{◌≡◌, IfOk, IfSome};
ghost use Rattle.nx_check.specs.Stopping.{about, at_place, compact_stop, markup_stop, StopsReading};

use nx_base::cause::Cause;
use nx_base::memory::NoMemory;
use nx_base::sequence::Bytes;
use nx_base::steps::Steps;
use rnc_lex::fault::LexFault;
use rnc_parse::read::{ReadFault, read};
use rngx_read::read::{self as markup, XReadFault, is_markup};
use std::alloc::Global;
use std::sync::ledger::Ledger;

/// Why reading a schema file stops, where that is known the byte offset, and the prefix that it is about, if it is about one.
#[derive(Drop)]
pub struct Stop {
    pub cause: Cause,
    pub at: Option<usize>,
    pub about: Bytes,
}

/// Where reading the text of a schema file stops, in the syntax that it is written in; none where it is read to its end.
pub(crate) fn stop_in<L: Ledger>(
    alloc: Global,
    text: &str,
    steps: &mut Steps<L>,
) -> Result<Option<Stop>, NoMemory>
    ensures { IfOk result (λ found. IfSome found (StopsReading text.now)) }
{
    if is_markup(text) {
        match markup::read(alloc, text, steps) {
            Ok(_) => Ok(None),
            Err(fault) => markup_stop(alloc, fault),
        }
    } else {
        match read(alloc, text) {
            Ok(_) => Ok(None),
            Err(fault) => compact_stop(alloc, fault),
        }
    }
}

/// Where reading a file in the XML syntax stops.
fn markup_stop(alloc: Global, fault: XReadFault) -> Result<Option<Stop>, NoMemory>
    ensures { IfOk result (λ found. found ≡ markup_stop fault) }
{
    match fault {
        XReadFault::BadMarkup(at) => Ok(Some(at_place(alloc, Cause::BadMarkup, at))),
        XReadFault::TooDeep(at) => Ok(Some(at_place(alloc, Cause::TooDeep, at))),
        XReadFault::BadForm(at) => Ok(Some(at_place(alloc, Cause::BadForm, at))),
        XReadFault::UndeclaredPrefix(prefix) => Ok(Some(about(Cause::UndeclaredPrefix, prefix))),
        XReadFault::NoMemory => Err(NoMemory),
    }
}

/// Where reading a file in the compact syntax stops.
fn compact_stop(alloc: Global, fault: ReadFault) -> Result<Option<Stop>, NoMemory>
    ensures { IfOk result (λ found. found ≡ compact_stop fault) }
{
    match fault {
        ReadFault::Lex(LexFault::BadEscape(at)) => Ok(Some(at_place(alloc, Cause::BadEscape, at))),
        ReadFault::Lex(LexFault::BadLiteral(at)) => Ok(Some(at_place(
            alloc,
            Cause::BadLiteral,
            at,
        ))),
        ReadFault::Lex(LexFault::BadCharacter(at)) => {
            Ok(Some(at_place(alloc, Cause::BadCharacter, at)))
        }
        ReadFault::Lex(LexFault::NoMemory) => Err(NoMemory),
        ReadFault::TooDeep(at) => Ok(Some(at_place(alloc, Cause::TooDeep, at))),
        ReadFault::Syntax(at) => Ok(Some(at_place(alloc, Cause::Syntax, at))),
        ReadFault::UndeclaredPrefix(prefix) => Ok(Some(about(Cause::UndeclaredPrefix, prefix))),
        ReadFault::Twice(prefix) => Ok(Some(about(Cause::Twice, prefix))),
        ReadFault::NoMemory => Err(NoMemory),
    }
}

/// A stop at a place.
fn at_place(alloc: Global, cause: Cause, at: usize) -> Stop
    ensures { result ≡ at_place cause at }
{
    Stop {
        cause,
        at: Some(at),
        about: Bytes::new(alloc),
    }
}

/// A stop for a prefix.
fn about(cause: Cause, prefix: Bytes) -> Stop
    ensures { result ≡ about cause prefix }
{
    Stop {
        cause,
        at: None,
        about: prefix,
    }
}
