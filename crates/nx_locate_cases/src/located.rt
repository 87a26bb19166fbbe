//! What is located, in words.

ghost use Rattle.std.specs.Prelude.{◌≡◌, ◌<◌};
ghost use Rattle.std.specs.Str.{IsAscii};
ghost use Rattle.std.specs.String.{string_bytes};

use nx_base::memory::NoMemory;
use nx_base::sequence::Bytes;
use nx_base::steps::Steps;
use nx_host::files::Files;
use nx_locate::{LocateFault, locate};
use nx_text::text::Text;
use std::alloc::Global;
use std::marker::Brand;
use std::str;
use std::sync::ledger::{Blank, Ledger};

const FOLDER: &str = "file:///work/";

/// The rules that all cases begin with.
pub(crate) const RULES: &str = "file:///work/d/s.xml";

/// A URI, which stands below the folder of the work where it has no scheme.
pub(crate) fn uri_of(alloc: Global, name: &str) -> Result<String, NoMemory> {
    if name.contains("://") {
        Ok(String::from_str(alloc, name)?)
    } else {
        Ok(format!(in alloc; "{FOLDER}{name}")?)
    }
}

/// A word and a URI, without the folder of the work.
fn worded(alloc: Global, word: &str, uri: &Bytes) -> Result<String, NoMemory> {
    let text = str::from_utf8(uri.as_slice()).unwrap_or("no text");
    let name = text.strip_prefix(FOLDER).unwrap_or(text);
    Ok(format!(in alloc; "{word} {name}")?)
}

fn refused(alloc: Global, why: LocateFault) -> Result<String, NoMemory> {
    match why {
        LocateFault::RulesAbsent(uri) => worded(alloc, "absent", &uri),
        LocateFault::RulesNotUtf8(uri, at) => {
            let word = format!(in alloc; "not utf8 at {at}")?;
            worded(alloc, word.as_str(), &uri)
        }
        LocateFault::BadRules(uri) => worded(alloc, "bad rules", &uri),
        LocateFault::RulesLoop(uri) => worded(alloc, "loop", &uri),
        LocateFault::BadUri(text) => worded(alloc, "bad uri", &text),
        LocateFault::Failed => Ok(String::from_str(alloc, "failed")?),
        LocateFault::NoMemory => Err(NoMemory),
    }
}

/// What `locate` answers, with rules or without.
fn answered<F: Files, L: Ledger>(
    alloc: Global,
    has_rules: bool,
    document: &String,
    text: &Text,
    files: &mut F,
    blank: Blank,
) -> Result<Option<Bytes>, LocateFault>
    requires uri { IsAscii (string_bytes document.now) }
    requires name { blank.name ≡ L.name }
    requires parts { blank.parts ≡ L.parts }
    requires some { 0 < L.parts }
{
    let rules = if has_rules { Some(RULES) } else { None };
    let mut steps = Steps::<L>::new(blank);
    locate(alloc, rules, document.as_str(), text, files, &mut steps)
}

/// What is answered, in words.
fn told(alloc: Global, answer: Result<Option<Bytes>, LocateFault>) -> Result<String, NoMemory> {
    match answer {
        Ok(Some(uri)) => worded(alloc, "schema", &uri),
        Ok(None) => Ok(String::from_str(alloc, "none")?),
        Err(why) => refused(alloc, why),
    }
}

pub(crate) fn text_of(alloc: Global, text: &str) -> Result<Text, NoMemory> {
    let mut whole = Text::new(alloc);
    match whole.insert(0, text) {
        Ok(()) => Ok(whole),
        Err(_) => Err(NoMemory),
    }
}

/// What is located for a document of this URI and text.
pub(crate) fn located<F: Files>(
    alloc: Global,
    has_rules: bool,
    document: &str,
    text: &str,
    files: &mut F,
) -> Result<String, NoMemory> {
    let uri = String::from_str(alloc, document)?;
    if !uri.as_str().is_ascii() {
        return Ok(String::from_str(alloc, "no URI")?);
    }
    let text = text_of(alloc, text)?;
    told(
        alloc,
        answered::<F, Brand>(alloc, has_rules, &uri, &text, files, Blank::new(1)),
    )
}
