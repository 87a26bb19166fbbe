//! What schema files in the XML syntax say.

ghost use Rattle.std.specs.Prelude.{◌≡◌, ◌<◌};

use crate::is_told;
use crate::printer::Printer;
use crate::tables::SCHEMAS;
use nx_base::memory::NoMemory;
use nx_base::steps::Steps;
use rnc_parse::surface::Surface;
use rngx_read::read::{XReadFault, read};
use std::alloc::Global;
use std::marker::Brand;
use std::sync::ledger::{Blank, Ledger};

fn written(alloc: Global, answer: &Result<Surface, XReadFault>) -> Result<String, NoMemory> {
    let mut printer = Printer {
        line: String::new(alloc),
        is_whole: true,
    };
    printer.answer(answer);
    if printer.is_whole {
        Ok(printer.line)
    } else {
        Err(NoMemory)
    }
}

/// Lets an answer go. That is dear to prove, for its many forms, so it is done here alone.
fn let_go(_answer: Result<Surface, XReadFault>) {}

/// What is read of a schema, or why it isn't.
fn told_by<L: Ledger>(alloc: Global, text: &String, blank: Blank) -> Result<String, NoMemory>
    requires name { blank.name ≡ L.name }
    requires parts { blank.parts ≡ L.parts }
    requires some { 0 < L.parts }
{
    let mut steps = Steps::<L>::new(blank);
    let answer = read(alloc, text.as_str(), &mut steps);
    let told = written(alloc, &answer);
    let_go(answer);
    told
}

fn told(alloc: Global, text: &str) -> Result<String, NoMemory> {
    let text = String::from_str(alloc, text)?;
    told_by::<Brand>(alloc, &text, Blank::new(1))
}

#[test]
fn schemas_are_read(rt: HostRuntime) {
    let alloc = rt.alloc();
    for row in SCHEMAS.split("\n\n") {
        let (schema, want) = row.split_once("\n=> ").unwrap_or((row, "no row"));
        let text = schema.replace(alloc, "@", "xmlns=\"http://relaxng.org/ns/structure/1.0\"");
        match text {
            Ok(text) => assert!(rt; is_told(told(alloc, text.as_str()), want), "at {schema}"),
            Err(_) => assert!(rt; false, "no memory"),
        }
    }
}

/// So many groups in one another, the innermost of which is empty.
fn nested(alloc: Global, depth: usize) -> Result<String, NoMemory> {
    let opening = "<group>".repeat(alloc, depth)?;
    let closing = "</group>".repeat(alloc, depth)?;
    Ok(format!(in alloc;
        "<element name='a' xmlns='http://relaxng.org/ns/structure/1.0'>{opening}<empty/>{closing}</element>"
    )?)
}

/// What is told of so many groups.
fn told_of_nested(alloc: Global, depth: usize) -> Result<String, NoMemory> {
    let schema = nested(alloc, depth)?;
    told(alloc, schema.as_str())
}

#[test]
fn elements_are_counted(rt: HostRuntime) {
    assert!(rt; is_told(told_of_nested(rt.alloc(), 199), "TooDeep 1455"));
    assert!(rt; !is_told(told_of_nested(rt.alloc(), 198), "TooDeep 1455"));
}
