//! Large documents that are made from two numbers.

ghost use Rattle.std.specs.Prelude.{◌≡◌, ◌++◌, IfOk, OnOk, string_bytes};
ghost use Rattle.nx_session.specs.LargeDocuments.{next_number, comment_text, paragraph_text, opening_text, large_document};

use std::alloc::{AllocError, Global};

/// The number behind this one.
fn next_number(number: u64) -> u64
    ensures { result ≡ next_number number }
{
    ((u128::from(number) * 1_103_515_245 + 12_345) % 2_147_483_648) as u64
}

/// Adds the comment that a piece of this index begins with, where it does.
fn push_comment(alloc: Global, text: &mut String, index: u64) -> Result<(), AllocError>
    ensures { OnOk result (string_bytes text.new ≡ string_bytes text.old ++ comment_text index) }
{
    if index % 100 == 0 {
        text.push_str(format!(in alloc; "<!--{index}-->")?.as_str())?;
    }
    Ok(())
}

/// Adds a paragraph of this number.
fn push_paragraph(alloc: Global, text: &mut String, number: u64) -> Result<(), AllocError>
    ensures { OnOk result (string_bytes text.new ≡ string_bytes text.old ++ paragraph_text number) }
{
    if number / 65_536 % 2 == 0 {
        text.push_str(format!(in alloc; "<para>w<em>{number}</em></para>\n")?.as_str())?;
    } else {
        text.push_str(format!(in alloc; "<para>{number}</para>\n")?.as_str())?;
    }
    Ok(())
}

/// What stands in front of the pieces.
#[tactic(auto, unfolding(crate::specs::LargeDocuments::opening_text))]
fn opening(alloc: Global, seed: u64) -> Result<String, AllocError>
    ensures { IfOk result (λ text. string_bytes text ≡ opening_text seed) }
{
    format!(in alloc; "<doc id='g'><title>{seed}</title>")
}

/// The document of this seed, with so many pieces.
pub(crate) fn large_document(alloc: Global, seed: u64, pieces: u64) -> Result<String, AllocError>
    ensures { IfOk result (λ text. string_bytes text ≡ large_document seed pieces) }
{
    let mut text = opening(alloc, seed)?;
    let mut number = seed;
    for index in 0..pieces {
        number = next_number(number);
        push_comment(alloc, &mut text, index)?;
        push_paragraph(alloc, &mut text, number)?;
    }
    text.push_str("</doc>")?;
    Ok(text)
}
