//! Tokens of which one look tells what they give: start tags that are a plain name alone or have one or two plain attributes
//! (`plain_opening`), the end of the innermost element, and characters that stand for themselves. Most tokens are such. They give no fault and declare nothing, so who asks for faults alone
//! passes them at once, and who asks for events needs no list of them.

ghost use Rattle.std.specs.Prelude.{◌≡◌, ◌+◌, ◌<◌, ◌≤◌, ◌^◌, [], true, false, length, IfOk, IfSome, OnOk, OnErr, option_copied};
ghost use Rattle.nx_base.specs.declared.token.TokenKind.TheVariants as kinds;
ghost use Rattle.nx_events.specs.Among.{faults_among};
ghost use Rattle.nx_events.specs.Items.{items_of_token, state_behind};
ghost use Rattle.nx_events.specs.PlainTokens.{IsPlainStart, IsPlainEnd, IsPlainText, unprefixed_name};
ghost use Rattle.nx_events.specs.Prefixes.{run_string};
ghost use Rattle.nx_events.specs.PlainTokens.{StandsForItself, element_begun, innermost_ended, characters_added};
ghost use Rattle.nx_events.specs.Runs.{run_back};

use crate::end_tag::close;
use crate::nesting::is_end_of_innermost;
use crate::plain_opening::plain_opening;
use crate::reading::Reading;
use crate::stage::{is_behind, is_inside};
use crate::state::EventState;
use crate::tag::plain_tag_name;
use crate::{element, plain};
use nx_base::memory::NoMemory;
use nx_base::name::Name;
use nx_base::token::{Token, TokenKind};
use std::alloc::Global;

/// The name of a start tag (XML 1.0, 3.1) that is a plain name alone, in front of the root's end.
#[inline(always)]
pub fn plain_start<'t>(state: &EventState, token: &'t Token) -> Option<&'t [u8]>
    ensures { token.now.kind ≡ kinds.Start → IfSome result (λ written. IsPlainStart state.now token.now written.now) }
{
    let written = plain_tag_name(token.bytes.as_slice())?;
    if is_behind(state) {
        return None;
    }
    Some(written)
}

/// Whether an end tag is that of the innermost open element (XML 1.0, 3, Element Type Match), and nothing but its name.
#[inline(always)]
pub fn is_plain_end(state: &EventState, token: &Token) -> bool
    ensures { token.now.kind ≡ kinds.End → result ≡ true → IsPlainEnd state.now token.now }
{
    is_end_of_innermost(token.bytes.as_slice(), &state.elements)
}

/// Whether character data (XML 1.0, 2.4) stands inside of an element, and each of its bytes for itself.
#[inline(always)]
pub fn is_plain_text(state: &EventState, token: &Token) -> bool
    ensures { token.now.kind ≡ kinds.Text → result ≡ true → IsPlainText state.now token.now }
{
    if !is_inside(state) {
        return false;
    }
    plain::are_plain(Reading::Text, token.bytes.as_slice())
}

/// The string of the run that a tag ends, if there is one.
pub fn ended_run(state: &EventState) -> Option<&[u8]>
    ensures { option_copied result ≡ run_string state.now.run }
{
    let run = state.run.get()?;
    if run.string.is_empty() {
        return None;
    }
    Some(run.string.as_slice())
}

/// Puts the name of an element that is written without a prefix (Namespaces in XML 1.0, 6.2) in the place of another name, in that one's
/// memory. Where it is refused, anything may be there.
#[inline(always)]
pub fn put_unprefixed_name(
    alloc: Global,
    name: &mut Name,
    state: &EventState,
    written: &[u8],
) -> Result<(), NoMemory>
    ensures { OnOk result (name.new ≡ unprefixed_name state.now.scope written.now) }
{
    element::put_unprefixed_name(alloc, name, &state.scope, written)
}

/// Begins an element that declares nothing. Where it is refused, the state is as before.
#[inline(always)]
pub fn begin_element(state: &mut EventState, written: &[u8]) -> Result<(), NoMemory>
    ensures ok { OnOk result (state.new ≡ element_begun state.old written.now) }
    ensures err { OnErr result (state.new ≡ state.old) }
{
    let outer = state.scope.len();
    state.elements.open_element(written, outer)?;
    state.came = true;
    state.started = true;
    state.run.end();
    Ok(())
}

/// Ends the innermost element.
pub fn end_innermost(state: &mut EventState)
    requires { 0 < length state.old.elements }
    ensures { state.new ≡ innermost_ended state.old }
{
    let innermost = state.elements.len() - 1;
    close(state, innermost);
}

/// Adds characters that stand for themselves. Where it is refused, the state is as before.
#[inline(always)]
pub fn add_characters(state: &mut EventState, bytes: &[u8]) -> Result<(), NoMemory>
    requires room { run_back state.old.run + length bytes.now < 2 ^ 64 }
    requires plain { StandsForItself bytes.now }
    ensures ok { OnOk result (state.new ≡ characters_added state.old bytes.now) }
    ensures err { OnErr result (state.new ≡ state.old) }
{
    state.run.join_plain(bytes)?;
    state.came = true;
    Ok(())
}

// Passes a start tag with one or two attributes, if it is one of which one look tells what it gives, and answers whether it did.
fn pass_plain_opening(state: &mut EventState, token: &Token) -> Result<bool, NoMemory>
    requires { token.now.kind ≡ kinds.Start }
    ensures behind { IfOk result (λ passed. passed ≡ true → state.new ≡ state_behind state.old token.now) }
    ensures faults { IfOk result (λ passed. passed ≡ true → faults_among (items_of_token state.old token.now) ≡ []) }
    ensures stays { IfOk result (λ passed. passed ≡ false → state.new ≡ state.old) }
    ensures unchanged { OnErr result (state.new ≡ state.old) }
{
    let Some(tag) = plain_opening(state, token) else {
        return Ok(false);
    };
    begin_element(state, tag.written)?;
    Ok(true)
}

/// Passes a token if one look tells that it gives no fault, and answers whether it did. Where it didn't, or was refused, the state is as
/// before.
pub(crate) fn pass_plain(state: &mut EventState, token: &Token) -> Result<bool, NoMemory>
    requires place { run_back state.old.run ≤ token.now.from }
    requires room { token.now.from + length token.now.bytes < 2 ^ 64 }
    ensures behind { IfOk result (λ passed. passed ≡ true → state.new ≡ state_behind state.old token.now) }
    ensures faults { IfOk result (λ passed. passed ≡ true → faults_among (items_of_token state.old token.now) ≡ []) }
    ensures stays { IfOk result (λ passed. passed ≡ false → state.new ≡ state.old) }
    ensures unchanged { OnErr result (state.new ≡ state.old) }
{
    match token.kind {
        TokenKind::Start => {
            let Some(written) = plain_start(state, token) else {
                return pass_plain_opening(state, token);
            };
            begin_element(state, written)?;
            Ok(true)
        }
        TokenKind::End => {
            if !is_plain_end(state, token) {
                return Ok(false);
            }
            end_innermost(state);
            Ok(true)
        }
        TokenKind::Text => {
            if !is_plain_text(state, token) {
                return Ok(false);
            }
            add_characters(state, token.bytes.as_slice())?;
            Ok(true)
        }
        _ => Ok(false),
    }
}
