//! Where rules lead.

ghost use Rattle.std.specs.Prelude.{◌≡◌, [], List, ℕ, option_copied, Err, IfOk, IsUtf8, MatchOption, Some, None};
ghost use Rattle.std.specs.List.{list_any, AllByRecursion};
ghost use Rattle.std.specs.Str.{IsAscii, bytes_eq};
ghost use Rattle.nx_locate.specs.Answering.{MakesUri, RefusesText, Answers, ResourceAnswers, PatternAnswers, MadeAnswers, ThereAnswers};
ghost use Rattle.nx_locate.specs.Answering.{GivesTo, IsTextPlaced, AreTextPlaced, question, HasFileAt};
ghost use Rattle.nx_locate.specs.Leading.{Leads, Refers, leads_of_type, leads_if_type, element_applies, namespace_applies, is_if_given, GivesIf};
ghost use Rattle.nx_locate.specs.Leading.{UriGives, TransformGives, RuleGives, Gives, AllGive};
ghost use Rattle.nx_locate.specs.RulesRead.{IsTextTarget, IsTextRule, IsTextIfGiven};

use crate::document_element::DocumentElement;
use crate::rule::{PlacedRule, Rule, Target};
use crate::uri_pattern::{made_text, pattern_runs, stars};
use nx_base::locate_fault::LocateFault;
use nx_base::memory::NoMemory;
use nx_base::sequence::{Bytes, Sequence, TryCopy};
use nx_host::files::{FileFault, Files};
use nx_host::uri::{self, UriFault};
use nx_host::utf8::text_of;
use std::alloc::Global;

/// The URI that the text denotes in the rules file of that URI.
pub(crate) fn resolved(alloc: Global, base: &Bytes, text: &Bytes) -> Result<Bytes, LocateFault>
    requires base_is_text { IsUtf8 base.now }
    requires text_is_text { IsUtf8 text.now }
    ensures { MakesUri base.now text.now result }
{
    match uri::join(alloc, text_of(base), text_of(text)) {
        Ok(uri) => Ok(uri),
        Err(UriFault::Bad) => Err(bad_uri(text)),
        Err(UriFault::NoMemory) => Err(LocateFault::NoMemory),
    }
}

/// The refusal of a text that is no URI.
fn bad_uri(text: &Bytes) -> LocateFault
    ensures { RefusesText text.now result }
{
    match text.copy() {
        Ok(text) => LocateFault::BadUri(text),
        Err(_) => LocateFault::NoMemory,
    }
}

/// Where a rule leads, with the URI of its rules file.
#[derive(Clone, Copy)]
struct Lead<'a> {
    base: &'a Bytes,
    target: &'a Target,
}

/// Where the rule leads, if it is one of this type.
#[tactic(auto, unfolding(crate::specs::Leading::leads_if_type))]
fn leads_if_type<'a>(rule: &'a Rule, id: &[u8]) -> Option<&'a Target>
    ensures { option_copied result ≡ leads_if_type id.now rule.now }
{
    match rule {
        Rule::TypeId(other, target) => {
            if other.as_slice() == id {
                Some(target)
            } else {
                None
            }
        }
        Rule::Include(_) => None,
        Rule::Uri(_, _, _) => None,
        Rule::DocumentElement(_, _, _) => None,
        Rule::Namespace(_, _) => None,
        Rule::Default(_) => None,
        Rule::Transform(_, _) => None,
    }
}

/// Where the first rule of this type leads.
fn leads_of_type<'a>(rules: &'a [PlacedRule], id: &[u8]) -> Option<Lead<'a>>
    ensures { MatchOption result (leads_of_type id.now rules.now ≡ None)
        (λ lead. leads_of_type id.now rules.now ≡ Some (lead.base.now, lead.target.now)) }
{
    let mut rest = rules;
    while let Some((placed, more)) = rest.split_first() {
        if let Some(target) = leads_if_type(&placed.rule, id) {
            return Some(Lead {
                base: &placed.base,
                target,
            });
        }
        rest = more;
    }
    None
}

/// The schema that a reference names.
fn refers(alloc: Global, base: &Bytes, text: &Bytes) -> Result<Option<Bytes>, LocateFault>
    requires base_is_text { IsUtf8 base.now }
    requires text_is_text { IsUtf8 text.now }
    ensures { Answers (Refers base.now text.now) result }
{
    let uri = resolved(alloc, base, text)?;
    Ok(Some(uri))
}

/// Whether the type is among those that were met.
fn is_met(met: &[Bytes], id: &[u8]) -> bool
    ensures { result ≡ list_any (λ other. bytes_eq other id.now) met.now }
{
    met.iter().any(|other| other.as_slice() == id)
}

/// The schema to which a target leads, through types of which none is met twice. Each turn meets a type more, which takes memory.
fn schema_of<'a>(
    alloc: Global,
    rules: &'a [PlacedRule],
    base: &'a Bytes,
    target: &'a Target,
) -> Result<Option<Bytes>, LocateFault>
    requires rules { AreTextPlaced rules.now }
    requires base { IsUtf8 base.now }
    requires target { IsTextTarget target.now }
    ensures { Answers (Leads rules.now [] base.now target.now) result }
{
    let mut met = Sequence::new(alloc);
    let mut lead = Lead { base, target };
    for _turn in 0..u64::MAX {
        let id = match lead.target {
            Target::Uri(text) => return refers(alloc, lead.base, text),
            Target::TypeId(id) => id,
        };
        if is_met(met.as_slice(), id.as_slice()) {
            return Ok(None);
        }
        met.push(id.copy()?)?;
        lead = match leads_of_type(rules, id.as_slice()) {
            Some(next) => next,
            None => return Ok(None),
        };
    }
    Err(LocateFault::NoMemory)
}

/// Whether what is given is this.
fn is_if_given(given: &Option<Bytes>, text: &Bytes) -> bool
    ensures { result ≡ is_if_given given.now text.now }
{
    match given {
        Some(given) => given.as_slice() == text.as_slice(),
        None => true,
    }
}

/// Whether the document element has a name with this prefix and this local part, where they are given.
fn element_applies(
    element: &Option<DocumentElement>,
    prefix: &Option<Bytes>,
    local: &Option<Bytes>,
) -> bool
    ensures { result ≡ element_applies element.now prefix.now local.now }
{
    match element {
        Some(element) => is_if_given(prefix, &element.prefix) && is_if_given(local, &element.local),
        None => false,
    }
}

/// Whether the document element is in this namespace.
fn namespace_applies(element: &Option<DocumentElement>, ns: &Bytes) -> bool
    ensures { result ≡ namespace_applies element.now ns.now }
{
    match element {
        Some(element) => ns.as_slice() == element.namespace.as_slice(),
        None => false,
    }
}

/// The schema of a rule that applies or doesn't.
fn schema_if(
    alloc: Global,
    rules: &[PlacedRule],
    base: &Bytes,
    target: &Target,
    applies: bool,
) -> Result<Option<Bytes>, LocateFault>
    requires rules { AreTextPlaced rules.now }
    requires base { IsUtf8 base.now }
    requires target { IsTextTarget target.now }
    ensures { Answers (GivesIf rules.now base.now target.now applies) result }
{
    if applies {
        schema_of(alloc, rules, base, target)
    } else {
        Ok(None)
    }
}

/// Whether the joined URI is that of the document.
fn resource_applies(
    alloc: Global,
    base: &Bytes,
    document: &str,
    resource: &Option<Bytes>,
) -> Result<bool, LocateFault>
    requires base { IsUtf8 base.now }
    requires resource { IsTextIfGiven resource.now }
    ensures { ResourceAnswers base.now document.now resource.now result }
{
    match resource {
        Some(text) => {
            let uri = resolved(alloc, base, text)?;
            Ok(uri.as_slice() == document.as_bytes())
        }
        None => Ok(false),
    }
}

/// Whether the pattern fits the URI of the document.
fn pattern_applies(
    alloc: Global,
    base: &Bytes,
    document: &str,
    pattern: &Option<Bytes>,
) -> Result<bool, NoMemory>
    ensures { PatternAnswers base.now document.now pattern.now result }
{
    match pattern {
        Some(pattern) => {
            let runs = pattern_runs(
                alloc,
                base.as_slice(),
                document.as_bytes(),
                pattern.as_slice(),
            )?;
            Ok(runs.is_some())
        }
        None => Ok(false),
    }
}

/// The schema of a rule on the URI.
fn uri_gives(
    alloc: Global,
    rules: &[PlacedRule],
    document: &str,
    base: &Bytes,
    resource: &Option<Bytes>,
    pattern: &Option<Bytes>,
    target: &Target,
) -> Result<Option<Bytes>, LocateFault>
    requires rules { AreTextPlaced rules.now }
    requires base { IsUtf8 base.now }
    requires resource { IsTextIfGiven resource.now }
    requires target { IsTextTarget target.now }
    ensures { Answers (UriGives rules.now document.now base.now resource.now pattern.now target.now) result }
{
    if resource_applies(alloc, base, document, resource)? {
        return schema_of(alloc, rules, base, target);
    }
    if pattern_applies(alloc, base, document, pattern)? {
        return schema_of(alloc, rules, base, target);
    }
    Ok(None)
}

/// The URI that a rule makes of the document's; none where it makes none.
fn made_uri(
    alloc: Global,
    document: &str,
    base: &Bytes,
    from: &Bytes,
    to: &Bytes,
) -> Result<Option<Bytes>, NoMemory>
    requires document { IsAscii document.now }
    requires base { IsUtf8 base.now }
    requires to { IsUtf8 to.now }
    ensures { MadeAnswers document.now base.now from.now to.now result }
{
    let folder = base.as_slice();
    let place = document.as_bytes();
    let pattern = from.as_slice();
    let target = to.as_slice();
    let found = pattern_runs(alloc, folder, place, pattern)?;
    let Some(runs) = found else {
        return Ok(None);
    };
    let count = stars(target);
    let len = runs.len();
    if count != len {
        return Ok(None);
    }
    let made = made_text(alloc, folder, place, target, &runs)?;
    let start = text_of(base);
    let text = text_of(&made);
    match uri::join(alloc, start, text) {
        Ok(uri) => Ok(Some(uri)),
        Err(UriFault::Bad) => Ok(None),
        Err(UriFault::NoMemory) => Err(NoMemory),
    }
}

/// Whether something is under the URI.
fn is_there<F: Files>(alloc: Global, uri: &Bytes, files: &mut F) -> Result<bool, LocateFault>
    requires { IsUtf8 uri.now }
    ensures found { HasFileAt (F.told files.old) uri.now (F.faults files.old) (F.faults files.new) result }
    ensures map { F.told files.new ≡ F.told files.old }
{
    match files.has(alloc, text_of(uri)) {
        Ok(found) => Ok(found),
        Err(FileFault::Failed) => Err(LocateFault::Failed),
        Err(FileFault::NoMemory) => Err(LocateFault::NoMemory),
    }
}

/// The URI itself, if something is under it.
fn if_there<F: Files>(
    alloc: Global,
    uri: Bytes,
    files: &mut F,
) -> Result<Option<Bytes>, LocateFault>
    requires { IsUtf8 uri }
    ensures found { ThereAnswers (F.told files.old) uri (F.faults files.old) (F.faults files.new) result }
    ensures map { F.told files.new ≡ F.told files.old }
{
    if is_there(alloc, &uri, files)? {
        Ok(Some(uri))
    } else {
        Ok(None)
    }
}

/// The URI that a rule makes of the document's, if something is under it.
fn transform_gives<F: Files>(
    alloc: Global,
    document: &str,
    base: &Bytes,
    from: &Bytes,
    to: &Bytes,
    files: &mut F,
) -> Result<Option<Bytes>, LocateFault>
    requires document { IsAscii document.now }
    requires base { IsUtf8 base.now }
    requires to { IsUtf8 to.now }
    ensures gives { GivesTo (F.told files.old) (λ map. TransformGives map document.now base.now from.now to.now)
        (F.faults files.old) (F.faults files.new) result }
    ensures map { F.told files.new ≡ F.told files.old }
{
    match made_uri(alloc, document, base, from, to)? {
        Some(uri) => if_there(alloc, uri, files),
        None => Ok(None),
    }
}

/// What a rule gives.
fn rule_gives<F: Files>(
    alloc: Global,
    document: &str,
    element: &Option<DocumentElement>,
    rules: &[PlacedRule],
    placed: &PlacedRule,
    files: &mut F,
) -> Result<Option<Bytes>, LocateFault>
    requires document { IsAscii document.now }
    requires rules { AreTextPlaced rules.now }
    requires placed { IsTextPlaced placed.now }
    ensures gives { GivesTo (F.told files.old)
        (λ map. Gives map (question document.now element.now rules.now) placed.now)
        (F.faults files.old) (F.faults files.new) result }
    ensures map { F.told files.new ≡ F.told files.old }
{
    let base = &placed.base;
    match &placed.rule {
        Rule::Include(_) => Ok(None),
        Rule::Uri(resource, pattern, target) => {
            uri_gives(alloc, rules, document, base, resource, pattern, target)
        }
        Rule::DocumentElement(prefix, local, target) => schema_if(
            alloc,
            rules,
            base,
            target,
            element_applies(element, prefix, local),
        ),
        Rule::Namespace(ns, target) => {
            schema_if(alloc, rules, base, target, namespace_applies(element, ns))
        }
        Rule::Default(target) => schema_if(alloc, rules, base, target, true),
        Rule::Transform(from, to) => transform_gives(alloc, document, base, from, to, files),
        Rule::TypeId(_, _) => Ok(None),
    }
}

/// What all rules give: the schema of the first one that gives one.
pub(crate) fn all_give<F: Files>(
    alloc: Global,
    document: &str,
    element: &Option<DocumentElement>,
    rules: &[PlacedRule],
    files: &mut F,
) -> Result<Option<Bytes>, LocateFault>
    requires document { IsAscii document.now }
    requires rules { AreTextPlaced rules.now }
    ensures gives { GivesTo (F.told files.old) (λ map. AllGive map (question document.now element.now rules.now))
        (F.faults files.old) (F.faults files.new) result }
    ensures map { F.told files.new ≡ F.told files.old }
{
    let mut rest = rules;
    while let Some((placed, more)) = rest.split_first() {
        let found = rule_gives(alloc, document, element, rules, placed, files)?;
        if found.is_some() {
            return Ok(found);
        }
        rest = more;
    }
    Ok(None)
}
