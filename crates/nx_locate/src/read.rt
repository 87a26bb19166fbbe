//! Rules read from the items of a text.

ghost use Rattle.std.specs.Prelude.{◌≡◌, ◌+◌, ◌<◌, ◌^◌, ◌++◌, [], Some, None, List, ℕ, codes, option_copied, IfOk, OnOk, MatchOption};
ghost use Rattle.std.specs.List.{list_any};
ghost use Rattle.nx_base.specs.Names.{same_name};
ghost use Rattle.nx_locate.specs.Rules.{target_of, rule_by, include_rule, uri_rule, element_rule, namespace_rule, default_rule};
ghost use Rattle.nx_locate.specs.Rules.{transform_rule, type_rule, root_name};
ghost use Rattle.nx_locate.specs.RulesRead.{entered, is_fault, value_among, rule_at, rule_entered, depth_behind, rules_from, begins_rules};
ghost use Rattle.nx_locate.specs.RulesRead.{is_root, attribute_in};

use crate::rule::{Rule, Target};
use nx_base::memory::NoMemory;
use nx_base::name::Name;
use nx_base::sequence::{Bytes, TryCopy};
use nx_events::item::{Event, Item};
use std::alloc::Global;

/// The namespace of rules files.
const RULES_NAMESPACE: &[u8] = b"http://thaiopensource.com/ns/locating-rules/1.0";

/// The name of the element that begins.
pub(crate) fn entered(item: &Item) -> Option<&Name>
    ensures { option_copied result ≡ entered item.now }
{
    match item {
        Item::Event(Event::Enter(name), _) => Some(name),
        Item::Event(Event::EnterLost, _) => None,
        Item::Event(Event::Att(_, _), _) => None,
        Item::Event(Event::TagEnd, _) => None,
        Item::Event(Event::Chars(_), _) => None,
        Item::Event(Event::Leave, _) => None,
        Item::Fault(_) => None,
    }
}

fn is_fault(item: &Item) -> bool
    ensures { result ≡ is_fault item.now }
{
    match item {
        Item::Event(_, _) => false,
        Item::Fault(_) => true,
    }
}

/// Whether there is a fault.
pub(crate) fn has_fault(items: &[Item]) -> bool
    ensures { result ≡ list_any is_fault items.now }
{
    items.iter().any(|item| is_fault(item))
}

/// Whether the name is that of the root of a rules file.
fn is_root(name: &Name) -> bool
    ensures { result ≡ same_name name.now root_name }
{
    name.ns.as_slice() == RULES_NAMESPACE && name.local.as_slice() == b"locatingRules".as_slice()
}

/// Whether the items begin with such a root.
pub(crate) fn begins_rules(items: &[Item]) -> bool
    ensures { result ≡ begins_rules items.now }
{
    match items.split_first() {
        Some((first, _)) => match entered(first) {
            Some(name) => is_root(name),
            None => false,
        },
        None => false,
    }
}

/// Whether the name is this one in no namespace.
fn is_plain(name: &Name, local: &[u8]) -> bool
    ensures { result ≡ same_name name.now (record { ns = []; local = local.now }) }
{
    name.ns.as_slice() == b"".as_slice() && name.local.as_slice() == local
}

/// An attribute of a tag.
#[derive(Clone, Copy)]
struct Attribute<'a> {
    name: &'a Name,
    value: &'a Bytes,
}

/// The attribute that an item is.
fn attribute_in(item: &Item) -> Option<Attribute<'_>>
    ensures { MatchOption result (attribute_in item.now ≡ None)
        (λ attribute. attribute_in item.now ≡ Some (attribute.name.now, attribute.value.now)) }
{
    match item {
        Item::Event(Event::Att(name, value), _) => Some(Attribute { name, value }),
        Item::Event(Event::Enter(_), _) => None,
        Item::Event(Event::EnterLost, _) => None,
        Item::Event(Event::TagEnd, _) => None,
        Item::Event(Event::Chars(_), _) => None,
        Item::Event(Event::Leave, _) => None,
        Item::Fault(_) => None,
    }
}

/// A copy of the value of the attribute with this name, among the attributes with which the items begin.
pub(crate) fn value(tag: &[Item], local: &[u8]) -> Result<Option<Bytes>, NoMemory>
    ensures { IfOk result (λ found. found ≡ value_among local.now tag.now) }
{
    let mut rest = tag;
    while let Some((item, behind)) = rest.split_first() {
        let Some(attribute) = attribute_in(item) else {
            return Ok(None);
        };
        if is_plain(attribute.name, local) {
            return Ok(Some(attribute.value.copy()?));
        }
        rest = behind;
    }
    Ok(None)
}

/// Where a rule leads.
#[tactic(auto, unfolding(crate::specs::Rules::target_of))]
fn target_of(tag: &[Item]) -> Result<Option<Target>, NoMemory>
    ensures { IfOk result (λ found. found ≡ target_of (λ local. value_among local tag.now)) }
{
    if let Some(uri) = value(tag, b"uri")? {
        return Ok(Some(Target::Uri(uri)));
    }
    match value(tag, b"typeId")? {
        Some(id) => Ok(Some(Target::TypeId(id))),
        None => Ok(None),
    }
}

fn include_rule(rules: Option<Bytes>) -> Option<Rule>
    ensures { result ≡ include_rule rules }
{
    match rules {
        Some(rules) => Some(Rule::Include(rules)),
        None => None,
    }
}

fn uri_rule(resource: Option<Bytes>, pattern: Option<Bytes>, target: Option<Target>) -> Option<Rule>
    ensures { result ≡ uri_rule resource pattern target }
{
    match (resource, pattern, target) {
        (None, None, _) => None,
        (_, _, None) => None,
        (resource, pattern, Some(target)) => Some(Rule::Uri(resource, pattern, target)),
    }
}

fn element_rule(prefix: Option<Bytes>, local: Option<Bytes>, target: Option<Target>) -> Option<Rule>
    ensures { result ≡ element_rule prefix local target }
{
    match (prefix, local, target) {
        (None, None, _) => None,
        (_, _, None) => None,
        (prefix, local, Some(target)) => Some(Rule::DocumentElement(prefix, local, target)),
    }
}

fn namespace_rule(ns: Option<Bytes>, target: Option<Target>) -> Option<Rule>
    ensures { result ≡ namespace_rule ns target }
{
    match (ns, target) {
        (Some(ns), Some(target)) => Some(Rule::Namespace(ns, target)),
        (None, _) => None,
        (Some(_), None) => None,
    }
}

fn default_rule(target: Option<Target>) -> Option<Rule>
    ensures { result ≡ default_rule target }
{
    match target {
        Some(target) => Some(Rule::Default(target)),
        None => None,
    }
}

fn transform_rule(from: Option<Bytes>, to: Option<Bytes>) -> Option<Rule>
    ensures { result ≡ transform_rule from to }
{
    match (from, to) {
        (Some(from), Some(to)) => Some(Rule::Transform(from, to)),
        (None, _) => None,
        (Some(_), None) => None,
    }
}

fn type_rule(id: Option<Bytes>, target: Option<Target>) -> Option<Rule>
    ensures { result ≡ type_rule id target }
{
    match (id, target) {
        (Some(id), Some(target)) => Some(Rule::TypeId(id, target)),
        (None, _) => None,
        (Some(_), None) => None,
    }
}

/// The rule that an element with this local name is, the attributes of which stand in the items. One that lacks what it needs
/// is none.
#[tactic(auto, unfolding(crate::specs::Rules::rule_by))]
fn rule_by(local: &[u8], tag: &[Item]) -> Result<Option<Rule>, NoMemory>
    ensures { IfOk result (λ found. found ≡ rule_by local.now (λ name. value_among name tag.now)) }
{
    if local == b"include".as_slice() {
        return Ok(include_rule(value(tag, b"rules")?));
    }
    if local == b"uri".as_slice() {
        let resource = value(tag, b"resource")?;
        let pattern = value(tag, b"pattern")?;
        return Ok(uri_rule(resource, pattern, target_of(tag)?));
    }
    if local == b"documentElement".as_slice() {
        let prefix = value(tag, b"prefix")?;
        let name = value(tag, b"localName")?;
        return Ok(element_rule(prefix, name, target_of(tag)?));
    }
    if local == b"namespace".as_slice() {
        let ns = value(tag, b"ns")?;
        return Ok(namespace_rule(ns, target_of(tag)?));
    }
    if local == b"default".as_slice() {
        return Ok(default_rule(target_of(tag)?));
    }
    if local == b"transformURI".as_slice() {
        let from = value(tag, b"fromPattern")?;
        return Ok(transform_rule(from, value(tag, b"toPattern")?));
    }
    if local == b"typeId".as_slice() {
        let id = value(tag, b"id")?;
        return Ok(type_rule(id, target_of(tag)?));
    }
    Ok(None)
}

/// Adds the rule of the element that begins with this name.
fn push_named(rules: &mut Vec<Rule>, name: &Name, behind: &[Item]) -> Result<(), NoMemory>
    ensures { OnOk result (rules.new.items ≡ rules.old.items ++ rule_entered (Some name.now) behind.now) }
{
    if name.ns.as_slice() != RULES_NAMESPACE {
        return Ok(());
    }
    match rule_by(name.local.as_slice(), behind)? {
        Some(rule) => rules.push(rule)?,
        None => {}
    }
    Ok(())
}

/// Adds the rule of an element that begins inside of the root alone. Its attributes stand behind the item.
fn push_rule(
    rules: &mut Vec<Rule>,
    depth: usize,
    item: &Item,
    behind: &[Item],
) -> Result<(), NoMemory>
    ensures { OnOk result (rules.new.items ≡ rules.old.items ++ rule_at depth item.now behind.now) }
{
    if depth != 1 {
        return Ok(());
    }
    match entered(item) {
        Some(name) => push_named(rules, name, behind),
        None => Ok(()),
    }
}

/// How many elements are open behind an item.
fn depth_behind(depth: usize, item: &Item) -> usize
    requires { depth + 1 < 2 ^ 64 }
    ensures { result ≡ depth_behind depth item.now }
{
    match item {
        Item::Event(Event::Enter(_), _) => depth + 1,
        Item::Event(Event::EnterLost, _) => depth + 1,
        Item::Event(Event::Att(_, _), _) => depth,
        Item::Event(Event::TagEnd, _) => depth,
        Item::Event(Event::Chars(_), _) => depth,
        Item::Event(Event::Leave, _) => depth.saturating_sub(1),
        Item::Fault(_) => depth,
    }
}

/// The rules of the elements that stand inside of the root alone.
pub(crate) fn rules_of(alloc: Global, items: &[Item]) -> Result<Vec<Rule>, NoMemory>
    ensures { IfOk result (λ rules. rules.items ≡ rules_from 0 items.now) }
{
    let mut rules = Vec::new(alloc);
    let mut depth = 0;
    let mut rest = items;
    while let Some((item, behind)) = rest.split_first() {
        push_rule(&mut rules, depth, item, behind)?;
        depth = depth_behind(depth, item);
        rest = behind;
    }
    Ok(rules)
}
