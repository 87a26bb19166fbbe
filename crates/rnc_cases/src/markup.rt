//! Schemas in the XML syntax: those of `grammars` once more, with the same grammar, and files of which some are in the one syntax
//! and some in the other.
//!
//! In their texts `@` stands for the declaration of the schema's namespace, and `%` for the library of XML Schema's types.

use crate::grammars::{CLASSES, DEFINITIONS, FILES, NORMAL_FORMS, TYPES, told_under};
use crate::is_told;
use nx_base::memory::NoMemory;
use std::alloc::Global;
use std::process::Abort;

/// The first file of each schema.
const FIRST: &str = "file:///work/m.rng";

const NAMESPACE: &str = "xmlns=\"http://relaxng.org/ns/structure/1.0\"";

const LIBRARY: &str = "datatypeLibrary=\"http://www.w3.org/2001/XMLSchema-datatypes\"";

/// The grammar of a schema, or why there is none.
fn told_of(alloc: Global, schema: &str) -> Result<String, NoMemory> {
    let named = schema.replace(alloc, "@", NAMESPACE)?;
    let typed = named.as_str().replace(alloc, "%", LIBRARY)?;
    told_under(alloc, FIRST, typed.as_str())
}

/// Whether this is told of the schema, or it has no form in the XML syntax.
fn is_alike(alloc: Global, twin: &str, want: &str) -> bool {
    twin == "none" || is_told(told_of(alloc, twin), want)
}

/// Compares what is told of each schema in the XML syntax with what stands behind that of the compact one.
fn compare_twins(rt: &impl Abort, alloc: Global, rows: &str, twins: &str) {
    for (row, twin) in rows.split("\n\n").zip(twins.split("\n\n")) {
        let (_, want) = row.split_once("\n=> ").unwrap_or((row, "no row"));
        assert!(rt; is_alike(alloc, twin, want), "at {twin}");
    }
    assert_eq!(rt; rows.split("\n\n").count(), twins.split("\n\n").count());
}

/// Files that are included or external.
const FILES_IN_MARKUP: &str =
    r##"<grammar @><include href="i.rng"><start><element name="a"><ref name="x"/></element>
</start></include></grammar>
# i.rng
<grammar @><start><element name="b"><ref name="x"/></element></start><define name="x"><element name="c"><empty/>
</element></define></grammar>

<grammar @><include href="m.rng"/></grammar>

<element name="a" @><optional><externalRef href="m.rng"/></optional></element>

<choice @><externalRef href="p.rng"/><externalRef href="d/q.rng"/></choice>
# p.rng
<text @/>
# d/q.rng
<grammar @><start><ref name="x"/></start><define name="x"><empty/></define><include href="../m.rng"/></grammar>

<element name="a" @><externalRef href="d/p.rng"/></element>
# d/p.rng
<choice @><externalRef href="q.rng"/><externalRef href="q.rng"/></choice>
# d/q.rng
<element name="b" @><text/></element>

<grammar @><start><externalRef href="p.rng"/></start><define name="x"><element name="x"><empty/></element></define></grammar>
# p.rng
<element name="p" @><ref name="x"/><grammar><start><parentRef name="x"/></start></grammar></element>

<grammar @><start><grammar><start><externalRef href="p.rng"/></start></grammar></start><define name="x">
<element name="x"><empty/></element></define></grammar>
# p.rng
<parentRef name="x" @/>

<externalRef href="p.rng" @/>
# p.rng
<element name="p" @><ref name="x"/></element>

<grammar ns="w" @><start><choice><externalRef href="p.rng" ns="u"/><externalRef href="p.rng"/></choice></start></grammar>
# p.rng
<element name="p" @><attribute name="q"/></element>

<externalRef href="p.rng" ns="u" @/>
# p.rng
<externalRef href="q.rng" @/>
# q.rng
<element name="a" @><element><name ns="v">b</name><empty/></element></element>

<grammar ns="u" @><include href="p.rng"><define name="x"><element name="x"><empty/></element></define></include></grammar>
# p.rng
<grammar ns="v" @><start><element name="p"><ref name="x"/></element></start><define name="x"><empty/></define>
<include href="q.rng"/></grammar>
# q.rng
<grammar @><define name="y"><element name="y"><empty/></element></define></grammar>

<grammar @><include href="p.rng"/></grammar>
# p.rng
<empty @/>

<grammar @><include href="p.rng"/></grammar>
# p.rng
<optional @><grammar><start><empty/></start></grammar></optional>

<grammar @><include href="p.rng"><define name="x"><empty/></define></include></grammar>
# p.rng
<grammar @><start><ref name="x"/></start><define name="x"><text/></define></grammar>

<externalRef href="p.rng" @/>
# p.rng
<grammar @><start><text/></start></grammar>

<grammar @><include href="p.rng"><define name="y"><empty/></define></include></grammar>
# p.rng
<grammar @><start><ref name="x"/></start><define name="x"><text/></define></grammar>

<grammar @><define name="x"><text/></define><include href="p.rng"><define name="x"><empty/></define></include></grammar>
# p.rng
<grammar @><start><text/></start></grammar>

<grammar @><include href="p.rng"><start><empty/></start></include></grammar>
# p.rng
<grammar @><define name="x"><text/></define></grammar>

<grammar @><include href="p.rng"><define name="x"><empty/></define></include></grammar>
# p.rng
<grammar @><start><ref name="x"/></start><include href="q.rng"/></grammar>
# q.rng
<grammar @><define name="x"><text/></define></grammar>

<grammar @><include href="p.rng"><define name="x"><empty/></define></include></grammar>
# p.rng
<grammar @><start><ref name="x"/></start><include href="q.rng"><define name="x"><text/></define></include></grammar>
# q.rng
<grammar @><define name="x"><ref name="nowhere"/></define></grammar>

<grammar @><include href="p.rng"><start><text/></start></include></grammar>
# p.rng
<grammar @><start combine="choice"><ref name="x"/></start><start combine="choice"><ref name="y"/></start>
<define name="x"><empty/></define><define name="y"><empty/></define></grammar>

<grammar @><define name="x" combine="choice"><empty/></define><include href="p.rng"><div>
<define name="x" combine="choice"><text/></define></div></include><start><ref name="x"/></start>
<define name="x" combine="choice"><list><empty/></list></define></grammar>
# p.rng
<grammar @><define name="x"><ref name="y"/></define><define name="x" combine="interleave"><externalRef href="q.rng"/>
</define><define name="y" combine="choice"><element name="y"><ref name="y"/></element></define></grammar>
# q.rng
<element name="q" @><ref name="nowhere"/></element>

<grammar @><include href="p.rng"><define name="x"><empty/></define></include><start><ref name="x"/></start></grammar>
# p.rng
<grammar @><define name="x"><externalRef href="q.rnc"/></define></grammar>

<grammar @><start><ref name="nowhere"/></start><include href="d/p.rnc"/><include href="q.rng"/></grammar>
# q.rng
<grammar @><start/></grammar>

<grammar @><include href="p.rng"/><include href="q.rng"/></grammar>
# p.rng
<grammar @><include href="d/r.rnc"/></grammar>

<externalRef href="http://[" @/>

none"##;

/// Definitions and references.
const DEFINITIONS_IN_MARKUP: &str = r##"<grammar @/>

<grammar @><define name="x"><empty/></define></grammar>

<grammar @><start><grammar><define name="x"><empty/></define></grammar></start></grammar>

<grammar @><start><empty/></start><define name="x"><grammar/></define></grammar>

<grammar @><start><element name="a"><empty/></element></start><start><element name="a"><empty/></element></start></grammar>

<grammar @><start><empty/></start><define name="x" combine="choice"><empty/></define><define name="x"><text/></define>
<define name="x" combine="interleave"><text/></define></grammar>

<grammar @><start><empty/></start><define name="x"><grammar><start combine="interleave"><text/></start>
<start combine="choice"><text/></start></grammar></define></grammar>

<grammar @><start combine="choice"><text/></start><div><start combine="choice"><list><text/></list></start><div><start>
<empty/></start></div></div></grammar>

<grammar @><start><ref name="x"/></start><define name="x" combine="interleave"><text/></define><define name="x">
<element name="a"><ref name="x"/></element></define><define name="x" combine="interleave"><empty/></define>
<define name="x" combine="interleave"><text/></define></grammar>

<grammar @><start><empty/></start><define name="x"><ref name="y"/></define></grammar>

<element name="a" @><ref name="x"/></element>

<parentRef name="x" @/>

<grammar @><start><parentRef name="x"/></start><define name="x"><empty/></define></grammar>

<grammar @><start><grammar><start><parentRef name="x"/></start><define name="x"><empty/></define></grammar></start>
<define name="y"><empty/></define></grammar>

<grammar @><start><ref name="x"/></start><define name="x"><grammar><start><group><ref name="x"/><parentRef name="y"/>
</group></start><define name="x"><text/></define></grammar></define><define name="y"><list><text/></list></define></grammar>

<grammar @><start><grammar><start><grammar><start><group><parentRef name="x"/><ref name="x"/></group></start>
<define name="x"><text/></define></grammar></start><define name="x"><list><text/></list></define></grammar></start>
<define name="x"><ref name="y"/></define><define name="y"><empty/></define></grammar>

<grammar @><start><ref name="x"/></start><define name="x"><choice><element name="a"><empty/></element><ref name="x"/>
</choice></define></grammar>

<grammar @><start><empty/></start><define name="x"><attribute name="x"><optional><ref name="y"/><text/></optional>
</attribute></define><define name="y"><list><zeroOrMore><ref name="x"/></zeroOrMore></list></define></grammar>

<grammar @><start><ref name="x"/></start><define name="x"><grammar><start><parentRef name="x"/></start></grammar>
</define></grammar>

<grammar @><start><empty/></start><define name="x"><data type="token"><except><ref name="y"/><value>a</value></except>
</data></define><define name="y"><ref name="x"/></define></grammar>

<grammar @><start><ref name="x"/></start><define name="x"><element name="a"><optional><ref name="x"/></optional>
<ref name="y"/></element></define><define name="y"><element name="b"><ref name="x"/></element></define></grammar>

<element name="a" @><zeroOrMore><element name="b"><text/></element></zeroOrMore><mixed><optional><attribute name="c"/>
</optional></mixed><oneOrMore><element name="d"><notAllowed/></element></oneOrMore></element>"##;

/// What is short for something else, what is not allowed, and what is empty.
const NORMAL_FORMS_IN_MARKUP: &str = r##"<optional @><text/></optional>

<zeroOrMore @><text/></zeroOrMore>

<oneOrMore @><text/></oneOrMore>

<mixed @><list><text/></list></mixed>

<choice @><text/><list><text/></list><oneOrMore><text/></oneOrMore></choice>

<group @><text/><list><text/></list><oneOrMore><text/></oneOrMore></group>

<interleave @><text/><list><text/></list><oneOrMore><text/></oneOrMore></interleave>

<group @><text/><group><list><text/></list><oneOrMore><text/></oneOrMore></group></group>

<group @><text/><notAllowed/></group>

<interleave @><notAllowed/><text/></interleave>

<oneOrMore @><notAllowed/></oneOrMore>

<list @><notAllowed/></list>

<attribute name="a" @><notAllowed/></attribute>

<element name="a" @><notAllowed/></element>

<choice @><notAllowed/><text/></choice>

<choice @><text/><notAllowed/></choice>

<choice @><notAllowed/><notAllowed/></choice>

<zeroOrMore @><notAllowed/></zeroOrMore>

<data type="token" @><except><notAllowed/></except></data>

<data type="token" @><except><notAllowed/><value>y</value><list><notAllowed/></list></except></data>

<choice @><group><text/><notAllowed/><text/></group><interleave><empty/><text/><empty/></interleave><notAllowed/></choice>

<group @><empty/><text/></group>

<interleave @><text/><empty/></interleave>

<group @><empty/><empty/></group>

<choice @><empty/><empty/></choice>

<oneOrMore @><empty/></oneOrMore>

<mixed @><empty/></mixed>

<choice @><text/><empty/></choice>

<group @><choice><text/><empty/></choice><choice><empty/><empty/></choice><oneOrMore><empty/></oneOrMore><group><empty/>
<empty/></group><optional><empty/></optional></group>

<choice @><choice><empty/><text/></choice><empty/><list><empty/></list></choice>

<interleave @><zeroOrMore><text/></zeroOrMore><attribute name="a"><empty/></attribute></interleave>"##;

/// Classes of names.
const CLASSES_IN_MARKUP: &str =
    r##"<element xmlns:u="v" @><choice><name>a</name><name>u:b</name><nsName ns="v"><except>
<name>u:c</name><name ns="">d</name></except></nsName></choice><empty/></element>

<element @><anyName><except><name>a</name><anyName/></except></anyName><empty/></element>

<grammar @><start><empty/></start><define name="x"><attribute><anyName><except><name>a</name><anyName><except>
<name>b</name></except></anyName></except></anyName><empty/></attribute></define></grammar>

<attribute ns="v" @><nsName><except><nsName/></except></nsName><empty/></attribute>

<attribute @><nsName ns="v"><except><name ns="">a</name><anyName/></except></nsName><empty/></attribute>

<attribute ns="v" xmlns:u="v" @><anyName><except><nsName><except><name>u:a</name></except></nsName></except></anyName>
<empty/></attribute>

<oneOrMore @><attribute><anyName/></attribute></oneOrMore>

<grammar @><start><empty/></start><define name="x"><attribute name="xmlns"><empty/></attribute></define></grammar>

<element name="xmlns" @><attribute><anyName><except><name ns="">a</name><name ns="">xmlns</name></except></anyName>
<empty/></attribute></element>

<element name="xmlns" @><empty/></element>

<attribute ns="http://www.w3.org/2000/xmlns" @><anyName><except><nsName/></except></anyName><empty/></attribute>

<element name="u:a" xmlns:u="http://www.w3.org/2000/xmlns" @><empty/></element>

<element @><choice><name>a</name><name ns="http://www.w3.org/2000/xmlns/">b</name></choice><empty/></element>

<element @><anyName><except><name>a</name><nsName ns="http://www.w3.org/2000/xmlns/"/></except></anyName><empty/></element>"##;

/// Datatypes and what is taken from them.
const TYPES_IN_MARKUP: &str =
    r##"<element name="n" @ %><data type="int"><param name="minInclusive">5</param>
<param name="maxInclusive">4</param></data></element>

<grammar @ %><start><empty/></start><define name="x"><data type="QName"/></define></grammar>

<value type="QName" @ %>a</value>

<data type="string" @ datatypeLibrary="http://example.org/types"/>

<data type="boolean" @ %><param name="length">1</param></data>

<grammar @><start><empty/></start><define name="x"><data type="token"><param name="length">1</param></data></define></grammar>

<data type="int" @ %><param name="minInclusive">x</param></data>

<data type="string" @ %><param name="length">1</param><param name="length">-1</param></data>

<value type="int" @ %>x</value>

<value type="integer" @ %>1234567890123456789012345678901</value>

<data type="int" @ %><except><value type="int">x</value></except></data>

<choice @ %><value type="int"> 7 </value><value>x</value><value type="string" datatypeLibrary=""/></choice>

<grammar @ %><start><data type="int"><param name="minInclusive">2</param><except><value type="int">1</value>
<value type="int">3</value><ref name="x"/><notAllowed/></except></data></start><define name="x"><choice><value>y</value>
<value type="string" datatypeLibrary="">z</value></choice><empty/></define></grammar>

<choice @><group><data type="token"><except><value>y</value></except></data></group><data type="string"><except>
<value type="string">z</value><value>w</value></except></data><data type="token"><except><notAllowed/></except></data></choice>

<data type="ID" @ %><except><value type="NCName">a</value></except></data>

<data type="token" @><except><text/><value>y</value></except></data>

<data type="token" @><except><list><value>y</value></list></except></data>

<data type="token" @><except><attribute name="a"/></except></data>

<grammar @><start><data type="token"><except><ref name="x"/></except></data></start><define name="x"><element name="x">
<text/></element></define></grammar>

<data type="token" @><except><value>y</value><data type="token"/></except></data>

<data type="token" @><except><optional><value>y</value></optional></except></data>"##;

/// Schemas in files of both syntaxes, and what is told of each.
const MIXED: &str = r##"include "i.rng" { start = element a { x } }
# i.rng
<grammar @><start><element name="b"><ref name="x"/></element></start><define name="x"><element name="c"><empty/></element>
</define></grammar>
=> #1; #0 c = empty; #1 a = #0

<grammar @><include href="i.rnc"><start><element name="a"><ref name="x"/></element></start></include></grammar>
# i.rnc
start = element b { x }
x = element c { empty }
=> #1; #0 c = empty; #1 a = #0

default namespace = "u" external "p.rng"
# p.rng
<element name="p" @><attribute name="q"/></element>
=> #0; #0 u:p = @q text

<externalRef href="p.rnc" ns="u" @/>
# p.rnc
element p { attribute q { text } }
=> #0; #0 u:p = @q text

default namespace = "u" include "d/p.rng"
# d/p.rng
<grammar @><include href="../q.rnc"/></grammar>
# q.rnc
start = element q { empty }
=> #0; #0 u:q = empty

start = x x |= empty include "p.rng"
# p.rng
<grammar @><define name="x" combine="choice"><text/></define></grammar>
=> (empty|text)

<grammar @ %><start><externalRef href="p.rng"/></start></grammar>
# p.rng
<data type="int" @/>
=> UnknownType

external "p.rng"
# p.rng
<externalRef href="m.rng" @/>
=> IncludeLoop

include "p.rng"
# p.rng
<text @/>
=> NotGrammar

<grammar @><include href="p.rnc"/></grammar>
# p.rnc
text
=> NotGrammar

<grammar @><include href="p.rnc"><define name="y"><empty/></define></include></grammar>
# p.rnc
start = text
=> NoDefinition

<externalRef href="p.rnc" @/>
# p.rnc
element
=> Syntax

element a { external "p.rng" }
# p.rng
<element name="a" @><bogus/></element>
=> BadForm

include "p.rng"
# p.rng
<grammar @>
=> BadMarkup

external "p.rng"
# p.rng
<element name="r:a" @><empty/></element>
=> UndeclaredPrefix

include "p.rng"
# p.rng
 <!-- c --><start @><empty/></start>
=> BadForm"##;

/// White space and a byte order mark in front of the first element, and no element at all.
const FRONTS: &str = "\u{feff}<text @/>
=> text

\u{feff} \t\r
<?xml-model href='x'?><text @/>
=> text

<?xml version='1.0'?><!DOCTYPE text [ <!ELEMENT text EMPTY> ]><text @/>
=> text

\u{feff}text
=> text

<!-- c -->
=> BadMarkup";

/// Compares what is told of each schema with what stands behind `=> `.
fn compare(rt: &impl Abort, alloc: Global, rows: &str) {
    for row in rows.split("\n\n") {
        let (schema, want) = row.split_once("\n=> ").unwrap_or((row, "no row"));
        assert!(rt; is_told(told_of(alloc, schema), want), "at {schema}");
    }
}

#[test]
fn files_of_markup_are_put_together(rt: HostRuntime) {
    compare_twins(&rt, rt.alloc(), FILES, FILES_IN_MARKUP);
}

#[test]
fn references_in_markup_are_resolved(rt: HostRuntime) {
    compare_twins(&rt, rt.alloc(), DEFINITIONS, DEFINITIONS_IN_MARKUP);
}

#[test]
fn forms_of_markup_are_normal(rt: HostRuntime) {
    compare_twins(&rt, rt.alloc(), NORMAL_FORMS, NORMAL_FORMS_IN_MARKUP);
}

#[test]
fn names_in_markup_are_judged(rt: HostRuntime) {
    compare_twins(&rt, rt.alloc(), CLASSES, CLASSES_IN_MARKUP);
}

#[test]
fn types_in_markup_are_found(rt: HostRuntime) {
    compare_twins(&rt, rt.alloc(), TYPES, TYPES_IN_MARKUP);
}

#[test]
fn files_of_both_syntaxes_are_put_together(rt: HostRuntime) {
    compare(&rt, rt.alloc(), MIXED);
}

#[test]
fn the_first_character_tells_the_syntax(rt: HostRuntime) {
    compare(&rt, rt.alloc(), FRONTS);
}
