//! Schema files in the XML syntax, and what each says by the table of the syntax (ISO/IEC 19757-2, section 3).
//!
//! The first 47 lines were what the reader wrote, and were held against the table by hand afterwards; the others were worked out from it
//! by hand. All of them are also what a second reader says, which was written apart from this one, from the table alone.

/// Schemas, each with what `told` makes of it behind `=> `, and a blank line between them. `@` stands for the declaration of the
/// schema's namespace.
pub(crate) const SCHEMAS: &str =
    r##"<grammar @ datatypeLibrary="http://www.w3.org/2001/XMLSchema-datatypes"><start><element name="doc"><attribute name="id"><data type="NCName"/></attribute><element name="title"><text/></element></element></start></grammar>
=> [start=(,element {?}doc((,attribute {}id((,{http://www.w3.org/2001/XMLSchema-datatypes}NCName)),element {?}title((,text)))));]

<element name="a" @><bogus/></element>
=> BadForm 62

<grammar
=> BadMarkup 0

<element name="a" @><text/></element>
=> element {?}a((,text))

<element name=" a&#10;" @ ns="u"><text/></element>
=> element {u}a((,text))

<element name="a" @/>
=> BadForm 0

<text @/>
=> text

<text @>x</text>
=> BadForm 0

<text @> <!-- c --> </text>
=> text

<rng:text xmlns:rng="http://relaxng.org/ns/structure/1.0"/>
=> text

<text/>
=> BadForm 0

<attribute name="a" @/>
=> attribute {}a(text)

<group ns="u" @><attribute name="a"/></group>
=> (,attribute {}a(text))

<attribute name="a" ns="u" @/>
=> attribute {u}a(text)

<attribute ns="u" @><name>a</name></attribute>
=> attribute {u}a(text)

<group ns="u" @><attribute><name> a </name><empty/></attribute></group>
=> (,attribute {u}a((,empty)))

<attribute name="xml:lang" @/>
=> attribute {http://www.w3.org/XML/1998/namespace}lang(text)

<attribute name="p:a" @ xmlns:p="v"/>
=> attribute {v}a(text)

<group @ xmlns:p="v"><attribute name="p:a" xmlns:p="w"/><attribute name="p:a"/></group>
=> (,attribute {w}a(text),attribute {v}a(text))

<group @ xmlns:p0="u0" xmlns:p1="u1" xmlns:p2="u2" xmlns:p3="u3" xmlns:p4="u4" xmlns:p5="u5" xmlns:p6="u6" xmlns:p7="u7" xmlns:p8="u8"
xmlns:p9="u9" xmlns:p10="u10" xmlns:p11="u11" xmlns:p12="u12" xmlns:p13="u13" xmlns:p14="u14" xmlns:p15="u15" xmlns:p16="u16"
xmlns:p17="u17" xmlns:p18="u18" xmlns:p19="u19" xmlns:p20="u20" xmlns:p21="u21" xmlns:p22="u22" xmlns:p23="u23" xmlns:p24="u24"
xmlns:p25="u25" xmlns:p26="u26" xmlns:p27="u27" xmlns:p28="u28" xmlns:p29="u29" xmlns:p30="u30" xmlns:p31="u31" xmlns:p32="u32"
xmlns:p33="u33">
<attribute name="p0:a"/><attribute name="p33:a" xmlns:p33="v"/><attribute name="p33:a"/></group>
=> (,attribute {u0}a(text),attribute {v}a(text),attribute {u33}a(text))

<attribute name="p:a" @/>
=> UndeclaredPrefix 'p'

<attribute name="p:a:b" @/>
=> BadForm 0

<attribute name="a" @><text/><text/></attribute>
=> BadForm 0

<element @><anyName><except><nsName ns=""/><nsName/><name ns="v">b</name></except></anyName><empty/></element>
=> element *-(|{}*|{?}*|{v}b)((,empty))

<element @><choice><name>a</name><choice><name>b</name></choice></choice><empty/></element>
=> element (|{?}a|(|{?}b))((,empty))

<element @><choice/><empty/></element>
=> BadForm 53

<element @><anyName><except/></anyName><empty/></element>
=> BadForm 62

<value @> a b </value>
=> {}token' a b '

<value @ type=" NCName " datatypeLibrary="l">a<x xmlns=""> y </x>b<!-- c -->c</value>
=> {l}NCName'abc'

<value @ datatypeLibrary="l">a</value>
=> {}token'a'

<group @ datatypeLibrary="l"><data type="t"><param name="p"> v </param><param name="q"/><except><value>a</value><value type="u">b</value></except></data><data type="t" datatypeLibrary=""/></group>
=> (,{l}t p= v  q=-((|{}token'a'|{l}u'b')),{}t)

<data type="t" @><except><empty/></except><param name="p"/></data>
=> BadForm 84

<data @/>
=> BadForm 0

<list @><oneOrMore><data type="t"/><text/></oneOrMore></list>
=> list((,+((,{}t,text))))

<mixed @><optional><ref name=" r "/></optional><zeroOrMore><parentRef name="q"/></zeroOrMore></mixed>
=> mixed((,?((,r)),*((,parent q))))

<ref name="p:r" @ xmlns:p="v"/>
=> BadForm 0

<choice @><interleave><empty/><notAllowed/></interleave></choice>
=> (|(&empty&notAllowed))

<externalRef href="a b" ns="u" @/>
=> external {u}a b

<externalRef href="a#b" @/>
=> BadForm 0

<grammar @><start combine=" choice "><text/></start><div ns="u"><define name="a" combine="interleave"><element name="b"><empty/></element><text/></define></div><include href="f"><start><text/></start><div><define name="c"><text/></define></div></include></grammar>
=> [start|=(,text);[a&=(,element {u}b((,empty)),text);];include {?}f[start=(,text);[c=(,text);];];]

<grammar @><include href="f"><include href="g"/></include></grammar>
=> BadForm 71

<grammar @><start combine="group"><text/></start></grammar>
=> BadForm 53

<grammar @><start><text/><text/></start></grammar>
=> BadForm 53

<grammar @/>
=> []

<choice @><grammar/></choice>
=> (|[])

<grammar @ xmlns:a="n"><a:doc><start/></a:doc><start a:x="y"><text/></start></grammar>
=> [start=(,text);]

<text @ x=""/>
=> BadForm 0

<text @ ns="" datatypeLibrary=""/>
=> text

<element name="a" @><text/><empty/></element>
=> element {?}a((,text,empty))

<element @><name>a</name><text/></element>
=> element {?}a((,text))

<element name="a" ns="" @><text/></element>
=> element {}a((,text))

<element @><text/></element>
=> BadForm 53

<element @><name>a</name></element>
=> BadForm 0

<element name="a" href="b" @><text/></element>
=> BadForm 0

<element name="a" @><anyName/><text/></element>
=> BadForm 62

<element name="a" @>x<text/></element>
=> BadForm 0

<element name="1a" @><text/></element>
=> BadForm 0

<element name="" @><text/></element>
=> BadForm 0

<attribute name="a" @><data type="t"/></attribute>
=> attribute {}a((,{}t))

<attribute @><anyName/></attribute>
=> attribute *(text)

<attribute @><nsName ns="u"/><empty/></attribute>
=> attribute {u}*((,empty))

<group ns="u" @><attribute><name ns="v">a</name></attribute></group>
=> (,attribute {v}a(text))

<attribute name="p:a" ns="u" @ xmlns:p="v"/>
=> attribute {v}a(text)

<attribute @/>
=> BadForm 0

<attribute name="a" type="t" @/>
=> BadForm 0

<group @><text/><empty/></group>
=> (,text,empty)

<interleave @><text/><empty/></interleave>
=> (&text&empty)

<choice @><text/><empty/></choice>
=> (|text|empty)

<group @/>
=> BadForm 0

<interleave @/>
=> BadForm 0

<choice @/>
=> BadForm 0

<group name="a" @><text/></group>
=> BadForm 0

<group @><bogus/></group>
=> BadForm 51

<optional @><text/><empty/></optional>
=> ?((,text,empty))

<zeroOrMore @><text/></zeroOrMore>
=> *((,text))

<oneOrMore @><text/></oneOrMore>
=> +((,text))

<list @><text/></list>
=> list((,text))

<mixed @><text/></mixed>
=> mixed((,text))

<optional @/>
=> BadForm 0

<zeroOrMore @/>
=> BadForm 0

<oneOrMore @/>
=> BadForm 0

<list @/>
=> BadForm 0

<mixed @/>
=> BadForm 0

<ref name="r" @/>
=> r

<parentRef name="r" @/>
=> parent r

<ref @/>
=> BadForm 0

<ref name="a b" @/>
=> BadForm 0

<ref name="r" @><text/></ref>
=> BadForm 0

<parentRef @/>
=> BadForm 0

<parentRef name="p:r" @/>
=> BadForm 0

<empty @/>
=> empty

<notAllowed @/>
=> notAllowed

<empty @><empty/></empty>
=> BadForm 0

<text name="a" @/>
=> BadForm 0

<notAllowed @>x</notAllowed>
=> BadForm 0

<value type="t" @></value>
=> {}t''

<value @><text/></value>
=> BadForm 0

<value type="p:t" @>a</value>
=> BadForm 0

<value name="a" @>b</value>
=> BadForm 0

<data type="t" @/>
=> {}t

<data type="a b" @/>
=> BadForm 0

<data type="t" @><param>1</param></data>
=> BadForm 59

<data type="t" @><param name="p"><text/></param></data>
=> BadForm 59

<data type="t" @><except/></data>
=> BadForm 59

<data type="t" @><except><value>a</value></except><except><value>b</value></except></data>
=> BadForm 92

<data type="t" @><text/></data>
=> BadForm 59

<data type="t" @>x</data>
=> BadForm 0

<group @ datatypeLibrary="l"><list datatypeLibrary="m"><data type="t"/></list><value type="t">a</value></group>
=> (,list((,{m}t)),{l}t'a')

<group @><list datatypeLibrary="m"><data type="t"/></list><data type="t"/></group>
=> (,list((,{m}t)),{}t)

<externalRef href="a.rng" @/>
=> external {?}a.rng

<externalRef @/>
=> BadForm 0

<externalRef href="a" @><text/></externalRef>
=> BadForm 0

<grammar @><text/></grammar>
=> BadForm 53

<grammar name="a" @/>
=> BadForm 0

<grammar @>x</grammar>
=> BadForm 0

<grammar @><start combine="interleave"><text/></start></grammar>
=> [start&=(,text);]

<grammar @><start/></grammar>
=> BadForm 53

<grammar @><start name="a"><text/></start></grammar>
=> BadForm 53

<grammar @><define name=" a "><text/><empty/></define></grammar>
=> [a=(,text,empty);]

<grammar @><define name="a" combine=" choice "><text/></define></grammar>
=> [a|=(,text);]

<grammar @><define><text/></define></grammar>
=> BadForm 53

<grammar @><define name="a"/></grammar>
=> BadForm 53

<grammar @><define name="p:a"><text/></define></grammar>
=> BadForm 53

<grammar @><include href="f" ns="u"/></grammar>
=> [include {u}f[];]

<grammar @><include/></grammar>
=> BadForm 53

<grammar @><include href="f#g"/></grammar>
=> BadForm 53

<grammar @><include href="f"><text/></include></grammar>
=> BadForm 71

<grammar @><div/></grammar>
=> [[];]

<grammar @><div name="a"/></grammar>
=> BadForm 53

<element @><nsName ns="u"><except><name>b</name></except></nsName><text/></element>
=> element {u}*-(|{u}b)((,text))

<element @ xmlns:p="v"><name ns="u">p:a</name><text/></element>
=> element {v}a((,text))

<element @><name><text/></name><text/></element>
=> BadForm 53

<element @><name>a b</name><text/></element>
=> BadForm 53

<element @><anyName name="a"/><text/></element>
=> BadForm 53

<element @><anyName><except><name>a</name></except><except><name>b</name></except></anyName><text/></element>
=> BadForm 53

<element @><anyName><name>a</name></anyName><text/></element>
=> BadForm 62

<element @><anyName><except><except><name>a</name></except></except></anyName><text/></element>
=> BadForm 70

<element @><name>p:a</name><text/></element>
=> UndeclaredPrefix 'p'

<group @><element name="a" xmlns:p="v"><text/></element><element name="p:a"><text/></element></group>
=> UndeclaredPrefix 'p'

<start @><text/></start>
=> BadForm 0

<name @>a</name>
=> BadForm 0

<bogus @/>
=> BadForm 0

<a><text @/></a>
=> BadForm 0

<element name="a" @ xmlns:x="n" x:y="z"><x:doc>t<text/></x:doc><text/></element>
=> element {?}a((,text))

<?xml version="1.0"?><!-- c --><text @/>
=> text

<text @></a>
=> BadMarkup 50

<text @>&nope;</text>
=> BadMarkup 50

<p:text @/>
=> BadMarkup 0

<text @/><text @/>
=> BadMarkup 51"##;
