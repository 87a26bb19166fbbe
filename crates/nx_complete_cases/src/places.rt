//! Cases: a schema, and behind it texts with what is offered at the caret.

/// The schema of a document with a title and paragraphs, and its places; then those of others. Between two schemas stands an empty line.
pub(crate) const PLACES: &str = "\
start = element doc { attribute id { xsd:NCName }, element title { text }, element para { (text | element em { text })* }* }
  |<doc> => none
  | => none
  <| => name doc
  <d|oc id='a'> => name doc
  <doc| => name doc
  <?x?><| => name doc
  <doc | => name id
  <doc i|d='a'><title/> => name id
  <doc  |  > => name id
  <doc id='a' | => nothing
  <doc id='a'| => none
  <doc id=| => none
  <doc id| => name id
  <doc id='| => nothing
  <doc id='a'><| => name title
  <doc id='a'><t|itle/> => name title
  <doc id='a'><title/><| => name para
  <doc id='a'><title>T</title> <| => name para
  <doc id='a'><title/><para><| => name em
  <doc id='a'><title/><para>x<em>y</em>z<| => name em
  <doc id='a'><title/><para><em><| => nothing
  <doc id='a'><title/><para><em></| => end em
  <doc id='a'><title/><para></| => end para
  <doc id='a'><title/></| => end doc
  <doc id='a'><title/></do|c> => end doc
  <doc id='a'></| => nothing
  </| => nothing
  <doc id='a'>x| => none
  <doc id='a'><title/><para>x &amp;| y</para> => none
  <doc id='a'><!-- <| => none
  <doc id='a'><title/><!-- x --><| => name para
  <doc id='a'><title/><![CDATA[<| => none
  <doc id='a'/><| => nothing
  <doc id='a'><para/><| => name para
  <doc id='a'><para/></| => end doc
  <doc><| => name title
  <doc id='1a'><| => name title
  <doc id='a'>x<| => name title
  <doc id='a'><title/><foo><| => none
  <doc id='a'><title/><foo></| => none
  <doc id='a'><title/><foo><em><| => nothing
  <doc id='a'><title/><foo><para><| => name em
  <doc id='a'><title/><foo/><| => name para
  <doc id='a'><title/><em></| => end em
  <doc id='a'><title/><em></em><| => name para
  <doc id='a'><title/><p:para><| => none
  <doc id='a'><title/><p:para | => none
  <doc id='a'><title/><foo><para | => none
  <doc id='a'><title/><foo | => none
  <doc id='a'><title/><para | => nothing
  <doc id='a'><title/><para id='| => nothing
  <?xml version='1.0'?><!DOCTYPE doc><| => name doc

element a { attribute x { \"on\" | \"off\" } }
  <a x='| => value off, value on
  <a x=\"o| => value off, value on
  <a y='| => nothing
  <a x='on' | => nothing
  <a x='on' x='| => nothing
  <a xmlns='| => nothing
  <a p:x='| => nothing
  <a xmlns:p='u' p:x='| => nothing
  <a xmlns:p='u' | => name x
  <b x='| => none
  <a x='off'></| => end a
  <a></| => end a

element * { empty }
  <| => any-else
  <a><| => nothing
  <a></| => end a

namespace n = \"u\" element n:* - n:a { empty }
  <| => any-in u

namespace n = \"u\" element (n:* - n:a) | b { empty }
  <| => name b, any-in u

namespace n = \"u\" element * - (n:* | b) { empty }
  <| => any-in , any-else

start = element a { b? } b = element b { b }
  <a><| => nothing
  <a></| => end a

start = element a { element b { empty }?, element c { empty }*, element d { empty } }
  <a><| => name b, name c, name d
  <a><b/><| => name c, name d
  <a><c/><| => name c, name d
  <a></| => nothing
  <a><d/></| => end a
  <a><d/><| => nothing
  <a><c/><b/><| => name c, name d

namespace p = \"v\" default namespace = \"u\" start = element a { attribute p:x { \"1\" | \"2\" }?, attribute y { text }?, \
element p:b { empty }? }
  <| => name {u}a
  <a xmlns='u'><| => name {v}b
  <a xmlns='u' | => name y, name {v}x
  <p:a xmlns:p='u' xmlns:q='v' q:x='| => value 1, value 2
  <p:a xmlns:p='u' q:x='| => nothing
  <p:a xmlns:p='u' xmlns:q='v' q:x='1' | => name y
  <p:a q:x='|' xmlns:p='u' xmlns:q='v'> => none
  <a | xmlns='u'> => none

start = element a { attribute * { text }*, (text & element b { empty }) }
  <a | => name a, name b, any-in , any-else
  <a x='1' | => name a, name b, any-in , any-else
  <a a='1' | => name b, any-in , any-else
  <a p:x='1' xmlns:p='u' | => name a, name b, any-in , any-else
  <a>x<| => name b
  <a>x</| => nothing
  <a>x<b/></| => end a

start = element a { attribute x { xsd:integer \"1\" | \"one\" }, attribute * - x { \"two\" }* }
  <a x='| => value 1, value one
  <a z='| => value two
  <a x='1' | => name a, any-in , any-else
  <a x='3' | => name a, any-in , any-else
  <a | => name a, name x, any-in , any-else

start = element grüße { greeting+ } greeting = element * - grüße { direction?, reading?, τόνος?, text } \
direction = attribute dir { \"ltr\" | \"rtl\" } reading = attribute 読み { text } \
τόνος = attribute τόνος { \"οξεία\" | \"βαρεία\" | \"περισπωμένη\" }
  <| => name grüße
  <grüße><| => name dir, name τόνος, name 読み, any-in , any-else
  <grüße></| => nothing
  <grüße><x dir='| => value ltr, value rtl
  <grüße><x dir='ltr' | => name τόνος, name 読み
  <grüße><x τόνος='ο| => value βαρεία, value οξεία, value περισπωμένη
  <grüße><x τόνος='οξεία'></| => end x
  <grüße><中文>你好</中文></| => end grüße
  <grüße><grüße><| => name dir, name τόνος, name 読み, any-in , any-else

start = element a { b?, c? } b = element b { b } c = element c { d } \
d = element d { xsd:int { minInclusive = \"5\" maxInclusive = \"4\" } } e = element e { empty }
  <| => name a
  <a><| => nothing
  <a></| => end a
  <a><e><| => none
  <a><e></e><| => nothing";
