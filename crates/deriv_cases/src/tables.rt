//! The cases, in the notation of `reader`: a schema, behind it a line for each case, and then a blank line.

/// Each call of a matcher over the schema of a document with paragraphs; children in any order; and then moves over small schemas, by the forms of
/// patterns.
pub(crate) const CASES: &str = r##"
start = element doc { attribute id { xsd:NCName }, element title { text }, element para { (text | element em { text })* }* }
  <para => 1
  <?para => 1
  <doc => -
  <doc  @id="1a" => 2
  <doc  @?id => -
  <doc  > => 2
  <doc  required => id
  <doc  @id="a" => -
  <doc  @id="a"  required => nothing
  <doc  @id="a"  > => -
  <doc  @id="a"  >  <para => 4
  <doc  @id="a"  >  </ => 4
  <doc  @id="a"  >  "x" => 4
  <doc  @id="a"  >  "?" => 4
  <doc  @id="a"  >  <?para => -
  <doc  @id="a"  >  </? => -
  <doc  @id="a"  >  " " => -

element r { element a { empty }+ & element b { empty } }
  <r  >  <a  >  </  <b  >  </  <a  >  </  </ => -
  <r  >  <a  >  </  <b  >  </  <b => 9
  <r  >  <b  >  </  </ => 6

# notAllowed, and what can't be matched because of it
element a { empty | element b { notAllowed } }
  <a  >  </ => -
  <a  >  <b => 3
  <a  >  <?b => 3
  !b => 1
  !a  <a  >  </ => -

element a { element b { empty } | (element c { empty }, element d { notAllowed }) }
  <a  >  <b  >  </  </ => -
  <a  >  <c => 3
  !c => 1
  !d => 1

element a { (attribute x { notAllowed } | attribute y { text }), empty }
  <a  @x="1" => 2
  <a  @?x => 2
  <a  @y="1"  >  </ => -
  <a  required => y

start = element a { b*, c }  b = element b { b }  c = element c { empty }
  <a  >  <b => 3
  <a  >  <?b => 3
  <a  >  <c  >  </  </ => -
  !b => 1

# empty
element a { empty }
  <a  >  </ => -
  <a  >  <b => 3
  <a  >  "x" => 3
  <a  >  "?" => 3
  <a  >  " "  </ => -
  <a  >  ""  </ => -
  <a  >  " "  ""  " "  </ => -
  <a  @x="1" => 2
  <a  >  </  <a => 4
  <a  >  </  "x" => 4
  <a  >  </  " " => 4
  <a  >  </  </ => 4
  <a  </ => 2
  <a  "x" => 2
  <a  <a => 2
  > => 1
  </ => 1
  "x" => 1
  " " => 1
  <b => 1
  <u:a => 1
  copy  <a  copy  >  copy  </  copy => -

# moves in the wrong place
element a { attribute x { text }?, (text | element b { empty })* }
  <?a  @?x  >  "?"  <b  >  </  </ => -
  <a  <?b => 2
  <a  "?" => 2
  <a  </?  > => 3
  <a  </?  </ => 3
  <a  >  > => 3
  <a  >  >?  </ => 4
  <a  >?  > => 3
  <a  >  @?x => 3
  <a  >?  @?x => 3
  <a  >  </  <?b => 4
  <a  >  </  "?" => 4
  <a  >  </  </?  <a => 5
  "?" => 1
  </?  <a => 2
  >?  <a => 2

# no-break and wide spaces aren't blank
element a { element b { empty } }
  <a  >  " "  <b  >  </  </ => -
  <a  >  " " => 3
  <a  >  "　" => 3
  <a  >  "é" => 3

# text that isn't ASCII
element a { attribute ü { "é" }, "日本 語" }
  <a  @ü="é"  >  "日本 語"  </ => -
  <a  @ü=" é "  >  " 日本 語 "  </ => -
  <a  @ü="e" => 2
  <a  @u="é" => 2
  <a  @ü="é"  >  "日本語" => 4
  <a  @ü="é " => 2
  <a  required => ü

# text
element a { text }
  <a  >  </ => -
  <a  >  "x"  </ => -
  <a  >  "x"  "y"  </ => -
  <a  >  " "  "x"  </ => -
  <a  >  ""  </ => -
  <a  >  "?"  "?"  </ => -
  <a  >  "?"  </? => -
  <a  >  <b => 3
  <a  >  <?a => 3

element a { text | element b { empty } }
  <a  >  </ => -
  <a  >  "x"  <b => 4
  <a  >  <b  >  </  "x" => 6
  <a  >  <b  >  </  " "  </ => -
  <a  >  " "  <b  >  </  </ => -
  <a  >  "x"  </ => -

# data
element a { xsd:integer }
  <a  >  "12"  </ => -
  <a  >  " 12 "  </ => -
  <a  >  "x" => 3
  <a  >  </ => 3
  <a  >  " " => -
  <a  >  "" => -
  <a  >  "1"  "2" => 4
  <a  >  "1"  " "  </ => -
  <a  >  " "  "1" => -
  <a  >  "?"  </ => -
  <a  >  "?"  "1" => 4
  <a  >  </? => -

element a { xsd:byte { minInclusive = "5" maxExclusive = "7" } }
  <a  >  "5"  </ => -
  <a  >  "06"  </ => -
  <a  >  "7" => 3
  <a  >  "4" => 3
  <a  >  "?"  </ => -

element a { xsd:byte { minInclusive = "5" maxExclusive = "7" } - (xsd:byte "5" | token "06") }
  <a  >  "5" => 3
  <a  >  "+5" => 3
  <a  >  "06" => 3
  <a  >  " 06" => 3
  <a  >  "6"  </ => -
  <a  >  "?"  </ => -

element a { string - (string "x" | token " y ") }
  <a  >  </ => -
  <a  >  ""  </ => -
  <a  >  "x" => 3
  <a  >  " x" => -
  <a  >  "y" => 3
  <a  >  "xy"  </ => -

element a { (xsd:token { minLength = "1" } - token "b c") | element b { empty } }
  <a  >  " b c " => 3
  <a  >  " b "  </ => -
  <a  >  </ => 3
  <a  >  " "  <b  >  </  </ => -
  <a  >  "?"  <b => 4

element a { xsd:string { length = "0" } }
  <a  >  </ => -
  <a  >  ""  </ => -
  <a  >  " " => 3
  <a  >  "?" => 3
  <a  >  ""  "" => 4
  <a  >  </? => -

element a { string }
  <a  >  </ => -
  <a  >  ""  </ => -
  <a  >  " "  </ => -
  <a  >  "x"  </ => -
  <a  >  " "  " " => -
  <a  >  ""  " "  "x" => -
  <a  >  "?"  " " => -

# values
element a { "yes" | "no" }
  <a  >  "yes"  </ => -
  <a  >  " no "  </ => -
  <a  >  "maybe" => 3
  <a  >  </ => 3
  <a  >  "?"  </ => -
  <a  >  "yes"  "no" => 4

element a { string "x y" | xsd:integer "7" }
  <a  >  "x y"  </ => -
  <a  >  " x y" => 3
  <a  >  "007"  </ => -
  <a  >  " +7 "  </ => -
  <a  >  "8" => 3

element a { "" | element b { string "" } }
  <a  >  </ => -
  <a  >  " "  </ => -
  <a  >  ""  </ => -
  <a  >  "?" => 3
  <a  >  " "  " " => -
  <a  >  <b  >  </  </ => -
  <a  >  <b  >  ""  </  </ => -
  <a  >  <b  >  " " => 5
  <a  >  " "  <b  >  </  " "  </ => -

element a { (string " " | element b { empty }), empty }
  <a  >  " "  </ => -
  <a  >  </ => 3
  <a  >  ""  " " => -
  <a  >  " "  " " => -
  <a  >  " "  <b => -
  <a  >  "?" => 3

# lists
element a { list { "x", xsd:integer+ } }
  <a  >  "x 1"  </ => -
  <a  >  " x 1 20 "  </ => -
  <a  >  "x" => 3
  <a  >  "1 x" => 3
  <a  >  "x 1 y" => 3
  <a  >  "x1" => 3
  <a  >  "x"  "1" => 3
  <a  >  </ => 3
  <a  >  "?"  </ => -
  <a  >  "?"  "1" => 4

element a { list { empty } }
  <a  >  </ => -
  <a  >  " "  </ => -
  <a  >  "x" => 3
  <a  >  "?" => 3
  <a  >  " "  " " => 4

element a { list { xsd:integer*, "end"? } }
  <a  >  "1 2 end"  </ => -
  <a  >  ""  </ => -
  <a  >  </ => -
  <a  >  "end"  </ => -
  <a  >  "end 1" => 3
  <a  >  " "  "1" => -

element a { list { ("a" | ("b", "c"))+ } }
  <a  >  "a b c a"  </ => -
  <a  >  "b a" => 3
  <a  >  "b c b" => 3

element a { attribute x { list { token "a", (xsd:integer | "n")* } } }
  <a  @x="a 1 n"  >  </ => -
  <a  @x=" a " => -
  <a  @x="" => 2
  <a  @x="a b" => 2
  <a  @?x  > => -

element a { list { "x y" } | element b { empty } }
  <a  >  "x y" => 3
  <a  >  "?" => 3
  <a  >  <b => -

# attributes
element a { attribute x { text }, attribute y { text }? }
  <a  @x="1"  @y="2"  >  </ => -
  <a  @y="2"  @x="1"  > => -
  <a  @x=""  > => -
  <a  @y="2"  > => 3
  <a  > => 2
  <a  @z="1" => 2
  <a  @u:x="1" => 2
  <a  @x="1"  @z="2" => 3
  <a  required => x
  <a  @y="2"  required => x
  <a  @x="2"  required => nothing
  <a  >?  </ => -
  <a  @y="1"  >?  </ => -
  <a  @?x  @?y  > => -
  <a  @?z => 2
  <a  @x="1"  </ => 3
  <a  @x="1"  "x" => 3
  <a  @x="1"  >  @y="1" => 4
  <a  >?  @y="1" => 3
  @x="1" => 1
  @?x => 1
  >?  "x" => 2
  required => nothing
  <a  >?  required => nothing

element a { attribute x { "on" | "off" }, text }
  <a  @x="on"  >  "t"  </ => -
  <a  @x=" off "  > => -
  <a  @x="up" => 2
  <a  @x=" " => 2
  <a  @?x  >  "t"  </ => -
  <a  required => x
  <a  >?  required => nothing
  <a  > => 2

element a { attribute x { empty }, attribute y { "" }, attribute z { string "" } }
  <a  @x="" => -
  <a  @x=" " => -
  <a  @x="1" => 2
  <a  @?x => -
  <a  @y="" => -
  <a  @y=" " => -
  <a  @y="1" => 2
  <a  @z="" => -
  <a  @z=" " => 2
  <a  @?x  @?y  @?z  >  </ => -
  <a  required => x y z

element a { attribute x { empty | xsd:integer }, attribute y { string " " }? }
  <a  @x=" "  > => -
  <a  @x="4"  > => -
  <a  @x="t" => 2
  <a  @x="4"  @y=" "  > => -
  <a  @x="4"  @y="" => 3
  <a  @y=" "  required => x

element a { (attribute x { text }, attribute y { text }) | (attribute y { text }, attribute z { text }) }
  <a  required => y
  <a  @x="1"  required => y
  <a  @y="1"  required => nothing
  <a  @z="1"  required => y
  <a  @y="1"  @z="1"  > => -
  <a  @x="1"  @z="1" => 3
  <a  @y="1"  > => 3
  <a  @y="1"  >?  </ => -
  <a  @y="1"  @x="2"  >?  </ => -

element a { attribute x { text } | attribute y { text } | element b { empty } }
  <a  required => nothing
  <a  @y="1"  >  <b => 4
  <a  >  <b => -
  <a  >  </ => 3
  <a  >?  </ => -
  <a  >?  <b  >  </  </ => -
  <a  @x="1"  @y="1" => 3

element a { (attribute k { "1" }, element b { empty }) | (attribute k { "2" }, element c { empty }) }
  <a  @k="1"  >  <b => -
  <a  @k="1"  >  <c => 4
  <a  @k="2"  >  <c => -
  <a  @?k  >  <b => -
  <a  @?k  >  <c => -
  <a  @k="3" => 2
  <a  required => k
  <a  >?  <b => -
  <a  >?  <c => -

namespace u = "u" element a { attribute u:* { text }+, attribute x { text } }
  <a  @u:p="1"  @u:q="2"  @x="3"  >  </ => -
  <a  @x="3"  > => 3
  <a  @p="3" => 2
  <a  @?u:p  required => x
  <a  required => x
  <a  >?  </ => -

namespace u = "u" element a { attribute * - (u:* | x) { xsd:integer }* }
  <a  @y="1"  @v:x="2"  >  </ => -
  <a  @x="1" => 2
  <a  @u:y="1" => 2
  <a  @y="t" => 2
  <a  @?y  @?v:y  > => -
  <a  @xmlns="1" => 2
  <a  @?xmlns => 2
  <a  @z="1"  @y="2"  required => nothing

element a { (attribute x { text } | attribute y { text })+ }
  <a  @x="1"  > => -
  <a  @y="1"  @x="2"  > => -
  <a  > => 2
  <a  required => nothing
  <a  @x="1"  required => nothing
  <a  @x="1"  @z="1" => 3

# attributes among interleaved parts, and below a repetition
namespace u = "u" element a { attribute u:* { text }* & attribute x { text } & element b { empty } }
  <a  @x="1"  @u:y="2"  >  <b  >  </  </ => -
  <a  @u:y="2"  required => x
  <a  > => 2
  <a  @x="1"  >  </ => 4
  <a  @x="1"  >?  <b => -

namespace u = "u" namespace v = "v" element a { (attribute u:* { text }+ | attribute v:* { text })+ }
  <a  > => 2
  <a  @u:p="1"  >  </ => -
  <a  @v:p="1"  @v:q="2"  >  </ => -
  <a  @u:p="1"  @v:q="2"  @u:r="3"  >  </ => -
  <a  @x="1" => 2
  <a  @u:p="1"  @x="2" => 3
  <a  @v:p="1"  >  "x" => 4
  <a  @?v:p  @?u:q  > => -
  <a  required => nothing
  <a  >?  </ => -

# references
start = p  p = element p { p* }
  <p  >  <p  >  </  <p  >  <p  >  </  </  </ => -
  <p  >  <q => 3
  <p  >  </  <p => 4
  <p  >  <?p  >  </?  </? => -
  !p  <p  >  </ => -

start = a  a = element a { b | empty }  b = element b { a }
  <a  >  <b  >  <a  >  </  </  </ => -
  <a  >  <b  >  </ => 5
  <a  >  <b  >  </?  </ => -
  <a  >  <b  >  <b => 5
  !b  <b  >  <a => -
  !b  <a => 2

start = element a { text } | element b { empty }
  <a  >  "x" => -
  <b  >  "x" => 3
  <?a => -
  <c => 1
  <?c => 1
  !b  <a => 2
  !a  <a  >  "x" => -

element a { element b { element c { empty } } | element b { element d { empty } } }
  <a  >  <b  >  <c  >  </  </  </ => -
  <a  >  <b  >  <d  >  </  </  </ => -
  <a  >  <b  >  <c  >  </  <d => 8
  <a  >  <b  >  </ => 5
  <a  >  <b  >  </?  </ => -
  <a  >  <b  >  <?d => -
  !b  <b  >  <d => -
  !b  <b  >  <c => -

element a { (element b { empty }, element c { empty }) | (element b { empty }, element d { empty }) }
  <a  >  <b  >  </  <c => -
  <a  >  <b  >  </  <d => -
  <a  >  <b  >  </  </ => 6
  <a  >  <?d  >  </  </ => -
  <a  >  <b  >  </  <c  >  </  <d => 9

# the first of two definitions has a child, the second an attribute
element r { (element a { element b { empty } }, element c { empty }) | (element a { attribute x { text } }, element d { empty }) }
  <r  >  <a  @x="1"  >  </  <d => -
  <r  >  <a  @x="1"  >  </  <c => 7
  <r  >  <a  >  <b  >  </  </  <c => -
  <r  >  <a  >  <b  >  </  </  <d => 9
  <r  >  <a  required => nothing
  <r  >  <a  >?  <b => -
  <r  >  <a  >?  </  <d => -
  <r  >  <a  >?  </?  <c => -

element * { empty }
  <a  >  </ => -
  <u:a => -
  !b => -

namespace u = "u" element u:* - u:b { element * - a { text }? }
  <u:a  >  <b  >  "x" => -
  <u:b => 1
  <a => 1
  <u:a  >  <a => 3
  <u:a  >  <u:b  >  </  </ => -
  !b => -
  !a => 1
  !u:b => -

# repetitions
element a { element b { empty }+ }
  <a  >  <b  >  </  <b  >  </  <b  >  </  </ => -
  <a  >  </ => 3
  <a  >  </? => -
  <a  >  <b  >  </  <c => 6
  <a  >  <b  >  </  "x" => 6
  <a  >  " "  <b  >  </  " "  <b  >  </  " "  </ => -

element a { (element b { empty }, element c { empty }?)+ }
  <a  >  <b  >  </  <b  >  </  <c  >  </  </ => -
  <a  >  <c => 3
  <a  >  <b  >  </  <c  >  </  <c => 9
  <a  >  <?c  >  </  <b => -

element a { ((element b { empty }*, element c { empty }?)*)* }
  <a  >  <c  >  </  <c  >  </  <b  >  </  <c  >  </  </ => -
  <a  >  <b  >  </  <b  >  </  </ => -
  <a  >  </ => -
  <a  >  <d => 3
  <a  >  <?c  >  </  <?b  >  </  </ => -

# choices
element a { element b { empty } | element c { empty } | text }
  <a  >  <c  >  </  </ => -
  <a  >  "x"  "y"  </ => -
  <a  >  <b  >  </  <c => 6
  <a  >  </ => -
  <a  >  "x"  <c => 4

element a { element b { empty }? | xsd:integer }
  <a  >  </ => -
  <a  >  " "  <b  >  </  </ => -
  <a  >  "1"  </ => -
  <a  >  "1"  <b => 4
  <a  >  "?"  </ => -

# groups
element r { element a { empty }, element b { empty }?, element c { empty } }
  <r  >  <a  >  </  <b  >  </  <c  >  </  </ => -
  <r  >  <a  >  </  <c  >  </  </ => -
  <r  >  <b => 3
  <r  >  <?b  >  </  <c => -
  <r  >  <?c  >  </  </ => -
  <r  >  <?c  >  </  <?b => 6
  <r  >  <a  >  </  <?c  >  </  </ => -
  <r  >  <c => 3
  <r  >  <a  >  </  </ => 6
  <r  >  <a  >  </  </?  <r => 7
  <r  >  <?d => 3
  <r  >?  <?c  >?  </?  </? => -

# interleaves
element r { element a { empty } & element b { empty }? & element c { empty } }
  <r  >  <c  >  </  <a  >  </  </ => -
  <r  >  <b  >  </  <c  >  </  <a  >  </  </ => -
  <r  >  <c  >  </  <b  >  </  </ => 9
  <r  >  <a  >  </  <a => 6
  <r  >  <?b  >  </  <a => -
  <r  >  <?b  >  </  </? => -
  <r  >  <?b  >  </  <?b => 6
  <r  >  <c  >  </  <?b  >  </  <a  >  </  </ => -
  <r  >  </? => -

element r { (element a { empty }, element b { empty }) & (element c { empty }, element d { empty }) }
  <r  >  <a  >  </  <c  >  </  <b  >  </  <d  >  </  </ => -
  <r  >  <c  >  </  <a  >  </  <d  >  </  <b  >  </  </ => -
  <r  >  <a  >  </  <d => 6
  <r  >  <b => 3
  <r  >  <a  >  </  <b  >  </  </ => 9
  <r  >  <?d  >  </  <c => 6
  <r  >  <?d  >  </  <a  >  </  <b => -
  <r  >  <?d  >  </  <b => -
  <r  >  <?d  >  </  </ => -
  <r  >  <c  >  </  <?b  >  </  <d => -

element r { element a { empty }* & element b { empty }* & text }
  <r  >  <a  >  </  "x"  <b  >  </  <a  >  </  "y"  </ => -
  <r  >  </ => -
  <r  >  "?"  <b  >  </  " "  </ => -

element r { (element a { empty } | element b { empty }) & element c { empty }+ }
  <r  >  <c  >  </  <a  >  </  <c  >  </  </ => -
  <r  >  <c  >  </  <a  >  </  <b => 9
  <r  >  <c  >  </  </ => 6
  <r  >  <?a  >  </  <c  >  </  </ => -

# mixed content
element p { mixed { element e { empty }?, element f { empty } } }
  <p  >  "x"  <e  >  </  "y"  <f  >  </  "z"  </ => -
  <p  >  "x"  <f  >  </  </ => -
  <p  >  <f  >  </  <e => 6
  <p  >  "x"  </ => 4
  <p  >  "x"  </? => -
  <p  >  "?"  <?f  >  </  "?"  </ => -
  <p  >  " "  <e  >  </  " "  <f  >  </  </ => -

# blank strings: kept, or passed over, but not both in one element
element r { element a { empty }, (text | element b { empty }) }
  <r  >  " "  <a  >  </  " "  <b  >  </  " "  </ => -
  <r  >  " "  <a  >  </  "x"  </ => -
  <r  >  <a  >  </  "x"  <b => 7
  <r  >  "x" => 3

element a { string " " | element b { empty }+ }
  <a  >  " "  </ => -
  <a  >  " "  <b  >  </  " "  </ => -
  <a  >  " "  "x" => 4
  <a  >  " "  " "  </ => 5
  <a  >  " "  " "  <b => -
  <a  >  " "  </? => -

element a { xsd:integer | (text, element b { empty }) }
  <a  >  " "  "1"  </ => -
  <a  >  " "  "1"  " "  </ => -
  <a  >  "1"  "2"  </ => 5
  <a  >  "1"  "2"  <b => -
  <a  >  " "  </ => 4
  <a  >  " "  "x"  </ => 5
  <a  >  " "  "x"  <b  >  </  " "  </ => -

# content of one string that may be empty
element a { element b { token }, element c { xsd:integer } }
  <a  >  <b  >  </  <c  >  "1"  </  </ => -
  <a  >  <b  >  </  <c  >  </ => 8
  <a  >  <b  >  " "  </  <c => -
  <a  >  <b  >  ""  </  " "  <c => -
  <a  >  <b  >  " "  " " => -
  <a  >  <b  >  "x"  <c => 6
  <a  >  <b  >?  "?"  </?  <c  >  "?"  </  </ => -
  <a  >  <?c  >  " " => -
  <a  >  <?c  >  "?"  " "  </  </ => -

# skipping to a name
element r { (element a { empty }, element b { empty }?, element c { text })*, element d { empty } }
  <r  >  <?c  >  </  <a => -
  <r  >  <?c  >  </  <b => 6
  <r  >  <?b  >  </  <b => 6
  <r  >  <?b  >  </  <?b  >  </  <c => -
  <r  >  <?d  >  </  </ => -
  <r  >  <?d  >  </  <a => 6
  <r  >  <d => -
  <r  >  <?a  >  </  <d => 6
  <r  >  <?a  >  </  <?d => -

start = element r { part* & note? }  part = element part { element head { text }, part* }  note = element note { text }
  <r  >  <?part  >  <?part  >  <head => -
  <r  >  <?note  >  "x"  </  <part => -
  <r  >  <note  >  </  <?note => 6
  <r  >  <part  >  <part => 5
  <r  >  <part  >  </?  <note => -
  <r  >  <?head => 3

# any string
element a { xsd:token { maxLength = "0" } | element b { xsd:byte { minInclusive = "200" } }? | "x" }
  <a  >  "?"  </ => -
  <a  >  "x"  </ => -
  <a  >  </ => -
  <a  >  <b => 3
  <a  >  " "  </ => -

element a { xsd:token { maxLength = "0" } | element b { list { xsd:boolean, xsd:boolean? } } }
  <a  >  "?" => 3
  <a  >  <b  >  "?"  </ => -
  <a  >  <b  >  " true 0 "  </ => -
  <a  >  <b  >  "1 0 1" => 5
  <a  >  <b  >  "?"  " " => -

# one definition in two places
start = a  a = element a { (b, element c { empty }) | (b, element d { empty }) | (b, b) }  b = element b { empty }
  <a  >  <b  >  </  <d  >  </  </ => -
  <a  >  <b  >  </  <c => -
  <a  >  <b  >  </  <b  >  </  </ => -
  <a  >  <b  >  </  </ => 6
  <a  >  <?b  >  </  </ => -
  <a  >  <?d  >  </  </ => -
  <a  >  <b  >  </  <d  >  </  <c => 9

start = a  a = element a { ((b, c) | (c, b?))+ }  b = element b { empty }  c = element c { text }
  <a  >  <b  >  </  <b => 6
  <a  >  <c  >  "x"  </  <b  >  </  <b => -
  <a  >  <c  >  </  <b  >  </  </ => -
  <a  >  <c  >  </  <b  >  </  <c  >  </  </ => -
  <a  >  <?b  >  </  <?b  >  </  <b => -

# more values and types
element a { xsd:boolean "1" | xsd:NMTOKENS { length = "2" } | xsd:decimal "1.50" }
  <a  >  "true"  </ => -
  <a  >  "false" => 3
  <a  >  " p q " => -
  <a  >  "p q r" => 3
  <a  >  "+01.5"  </ => -
  <a  >  "1.51" => 3
  <a  >  </ => 3

element a { attribute x { xsd:NCName | xsd:positiveInteger }, attribute y { list { xsd:integer, xsd:integer } }? }
  <a  @x="n-1"  > => -
  <a  @x="12"  >  </ => -
  <a  @x="0" => 2
  <a  @x="p:q" => 2
  <a  @x="a"  @y="1 2"  > => -
  <a  @x="a"  @y="1" => 3
  <a  @x="a"  @?y  > => -
  <a  @y="1 2"  required => x

# namespaces of elements
default namespace = "d" namespace u = "u" element a { element u:b { empty }?, element b { attribute b { text } }? }
  <d:a  >  <u:b  >  </  <d:b  @b="1"  >  </  </ => -
  <d:a  >  <b => 3
  <a => 1
  <d:a  >  <d:b  @d:b="1" => 4
  <d:a  >  <u:b  >  </  <u:b => 6
  <d:a  >  <d:b  required => b
  !d:b  <d:b  > => 3
  !b => 1

# attributes that every way requires
element r { element a { attribute p { text }, attribute q { text }, element b { empty } }
| element a { attribute q { "1" }, attribute s { text }? } }
  <r  >  <a  required => q
  <r  >  <a  @q="1"  required => nothing
  <r  >  <a  @q="2"  required => p
  <r  >  <a  @s="2"  required => q
  <r  >  <a  @q="2"  > => 5
  <r  >  <a  @q="1"  >  <b => 6
  <r  >  <a  @q="1"  >?  <b => -
  <r  >  <a  @?q  @s="1"  >  <b => 7

element a { (attribute p { "1" } | attribute p { "2" }), (attribute q { text } | (attribute s { text }, attribute q { text })) }
  <a  required => p q
  <a  @p="2"  @s="1"  required => q
  <a  @p="3" => 2
  <a  @q=""  @p="1"  > => -

element a { attribute (x | y) { text }, attribute z { text } }
  <a  required => z
  <a  @y="1"  required => z
  <a  @y="1"  @x="1" => 3

# behind children that are left out, and behind nothing
element r { element a { empty }, (element b { empty } | text), element c { empty }* }
  <r  >  <?c  >  </  "x" => 6
  <r  >  <?b  >  </  "x" => 6
  <r  >  <?b  >  </  " "  <c => -
  <r  >  <?a  >  </  "x"  <c  >  </  </ => -
  <r  >  "?" => 3
  <r  >  <a  >  </  "?"  <b => 7
  <r  >  <a  >  </  "?"  </? => -
  <r  >  </?  "x" => 4
  <?r  >?  </?  </?  "x" => 5

element r { (element a { text } & element b { text }), element c { text } }
  <r  >  <?c  >  "x"  </  <a => 7
  <r  >  <b  >  </  <c => 6
  <r  >  <b  >  </  <?c  >  </  </ => -
  <r  >  <?b  >  </  <?a  >  </  <c => -
  <r  >  <?b  >  </  <c => -

start = element r { (a+ & b+)*, element c { empty } }  a = element a { empty }  b = element b { empty }
  <r  >  <a  >  </  <c => 6
  <r  >  <b  >  </  <a  >  </  <c => -
  <r  >  <?b  >  </  <c => -
  <r  >  <?b  >  </  <?b  >  </  <a => -
  <r  >  <?c  >  </  </ => -
"##;
