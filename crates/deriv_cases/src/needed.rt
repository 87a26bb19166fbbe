//! Elements that are needed where content is skipped, in the notation of `reader`.

/// What each content of a schema has that is skipped up to an element or to the end, and nothing where none can be. The answers are
/// those of a program that wrote down all contents of up to ten elements and strings (seven where a class has any name, and then with
/// two names that no schema mentions), with the elements inside of those that are open, and took the names that each of them has;
/// those of the last seven schemas were worked out by hand alone. By hand were worked out, besides, those of interleaves,
/// repetitions, classes of several names and definitions of one name.
pub(crate) const NEEDED: &str = r##"
# choices
element r { element a { empty } | element b { empty } }
  <r  >  needed => nothing
  <r  >  needed a => nothing
  <r  >  <a  >  </  needed => nothing

element r { element a { empty }, (element b { empty } | element c { empty }), element d { empty } }
  <r  >  needed => a d
  <r  >  needed b => a
  <r  >  needed c => a
  <r  >  needed d => a
  <r  >  <?c  >  </  needed => d

element r { (element a { empty }, element b { empty }) | (element a { empty }, element c { empty }) }
  <r  >  needed => a
  <r  >  needed b => a
  <r  >  needed c => a
  <r  >  <?b  >  </  needed => nothing

element r { (element a { empty }, element b { empty }) | (element b { empty }, element a { empty }) }
  <r  >  needed => a b
  <r  >  needed a => nothing
  <r  >  <a  >  </  needed => b
  <r  >  <b  >  </  needed => a

element r { (element a { empty }, element b { empty }, element c { empty }) | (element c { empty }, element b { empty }) | (element b { empty }, element d { empty }, element c { empty }) }
  <r  >  needed => b c
  <r  >  needed d => b
  <r  >  <b  >  </  needed c => d
  <r  >  <b  >  </  needed => c d

element r { (element a { empty } | element b { empty }), (element a { empty } | element c { empty }) }
  <r  >  needed => nothing
  <r  >  needed a => nothing
  <r  >  <a  >  </  needed => nothing

element r { (element a { empty }, element c { empty }) | (element b { empty }, element c { empty }) | element c { empty } }
  <r  >  needed => c
  <r  >  needed a => nothing
  <r  >  <b  >  </  needed => c
  <r  >  <a  >  </  needed => c

element r { ((element a { empty } | element b { empty }) | (element a { empty }, element b { empty })), element c { empty } }
  <r  >  needed => c
  <r  >  needed a => nothing
  <r  >  <b  >  </  needed => c
  <r  >  <a  >  </  needed => c

element r { text | (element a { empty }, element b { empty }) }
  <r  >  needed => nothing
  <r  >  needed b => a
  <r  >  <a  >  </  needed => b

element r { (element a { empty }, text, element b { empty }) | (element b { empty }, element c { empty }, element a { empty }) }
  <r  >  needed => a b
  <r  >  needed c => b
  <r  >  <b  >  </  needed => a c
  <r  >  <b  >  </  needed a => c

element r { (element a { empty } | (element a { empty }, element b { empty }) | (element b { empty }, element a { empty })), element c { empty } }
  <r  >  needed => a c
  <r  >  needed c => a
  <r  >  <b  >  </  needed => a c
  <r  >  <b  >  </  needed c => a

# optional parts
element r { element a { empty }?, element b { empty }, element c { empty } }
  <r  >  needed => b c
  <r  >  needed c => b
  <r  >  <a  >  </  needed c => b
  <r  >  <b  >  </  needed => c

element r { element a { empty }, element b { empty }?, element c { empty }, element d { empty } }
  <r  >  needed => a c d
  <r  >  needed b => a
  <r  >  needed c => a
  <r  >  needed d => a c
  <r  >  <?c  >  </  needed => d

element r { element a { empty }?, element b { empty }?, element c { empty }? }
  <r  >  needed => nothing
  <r  >  needed a => nothing
  <r  >  <a  >  </  needed => nothing

element r { (element a { empty }, element b { empty })?, element c { empty } }
  <r  >  needed => c
  <r  >  needed b => a
  <r  >  <?b  >  </  needed => c
  <r  >  <a  >  </  needed => b c

element r { element a { empty }, (element b { empty }, element c { empty }?)?, element d { empty } }
  <r  >  needed => a d
  <r  >  needed b => a
  <r  >  needed c => a b
  <r  >  needed d => a
  <r  >  <a  >  </  needed c => b

element r { (element a { empty }?, element b { empty }), (element c { empty }?, element d { empty }), element e { empty } }
  <r  >  needed => b d e
  <r  >  needed c => b
  <r  >  needed d => b
  <r  >  needed e => b d
  <r  >  <?d  >  </  needed => e

element r { element a { empty }?, element b { empty }, element a { empty }, element c { empty }? }
  <r  >  needed => a b
  <r  >  needed c => a b
  <r  >  <a  >  </  needed => a b
  <r  >  <a  >  </  needed a => b

# repetitions
element r { element a { empty }*, element b { empty } }
  <r  >  needed => b
  <r  >  needed a => nothing
  <r  >  <a  >  </  needed => b

element r { element a { empty }+, element b { empty } }
  <r  >  needed => a b
  <r  >  needed b => a
  <r  >  <a  >  </  needed => b

element r { (element a { empty }, element b { empty })+ }
  <r  >  needed => a b
  <r  >  needed b => a
  <r  >  <?b  >  </  needed b => a
  <r  >  <a  >  </  needed a => b

element r { (element a { empty }, element b { empty })*, element c { empty } }
  <r  >  needed => c
  <r  >  needed b => a
  <r  >  <a  >  </  needed => b c
  <r  >  <a  >  </  needed a => b

element r { (element a { empty }, element b { empty }?)+, element c { empty } }
  <r  >  needed => a c
  <r  >  needed b => a
  <r  >  needed c => a
  <r  >  <?b  >  </  needed => c
  <r  >  <a  >  </  needed => c

element r { (element a { empty } | element b { empty })+, element c { empty } }
  <r  >  needed => c
  <r  >  needed a => nothing
  <r  >  <b  >  </  needed => c
  <r  >  <a  >  </  needed => c

element r { ((element a { empty }, element b { empty }) | (element a { empty }, element c { empty }))+ }
  <r  >  needed => a
  <r  >  needed b => a
  <r  >  needed c => a
  <r  >  <?c  >  </  needed b => a
  <r  >  <?b  >  </  needed c => a

element r { (element a { empty }+, element b { empty })+, element c { empty } }
  <r  >  needed => a b c
  <r  >  needed b => a
  <r  >  needed c => a b
  <r  >  <?b  >  </  needed b => a
  <r  >  <a  >  </  needed c => b

element r { (element a { empty }, element b { empty }+, element c { empty })*, element d { empty }, element a { empty } }
  <r  >  needed => a d
  <r  >  needed b => a
  <r  >  needed c => a b
  <r  >  <?c  >  </  needed b => a
  <r  >  <?b  >  </  needed a => c

element r { element a { empty }, element a { empty }, element b { empty } }
  <r  >  needed => a b
  <r  >  needed b => a
  <r  >  <a  >  </  needed b => a
  <r  >  <a  >  </  needed => a b

element r { (element a { empty }?, element b { empty })+, element a { empty } }
  <r  >  needed => a b
  <r  >  needed a => nothing
  <r  >  <a  >  </  needed => a b
  <r  >  <a  >  </  needed a => b

element r { (element a { empty } | (element b { empty }, element c { empty }))*, element d { empty } }
  <r  >  needed => d
  <r  >  needed c => b
  <r  >  <?c  >  </  needed c => b
  <r  >  <a  >  </  needed c => b

element r { (element a { empty }, element b { empty }, element a { empty })+, element c { empty } }
  <r  >  needed => a b c
  <r  >  needed b => a
  <r  >  needed c => a b
  <r  >  <a  >  </  needed c => a b
  <r  >  <a  >  </  needed a => b

# interleaves
element r { element a { empty } & element b { empty } }
  <r  >  needed => a b
  <r  >  needed a => nothing
  <r  >  <b  >  </  needed => a
  <r  >  <a  >  </  needed => b

element r { (element a { empty }, element b { empty }) & element c { empty } }
  <r  >  needed => a b c
  <r  >  needed b => a
  <r  >  <a  >  </  needed => b c
  <r  >  <c  >  </  needed => a b

element r { (element a { empty }, element b { empty }) & (element c { empty }, element d { empty }) }
  <r  >  needed => a b c d
  <r  >  needed b => a
  <r  >  needed d => c
  <r  >  <c  >  </  needed b => a
  <r  >  <a  >  </  needed d => c

element r { element a { empty } & element b { empty }? & element c { empty } }
  <r  >  needed => a c
  <r  >  needed a => nothing
  <r  >  <a  >  </  needed => c
  <r  >  <b  >  </  needed => a c

element r { (element a { empty } & element b { empty }), element c { empty } }
  <r  >  needed => a b c
  <r  >  needed c => a b
  <r  >  <a  >  </  needed => b c
  <r  >  <b  >  </  needed => a c

element r { element a { empty }, (element b { empty } & element c { empty }), element d { empty } }
  <r  >  needed => a b c d
  <r  >  needed b => a
  <r  >  needed c => a
  <r  >  needed d => a b c
  <r  >  <a  >  </  needed => b c d

element r { (element a { empty } | element b { empty }) & element c { empty } }
  <r  >  needed => c
  <r  >  needed a => nothing
  <r  >  <b  >  </  needed => c
  <r  >  <a  >  </  needed => c

element r { (element a { empty }+ & element b { empty }), element c { empty } }
  <r  >  needed => a b c
  <r  >  needed c => a b
  <r  >  <b  >  </  needed c => a
  <r  >  <b  >  </  needed => a c

element r { ((element a { empty }, element b { empty })+ & element c { empty }), element d { empty } }
  <r  >  needed => a b c d
  <r  >  needed b => a
  <r  >  needed d => a b c
  <r  >  <c  >  </  needed b => a
  <r  >  <c  >  </  needed d => a b

element r { (element a { empty } & element b { empty }) | (element a { empty }, element c { empty }) }
  <r  >  needed => a
  <r  >  needed c => a
  <r  >  <b  >  </  needed => a

element r { (element a { empty } & element b { empty })+, element c { empty } }
  <r  >  needed => a b c
  <r  >  needed c => a b
  <r  >  <a  >  </  needed a => b
  <r  >  <b  >  </  needed => a c

element r { ((element a { empty }, element b { empty }) & element c { empty }?), element d { empty } }
  <r  >  needed => a b d
  <r  >  needed b => a
  <r  >  needed d => a b
  <r  >  <a  >  </  needed => b d
  <r  >  <?b  >  </  needed => d

element r { (element a { empty }, (element b { empty } & element c { empty })) | (element c { empty }, element b { empty }) }
  <r  >  needed => b c
  <r  >  needed a => nothing
  <r  >  <c  >  </  needed => b
  <r  >  <a  >  </  needed => b c

element r { ((element a { empty }, element b { empty }) & (element c { empty } | (element d { empty }, element e { empty }))), element f { empty } }
  <r  >  needed => a b f
  <r  >  needed b => a
  <r  >  needed e => d
  <r  >  needed f => a b
  <r  >  <a  >  </  needed f => b

element r { (element a { empty } & text), element b { empty } }
  <r  >  needed => a b
  <r  >  needed b => a
  <r  >  <a  >  </  needed => b

element r { mixed { element a { empty }, element b { empty } } }
  <r  >  needed => a b
  <r  >  needed b => a
  <r  >  <a  >  </  needed => b

# classes of several names, and of one in more words
element r { element * { empty }, element a { empty } }
  <r  >  needed => a
  <r  >  needed a => nothing
  <r  >  <a  >  </  needed => a

element r { element (a | b) { empty }, element c { empty } }
  <r  >  needed => c
  <r  >  needed a => nothing
  <r  >  <b  >  </  needed => c
  <r  >  <a  >  </  needed => c

element r { element (a | a) { empty }, element b { empty } }
  <r  >  needed => a b
  <r  >  needed b => a
  <r  >  <a  >  </  needed => b

element r { element (* - a) { empty }, element a { empty } }
  <r  >  needed => a
  <r  >  needed a => nothing
  <r  >  <b  >  </  needed => a

element r { element (* - a) { empty }+, element a { empty }, element b { empty } }
  <r  >  needed => a b
  <r  >  needed a => nothing
  <r  >  <b  >  </  needed => a b
  <r  >  <?a  >  </  needed => b

element r { element a { empty }, element (a | b) { empty }, element b { empty } }
  <r  >  needed => a b
  <r  >  needed b => a
  <r  >  <a  >  </  needed => b

element r { (element (a | b) { empty } | element a { empty }), element b { empty } }
  <r  >  needed => b
  <r  >  needed a => nothing
  <r  >  <b  >  </  needed => b
  <r  >  <a  >  </  needed => b

element r { element (a | a) { empty }, (element (a | a) { empty } | (element b { empty }, element a { empty })), element c { empty } }
  <r  >  needed => a c
  <r  >  needed b => a
  <r  >  needed c => a
  <r  >  <?b  >  </  needed => a c
  <r  >  <a  >  </  needed c => a

element r { (element a { empty }, element b { empty }) & (element (* - (a | b | d)) { empty }, element d { empty })? }
  <r  >  needed => a b
  <r  >  needed b => a
  <r  >  <a  >  </  needed => b

namespace u = "u" element r { element u:* { empty }, element u:a { empty }, element a { empty } }
  <r  >  needed => a u:a
  <r  >  needed a => u:a
  <r  >  <u:a  >  </  needed a => u:a
  <r  >  <u:a  >  </  needed => a u:a

namespace u = "u" element r { element u:a { empty }, element b { empty }, element a { empty } }
  <r  >  needed => a b u:a
  <r  >  needed a => b u:a
  <r  >  needed b => u:a
  <r  >  <u:a  >  </  needed => a b
  <r  >  <?b  >  </  needed => a

namespace u = "u" element r { element (u:a | u:a) { empty }, element (a | u:a) { empty }, element a { empty } }
  <r  >  needed => a u:a
  <r  >  needed a => u:a
  <r  >  <u:a  >  </  needed => a

# definitions of one name, and elements in elements
element r { (element a { element b { empty } }, element c { empty }) | (element a { element d { empty } }, element e { empty }) }
  <r  >  needed => a
  <r  >  needed c => a
  <r  >  needed e => a
  <r  >  <?c  >  </  needed => nothing

element r { (element a { element b { empty }, element c { empty } } | element a { element c { empty }, element d { empty } }), element a { empty }+ }
  <r  >  needed => a
  <r  >  needed a => nothing
  <r  >  <a  >  </?  needed => a
  <r  >  <a  >  needed d => c

element r { element a { element b { empty } }*, element a { element b { empty }, element d { empty } } }
  <r  >  needed => a
  <r  >  needed a => nothing
  <r  >  <a  >  needed => b
  <r  >  <a  >  needed d => b

element r { ((element a { element b { empty } }, element a { element c { empty } }) & element b { empty }), element d { empty } }
  <r  >  needed => a b d
  <r  >  needed d => a b
  <r  >  <a  >  </?  needed d => a b
  <r  >  <b  >  </  needed d => a

element r { (element a { empty }, element a { element b { empty } })+, element c { empty } }
  <r  >  needed => a c
  <r  >  needed c => a
  <r  >  <a  >  </  needed c => a
  <r  >  <a  >  </  needed => a c

element r { element p { element a { empty }, (element b { empty } | element c { empty }), element d { empty } }, element e { empty } }
  <r  >  needed => e p
  <r  >  needed e => p
  <r  >  <p  >  needed c => a
  <r  >  <p  >  needed => a d

element r { element p { element p { element a { empty }, element b { empty } }?, element c { empty } }, element d { empty } }
  <r  >  needed => d p
  <r  >  needed d => p
  <r  >  <p  >  needed => c
  <r  >  <p  >  </?  needed => d

# moves in the wrong place
element a { attribute x { text }?, element b { empty }, element c { empty } }
  needed => nothing
  needed a => nothing
  needed b => nothing
  <a  needed => nothing
  <a  needed c => nothing
  <a  @x="1"  needed c => nothing
  <a  >  needed => b c
  <a  >  needed c => b
  <a  >  needed d => nothing
  <a  >  copy  needed c => b
  <a  >  " "  needed c => b
  <a  >?  needed => b c
  <a  >  <b  needed => nothing
  <a  >  <b  >  needed => nothing
  <a  >  <b  >  needed c => nothing
  <a  >  <b  >  </  needed b => nothing
  <a  >  <b  >  </  <c  >  </  needed => nothing
  <a  >  </?  needed => nothing
  <a  >  </?  needed a => nothing
  !c  needed c => nothing
  !c  <c  >  needed => nothing

# strings in the place of elements, and beside them
element a { xsd:integer }
  <a  >  needed => nothing
  <a  >  "1"  needed => nothing

element a { "x" | (element b { empty }, element c { empty }) }
  <a  >  needed => nothing
  <a  >  needed c => b
  <a  >  "x"  needed => nothing
  <a  >  "x"  needed c => nothing
  <a  >  " "  needed c => b

# a blank string may have been all, or stand between elements
element a { string " " | (element b { empty }, element c { empty }) }
  <a  >  " "  needed => nothing
  <a  >  " "  needed c => b
  <a  >  " "  <b  >  </  needed => c

# parts that nothing matches
element a { (element b { empty }, element c { empty }) | (element d { empty }, element e { notAllowed }) }
  <a  >  needed => b c
  <a  >  needed d => nothing

# one of two definitions goes on, or both
element r { (element a { element b { empty } }, element c { empty })
| (element a { attribute x { text }, element b { empty }, element d { empty } }, element d { empty }) }
  <r  >  <a  >  needed => b
  <r  >  <a  >?  needed => b
  <r  >  <a  @x="1"  >  needed => b d
  <r  >  <a  >?  needed d => b
  <r  >  <a  >?  <b  >  </  needed => nothing
  <r  >  <a  >?  <b  >  </  needed d => nothing
  <r  >  <a  >?  </?  needed => nothing
  <r  >  <a  >  </?  needed => c
  <r  >  <a  @x="1"  >  </?  needed => d
"##;
