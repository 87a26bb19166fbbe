//! Least costs of the content of a schema's root, in events: `more` for more than 10,000, or none.

pub(crate) const COSTS: &str = r##"element r { empty } => 0
element r { text } => 0
element r { notAllowed } => more
element r { token } => 1
element r { "x" } => 1
element r { "x" | "y" } => 1
element r { list { token, token, token } } => 1
element r { attribute a { text } } => 1
element r { attribute a { list { token+ } } } => 1
element r { attribute a { token }, attribute b { "1" | "2" } } => 2
element r { attribute a { token } & attribute b { "1" } & attribute c { text } } => 3
element r { attribute a { text }? } => 0
element r { attribute * { text }+ } => 1
element r { attribute a { text }, text } => 1
element r { element a { empty } } => 3
element r { element a { text } } => 3
element r { element a { token } } => 4
element r { element a { attribute x { text } } } => 4
element r { element a { attribute x { text }, attribute y { text }, "z" } } => 6
element r { element a { element b { empty } } } => 6
element r { element a { element b { token } } } => 7
element r { element a { empty }* } => 0
element r { element a { empty }+ } => 3
element r { (element a { empty }, element b { empty })+ } => 6
element r { (element a { empty }+, element b { empty }*)+ } => 3
element r { element a { empty } | element b { token } } => 3
element r { element a { token } | element b { empty } } => 3
element r { element a { empty } | attribute x { text } } => 1
element r { element a { empty } | text } => 0
element r { element a { empty } | element b { notAllowed } } => 3
element r { element a { empty } & element b { empty } } => 6
element r { mixed { element a { empty } } } => 3
element r { element a { empty }?, element b { empty } } => 3
element r { (attribute x { text } | element a { empty }), element b { empty } } => 4
element r { (element a { empty }, element b { empty }) | element c { element d { token } } } => 6
element r { (element a { empty }, element b { token }) | element c { element d { empty } } } => 6
element r { attribute a { text }, (element b { empty } & attribute c { text }) } => 5
element r { (element a { empty } | empty), (element b { empty } | attribute x { text }) } => 1
element * - x { attribute * - y { text } } => 1
start = r  r = element r { r | empty } => 0
start = r  r = element r { r? } => 0
start = r  r = element r { r } => more
start = r  r = element r { r, text } => more
start = r  r = element r { a | b }  a = element a { r }  b = element b { empty } => 3
start = r  r = element r { a }  a = element a { r | b }  b = element b { token } => 7
start = r  r = element r { a }  a = element a { b }  b = element b { a | r | empty } => 6
start = r  r = element r { a?, b }  a = element a { empty }  b = element b { r } => more
start = r  r = element r { a, b }  a = element a { b }  b = element b { empty } => 9
start = r  r = element r { a, a }  a = element a { b, b }  b = element b { empty } => 18
start = r  r = element r { a, a }  a = element a { b, b }  b = element b { c, c }  c = element c { empty } => 42"##;
