//! What the root of a schema is filled with: a start tag's name behind `<`, attributes behind `@`, the tag's end, strings in quotes, and
//! ends of elements. A name stands behind its namespace in braces, where it has one.

pub(crate) const FILLINGS: &str = r##"element r { empty } => <r > </
element r { text } => <r > </
element r { "x" } => <r > "x" </
element r { "x y" } => <r > "x y" </
element r { "x" | "y" } => <r > "x" </
element r { "" | "x" } => <r > </
element r { attribute a { "x" } } => <r @a="x" > </
element r { attribute a { text } } => <r @a="" > </
element r { attribute a { "" | "x" } } => <r @a="x" > </
element r { attribute a { "x" | "y" }, attribute b { "z" } } => <r @a="x" @b="z" > </
element r { attribute a { "x" }? } => <r > </
element r { element b { empty }+, attribute a { "x" } } => <r @a="x" > <b > </ </
element r { attribute a { "x" }, "y" } => <r @a="x" > "y" </
element r { element a { empty } | "x" } => <r > "x" </
element r { element a { empty } & element b { "y" } } => <r > <a > </ <b > "y" </ </
element r { (element a { empty }, element b { empty }) | element c { "x" } } => <r > <c > "x" </ </
element r { list { "x", ("y" | "z")+, "w"? } } => <r > "x y w" </
element r { list { "x"* } } => <r > "x" </
element r { list { empty } } => <r > </
element r { attribute a { list { "1", "2" } } } => <r @a="1 2" > </
element a | b { empty } => <a > </
element (a | b | c) { empty } => <a > </
element * { empty } => <a > </
element * - (a | x) { empty } => <aa > </
element * - (a | aaa) { empty } => <aaaa > </
element r { attribute * { "x" }+ } => <r @a="x" > </
element r { attribute * - a { "x" }+ } => <r @aa="x" > </
namespace u = "u"  start = element u:* { empty } => <{u}a > </
namespace u = "u"  start = element u:* - u:a { empty } => <{u}aa > </
namespace u = "u"  start = element u:r { attribute u:a { "1" } } => <{u}r @{u}a="1" > </
start = r  r = element r { r | c }  c = element c { empty } => <r > <c > </ </
start = r  r = element r { a, a }  a = element a { b }  b = element b { "1" } => <r > <a > <b > "1" </ </ <a > <b > "1" </ </ </"##;
