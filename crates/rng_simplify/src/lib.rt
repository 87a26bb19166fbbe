//! Schema files simplified to one grammar (ISO/IEC 19757-2, section 7).
//!
//! `simplify` goes through these steps. None of them goes from file to file or from reference to reference by recursion.
//!
//! 1. `load`: files are fetched and read, each in the syntax that its first character tells, depth first, with those that they
//!    mention (`mention`).
//! 2. `compose`: they are put into one piece of numbered nodes (`node`). There each name has its namespace (`class`), what is
//!    short is written out, and definitions that an include replaces are left out (`replace`).
//! 3. `resolve`: definitions of one name in one grammar are combined (`names`), and references lead to them. Name classes that
//!    no schema may have are refused (`class`).
//! 4. `order`: nodes, and combined definitions behind them, are brought into an order in which each comes behind those of which
//!    its simple form is made. Where there is none, a reference leads back to itself.
//! 5. `form`: in that order each gets its simple form, as a shape that others share (`shape`). So a form of very many nodes is
//!    known by few shapes, and its size before it is spelled out.
//! 6. `types`: names of types become types, with what is taken from them.
//! 7. `limit`, `copies`: a grammar that is too large is refused, and one for which too much would be copied.
//! 8. `build`: what is left is spelled out as patterns, with a definition for each element.
//!
//! Numbers are of five kinds, each a type of its own: a node's (`NodeNumber`), combined definitions' (`CombinedNumber`), the place
//! of either in the order (`Place`), a shape's (`ShapeNumber`) and an element's (`ElementNumber`). What a node leads to beside its
//! parts is a `Target`, and the grammar in which it stands a `Scope`.
//!
//! What `simplify` answers stands in specs/Simplified.antt. To believe it one reads that file and the ten on which it stands:
//! References, Classes, Composed and ComposedFiles (files in one piece), Places, Forms, Simple, Whole and Datatypes (its simple
//! form) and Broken (why there is none). Unambiguous and Exact have their laws. All other files of specs/ say what the parts of
//! the code do, for the proof; specs/Lib.antt names them by these parts. docs/ARCHITECTURE.md has a worked example.
#![tactic(auto)]

mod build;
mod class;
mod compose;
pub mod copies;
pub mod fault;
mod form;
pub mod law;
pub mod limit;
mod load;
mod mention;
mod names;
mod node;
mod order;
mod replace;
mod resolve;
mod shape;
pub mod simplify;
mod stop;
pub mod types;

pub use fault::SchemaFault;
