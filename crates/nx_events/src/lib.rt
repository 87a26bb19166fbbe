//! Turns the tokens of a text into events and faults: references, tags with their namespaces, nesting
//! with recovery from wrong end tags, runs of text, and the end of the text.
//!
//! Cutting a text into tokens is the scanner's, matching the events against a schema the layers' above. What is here has
//! two parts: reading one token, whose bytes alone are asked, and folding tokens, where a state goes from each to the next.
//!
//! A state holds no place of the text, so it serves wherever its tokens lie. It knows the open elements,
//! the namespace declarations in force and the text run that is pending; the run's ends are distances
//! back from the end of the last token. For `<a>x<!--y-->z</a>` the state behind the comment has the
//! element `a` and a run with the string `x`, one byte long, that ended eight bytes back. The next token
//! makes it `xz`, and the end tag gives it as one event with the span from `x` to `z`.
//!
//! The last open element of a name, and the last declaration of a prefix, are found at once however deep a text nests.
#![tactic(auto)]

// reading one token: characters, strings, references, markup, names, tags, declarations
mod buffer;
mod character_fault;
mod declaration;
mod few_bytes;
pub mod flaw;
mod front;
mod lanes;
mod markup;
pub mod name_bytes;
mod piece;
pub mod place;
mod plain;
pub mod qname;
mod reading;
mod reference;
pub mod short_bytes;
mod tag;
mod token_fault;
mod utf8;
mod written_name;

// folding tokens: events, scope, nesting, runs, and the machine that they make
pub mod bare;
mod element;
mod end_tag;
pub mod equal;
pub mod fold;
pub mod in_force;
mod inner_names;
pub mod item;
pub mod law;
pub mod name_places;
mod namespace;
mod nesting;
mod other_token;
pub mod plain_opening;
pub mod plain_token;
pub mod prefix;
pub mod reader;
mod reusable;
pub mod scope;
mod shared_pairs;
mod stack;
mod stage;
mod start_tag;
pub mod state;
mod tag_names;
mod text_token;

pub use equal::same;
pub use item::{Event, Item, Items};
pub use namespace::declares;
pub use prefix::{TagPrefix, innermost, run_of, tag_prefix};
pub use reader::{begin, copy, depth, finish, pass_token, pending, read, take};
pub use state::EventState;
pub use tag::start_name;
