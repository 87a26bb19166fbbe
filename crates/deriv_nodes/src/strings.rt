//! What is left of a node behind a string: a given one, or some one that isn't blank.

ghost use Rattle.std.specs.Prelude.{◌≡◌, ◌<◌, length, IfOk, if◌then◌else◌};
ghost use Rattle.rng_types.specs.Spaces.{words};
ghost use Rattle.rng_core.specs.Patterns.{empty, not_allowed};
ghost use Rattle.rng_kept.specs.Nullable.{nullable as is_nullable};
ghost use Rattle.rng_kept.specs.Strings as s;
ghost use Rattle.rng_kept.specs.SolidStrings as solid_strings;
ghost use Rattle.deriv_pattern.specs.Choosing.{tests_of};
ghost use Rattle.deriv_nodes.specs.Numbers.{at, Later, IsAt};

use crate::node::Node;
use crate::nodes::Nodes;
use deriv_pattern::leaves::{
    has_member, has_one_token, is_data, is_value, takes_data, takes_value,
};
use nx_base::memory::NoMemory;
use rng_types::spaces::first_word;
use std::alloc::Global;

impl Nodes {
    /// Behind a word of a list, in which no list stands.
    fn after_word(&mut self, word: &str, p: usize) -> Result<usize, NoMemory>
        requires { p < length self.old }
        ensures later { Later self.old self.new }
        ensures made { IfOk result (IsAt self.new (s.after_word word.now (at self.old p))) }
    {
        match self.node(p) {
            Node::Text => Ok(p),
            Node::Typed(datatype, excepts) => {
                let taken = is_data(datatype, excepts, word);
                self.end(taken)
            }
            Node::Value(datatype, wanted) => {
                let taken = is_value(datatype, wanted, word);
                self.end(taken)
            }
            Node::OneOrMore(body) => {
                let left = self.after_word(word, body)?;
                self.first_of_many(left, body)
            }
            Node::Choice(a, b) => {
                let left = self.after_word(word, a)?;
                let second = self.after_word(word, b)?;
                self.choice_of(left, second)
            }
            Node::Group(a, b) => {
                let left = self.after_word(word, a)?;
                if !self.nullable(a) {
                    return self.first_side(left, b);
                }
                let second = self.after_word(word, b)?;
                self.either_side(left, b, second)
            }
            Node::Interleave(a, b) => {
                let left = self.after_word(word, a)?;
                let second = self.after_word(word, b)?;
                self.one_of_interleave(left, a, b, second)
            }
            Node::NotAllowed => self.not_allowed(),
            Node::Empty => self.not_allowed(),
            Node::List(_) => self.not_allowed(),
            Node::Attribute(_, _) => self.not_allowed(),
            Node::Ref(_) => self.not_allowed(),
        }
    }

    /// Whether the words of a text match the body of a list.
    fn words_match(&mut self, text: &str, body: usize) -> Result<bool, NoMemory>
        requires { body < length self.old }
        ensures later { Later self.old self.new }
        ensures made { IfOk result (λ found. found ≡ is_nullable (s.after_words (words text.now) (at self.old body))) }
    {
        let mut left = body;
        let mut rest = text;
        while let Some((word, more)) = first_word(rest) {
            left = self.after_word(word, left)?;
            rest = more;
        }
        Ok(self.nullable(left))
    }

    /// Whether the body of a list matches some words, one at least.
    pub(crate) fn has_words(&self, alloc: Global, p: usize) -> Result<bool, NoMemory>
        requires { p < length self.now }
        ensures { IfOk result (λ found. found ≡ solid_strings.has_words (at self.now p)) }
    {
        match self.node(p) {
            Node::Text => Ok(true),
            Node::Typed(datatype, excepts) => Ok(has_member(datatype, excepts, true)),
            Node::Value(datatype, wanted) => has_one_token(alloc, datatype, wanted),
            Node::OneOrMore(body) => self.has_words(alloc, body),
            Node::Choice(a, b) => {
                let first = self.has_words(alloc, a)?;
                let second = self.has_words(alloc, b)?;
                Ok(first || second)
            }
            Node::Group(a, b) => {
                let first = self.has_words(alloc, a)?;
                let second = self.has_words(alloc, b)?;
                Ok((first && (second || self.nullable(b))) || (self.nullable(a) && second))
            }
            Node::Interleave(a, b) => {
                let first = self.has_words(alloc, a)?;
                let second = self.has_words(alloc, b)?;
                Ok((first && (second || self.nullable(b))) || (self.nullable(a) && second))
            }
            Node::NotAllowed => Ok(false),
            Node::Empty => Ok(false),
            Node::List(_) => Ok(false),
            Node::Attribute(_, _) => Ok(false),
            Node::Ref(_) => Ok(false),
        }
    }

    /// Whether the words of the text match the body of a list, or those of some text that isn't blank do.
    fn takes_list(
        &mut self,
        alloc: Global,
        solid: bool,
        text: &str,
        body: usize,
    ) -> Result<bool, NoMemory>
        requires { body < length self.old }
        ensures later { Later self.old self.new }
        ensures made { IfOk result (λ found. found ≡ (tests_of solid text.now).of_list (at self.old body)) }
    {
        if solid {
            self.has_words(alloc, body)
        } else {
            self.words_match(text, body)
        }
    }

    /// Of a list.
    fn of_list(
        &mut self,
        alloc: Global,
        solid: bool,
        text: &str,
        body: usize,
    ) -> Result<usize, NoMemory>
        requires { body < length self.old }
        ensures later { Later self.old self.new }
        ensures made { IfOk result (IsAt self.new (if (tests_of solid text.now).of_list (at self.old body) then empty else not_allowed)) }
    {
        let taken = self.takes_list(alloc, solid, text, body)?;
        self.end(taken)
    }

    /// Behind the text, or behind some text that isn't blank.
    fn behind_string(
        &mut self,
        alloc: Global,
        solid: bool,
        text: &str,
        p: usize,
    ) -> Result<usize, NoMemory>
        requires { p < length self.old }
        ensures later { Later self.old self.new }
        ensures made { IfOk result (IsAt self.new (s.after_by (tests_of solid text.now) (at self.old p))) }
    {
        match self.node(p) {
            Node::Text => Ok(p),
            Node::Typed(datatype, excepts) => {
                let taken = takes_data(alloc, solid, text, datatype, excepts)?;
                self.end(taken)
            }
            Node::Value(datatype, wanted) => {
                let taken = takes_value(solid, text, datatype, wanted);
                self.end(taken)
            }
            Node::List(body) => self.of_list(alloc, solid, text, body),
            Node::OneOrMore(body) => {
                let left = self.behind_string(alloc, solid, text, body)?;
                self.first_of_many(left, body)
            }
            Node::Choice(a, b) => {
                let left = self.behind_string(alloc, solid, text, a)?;
                let second = self.behind_string(alloc, solid, text, b)?;
                self.choice_of(left, second)
            }
            Node::Group(a, b) => {
                let left = self.behind_string(alloc, solid, text, a)?;
                if !self.nullable(a) {
                    return self.first_side(left, b);
                }
                let second = self.behind_string(alloc, solid, text, b)?;
                self.either_side(left, b, second)
            }
            Node::Interleave(a, b) => {
                let left = self.behind_string(alloc, solid, text, a)?;
                let second = self.behind_string(alloc, solid, text, b)?;
                self.one_of_interleave(left, a, b, second)
            }
            Node::NotAllowed => self.not_allowed(),
            Node::Empty => self.not_allowed(),
            Node::Attribute(_, _) => self.not_allowed(),
            Node::Ref(_) => self.not_allowed(),
        }
    }

    /// Behind a string.
    pub fn after(&mut self, alloc: Global, p: usize, text: &str) -> Result<usize, NoMemory>
        requires { p < length self.old }
        ensures later { Later self.old self.new }
        ensures made { IfOk result (IsAt self.new (s.after text.now (at self.old p))) }
    {
        self.behind_string(alloc, false, text, p)
    }

    /// Behind some string that isn't blank.
    pub fn after_solid(&mut self, alloc: Global, p: usize) -> Result<usize, NoMemory>
        requires { p < length self.old }
        ensures later { Later self.old self.new }
        ensures made { IfOk result (IsAt self.new (solid_strings.after_solid (at self.old p))) }
    {
        self.behind_string(alloc, true, "", p)
    }
}
