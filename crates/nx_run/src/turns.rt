//! What is played, one turn behind another.

ghost use Rattle.std.specs.Prelude.{◌≡◌, option_map, IfOk};
ghost use Rattle.nx_script.specs.Commands.{HasFitTexts};
ghost use Rattle.nx_run.specs.Turns.{turn_of, turns_of, first_number, ReadsTurn, turns_left, next_number, TakesTurn};

use nx_base::sequence::Bytes;
use nx_script::command::Command;
use nx_script::line::split_line;
use nx_script::read::{ScriptFault, read_line};
use std::alloc::Global;
use std::marker::Model;

/// What is carried out in its turn.
#[derive(Clone, Copy)]
pub enum Turn<'a> {
    /// The document is held against the schema of this URI text.
    Schema(&'a str),
    /// A line of the script.
    Line(&'a str),
}

impl<'a> Turn<'a> {
    /// The command that is carried out, or `BadCommand` exactly where a line is none.
    pub fn command(self, alloc: Global) -> Result<Command, ScriptFault>
        ensures read { ReadsTurn (turn_of self.entry) result }
        ensures utf8 { IfOk result HasFitTexts }
    {
        match self {
            Turn::Schema(uri) => {
                let text = Vec::from_slice(alloc, uri.as_bytes())?;
                Ok(Command::SchemaFile(Bytes::from_vec(text)))
            }
            Turn::Line(line) => read_line(alloc, line),
        }
    }
}

/// The turns that are left: the schema that the words name, if it is still to be held, and the lines of the script.
#[derive(Drop)]
pub struct Turns<'a> {
    schema: Option<&'a str>,
    rest: &'a str,
    /// How many lines were taken.
    lines: u64,
}

impl<'a> Model for Turns<'a> {
    ghost use Rattle.std.specs.Prelude.{◌+◌, ◌<◌, ◌^◌, length, option_map};
    ghost use Rattle.nx_run.specs.Turns.{TurnsLeft};

    ghost Value = { TurnsLeft };

    ghost view = { λ t. record { schema = option_map (λ uri. uri.now) t.schema; rest = t.rest.now; lines = t.lines } };

    ghost invariant = { λ t. t.lines + length t.rest.now < 2 ^ 64 };
}

impl<'a> Turns<'a> {
    /// All turns of a script, the schema's first.
    pub fn new(schema: Option<&'a str>, script: &'a str) -> Turns<'a>
        ensures turns { turns_left result ≡ turns_of (option_map (λ uri. uri.now) schema.entry) script.now }
        ensures number { next_number result ≡ first_number (option_map (λ uri. uri.now) schema.entry) }
    {
        Turns {
            schema,
            rest: script,
            lines: 0,
        }
    }

    /// The next turn with its number, which is 0 of the schema and counts lines from 1.
    pub fn take_next(&mut self) -> Option<(u64, Turn<'a>)>
        ensures { TakesTurn self.old result self.new }
    {
        if let Some(uri) = self.schema.take() {
            return Some((self.lines, Turn::Schema(uri)));
        }
        if self.rest.is_empty() {
            return None;
        }
        let (line, rest) = split_line(self.rest);
        self.rest = rest;
        self.lines += 1;
        Some((self.lines, Turn::Line(line)))
    }
}
