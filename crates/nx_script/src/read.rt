//! Lines read into commands.

ghost use Rattle.std.specs.Prelude.{◌≡◌, ◌≤◌, length, IfOk};
ghost use Rattle.std.specs.List.{position_or_len};
ghost use Rattle.nx_script.specs.Grammar.{LinesAreOneCommand, ReadsLine};
ghost use Rattle.nx_script.specs.Commands.{HasFitTexts};
ghost use Rattle.nx_script.specs.Reading.{Finds, is_blank, open_of, save_of, insert_of, delete_of, slice_of, schema_file_of, schema_of, complete_of};
ghost use Rattle.nx_script.specs.Reading.{goto_of, move_of, view_of, close_of, make_of, finish_of, split_of, pair_of, rename_of};
ghost use Rattle.nx_script.specs.Reading.{command_of, line_command};
ghost use Rattle.nx_script.specs.Reading.{after_blanks};
ghost use Rattle.nx_script.specs.declared.read.ScriptFault.TheVariants.{NoMemory};

use crate::arguments::{Arguments, is_blank, leading_blanks};
use crate::command::Command;
use std::alloc::{AllocError, AllocFailed, Global};

/// The most that the first number of `make` may be.
const MOST_SEED: u64 = 2_147_483_647;

/// The most pieces that a document is made of.
const MOST_PIECES: u64 = 200_000;

/// Why a line was not read.
#[derive(Clone, Copy, Debug, PartialEq, Eq)]
pub enum ScriptFault {
    /// The line is no command.
    BadCommand,
    NoMemory,
}

impl<T: Drop> From<AllocFailed<T>> for ScriptFault {
    ghost from_gives = { λ _ fault. fault ≡ NoMemory };

    fn from(_error: AllocFailed<T>) -> ScriptFault {
        ScriptFault::NoMemory
    }
}

impl From<AllocError> for ScriptFault {
    ghost from_gives = { λ _ fault. fault ≡ NoMemory };

    fn from(_error: AllocError) -> ScriptFault {
        ScriptFault::NoMemory
    }
}

/// Reads a line, without what ends it: its command, or `BadCommand` exactly where the line is none.
pub fn read_line(alloc: Global, line: &str) -> Result<Command, ScriptFault>
    ensures read { ReadsLine line.now result }
    ensures texts { IfOk result HasFitTexts }
{
    whole_line(alloc, line)
}

/// No line is two commands.
pub fn lines_are_one_command()
    ensures { LinesAreOneCommand }
{}

/// The command of a line.
#[tactic(auto, unfolding(crate::specs::Reading::line_command, crate::specs::Reading::command_at))]
fn whole_line(alloc: Global, line: &str) -> Result<Command, ScriptFault>
    ensures { Finds (λ command. command) result (line_command line.now) }
{
    let line = after_blanks(line);
    match line.as_bytes() {
        [] | [b'#', ..] => Ok(Command::Nothing),
        _ => {
            let (word, rest) = line.split_at(word_len(line.as_bytes()));
            command(alloc, word, Arguments::new(rest.as_bytes()))
        }
    }
}

/// What follows the blanks at the front.
#[tactic(auto, unfolding(crate::specs::Reading::after_blanks))]
fn after_blanks(line: &str) -> &str
    ensures { result.now ≡ after_blanks line.now }
{
    &line[leading_blanks(line.as_bytes())..]
}

/// How many bytes stand in front of the first blank.
fn word_len(bytes: &[u8]) -> usize
    ensures counted { result ≡ position_or_len is_blank bytes.now }
    ensures within { result ≤ length bytes.now }
{
    bytes.iter().take_while(|byte| !is_blank(**byte)).count()
}

/// The command of this word.
#[tactic(auto, unfolding(crate::specs::Reading::command_of, crate::specs::Reading::print_of, crate::specs::Reading::errors_of, crate::specs::Reading::stats_of, crate::specs::Reading::next_of, crate::specs::Reading::previous_of, crate::specs::Reading::position_of))]
fn command(alloc: Global, word: &str, arguments: Arguments<'_>) -> Result<Command, ScriptFault>
    ensures { Finds (λ command. command) result (command_of word.now arguments.entry) }
{
    match word {
        "open" => open_file(alloc, arguments),
        "save" => save(alloc, arguments),
        "insert" => insert(alloc, arguments),
        "delete" => delete(arguments),
        "print" => arguments.end(Command::Print),
        "errors" => arguments.end(Command::Errors),
        "slice" => slice(arguments),
        "stats" => arguments.end(Command::Stats),
        "schema" => schema(alloc, arguments),
        "complete" => complete(arguments),
        "goto" => goto(arguments),
        "move" => move_along(arguments),
        "next" => arguments.end(Command::Next),
        "previous" => arguments.end(Command::Previous),
        "where" => arguments.end(Command::Position),
        "view" => view(arguments),
        "close" => close(arguments),
        "make" => make(arguments),
        "finish" => finish(arguments),
        "split" => split(arguments),
        "pair" => pair(alloc, arguments),
        "rename" => rename(alloc, arguments),
        _ => Err(ScriptFault::BadCommand),
    }
}

/// `open "URI"`, from what follows the word.
#[tactic(auto, unfolding(crate::specs::Reading::open_of))]
fn open_file(alloc: Global, mut arguments: Arguments<'_>) -> Result<Command, ScriptFault>
    ensures { Finds (λ command. command) result (open_of arguments.entry) }
{
    let uri = arguments.text(alloc)?;
    arguments.end(Command::OpenFile(uri))
}

/// `save "URI"`, from what follows the word.
#[tactic(auto, unfolding(crate::specs::Reading::save_of))]
fn save(alloc: Global, mut arguments: Arguments<'_>) -> Result<Command, ScriptFault>
    ensures { Finds (λ command. command) result (save_of arguments.entry) }
{
    let uri = arguments.text(alloc)?;
    arguments.end(Command::Save(uri))
}

/// `insert N "TEXT"`, from what follows the word.
#[tactic(auto, unfolding(crate::specs::Reading::insert_of))]
fn insert(alloc: Global, mut arguments: Arguments<'_>) -> Result<Command, ScriptFault>
    ensures { Finds (λ command. command) result (insert_of arguments.entry) }
{
    let at = arguments.number()?;
    let added = arguments.text(alloc)?;
    arguments.end(Command::Insert(at, added))
}

/// `delete N N`, from what follows the word.
#[tactic(auto, unfolding(crate::specs::Reading::delete_of))]
fn delete(mut arguments: Arguments<'_>) -> Result<Command, ScriptFault>
    ensures { Finds (λ command. command) result (delete_of arguments.entry) }
{
    let from = arguments.number()?;
    let to = arguments.number()?;
    arguments.end(Command::Delete(from, to))
}

/// `slice N`, from what follows the word.
#[tactic(auto, unfolding(crate::specs::Reading::slice_of))]
fn slice(mut arguments: Arguments<'_>) -> Result<Command, ScriptFault>
    ensures { Finds (λ command. command) result (slice_of arguments.entry) }
{
    let count = arguments.number()?;
    arguments.end(Command::Slice(count))
}

/// `schema none`, `schema auto` or `schema "URI"`, from what follows the word.
#[tactic(auto, unfolding(crate::specs::Reading::schema_of))]
fn schema(alloc: Global, arguments: Arguments<'_>) -> Result<Command, ScriptFault>
    ensures { Finds (λ command. command) result (schema_of arguments.entry) }
{
    if let Some(rest) = arguments.behind("none") {
        return rest.end(Command::SchemaNone);
    }
    if let Some(rest) = arguments.behind("auto") {
        return rest.end(Command::SchemaAuto);
    }
    schema_file(alloc, arguments)
}

/// `schema "URI"`, from what follows the word.
#[tactic(auto, unfolding(crate::specs::Reading::schema_file_of))]
fn schema_file(alloc: Global, mut arguments: Arguments<'_>) -> Result<Command, ScriptFault>
    ensures { Finds (λ command. command) result (schema_file_of arguments.entry) }
{
    let uri = arguments.text(alloc)?;
    arguments.end(Command::SchemaFile(uri))
}

/// `complete N`, from what follows the word.
#[tactic(auto, unfolding(crate::specs::Reading::complete_of))]
fn complete(mut arguments: Arguments<'_>) -> Result<Command, ScriptFault>
    ensures { Finds (λ command. command) result (complete_of arguments.entry) }
{
    let at = arguments.number()?;
    arguments.end(Command::Complete(at))
}

/// `goto N`, from what follows the word.
#[tactic(auto, unfolding(crate::specs::Reading::goto_of))]
fn goto(mut arguments: Arguments<'_>) -> Result<Command, ScriptFault>
    ensures { Finds (λ command. command) result (goto_of arguments.entry) }
{
    let at = arguments.number()?;
    arguments.end(Command::Goto(at))
}

/// `move W`, from what follows the word.
#[tactic(auto, unfolding(crate::specs::Reading::move_of))]
fn move_along(mut arguments: Arguments<'_>) -> Result<Command, ScriptFault>
    ensures { Finds (λ command. command) result (move_of arguments.entry) }
{
    let way = arguments.way()?;
    arguments.end(Command::Move(way))
}

/// `view N`, from what follows the word.
#[tactic(auto, unfolding(crate::specs::Reading::view_of))]
fn view(mut arguments: Arguments<'_>) -> Result<Command, ScriptFault>
    ensures { Finds (λ command. command) result (view_of arguments.entry) }
{
    let index = arguments.number()?;
    arguments.end(Command::View(index))
}

/// `close N`, from what follows the word.
#[tactic(auto, unfolding(crate::specs::Reading::close_of))]
fn close(mut arguments: Arguments<'_>) -> Result<Command, ScriptFault>
    ensures { Finds (λ command. command) result (close_of arguments.entry) }
{
    let index = arguments.number()?;
    arguments.end(Command::Close(index))
}

/// `make N N`, from what follows the word.
#[tactic(auto, unfolding(crate::specs::Reading::make_of, crate::specs::Reading::most_seed, crate::specs::Reading::most_pieces))]
fn make(mut arguments: Arguments<'_>) -> Result<Command, ScriptFault>
    ensures { Finds (λ command. command) result (make_of arguments.entry) }
{
    let seed = arguments.number()?;
    let pieces = arguments.number()?;
    if seed > MOST_SEED || pieces > MOST_PIECES {
        return Err(ScriptFault::BadCommand);
    }
    arguments.end(Command::Make(seed, pieces))
}

/// `finish N`, from what follows the word.
#[tactic(auto, unfolding(crate::specs::Reading::finish_of))]
fn finish(mut arguments: Arguments<'_>) -> Result<Command, ScriptFault>
    ensures { Finds (λ command. command) result (finish_of arguments.entry) }
{
    let at = arguments.number()?;
    arguments.end(Command::Finish(at))
}

/// `split N`, from what follows the word.
#[tactic(auto, unfolding(crate::specs::Reading::split_of))]
fn split(mut arguments: Arguments<'_>) -> Result<Command, ScriptFault>
    ensures { Finds (λ command. command) result (split_of arguments.entry) }
{
    let at = arguments.number()?;
    arguments.end(Command::Split(at))
}

/// `pair N "QNAME"`, from what follows the word.
#[tactic(auto, unfolding(crate::specs::Reading::pair_of))]
fn pair(alloc: Global, mut arguments: Arguments<'_>) -> Result<Command, ScriptFault>
    ensures { Finds (λ command. command) result (pair_of arguments.entry) }
{
    let at = arguments.number()?;
    let name = arguments.name(alloc)?;
    arguments.end(Command::Pair(at, name))
}

/// `rename N "QNAME"`, from what follows the word.
#[tactic(auto, unfolding(crate::specs::Reading::rename_of))]
fn rename(alloc: Global, mut arguments: Arguments<'_>) -> Result<Command, ScriptFault>
    ensures { Finds (λ command. command) result (rename_of arguments.entry) }
{
    let at = arguments.number()?;
    let name = arguments.name(alloc)?;
    arguments.end(Command::Rename(at, name))
}
