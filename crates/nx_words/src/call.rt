//! The values of the words, by clap.

ghost use Rattle.std.specs.Prelude.{◌≡◌, map, option_map, IfOk, true};
ghost use Rattle.clap.specs.Matches.{found_of};
ghost use Rattle.clap.specs.Walk.{rows_of};
ghost use Rattle.clap.specs.Simple.{app_of, matches_of};
ghost use Rattle.clap.specs.Takes.{takes};
ghost use Rattle.nx_words.specs.Clap.{nxml};
ghost use Rattle.nx_words.specs.Words.{command_line};
ghost use Rattle.nx_words.specs.Call.{call_line};

use crate::form::is_command_line;
use clap::error::ErrorKind;
use clap::{Arg, ArgMatches, Command};
use nx_base::memory::NoMemory;
use std::alloc::Global;

/// What the words ask for: a script, and the texts of two URIs where the options are given.
#[derive(Clone, Copy, Debug)]
pub struct Call<'a> {
    pub script: &'a str,
    pub schema: Option<&'a str>,
    pub rules: Option<&'a str>,
}

/// Reads the words; none exactly where they aren't in the form.
pub fn read_call<'a>(alloc: Global, words: &'a [&'a str]) -> Result<Option<Call<'a>>, NoMemory>
    ensures { IfOk result (λ call. option_map call_line call ≡ command_line (map (λ word. word.now) words.entry.now)) }
{
    if !is_command_line(words) {
        return Ok(None);
    }
    let matches = match_words(alloc, words)?;
    let Some(script) = matches.get_str("script") else {
        unreachable!()
    };
    let schema = matches.get_str("schema");
    let rules = matches.get_str("rules");
    Ok(Some(Call {
        script,
        schema,
        rules,
    }))
}

/// What clap makes of words that its command takes.
fn match_words<'a>(alloc: Global, words: &'a [&'a str]) -> Result<ArgMatches<'a>, NoMemory>
    requires { takes nxml (map (λ word. word.now) words.now) ≡ true }
    ensures { IfOk result (λ m. rows_of (found_of m) ≡ matches_of nxml (map (λ word. word.now) words.entry.now)) }
{
    let command = command(alloc)?;
    match command.try_get_matches_from(words) {
        Ok(matches) => Ok(matches),
        Err(error) => match error.kind() {
            ErrorKind::OutOfMemory => Err(NoMemory),
            _ => unreachable!(),
        },
    }
}

/// The program's command for clap.
fn command<'a>(alloc: Global) -> Result<Command<'a>, NoMemory>
    ensures { IfOk result (λ command. app_of command ≡ nxml) }
{
    let command = Command::new(alloc, "nxml")
        .no_binary_name(true)
        .arg(Arg::new(alloc, "schema").long("schema"))?
        .arg(Arg::new(alloc, "rules").long("rules"))?
        .arg(Arg::new(alloc, "script").required(true))?;
    Ok(command)
}
