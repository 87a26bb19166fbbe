//! Laws of runs. Nothing here runs.

ghost use Rattle.nx_run.specs.Allowed.{AllowedRunsAreDone};
ghost use Rattle.nx_run.specs.Run.{RunsPrintText};
ghost use Rattle.nx_run.specs.Validity.{PlayedNoErrorsIsValid, WrittenNoErrorsIsValid};

use nx_base::edit::edited_is_utf8;
use nx_host::uri::joins_is_decided;
use nx_script::line::raw_lines_are_the_lines;
use nx_script::read::lines_are_one_command;
use nx_session::law::{allowed_commands_are_done, allowed_lines_are_done, faults_are_counted};

/// What a run that ends with a status of 0 to 3 writes is UTF-8, where what was written before is, and the details that the views show.
pub fn runs_print_text()
    ensures { RunsPrintText }
{}

/// A run of a script that is there, of which each turn asks for what holds, and in which neither files nor output fail, ends with 0,
/// or for want of memory with 5.
pub fn allowed_runs_are_done()
    ensures { AllowedRunsAreDone }
{
    faults_are_counted();
    allowed_commands_are_done();
    allowed_lines_are_done();
    joins_is_decided();
}

/// Where the play of a script comes to a line `errors`, the text of its reply is `errors: 0` exactly where the editor's text is a
/// well-formed document, and valid against the schema that is held then, if one is; unless there was no memory to read the line or to
/// list the faults, and that is the reply.
pub fn played_no_errors_is_valid()
    ensures { PlayedNoErrorsIsValid }
{
    edited_is_utf8();
    raw_lines_are_the_lines();
    lines_are_one_command();
}

/// In what a run writes that plays its script to its end, the text of the reply to each line `errors` stands in its place, and tells the
/// same.
pub fn written_no_errors_is_valid()
    ensures { WrittenNoErrorsIsValid }
{
    played_no_errors_is_valid();
}
