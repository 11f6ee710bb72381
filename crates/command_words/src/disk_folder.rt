ghost use Rattle.std.specs.Prelude.{◌≡◌, ◌≢◌, None, IfOk, IsErrOf, OnOk, map, option_map, string_bytes};
ghost use Rattle.clap.specs.Words.{subcommand_rows_of};
ghost use Rattle.command_words.specs.Tasks.{folder_by, folder_of, task_by, task_of};
ghost use Rattle.command_words.specs.declared.words_err.WordsErr.TheVariants as errors;

use crate::command::matches_of;
use crate::task::task_by;
use crate::words_err::WordsErr;
use clap::ArgMatches;
use clap::error::ErrorKind;
use m3_model::Text;
use std::alloc::Global;

// The folder of the subcommand that was met.
fn folder_by<'a>(matches: &ArgMatches<'a>) -> Option<&'a str>
    ensures { option_map (λ s. s.now) result ≡ folder_by (subcommand_rows_of matches.now) }
{
    let (_, found) = matches.subcommand()?;
    found.get_str("disk")
}

// A copy of that folder's name, where the subcommand asks for a task.
fn named_by(alloc: Global, matches: &ArgMatches<'_>) -> Result<Option<Text>, WordsErr>
    ensures ok { IfOk result (λ folder. folder ≡ folder_by (subcommand_rows_of matches.now)) }
    ensures asked { OnOk result (task_by (subcommand_rows_of matches.now) ≢ None) }
    ensures usage { IsErrOf result errors.Usage → task_by (subcommand_rows_of matches.now) ≡ None }
{
    if task_by(matches).is_none() {
        return Err(WordsErr::Usage);
    }
    let Some(name) = folder_by(matches) else {
        return Ok(None);
    };
    match Text::from_str(alloc, name) {
        Ok(name) => Ok(Some(name)),
        Err(_) => Err(WordsErr::Memory),
    }
}

/// The folder in which a run has its disks, where the words after the program's name give one.
///
/// # Errors
///
/// `Usage` exactly where they ask for no task and there is memory to read them, and `Memory` where there is none to read them or
/// for the answer.
pub fn folder(alloc: Global, words: &[String]) -> Result<Option<Text>, WordsErr>
    ensures ok { IfOk result (λ folder. folder ≡ folder_of (map string_bytes words.now)) }
    ensures asked { OnOk result (task_of (map string_bytes words.now) ≢ None) }
    ensures usage { IsErrOf result errors.Usage → task_of (map string_bytes words.now) ≡ None }
{
    match matches_of(alloc, words) {
        Ok(matches) => named_by(alloc, &matches),
        Err(error) => match error.kind() {
            ErrorKind::OutOfMemory => Err(WordsErr::Memory),
            _ => Err(WordsErr::Usage),
        },
    }
}
