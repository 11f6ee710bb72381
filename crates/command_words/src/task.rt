ghost use Rattle.std.specs.Prelude.{◌≡◌, None, Some, IfOk, IsErrOf, map, string_bytes};
ghost use Rattle.clap.specs.Words.{found_of, rows_of, subcommand_rows_of};
ghost use Rattle.command_words.specs.Tasks.{number_in, task_by, task_of};
ghost use Rattle.command_words.specs.declared.words_err.WordsErr.TheVariants as errors;

use crate::command::matches_of;
use crate::words_err::WordsErr;
use clap::ArgMatches;
use clap::error::ErrorKind;
use std::alloc::Global;

/// What words may ask for.
#[derive(Clone, Copy, Debug, PartialEq, Eq)]
pub enum Task {
    /// Request lines are read and served, over the disks of the folder that the words give, or over new ones in memory.
    Run,
    /// The script of a number is served.
    Generate { number: u32 },
}

// The number that a subcommand was given, where it spells one.
fn number_of(found: &ArgMatches<'_>) -> Option<u32>
    ensures { result ≡ number_in (rows_of (found_of found.now)) }
{
    found.get_one::<u32>("number")
}

// The task of the subcommand that was met.
pub(crate) fn task_by(matches: &ArgMatches<'_>) -> Option<Task>
    ensures { result ≡ task_by (subcommand_rows_of matches.now) }
{
    let (name, found) = matches.subcommand()?;
    if name == "run" {
        return Some(Task::Run);
    }
    match number_of(found) {
        Some(number) => Some(Task::Generate { number }),
        None => None,
    }
}

/// The task that the words after the program's name ask for.
///
/// # Errors
///
/// `Usage` where they ask for none, and `Memory` where there is no memory to read them.
pub fn task_of(alloc: Global, words: &[String]) -> Result<Task, WordsErr>
    ensures ok { IfOk result (λ task. task_of (map string_bytes words.now) ≡ Some task) }
    ensures usage { IsErrOf result errors.Usage → task_of (map string_bytes words.now) ≡ None }
{
    match matches_of(alloc, words) {
        Ok(matches) => match task_by(&matches) {
            Some(task) => Ok(task),
            None => Err(WordsErr::Usage),
        },
        Err(error) => match error.kind() {
            ErrorKind::OutOfMemory => Err(WordsErr::Memory),
            _ => Err(WordsErr::Usage),
        },
    }
}
