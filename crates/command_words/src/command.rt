ghost use Rattle.std.specs.Prelude.{◌≡◌, IfOk, map, string_bytes};
ghost use Rattle.clap.specs.Faults.{fault_of};
ghost use Rattle.clap.specs.Kinds.{FailsBy};
ghost use Rattle.clap.specs.Words.{app_of, subcommand_of, subcommand_rows_of};
ghost use Rattle.command_words.specs.Line.{line_app};

use clap::{Arg, ArgMatches, Command, Error, value_parser};
use std::alloc::{AllocError, Global};

// The command: one of two subcommands is required, and `run` may have a folder.
fn line_command<'a>(alloc: Global) -> Result<Command<'a>, AllocError>
    ensures { IfOk result (λ c. app_of c ≡ line_app) }
{
    let disk = Arg::new(alloc, "disk").long("disk");
    let run = Command::new(alloc, "run")
        .disable_help_flag(true)
        .disable_version_flag(true)
        .arg(disk)?;
    let count = Arg::new(alloc, "number")
        .required(true)
        .value_parser(value_parser!(u32));
    let generate = Command::new(alloc, "generate")
        .disable_help_flag(true)
        .disable_version_flag(true)
        .arg(count)?;
    Command::new(alloc, "m3")
        .no_binary_name(true)
        .disable_help_flag(true)
        .disable_help_subcommand(true)
        .disable_version_flag(true)
        .subcommand_required(true)
        .subcommand(run)?
        .subcommand(generate)
}

/// What the command finds in the words.
pub(crate) fn matches_of<'a>(alloc: Global, words: &'a [String]) -> Result<ArgMatches<'a>, Error>
    ensures fails { FailsBy (fault_of line_app (map string_bytes words.entry.now)) result }
    ensures found { IfOk result (λ m. subcommand_rows_of m ≡ subcommand_of line_app (map string_bytes words.entry.now)) }
{
    line_command(alloc)?.try_get_matches_from(words)
}
