//! What is so of the words of each task.
ghost use Rattle.command_words.specs.Laws.{DiskIsTaken, NoFolder, NumberIsTaken, OthersAreNot, RunIsTaken};

/// The one word `run` asks for a run.
pub fn run_is_taken()
    ensures { RunIsTaken }
{}

/// The word `run`, `--disk` and a text that isn't empty and doesn't begin with a minus ask for a run over this folder.
pub fn disk_is_taken()
    ensures { DiskIsTaken }
{}

/// The word `run` alone, and those of a script, name no folder.
pub fn others_name_no_folder()
    ensures { NoFolder }
{}

/// The word `generate` and the plain spelling of a number below 2^32 ask for that number's script.
pub fn number_is_taken()
    ensures { NumberIsTaken }
{}

/// No words, another word, and a word too much or too few ask for nothing, nor does a script with a folder.
pub fn others_are_not()
    ensures { OthersAreNot }
{}
