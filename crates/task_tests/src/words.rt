// What words ask for.
use command_words::{Task, WordsErr, folder, task_of};
use m3_model::Text;
use std::alloc::Global;
use std::test::Fail;

fn given(alloc: Global, words: &[&str]) -> Result<Vec<String>, Fail> {
    let mut given = Vec::new(alloc);
    for word in words {
        given.push(String::from_str(alloc, word)?)?;
    }
    Ok(given)
}

fn asked(alloc: Global, words: &[&str]) -> Result<Result<Task, WordsErr>, Fail> {
    let words = given(alloc, words)?;
    Ok(task_of(alloc, words.as_slice()))
}

fn named(alloc: Global, words: &[&str]) -> Result<Result<Option<Text>, WordsErr>, Fail> {
    let words = given(alloc, words)?;
    Ok(folder(alloc, words.as_slice()))
}

#[test]
fn words_of_a_run(rt: HostRuntime) -> Result<(), Fail> {
    let cases: [&[&str]; 4] = [
        &["run"],
        &["run", "--disk", "data"],
        &["run", "--disk=data"],
        &["run", "--disk=-"],
    ];
    for words in cases {
        assert_eq!(rt; asked(rt.alloc(), words)?, Ok(Task::Run));
    }
    Ok(())
}

#[test]
fn folders_of_runs(rt: HostRuntime) -> Result<(), Fail> {
    let cases: [(&[&str], &str); 4] = [
        (&["run", "--disk", "data"], "data"),
        (&["run", "--disk=data"], "data"),
        (&["run", "--disk", "/a folder"], "/a folder"),
        (&["run", "--disk=-"], "-"),
    ];
    for (words, name) in cases {
        let found = named(rt.alloc(), words)?;
        assert!(rt; matches!(&found, Ok(Some(text)) if text.equals(name)));
    }
    Ok(())
}

#[test]
fn words_without_folder(rt: HostRuntime) -> Result<(), Fail> {
    let cases: [&[&str]; 2] = [&["run"], &["generate", "7"]];
    for words in cases {
        assert!(rt; matches!(named(rt.alloc(), words)?, Ok(None)));
    }
    Ok(())
}

#[test]
fn words_of_scripts(rt: HostRuntime) -> Result<(), Fail> {
    let cases = [
        ("0", 0),
        ("7", 7),
        ("007", 7),
        ("+7", 7),
        ("4294967295", 4_294_967_295),
    ];
    for (word, number) in cases {
        let task = asked(rt.alloc(), &["generate", word])?;
        assert_eq!(rt; task, Ok(Task::Generate { number }));
    }
    Ok(())
}

// `m3_trials` runs the program with each of them.
#[test]
fn words_of_no_task(rt: HostRuntime) -> Result<(), Fail> {
    let cases: [&[&str]; 25] = [
        &[],
        &[""],
        &["frob"],
        &["Run"],
        &["ru"],
        &["run", ""],
        &["run", "run"],
        &["run", "7"],
        &["run", "--disk"],
        &["run", "--disk", "-f"],
        &["run", "--disk", "f", "g"],
        &["run", "--disk", "f", "--disk", "g"],
        &["--help"],
        &["-h"],
        &["help"],
        &["--version"],
        &["run", "--help"],
        &["generate"],
        &["generate", ""],
        &["generate", "x7"],
        &["generate", "-1"],
        &["generate", "4294967296"],
        &["generate", "1.0"],
        &["generate", "7", "8"],
        &["generate", "7", "--disk", "f"],
    ];
    for words in cases {
        assert_eq!(rt; asked(rt.alloc(), words)?, Err(WordsErr::Usage));
        assert!(rt; matches!(named(rt.alloc(), words)?, Err(WordsErr::Usage)));
    }
    Ok(())
}

// The texts of the errors, which are what is written on standard error.
#[test]
fn texts_of_errors(rt: HostRuntime) -> Result<(), Fail> {
    let alloc = rt.alloc();
    let usage = format!(in alloc; "{}", WordsErr::Usage)?;
    assert_eq!(rt;
        usage.as_str(),
        "usage: m3 run [--disk FOLDER] or m3 generate N"
    );
    let memory = format!(in alloc; "{}", WordsErr::Memory)?;
    assert_eq!(rt; memory.as_str(), "m3: out of memory");
    Ok(())
}
