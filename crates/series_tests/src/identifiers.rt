use crate::tags::tags_of;
use m3_model::Memory;
use series_id::{IdErr, SeriesId, has_tag, of_tags, parse, shard_of, valid};
use std::alloc::Global;
use std::test::Fail;

// Texts, each behind what is read of it.
const TEXTS: &str = r#"plain => up
plain => grüße
plain => a{b="x"}
plain => "
plain =>  {
tags dc:x host:h1 => {dc="x",host="h1"}
tags a: => {a=""}
tags _: _a:{ _a0:,} => {_="",_a="{",_a0=",}"}
tags A:1 a:2 => {A="1",a="2"}
tags a:"\ => {a="\"\\"}
tags a:grüße b:= => {a="grüße",b="="}
Name { at: 1 } => {
Name { at: 1 } => {}
Name { at: 1 } => {1="x"}
Name { at: 1 } => {="x"}
Name { at: 7 } => {a="x",}
Name { at: 7 } => {a="x",9="y"}
Name { at: 1 } => {ü="x"}
Brace => {a
Brace => {a}
Brace => {a=x}
Brace => {a-b="x"}
Brace => {a:"x"}
Brace => {a="x
Brace => {a="x"
Brace => {a="x"}b
Brace => {a="x"}}
Brace => {a="x" ,b="y"}
Brace => {a="x"b="y"}
Order => {b="x",a="y"}
Repeat => {a="x",a="y"}
Order => {ab="x",a="y"}
Order => {b="x",a
Repeat => {b="x",b!
tags a:x ab:y b:z => {a="x",ab="y",b="z"}
Escape { at: 4 } => {a="\n"}
Escape { at: 5 } => {a="x\
Brace => {a="\"
Escape { at: 4 } => {b="\u"}
Order => {b="",a="\u"}
Escape { at: 5 } => {b="x\u",a=""}"#;

// Tags, each list behind what they spell.
const LISTS: &str = r#"{dc="x",host="h1"} => dc:x;host:h1
{a=""} => a:
{a="q\"b\\s"} => a:q"b\s
{a="grüße",b="{}"} => a:grüße;b:{}
Name { at: 1 } => :x
Name { at: 1 } => 1:x
Name { at: 8 } => a:x;b c:y
Name { at: 8 } => a:";9:y
Name { at: 2 } => a-:x
Order => b:x;a:y
Repeat => a:x;a:y
Name { at: 8 } => b:x;a!:y
Name { at: 1 } => 
"#;

// Seeds with hashes of texts, by a program in another language.
const HASHES: &str = "0 0 
1 1364076727 
0 613153351 hello
0 345750399 hello, world
0 1009084850 a
1 1485495528 a
4294967295 711476519 a
0 2613040991 ab
1 3087506246 ab
4294967295 4236296879 abc
0 1139631978 abcd
4294967295 2303486836 abcde
0 2285673222 abcdefg
1 1791706674 {dc=\"x\"}
4294967295 977210749 grüße
0 519850996 the quick brown fox";

fn told_of(alloc: Global, id: &SeriesId) -> Result<String, Fail> {
    let mut text = String::new(alloc);
    match id.tags(alloc) {
        Ok(tags) => {
            for (name, value) in tags.as_slice() {
                write!(text, " {}:{}", name.as_str(), value.as_str())?;
            }
        }
        Err(Memory) => text.push_str("Memory")?,
    }
    Ok(text)
}

fn outcome(alloc: Global, text: &str) -> Result<String, Fail> {
    match parse(alloc, text) {
        Err(e) => Ok(format!(in alloc; "{e:?}")?),
        Ok(id) => {
            let tags = told_of(alloc, &id)?;
            let kind = if tags.is_empty() { "plain" } else { "tags" };
            Ok(format!(in alloc; "{kind}{tags}")?)
        }
    }
}

// What a list of tags spells.
fn spelled(alloc: Global, list: &str) -> Result<String, Fail> {
    let tags = tags_of(alloc, list)?;
    match of_tags(alloc, tags.as_slice()) {
        Err(e) => Ok(format!(in alloc; "{e:?}")?),
        Ok(id) => Ok(String::from_str(alloc, id.text())?),
    }
}

// What is read of a text, which is a valid one exactly where it is an identifier.
fn read(alloc: Global, text: &str, out: &mut String) -> Result<(), Fail> {
    let got = outcome(alloc, text)?;
    let is = got.starts_with("plain") || got.starts_with("tags");
    let agrees = if valid(text) == is { "" } else { "not " };
    Ok(write!(out, "{agrees}{} => {text}\n", got.as_str())?)
}

fn read_rows(alloc: Global, rows: &str, out: &mut String) -> Result<(), Fail> {
    for row in rows.lines() {
        let (_, text) = row.split_once(" => ").unwrap_or(("", ""));
        read(alloc, text, out)?;
    }
    Ok(())
}

#[test]
fn texts_are_read(rt: HostRuntime) -> Result<(), Fail> {
    let mut out = String::new(rt.alloc());
    read_rows(rt.alloc(), TEXTS, &mut out)?;
    assert_eq!(rt; out.as_str().trim_end(), TEXTS);
    Ok(())
}

#[test]
fn no_text_is_refused(rt: HostRuntime) -> Result<(), Fail> {
    let mut out = String::new(rt.alloc());
    read(rt.alloc(), "", &mut out)?;
    assert_eq!(rt; out.as_str(), "Empty => \n");
    Ok(())
}

fn spell_rows(alloc: Global, rows: &str, out: &mut String) -> Result<(), Fail> {
    for row in rows.lines() {
        let (_, list) = row.split_once(" => ").unwrap_or(("", ""));
        write!(out, "{} => {list}\n", spelled(alloc, list)?.as_str())?;
    }
    Ok(())
}

#[test]
fn tags_are_spelled(rt: HostRuntime) -> Result<(), Fail> {
    let mut out = String::new(rt.alloc());
    spell_rows(rt.alloc(), LISTS, &mut out)?;
    assert_eq!(rt; out.as_str(), LISTS);
    Ok(())
}

// Tags with one-letter names, the first of which has a value of so many bytes.
fn many(alloc: Global, tags: usize, bytes: usize) -> Result<String, Fail> {
    let letters = "ABCDEFGHIJKLMNOPQRSTUVWXYZ_abcdefghijklmnopqrstuvwxyz";
    let mut text = String::new(alloc);
    for (i, letter) in letters.chars().take(tags).enumerate() {
        write!(text, "{}{letter}=\"", if i == 0 { '{' } else { ',' })?;
        if i == 0 {
            for _ in 0..bytes {
                text.push('x')?;
            }
        }
        text.push('"')?;
    }
    text.push('}')?;
    Ok(text)
}

// Whether such tags are an identifier, by both readers.
fn limit(alloc: Global, tags: usize, bytes: usize) -> Result<&'static str, Fail> {
    let text = many(alloc, tags, bytes)?;
    match (valid(&text), parse(alloc, &text)) {
        (true, Ok(_)) => Ok("identifier"),
        (false, Err(IdErr::Long)) => Ok("long"),
        _ => Ok("other"),
    }
}

#[test]
fn limits_are_kept(rt: HostRuntime) -> Result<(), Fail> {
    for (tags, bytes, want) in [
        (32, 0, "identifier"),
        (33, 0, "long"),
        (1, 506, "identifier"),
        (1, 507, "long"),
    ] {
        assert_eq!(rt; limit(rt.alloc(), tags, bytes)?, want, "{tags} {bytes}");
    }
    Ok(())
}

#[test]
fn tags_are_found(rt: HostRuntime) {
    let id = r#"{a="x",b="q\"\\"}"#;
    for (name, value, want) in [
        ("a", "x", true),
        ("b", "q\"\\", true),
        ("b", "q", false),
        ("c", "x", false),
        ("a", "", false),
    ] {
        assert_eq!(rt; has_tag(id, name, value), want, "{name} {value}");
    }
    assert!(rt; !has_tag(r#"{a="x",b}"#, "a", "x"));
    assert!(rt; !has_tag("up", "", ""));
}

#[test]
fn hashes_are_those_of_another_program(rt: HostRuntime) -> Result<(), Fail> {
    for row in HASHES.lines() {
        let (seed, rest) = row.split_once(' ').expect(&rt, "three parts");
        let (hash, text) = rest.split_once(' ').expect(&rt, "three parts");
        let seed: u32 = seed.parse().expect(&rt, "a seed");
        let hash: u32 = hash.parse().expect(&rt, "a hash");
        assert_eq!(rt; shard_of(text, seed, u32::MAX), hash % u32::MAX, "{row}");
        assert_eq!(rt; shard_of(text, seed, 64), hash % 64, "{row}");
    }
    Ok(())
}
