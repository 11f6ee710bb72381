//! Stories of calls, of nodes and of messages to them.
use cluster_runs::run;
use m3_model::Memory;
use std::alloc::Global;
use std::test::Fail;
use test_disks::disks_with;

// What is answered to the words that set the rules and the fates.
const SET_UP: &str = "v1[abc]:ok:ok:ok:";

// What a new cluster answers to words, where the fates and the rules before them were set. Of the disk of node a all calls fail after so
// many, where there is a number, until it is restarted.
fn story(alloc: Global, row: &str, out: &mut String) -> Result<(), Memory> {
    let (fuse, rest) = row.split_once('|').unwrap_or(("", ""));
    let (fates, words) = rest.split_once('|').unwrap_or(("", ""));
    let mut disks = disks_with(alloc, (0, 0), &[], fuse.parse::<u64>().ok())?;
    let all = format!(in alloc; "i1 nm t100 {fates} {words}")?;
    let mut told = String::new(alloc);
    run(alloc, &mut disks, all.as_str(), &mut told)?;
    Ok(out.push_str(told.as_str().strip_prefix(SET_UP).unwrap_or("?"))?)
}

// How many calls of the disk of a pass, if not all; fates as `f00bL`, of call 0 of the lines outside `par` to b; words; and their
// answers, each ended by a colon. Fates begin the numbers of calls anew.
const STORIES: &str = "|f|wmuM100=5 rmuM d|abc:u100=5,.::
|f00bB,01cB,02cL|wmuM100=5 wmuM101=6 wmuM102=7 d d sa sb rmuU rmuM rmuO|ac:ab:ab:b+c+::ok:ok:u100=5,101=6,!:1/2a-b-:u100=5,101=6,.:
|f00aL,00bL,00cL|wmuO100=5 rmuO d|0/1axbxcx:.::
|f00bB|wmuA100=5 rmuM d rmuA|2/3bx:u100=5,.:b+:u100=5,.:
|f00aT,00cB|wmuM100=5 sc d rmuA rmuM|ab:ok:c-:2/3c-:u100=5,.:
|f00aB,02aT|wmuM100=5 wmuM100=3 t160 rmuM d rmuU|bc:abc:ok:.:a<:.:
|f01aL,01bB|wmuM100=5 rmuM rmuU rmuO|abc:1/2axbx:u100=5,.:u100=5,.:
|f01aB,01bL|sc wmuM100=5 rmuU wmuA101=9|ok:ab:0/1axbxc-:2/3c-:
|f|wmuA100=5 wmuM100=9 wmuO100=2 rmuA|abc:abc:abc:u100=9,.:
|f|wmuA100=5 sa ba wmuA101=6 oa sb sc rmuO wmuO102=7 rmuO|abc:ok:ok:2/3a^:v1[abc]:ok:ok:u100=5,.:a:u100=5,102=7,.:
|f|ox bx sa oa ba oa rmuA|?x:?x:ok:=a:ok:v1[abc]:.:
20|f|wmuA100=5 wmuA101=6 wmuA102=7 ba sa ba oa sb sc rmuO|abc:2/3a~:2/3a-:=a:ok:ok:v1[abc]:ok:ok:u100=5,.:";

// Each row's story with what it answers.
fn tell_rows(alloc: Global, rows: &str, out: &mut String) -> Result<(), Memory> {
    for row in rows.lines() {
        let (told, _) = row.rsplit_once('|').unwrap_or(("", ""));
        out.push_str(told)?;
        out.push('|')?;
        story(alloc, told, out)?;
        out.push('\n')?;
    }
    Ok(())
}

#[test]
fn stories_are_told(rt: HostRuntime) -> Result<(), Fail> {
    let mut out = String::new(rt.alloc());
    tell_rows(rt.alloc(), STORIES, &mut out)?;
    assert_eq!(rt; out.as_str().trim_end(), STORIES);
    Ok(())
}
