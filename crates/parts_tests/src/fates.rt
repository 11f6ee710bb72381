use m3_model::limits::MOST_LATE_WRITES;
use m3_model::{Duplicate, Fate, Memory, Point, Seq, Text};
use net_plan::{Bag, Calls, FateKey, Fates, LateWrite, is_fates_row};
use std::alloc::Global;
use std::test::Fail;

fn digit(byte: u8) -> u8 {
    byte & 15
}

fn fate_by_letter(letter: u8) -> Fate {
    match letter {
        b'L' => Fate::Lose,
        b'T' => Fate::Twice,
        b'B' => Fate::Late,
        _ => Fate::Deliver,
    }
}

fn letter_of(fate: Fate) -> u8 {
    match fate {
        Fate::Lose => b'L',
        Fate::Twice => b'T',
        Fate::Late => b'B',
        Fate::Deliver => b'D',
    }
}

// Client, call, node and fate: `012L`.
fn items(alloc: Global, text: &str) -> Result<Seq<(u32, u64, u8, Fate)>, Memory> {
    let mut all = Vec::new(alloc);
    for word in text.split(' ') {
        if let [client, call, node, fate] = word.as_bytes() {
            let fate = fate_by_letter(*fate);
            all.push((
                digit(*client) as u32,
                digit(*call) as u64,
                digit(*node),
                fate,
            ))?;
        }
    }
    Ok(Seq::from_vec(all))
}

fn only_byte(text: &str) -> u8 {
    match text.as_bytes() {
        [byte] => *byte,
        _ => 0,
    }
}

// The message's fate, or `-` where the list is no row.
fn told(alloc: Global, list: &str, message: &str) -> Result<u8, Memory> {
    let list = items(alloc, list)?;
    let key = match message.as_bytes() {
        [client, call, node] => FateKey {
            client: digit(*client) as u32,
            call: digit(*call) as u64,
            node: digit(*node),
        },
        _ => return Ok(b'?'),
    };
    if !is_fates_row(list.as_slice()) {
        return Ok(b'-');
    }
    Ok(letter_of(Fates::new(list).fate(&key)))
}

// A list, a message and its fate.
const FATES: &str = "|000|D
000L|000|L
000L|001|D
000L|010|D
000L|100|D
013T 002L 812B 011L|812|B
013T 002L 812B 011L|013|T
013T 002L 812B 011L|002|L
013T 002L 812B 011L|011|L
013T 002L 812B 011L|813|D
013T 002L 812B 011L|000|D
013T 002L 812B 011L|012|D
000L 001L 000T|002|-
000L 001D|002|-";

#[test]
fn fates_are_told(rt: HostRuntime) -> Result<(), Fail> {
    for row in FATES.lines() {
        let (list, rest) = row.split_once('|').unwrap_or(("", ""));
        let (message, want) = rest.split_once('|').unwrap_or(("", ""));
        let letter = told(rt.alloc(), list, message)?;
        assert_eq!(rt; letter, only_byte(want), "{row}");
    }
    Ok(())
}

fn late(alloc: Global, number: u64) -> Result<LateWrite, Memory> {
    let point = Point {
        ns: 0,
        id: Text::from_str(alloc, "hello")?,
        t: number,
        v: 5,
    };
    Ok(LateWrite {
        client: 1,
        number,
        node: 2,
        shard: 3,
        version: 4,
        point,
    })
}

// Keeps so many writes, with numbers from 0, and says how many the bag took before it refused one.
fn keep_all(alloc: Global, bag: &mut Bag, writes: usize, out: &mut String) -> Result<(), Fail> {
    let mut taken = 0;
    for number in 0..writes {
        if bag.keep(late(alloc, number as u64)?.copy(alloc)?).ok() != Some(true) {
            break;
        }
        taken = number + 1;
    }
    write!(out, "{taken} ")?;
    Ok(())
}

// Empties the bag, and says how many writes came out of it, and how many of them in the place of their number.
fn empty(bag: &mut Bag, out: &mut String) -> Result<(), Fail> {
    let all = bag.empty()?;
    let placed = all
        .as_slice()
        .iter()
        .enumerate()
        .filter(|(position, write)| write.number == *position as u64);
    write!(out, "{} {}|", all.len(), placed.count())?;
    Ok(())
}

fn kept_and_emptied(alloc: Global, out: &mut String) -> Result<(), Fail> {
    let mut bag = Bag::new(alloc)?;
    for writes in [MOST_LATE_WRITES + 1, 0, 1] {
        keep_all(alloc, &mut bag, writes, out)?;
        empty(&mut bag, out)?;
    }
    Ok(())
}

#[test]
fn late_writes_stay_in_order(rt: HostRuntime) -> Result<(), Fail> {
    let mut out = String::new(rt.alloc());
    kept_and_emptied(rt.alloc(), &mut out)?;
    assert_eq!(rt; out.as_str(), "4096 4096 4096|0 0 0|1 1 1|");
    Ok(())
}

#[test]
fn calls_are_numbered(rt: HostRuntime) {
    let mut calls = Calls::new();
    assert_eq!(rt; calls.next(0), 0);
    assert_eq!(rt; calls.next(0), 1);
    assert_eq!(rt; calls.next(8), 0);
    assert_eq!(rt; calls.next(0), 2);
    calls.restart();
    assert_eq!(rt; calls.next(0), 0);
    assert_eq!(rt; calls.next(8), 0);
}
