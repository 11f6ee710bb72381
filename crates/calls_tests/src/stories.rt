//! Lists of events, spelled as words, for tests.
use crate::scenes::{
    NUMBERED, digit, done, nodes, number, numbered_point, page, page_after, pick, placement, point,
    points, rules, series,
};
use cluster_core::{Asked, Event, StepCall, StepReply};
use m3_model::{Damage, Memory, Point, Reason, Report, Seq, Standing, Text};
use std::alloc::Global;

// What a word means where it stands: the present moment, the shard of which it is, and the position of the last Send or
// FetchStart.
#[derive(Drop)]
struct Scene {
    moment: u8,
    shard: u32,
    at: u64,
}

fn letter_at(letters: &[u8], position: usize, otherwise: u8) -> u8 {
    letters.get(position).copied().unwrap_or(otherwise)
}

fn put(alloc: Global, moment: u8, version: u64, point: Point) -> Result<StepCall, Memory> {
    Ok(StepCall::Put {
        client: 0,
        number: 0,
        rules: rules(alloc, moment, 1)?,
        version,
        point,
    })
}

// The call of a step by its letter.
fn call(alloc: Global, letter: u8, rest: &[u8], moment: u8) -> Result<StepCall, Memory> {
    let first = number(letter_at(rest, 0, b'0'));
    Ok(match letter {
        b'B' => StepCall::Begin { tenure: first },
        b'W' => put(
            alloc,
            moment,
            first,
            point(alloc, letter_at(rest, 1, b'p'))?,
        )?,
        b'R' => StepCall::Read {
            client: 0,
            number: 1,
            rules: rules(alloc, moment, 1)?,
            version: first,
            pick: pick(alloc)?,
            from: 0,
            to: 149,
        },
        b'F' => StepCall::Fence { version: first },
        b'G' => StepCall::Page {
            after: page_after(alloc, rest)?,
        },
        b'M' => StepCall::Merge {
            page: page(alloc, rest)?,
        },
        _ => other_call(alloc, letter, moment)?,
    })
}

fn other_call(alloc: Global, letter: u8, moment: u8) -> Result<StepCall, Memory> {
    Ok(match letter {
        b'H' => StepCall::Block {
            ns: 0,
            start: 100,
            size: 5,
            after: None,
        },
        b'T' => StepCall::Tick {
            rules: rules(alloc, moment, 1)?,
        },
        b'L' => StepCall::Flush {
            rules: rules(alloc, moment, 1)?,
        },
        b'Y' => StepCall::Digests {
            rules: rules(alloc, moment, 1)?,
        },
        b'Z' => StepCall::Snapshot,
        b'Q' => StepCall::Report,
        b'E' => StepCall::End,
        b'X' => StepCall::Stop,
        _ => StepCall::Restart,
    })
}

fn standing(letter: u8) -> Standing {
    match letter {
        b'o' => Standing::Open,
        b'd' => Standing::Down,
        _ => Standing::Boot,
    }
}

// What a call is answered by its letter.
fn reply(alloc: Global, letter: u8, rest: &[u8]) -> Result<StepReply, Memory> {
    let after_first = rest.get(1..).unwrap_or(&[]);
    Ok(match letter {
        b'B' => StepReply::Began {
            fence: number(letter_at(rest, 1, b'0')),
            points: points(alloc, rest.get(2..).unwrap_or(&[]))?,
        },
        b'R' => StepReply::Found {
            series: series(alloc, after_first)?,
        },
        b'G' | b'H' => StepReply::Paged {
            page: page(alloc, rest)?,
        },
        b'Y' => StepReply::Sums {
            digests: Seq::new(alloc),
        },
        b'M' | b'T' | b'L' | b'Z' => StepReply::Count { n: 0 },
        b'Q' => StepReply::Told {
            report: Report {
                standing: standing(letter_at(rest, 0, b'b')),
                fence: number(letter_at(rest, 1, b'0')),
                buffered: 0,
                segments: 0,
                volumes: 0,
                snapshot: 0,
            },
        },
        _ => StepReply::Done,
    })
}

fn reason(alloc: Global, letters: &[u8]) -> Result<Reason, Memory> {
    Ok(match letters {
        [b'c'] => Reason::Cut,
        [b'd'] => Reason::Down,
        [b'b'] => Reason::Boot,
        [b'n'] => Reason::NotOwned,
        [b's', fence] => Reason::Stale {
            fence: number(*fence),
        },
        [b'p'] => Reason::Past,
        [b'f'] => Reason::Future,
        [b'k'] => Reason::Disk,
        [b'x'] => Reason::Corrupt(Damage::Form {
            file: Text::from_str(alloc, "volume")?,
            at: 0,
        }),
        _ => Reason::Memory,
    })
}

// A step: its letter, its node, what the call and the answer have, and after `!` why it was refused. A small letter is that
// of a call under the rules of a moment that hasn't come.
fn step(alloc: Global, word: &str, scene: &Scene) -> Result<Option<Event>, Memory> {
    let (made, why) = match word.split_once('!') {
        Some((made, why)) => (made, Some(why)),
        None => (word, None),
    };
    let [first, node, rest @ ..] = made.as_bytes() else {
        return Ok(None);
    };
    let letter = first.to_ascii_uppercase();
    let moment = if *first == letter { scene.moment } else { 9 };
    let reply = match why {
        Some(why) => StepReply::Refused {
            reason: reason(alloc, why.as_bytes())?,
        },
        None => reply(alloc, letter, rest)?,
    };
    Ok(Some(Event::Step {
        node: digit(*node),
        shard: scene.shard,
        call: call(alloc, letter, rest, moment)?,
        reply,
    }))
}

fn event(alloc: Global, word: &str, scene: &Scene) -> Result<Option<Event>, Memory> {
    Ok(Some(match word.as_bytes() {
        [b'P', version, kind] => Event::Place {
            place: placement(alloc, *kind, number(*version))?,
            done: done(alloc, *kind)?,
        },
        [b'C', _, spaces @ ..] => Event::Clock {
            rules: rules(alloc, scene.moment, digit(letter_at(spaces, 0, b'1')))?,
        },
        [b'S', version, letter] => Event::Send {
            version: number(*version),
            shard: scene.shard,
            point: point(alloc, *letter)?,
        },
        [b'A', acks @ ..] => Event::Ack {
            send: scene.at,
            nodes: nodes(alloc, acks)?,
        },
        [b'K', version, moment] => Event::FetchStart {
            version: number(*version),
            shard: scene.shard,
            rules: rules(alloc, digit(*moment), 1)?,
            pick: pick(alloc)?,
            from: 0,
            to: 149,
        },
        [b'D', one, other, found @ ..] => Event::FetchDone {
            start: scene.at,
            nodes: nodes(alloc, &[*one, *other])?,
            series: series(alloc, found)?,
        },
        _ => return step(alloc, word, scene),
    }))
}

// What is asked for before the event, where that is due.
fn asked(event: Event) -> Option<Asked> {
    match event {
        Event::Place { place, done } => Some(Asked::Place { place, done }),
        Event::Clock { rules } => Some(Asked::Clock { rules }),
        Event::Step {
            node,
            shard,
            call,
            ..
        } => Some(Asked::Step { node, shard, call }),
        _ => None,
    }
}

// The event of a word, asked for before it where that is wanted and due.
fn add_word(
    alloc: Global,
    events: &mut Vec<Event>,
    word: &str,
    scene: &Scene,
    asks: bool,
    happens: bool,
) -> Result<(), Memory> {
    if asks {
        if let Some(asked) = event(alloc, word, scene)?.and_then(asked) {
            events.push(Event::Ask { asked })?;
        }
    }
    if happens {
        if let Some(event) = event(alloc, word, scene)? {
            events.push(event)?;
        }
    }
    Ok(())
}

// Each numbered point is sent, and put at the first two nodes.
fn add_numbered(alloc: Global, events: &mut Vec<Event>) -> Result<(), Memory> {
    for number in 0..NUMBERED {
        events.push(Event::Send {
            version: 1,
            shard: 0,
            point: numbered_point(alloc, number)?,
        })?;
        for node in 0..2 {
            events.push(Event::Ask {
                asked: Asked::Step {
                    node,
                    shard: 0,
                    call: put(alloc, 1, 1, numbered_point(alloc, number)?)?,
                },
            })?;
            events.push(Event::Step {
                node,
                shard: 0,
                call: put(alloc, 1, 1, numbered_point(alloc, number)?)?,
                reply: StepReply::Done,
            })?;
        }
    }
    Ok(())
}

// What the word means for those behind it, and the event of it.
fn tell_word(
    alloc: Global,
    events: &mut Vec<Event>,
    scene: &mut Scene,
    word: &str,
) -> Result<(), Memory> {
    let asks = word.starts_with('?') || events.len() >= 2 && !word.starts_with('~');
    let happens = !word.starts_with('?');
    let word = word.trim_start_matches(['?', '~']);
    let (word, shard) = word.split_once('/').unwrap_or((word, ""));
    scene.shard = digit(letter_at(shard.as_bytes(), 0, b'0')) as u32;
    match word.as_bytes() {
        [b'N'] => add_numbered(alloc, events)?,
        [b'C', new, ..] => scene.moment = digit(*new),
        [b'S' | b'K', ..] => scene.at = events.len() as u64,
        _ => {}
    }
    add_word(alloc, events, word, scene, asks, happens)
}

/// The events of a story: words with spaces between, each of them asked for where that is due, but after `~`; after `?` it
/// is asked for alone. A word is of the shard behind its `/`, or of shard 0. The word `N` is of the numbered points. The
/// words before come first.
pub fn story(alloc: Global, before: &str, words: &str) -> Result<Seq<Event>, Memory> {
    let mut events = Vec::new(alloc);
    let mut scene = Scene {
        moment: 1,
        shard: 0,
        at: 0,
    };
    for part in [before, words] {
        for word in part.split(' ') {
            tell_word(alloc, &mut events, &mut scene, word)?;
        }
    }
    Ok(Seq::from_vec(events))
}
