//! Random scripts for a cluster on the nodes a, b and c.
ghost use Rattle.std.specs.Prelude.{◌≤◌, ◌<◌};

use m3_model::Memory;
use std::alloc::Global;

/// A xorshift generator, whose state isn't 0.
#[derive(Clone, Copy)]
pub struct Dice {
    state: u64,
}

impl Dice {
    /// The generator of a seed.
    pub fn new(seed: u64) -> Dice {
        Dice {
            state: seed.wrapping_mul(0x9E37_79B9_7F4A_7C15) | 1,
        }
    }

    /// A number below `sides`.
    pub fn roll(&mut self, sides: u64) -> u64
        requires { 1 ≤ sides }
        ensures { result < sides }
    {
        let mut x = self.state;
        x ^= x.wrapping_shl(13);
        x ^= x.wrapping_shr(7);
        x ^= x.wrapping_shl(17);
        self.state = x;
        x % sides
    }

    /// One of the letters.
    pub fn pick(&mut self, letters: &str) -> char {
        let position = self.roll(letters.len().max(1) as u64) as usize;
        match letters.as_bytes().get(position) {
            Some(letter) => *letter as char,
            None => '?',
        }
    }
}

// What a script guesses of the run so far: the moment, and of each node whether it runs (0), is stopped (1) or waits (2).
#[derive(Clone, Copy)]
struct Guess {
    now: u64,
    nodes: [u8; 3],
}

/// A write about this moment.
pub fn add_write(script: &mut String, dice: &mut Dice, now: u64) -> Result<(), Memory> {
    let ns = dice.pick("mmmmmn");
    let series = dice.pick("uuxy");
    let level = dice.pick("OMMMMA");
    let t = now.saturating_add(dice.roll(108)).saturating_sub(54);
    let v = dice.roll(200);
    write!(script, "w{ns}{series}{level}{t}=")?;
    if v < 50 {
        script.push('-')?;
    }
    write!(script, "{v}")?;
    Ok(())
}

// A range about now, or all times.
fn add_range(script: &mut String, dice: &mut Dice, now: u64) -> Result<(), Memory> {
    if dice.roll(5) == 0 {
        let from = now.saturating_sub(dice.roll(60));
        let to = from.saturating_add(dice.roll(60));
        write!(script, "{from}-{to}")?;
    }
    Ok(())
}

/// A fetch, of all times or of some about this moment.
pub fn add_fetch(script: &mut String, dice: &mut Dice, now: u64) -> Result<(), Memory> {
    let ns = dice.pick("mmmmmn");
    let series = dice.pick("uuxy");
    let level = dice.pick("OUMMMMMA");
    write!(script, "r{ns}{series}{level}")?;
    add_range(script, dice, now)
}

/// A match, of all times or of some about this moment.
pub fn add_match(script: &mut String, dice: &mut Dice, now: u64) -> Result<(), Memory> {
    let ns = dice.pick("mmmmmn");
    let sign = dice.pick("=!");
    let level = dice.pick("OUMMMMMA");
    write!(script, "q{ns}{sign}{level}")?;
    add_range(script, dice, now)
}

// Fates of some of the next calls, of each to one node or to two.
fn add_fates(script: &mut String, dice: &mut Dice) -> Result<(), Memory> {
    script.push('f')?;
    for call in 0..dice.roll(5) {
        let fate = dice.pick("LTB");
        match dice.roll(5) {
            0 => write!(script, "0{call}a{fate},0{call}bB,")?,
            1 => write!(script, "0{call}b{fate},0{call}cB,")?,
            2 => write!(script, "0{call}a{fate},")?,
            3 => write!(script, "0{call}b{fate},")?,
            _ => write!(script, "0{call}c{fate},")?,
        }
    }
    Ok(())
}

// What can be done to a node, by the guess: one that runs is stopped, or begun once more.
fn next_for(dice: &mut Dice, node: u8) -> u8 {
    match node {
        1 => b'b',
        2 => b'o',
        _ => { if dice.roll(2) == 0 { b's' } else { b'o' } }
    }
}

// A node, most often one that doesn't run, if there is one.
fn next_node(dice: &mut Dice, nodes: &[u8; 3]) -> usize
    ensures { result < 3 }
{
    let any = dice.roll(3) as usize;
    match nodes.iter().position(|node| *node != 0) {
        Some(position) if dice.roll(4) > 0 => position.min(2),
        _ => any,
    }
}

fn node_after(letter: u8) -> u8 {
    match letter {
        b's' => 1,
        b'b' => 2,
        _ => 0,
    }
}

// A stop, a restart or a bootstrap of a node.
fn add_node(script: &mut String, dice: &mut Dice, guess: &mut Guess) -> Result<(), Memory> {
    let position = next_node(dice, &guess.nodes);
    let letter = next_for(dice, guess.nodes[position]);
    guess.nodes[position] = node_after(letter);
    script.push(letter as char)?;
    script.push(match position {
        0 => 'a',
        1 => 'b',
        _ => 'c',
    })?;
    if letter == b'b' {
        let pick = dice.roll(256);
        write!(script, "{pick}")?;
    }
    Ok(())
}

// One that need not be due, also of a node and of a shard that aren't there.
fn add_odd(script: &mut String, dice: &mut Dice) -> Result<(), Memory> {
    let letter = dice.pick("sbo");
    let node = dice.pick("abcx");
    write!(script, "{letter}{node}")?;
    if letter == 'o' && dice.roll(2) == 0 {
        let shard = dice.roll(3);
        write!(script, "{shard}")?;
    }
    Ok(())
}

// The next moment, less than so much later.
fn add_moment(
    script: &mut String,
    dice: &mut Dice,
    guess: &mut Guess,
    within: u64,
) -> Result<(), Memory>
    requires { 1 ≤ within }
{
    guess.now = guess.now.saturating_add(dice.roll(within));
    let now = guess.now;
    write!(script, "t{now}")?;
    Ok(())
}

// A tick, a flush, a status, or a moment at which more blocks have ended.
fn add_upkeep(script: &mut String, dice: &mut Dice, guess: &mut Guess) -> Result<(), Memory> {
    match dice.roll(8) {
        0 | 1 => Ok(script.push('k')?),
        2 | 3 | 4 => Ok(script.push('l')?),
        5 => Ok(script.push('u')?),
        _ => add_moment(script, dice, guess, 30),
    }
}

fn all_run(nodes: &[u8; 3]) -> bool {
    nodes.iter().all(|node| *node == 0)
}

// A node that doesn't run is soon led on.
fn add_word(script: &mut String, dice: &mut Dice, guess: &mut Guess) -> Result<(), Memory> {
    if !all_run(&guess.nodes) && dice.roll(4) == 0 {
        return add_node(script, dice, guess);
    }
    match dice.roll(100) {
        0..=37 => add_write(script, dice, guess.now),
        38..=59 => add_fetch(script, dice, guess.now),
        60..=65 => add_match(script, dice, guess.now),
        66..=71 => add_fates(script, dice),
        72..=76 => Ok(script.push('d')?),
        77..=82 => add_moment(script, dice, guess, 12),
        83..=97 => add_node(script, dice, guess),
        _ => add_odd(script, dice),
    }
}

/// So many words behind those that make a cluster with two namespaces at moment 100.
pub fn script(alloc: Global, seed: u64, words: u64) -> Result<String, Memory> {
    mixed(alloc, seed, words, 0)
}

/// The same, with ticks, flushes and status among them.
pub fn upkeep_script(alloc: Global, seed: u64, words: u64) -> Result<String, Memory> {
    mixed(alloc, seed, words, 10)
}

// Of a hundred words so many are of upkeep.
fn mixed(alloc: Global, seed: u64, words: u64, upkeep: u64) -> Result<String, Memory> {
    let mut dice = Dice::new(seed);
    let mut guess = Guess {
        now: 100,
        nodes: [0; 3],
    };
    let mut script = String::new(alloc);
    write!(script, "i{} nm nn t100", dice.roll(2) + 1)?;
    for _ in 0..words {
        script.push(' ')?;
        if upkeep > 0 && dice.roll(100) < upkeep {
            add_upkeep(&mut script, &mut dice, &mut guess)?;
        } else {
            add_word(&mut script, &mut dice, &mut guess)?;
        }
    }
    Ok(script)
}
