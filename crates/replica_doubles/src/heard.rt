//! Who answered a call, and what was found.
use block_buffer::Buffer;
use cluster_words::letter_of_node;
use m3_model::{Memory, Pick, Seq, Series};
use std::alloc::Global;

/// The nodes that answered a call at one shard, as `ab`, the others with the letters of their reasons, as `b-cx`, and what was found:
/// there, and at all shards of the call so far.
#[derive(Drop)]
pub struct Heard {
    pub answered: String,
    reasons: String,
    found: Buffer,
    all: Buffer,
}

fn join_all(into: &mut Buffer, ns: u8, found: &[Series]) -> Result<(), Memory> {
    for series in found {
        into.join(ns, series)?;
    }
    Ok(())
}

// All points of the namespace below a time.
fn series_below(alloc: Global, points: &Buffer, ns: u8, to: u64) -> Result<Seq<Series>, Memory> {
    let pick = Pick::Match {
        ns,
        wanted: Seq::new(alloc),
    };
    points.range(alloc, &pick, 0, to)
}

fn node_of_letter(letter: u8) -> u8 {
    letter.saturating_sub(b'a')
}

impl Heard {
    pub fn new(alloc: Global) -> Heard {
        Heard {
            answered: String::new(alloc),
            reasons: String::new(alloc),
            found: Buffer::new(alloc),
            all: Buffer::new(alloc),
        }
    }

    /// A call begins.
    pub fn begin_call(&mut self, alloc: Global) {
        self.all = Buffer::new(alloc);
    }

    /// Its messages to the nodes of a shard begin.
    pub fn begin_shard(&mut self, alloc: Global) {
        self.answered.clear();
        self.reasons.clear();
        self.found = Buffer::new(alloc);
    }

    /// A node answered, or didn't, for the reason of this letter.
    pub fn add(&mut self, node: u8, why: Option<char>) -> Result<(), Memory> {
        let letter = letter_of_node(node);
        match why {
            None => self.answered.push(letter)?,
            Some(why) => {
                self.reasons.push(letter)?;
                self.reasons.push(why)?;
            }
        }
        Ok(())
    }

    /// A node found series.
    pub fn join(&mut self, ns: u8, found: &[Series]) -> Result<(), Memory> {
        join_all(&mut self.found, ns, found)?;
        join_all(&mut self.all, ns, found)
    }

    /// Whether fewer answered.
    pub fn is_below(&self, needed: u32) -> bool {
        self.answered.len() < needed as usize
    }

    /// The nodes that answered.
    pub fn nodes(&self, alloc: Global) -> Result<Seq<u8>, Memory> {
        let mut nodes = Vec::new(alloc);
        for letter in self.answered.as_bytes() {
            nodes.push(node_of_letter(*letter))?;
        }
        Ok(Seq::from_vec(nodes))
    }

    /// What was found below a time at this shard.
    pub fn found_below(&self, alloc: Global, ns: u8, to: u64) -> Result<Seq<Series>, Memory> {
        series_below(alloc, &self.found, ns, to)
    }

    /// What was found below a time at all shards.
    pub fn all_below(&self, alloc: Global, ns: u8, to: u64) -> Result<Seq<Series>, Memory> {
        series_below(alloc, &self.all, ns, to)
    }

    /// That fewer answered than were needed, as `1/2b-cx`, with a shard above 0 behind it, as `#1`.
    pub fn spell_short(&self, needed: u32, shard: u32, out: &mut String) -> Result<(), Memory> {
        let got = self.answered.len();
        write!(out, "{got}/{needed}")?;
        out.push_str(self.reasons.as_str())?;
        if shard > 0 {
            write!(out, "#{shard}")?;
        }
        Ok(())
    }
}
