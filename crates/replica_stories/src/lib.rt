//! Words that a replica on a disk is told: what each does and answers. Streams of one replica's pages into another.
//!
//! | Word | What the replica does | What it answers |
//! | --- | --- | --- |
//! | `t1000` | The moment is this one | |
//! | `v3` | The calls that follow are at this version; at first it is 1000 | |
//! | `b1`, `d1` | Begins with the tenure 1 | The fence, and how many points the files have, as `1 of 2`; `d1` of damage the digests, too |
//! | `e3` | Raises the fence | |
//! | `p0,hello,100,5` | Puts a point: its namespace, its identifier, its time and its value | |
//! | `r0,100,200` | Reads the points of a namespace from 100 on and below 200 | Each as ` hello@100=5` |
//! | `o0,hello,100,200` | Reads those of one series | The same |
//! | `f`, `x`, `s` | Flushes, ticks, takes a snapshot | How many blocks were flushed, how many keys went, the snapshot's number |
//! | `g`, `g0,hello,100` | Gives its first page, or the one above this key | Each as ` 0/hello@100=5`, and ` ..` where there are more |
//! | `m0,hello,100,5+0,zulu,110,6` | Merges a page of these points | How many were new or higher |
//! | `n` | | How many volumes count, and how many points are in memory |
//! | `w` | | How many ticks, flushes and snapshots answered a number, and the sum of all that did |
//! | `q` | | The fence |
//! | `h`, `y85`, `z85` | The process stops; starts again, where the pick says what is left; does both | |
//! | `l`, `c` | Stands at Boot | The checkpoints of volumes, each as ` 7.0.1000.1`; how many segments, snapshots and checkpoints of snapshots there are |
//! | `/x1.0.1000.1:5:32` | Stands at Boot, where these bits of the byte of the file at the offset are turned | |
//! | `/m0.0.0.2:65536:0102` | Stands at Boot, where there is a file of so many bytes with these in front | |
//! | `/b1.0.1000.1:5:aa` | Stands at Boot, where another word of `disk_stories` was done on the disk | What that tells |
//!
//! Where it refused a word it answers why.
#![tactic(auto)]

mod files;
pub mod pages;
pub mod replica;
mod tells;
pub mod words;

pub use pages::{Streamed, stream};
pub use replica::{Replica, rules_of};
pub use words::{say, steps};
