ghost use Rattle.std.specs.Prelude.{◌≡◌, ℕ, ◌<◌, ◌≤◌, length, Some, Option, IfOk, IfErr, IfSome, option_map};
ghost use Rattle.byteorder.specs.Endian.{big_bytes};
ghost use Rattle.meta_bytes.specs.Forms.{Byte, Number, HasForm, StandsAs, MayFault};
ghost use Rattle.meta_bytes.specs.States.{code_of, source_of, is_source};

use crate::numbers::read_number;
use crate::read_err::ReadErr;
use crate::spelled::{Spelled, put_all, read_all};
use m3_model::limits::{MOST_NODES, MOST_REPLICAS, NUMBER_END};
use m3_model::{Assignment, Memory, Seq, ShardState};
use std::alloc::Global;
use wire_bytes::{WireErr, put_number};

// The byte that stands for no source.
const NO_SOURCE: u8 = 255;

fn code_of(state: ShardState) -> u64
    ensures value { result ≡ code_of state }
    ensures fits { result < 256 }
{
    match state {
        ShardState::Initializing => 0,
        ShardState::Available => 1,
        ShardState::Leaving => 2,
    }
}

// The state of a shard at the offset, and the offset behind it.
fn read_shard_state(bytes: &[u8], at: usize) -> Result<(ShardState, usize), ReadErr>
    ensures ok { IfOk result (λ r. StandsAs (Number 1 0 2) (big_bytes 1 (code_of r.0)) bytes.now at r.1) }
    ensures err { IfErr result (MayFault (HasForm (Number 1 0 2)) bytes.now at) }
{
    let (code, next) = read_number(bytes, at, 1, 0, 2)?;
    let state = match code {
        0 => ShardState::Initializing,
        1 => ShardState::Available,
        _ => ShardState::Leaving,
    };
    Ok((state, next))
}

fn source_of(source: Option<u8>) -> u64
    ensures value { result ≡ source_of source }
    ensures fits { result < 256 }
{
    u64::from(source.unwrap_or(NO_SOURCE))
}

// The source at the offset, and the offset behind it.
fn read_source(bytes: &[u8], at: usize) -> Result<(Option<u8>, usize), ReadErr>
    ensures ok { IfOk result (λ r. StandsAs (Byte is_source) (big_bytes 1 (source_of r.0)) bytes.now at r.1) }
    ensures fits { IfOk result (λ r. IfSome r.0 (λ node. node < 255)) }
    ensures err { IfErr result (MayFault (HasForm (Byte is_source)) bytes.now at) }
{
    if at >= bytes.len() {
        return Err(ReadErr::Wire {
            why: WireErr::Short,
        });
    }
    let byte = bytes[at];
    if byte == NO_SOURCE {
        return Ok((None, at + 1));
    }
    if usize::from(byte) >= MOST_NODES {
        return Err(ReadErr::Wire {
            why: WireErr::Bad { at },
        });
    }
    Ok((Some(byte), at + 1))
}

impl Spelled for Assignment {
    ghost use Rattle.std.specs.Prelude.{◌≡◌, ⊤, ◌++◌, IfOk, IfErr, OnOk};
    ghost use Rattle.meta_bytes.specs.States.{assignment_form, assignment_bytes, FitsAssignment};
    ghost use Rattle.meta_bytes.specs.Forms.{HasForm, StandsAs, MayFault};

    ghost form = { assignment_form };

    ghost spelled = { assignment_bytes };

    ghost fits = { FitsAssignment };

    fn read(_alloc: Global, bytes: &[u8], at: usize) -> Result<(Assignment, usize), ReadErr> {
        let (node, tenure_at) = read_number(bytes, at, 1, 0, MOST_NODES as u64 - 1)?;
        let (tenure, state_at) = read_number(bytes, tenure_at, 8, 0, NUMBER_END - 1)?;
        let (state, source_at) = read_shard_state(bytes, state_at)?;
        let (source, next) = read_source(bytes, source_at)?;
        let assignment = Assignment {
            node: node as u8,
            tenure,
            state,
            source,
        };
        Ok((assignment, next))
    }

    fn put(&self, out: &mut Vec<u8>) -> Result<(), Memory> {
        put_number(out, 1, u64::from(self.node))?;
        put_number(out, 8, self.tenure)?;
        put_number(out, 1, code_of(self.state))?;
        put_number(out, 1, source_of(self.source))
    }
}

impl Spelled for Seq<Assignment> {
    ghost use Rattle.std.specs.Prelude.{◌≡◌, ◌<◌, length, ◌++◌, IfOk, IfErr, OnOk};
    ghost use Rattle.meta_bytes.specs.States.{shard_form, shard_bytes, FitsShard};
    ghost use Rattle.meta_bytes.specs.Forms.{HasForm, StandsAs, MayFault};

    ghost form = { shard_form };

    ghost spelled = { shard_bytes };

    ghost fits = { FitsShard };

    fn read(alloc: Global, bytes: &[u8], at: usize) -> Result<(Seq<Assignment>, usize), ReadErr> {
        read_all(alloc, bytes, at, 1, MOST_REPLICAS as u64 + 1)
    }

    fn put(&self, out: &mut Vec<u8>) -> Result<(), Memory> {
        put_all(out, self.as_slice())
    }
}
