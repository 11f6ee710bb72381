use crate::names::{put_name, read_name};
use crate::numbers::read_number;
use crate::read_err::ReadErr;
use crate::spelled::Spelled;
use m3_model::limits::DURATION_END;
use m3_model::{Memory, Space};
use std::alloc::Global;
use wire_bytes::put_number;

impl Spelled for Space {
    ghost use Rattle.std.specs.Prelude.{◌≡◌, ◌<◌, length, ◌++◌, IfOk, IfErr, OnOk};
    ghost use Rattle.meta_bytes.specs.States.{space_form, space_bytes, FitsSpace};
    ghost use Rattle.meta_bytes.specs.Forms.{HasForm, StandsAs, MayFault};

    ghost form = { space_form };

    ghost spelled = { space_bytes };

    ghost fits = { FitsSpace };

    fn read(alloc: Global, bytes: &[u8], at: usize) -> Result<(Space, usize), ReadErr> {
        let (name, block_at) = read_name(alloc, bytes, at)?;
        let (block, past_at) = read_number(bytes, block_at, 8, 1, DURATION_END - 1)?;
        let (past, future_at) = read_number(bytes, past_at, 8, 0, DURATION_END - 2)?;
        let (future, retention_at) = read_number(bytes, future_at, 8, 0, DURATION_END - 2)?;
        let (retention, next) = read_number(bytes, retention_at, 8, 1, DURATION_END - 1)?;
        let space = Space {
            name,
            block,
            past,
            future,
            retention,
        };
        Ok((space, next))
    }

    fn put(&self, out: &mut Vec<u8>) -> Result<(), Memory> {
        put_name(out, &self.name)?;
        put_number(out, 8, self.block)?;
        put_number(out, 8, self.past)?;
        put_number(out, 8, self.future)?;
        put_number(out, 8, self.retention)
    }
}
