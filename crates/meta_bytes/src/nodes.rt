ghost use Rattle.std.specs.Prelude.{◌≡◌, ◌<◌, ◌≤◌, length};
ghost use Rattle.meta_bytes.specs.States.{flags_of};

use crate::names::{put_name, read_name};
use crate::numbers::read_number;
use crate::read_err::ReadErr;
use crate::spelled::Spelled;
use m3_model::{Instance, Memory};
use std::alloc::Global;
use wire_bytes::put_number;

// The flags of a node: bit 0 says that it is listed, bit 1 that it is drained.
fn flags(listed: bool, drained: bool) -> u64
    ensures value { result ≡ flags_of listed drained }
    ensures fits { result < 256 }
{
    u64::from(listed) + 2 * u64::from(drained)
}

impl Spelled for Instance {
    ghost use Rattle.std.specs.Prelude.{◌≡◌, ◌<◌, length, ◌++◌, IfOk, IfErr, OnOk};
    ghost use Rattle.meta_bytes.specs.States.{instance_form, instance_bytes, FitsInstance};
    ghost use Rattle.meta_bytes.specs.Forms.{HasForm, StandsAs, MayFault};

    ghost form = { instance_form };

    ghost spelled = { instance_bytes };

    ghost fits = { FitsInstance };

    fn read(alloc: Global, bytes: &[u8], at: usize) -> Result<(Instance, usize), ReadErr> {
        let (name, group_at) = read_name(alloc, bytes, at)?;
        let (group, flags_at) = read_name(alloc, bytes, group_at)?;
        let (flags, next) = read_number(bytes, flags_at, 1, 0, 3)?;
        let instance = Instance {
            name,
            group,
            listed: flags % 2 == 1,
            drained: flags >= 2,
        };
        Ok((instance, next))
    }

    fn put(&self, out: &mut Vec<u8>) -> Result<(), Memory> {
        put_name(out, &self.name)?;
        put_name(out, &self.group)?;
        put_number(out, 1, flags(self.listed, self.drained))
    }
}
