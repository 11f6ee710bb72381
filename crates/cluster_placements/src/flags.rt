//! Which nodes are stopped.
ghost use Rattle.std.specs.Prelude.{◌≡◌, ◌≤◌, ◌-◌, ◌++◌, false, length, replicate, IfOk};

use m3_model::Memory;
use std::alloc::Global;

/// The flags of so many nodes: those that are there keep theirs, and each further one runs.
///
/// # Errors
///
/// Want of memory.
pub fn with_nodes(alloc: Global, stopped: &[bool], nodes: usize) -> Result<Vec<bool>, Memory>
    requires { length stopped.now ≤ nodes }
    ensures { IfOk result (λ flags. flags.items ≡ stopped.now ++ replicate (nodes - length stopped.now) false) }
{
    let mut flags = Vec::new(alloc);
    flags.extend_from_slice(stopped)?;
    for _ in 0..nodes - stopped.len() {
        flags.push(false)?;
    }
    Ok(flags)
}
