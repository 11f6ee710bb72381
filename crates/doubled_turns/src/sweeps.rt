//! Ticks, flushes and status: each replica is called, by shard and then by node.
ghost use Rattle.std.specs.Prelude.{◌<◌};
ghost use Rattle.std.specs.List.{All};

use cluster_members::of_replica_exchange::Slot;
use cluster_words::{letter_of_node, spell_standing};
use m3_model::{Memory, Rules};
use m3_outside::Disk;
use replica_doubles::{Double, Job};
use std::alloc::Global;

/// Has each replica do the job, and spells how much each did, and the reasons of those that refused.
pub fn sweep<D: Disk>(
    alloc: Global,
    double: &mut Double<D>,
    slots: &[Slot],
    job: Job,
    rules: &Rules,
    own: &mut String,
) -> Result<(), Memory>
    requires sizes { All (λ space. 0 < space.block) rules.now.spaces }
{
    let mut failed = String::new(alloc);
    for slot in slots {
        double.run(alloc, *slot, job, rules)?;
        let letter = letter_of_node(slot.node);
        match double.counted() {
            Some(count) => write!(own, "{letter}{count}")?,
            None => {
                failed.push(letter)?;
                failed.push(double.refusal().unwrap_or('?'))?;
            }
        }
    }
    own.push('/')?;
    Ok(own.push_str(failed.as_str())?)
}

/// Has each replica report, and spells how it stands.
pub fn status<D: Disk>(
    double: &mut Double<D>,
    slots: &[Slot],
    own: &mut String,
) -> Result<(), Memory> {
    for slot in slots {
        double.report(*slot)?;
        own.push(letter_of_node(slot.node))?;
        if let Some(report) = double.reported() {
            let numbers = (report.buffered, report.segments, report.volumes);
            spell_standing(own, report.standing, numbers)?;
        }
    }
    Ok(())
}
