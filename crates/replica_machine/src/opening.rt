ghost use Rattle.std.specs.Prelude.{◌≡◌, ◌≤◌, true, max, length, OnOk, OnErr};
ghost use Rattle.m3_model.specs.Contents.{content_of};
ghost use Rattle.m3_outside.specs.DiskState.{DiskState, Told, EachImage};
ghost use Rattle.shard_store.specs.commit_log.Contents.{numbers};
ghost use Rattle.shard_store.specs.commit_log.LogEnd.{NoneFrom};
ghost use Rattle.shard_store.specs.shard_files.Gains.{Brings, a_tenure};
ghost use Rattle.shard_store.specs.shard_files.Once.{HeldOnce};
ghost use Rattle.shard_store.specs.shard_files.Parts.{IsNewestNumber};
ghost use Rattle.shard_store.specs.Loads.{AreOpened};
ghost use Rattle.shard_store.specs.Openings.{beside_volumes};
ghost use Rattle.shard_store.specs.Stores.{closed_over};

use m3_outside::{Disk, DiskErr};
use shard_store::{Loaded, Store};

/// Opens a store with what was loaded, and has the tenure in its log.
///
/// # Errors
///
/// A fault or want of memory. The store is closed then.
pub(crate) fn open_store<D: Disk>(
    store: &mut Store<D>,
    loaded: &Loaded,
    tenure: u64,
) -> Result<(), DiskErr>
    requires closed { store.old ≡ closed_over store.old.disk }
    requires held { Told (D.state store.old.disk) (HeldOnce loaded.now.points loaded.now.tenure loaded.now.fence) }
    requires only { EachImage (D.state store.old.disk) (λ c. c ≡ (D.state store.old.disk).files) }
    requires fresh { Told (D.state store.old.disk) (NoneFrom loaded.now.next_segment) }
    requires volumes { Told (D.state store.old.disk) (AreOpened loaded.now.volumes) }
    requires order { loaded.now.tenure ≤ loaded.now.fence }
    requires segments { Told (D.state store.old.disk) (λ files. loaded.now.segments ≡ length (numbers files)) }
    requires snapshot { Told (D.state store.old.disk) (IsNewestNumber loaded.now.snapshot) }
    ensures ok { OnOk result (store.new ≡ record { disk = store.new.disk; open_ = true; buffered = beside_volumes loaded.now; content = store.new.content; tenure = max loaded.now.tenure tenure; fence = max loaded.now.fence tenure }) }
    ensures content { (D.state store.old.disk).tells ≡ true → OnOk result (store.new.content ≡ content_of loaded.now.points) }
    ensures err { OnErr result (store.new ≡ closed_over store.new.disk) }
    ensures disk { Brings (a_tenure tenure) result (D.state store.old.disk) (D.state store.new.disk) }
{
    store.open(loaded)?;
    if let Err(why) = store.begin(tenure) {
        store.close();
        return Err(why);
    }
    Ok(())
}
