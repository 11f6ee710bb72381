ghost use Rattle.std.specs.Prelude.{◌≡◌};

use crate::disk::Disk;
use crate::disk_err::DiskErr;
use crate::slot::DiskSlot;

/// Hands out disks by their slots.
pub trait Disks {
    /// The disks.
    type D: Disk;

    ghost use Rattle.std.specs.Prelude.{◌≡◌, ◌-◌, IfOk, OnErr, IsErrOf};
    ghost use Rattle.m3_outside.specs.Causes.{CountsFaults, RoseBy};
    ghost use Rattle.m3_outside.specs.DiskState.{IsEmpty};
    ghost use Rattle.m3_outside.specs.Depots.{Depot};
    ghost use Rattle.m3_outside.specs.Slots.{Here, Out, MayGive, OthersStay};
    ghost use Rattle.m3_outside.specs.declared.slot.DiskSlot.{DiskSlot as AtSlot};

    /// What lies in each slot, how many faults of the slot's disk are counted, and the count of all faults: of this object's
    /// own, and of those of the disks that were given back.
    ghost depot: { Self → Depot Self.D };

    /// Takes the disk of a slot: an empty one where the slot was never used, else the one that was given back,
    /// unchanged.
    ///
    /// # Errors
    ///
    /// A fault of this object's own, or want of memory. The slot stays as it is.
    fn take(&mut self, slot: DiskSlot) -> Result<Self::D, DiskErr>
        requires { ¬ ((depot self.old).held slot ≡ Out) }
        ensures disk { IfOk result (MayGive (λ d. IsEmpty (Self.D.state d)) ((depot self.old).held slot)) }
        ensures disk_faults { IfOk result (λ d. (Self.D.state d).faults ≡ (depot self.old).counted slot) }
        ensures out { IfOk result (λ _. (depot self.new).held slot ≡ Out) }
        ensures refused { OnErr result ((depot self.new).held slot ≡ (depot self.old).held slot) }
        ensures others { OthersStay slot (depot self.old).held (depot self.new).held }
        ensures counted { (s : AtSlot) → (depot self.new).counted s ≡ (depot self.old).counted s }
        ensures cause { CountsFaults (IsErrOf result DiskErr.Failed) (depot self.old).faults (depot self.new).faults };

    /// Gives the disk of a slot back. Takes no memory.
    fn give(&mut self, slot: DiskSlot, disk: Self::D)
        requires { (depot self.old).held slot ≡ Out }
        ensures here { (depot self.new).held slot ≡ Here disk }
        ensures others { OthersStay slot (depot self.old).held (depot self.new).held }
        ensures counted { (depot self.new).counted slot ≡ (Self.D.state disk).faults }
        ensures counted_others { OthersStay slot (depot self.old).counted (depot self.new).counted }
        ensures cause { CountsFaults ⊥ (depot self.old).faults (depot self.new).faults }
        ensures rose { RoseBy ((Self.D.state disk).faults - (depot self.old).counted slot) (depot self.old).faults (depot self.new).faults };

    /// The count of all faults. It never falls, and stays at its last value, 2^64 - 1.
    fn faults(&self) -> u64
        ensures { result ≡ (depot self.now).faults };
}
