ghost use Rattle.std.specs.Prelude.{◌≡◌, ◌<◌, ◌≤◌, ◌⊎◌, ℕ, List, [], length, take, OnOk, OnErr, IfErr};
ghost use Rattle.m3_outside.specs.Causes.{Rose};
ghost use Rattle.saved_cluster.specs.declared.lost.Lost.TheVariants as lost;
ghost use Rattle.m3_program.specs.Causes.{EndsLine};
ghost use Rattle.m3_program.specs.Passing.{Takes, outflow};
ghost use Rattle.m3_program.specs.Writing.{Gathers, WritesUntil};
ghost use Rattle.m3_program.specs.declared.status.Status.TheVariants as status;

use crate::status::Status;
use m3_outside::Sink;
use saved_cluster::Lost;

/// With so many bytes, what is held is written before the piece of the input is served to its end.
const FULL: usize = 65536;

/// Writes all of the bytes, or a front of them where the sink fails.
pub fn write_all<K: Sink>(out: &mut K, bytes: &[u8]) -> Result<(), Status>
    ensures ok { OnOk result (Takes (outflow (K.written out.old) (K.took out.old)) (outflow (K.written out.new) (K.took out.new)) bytes.now) }
    ensures err { OnErr result ((n : ℕ) × Takes (outflow (K.written out.old) (K.took out.old)) (outflow (K.written out.new) (K.took out.new)) (take n bytes.now)) }
    ensures by { IfErr result (λ s. s ≡ status.WriteFault) }
    ensures later { (K.faulted out.old ≤ K.faulted out.new) × (K.stalled out.old ≤ K.stalled out.new) }
    ensures cause { OnErr result (Rose (K.faulted out.old) (K.faulted out.new) ⊎ Rose (K.stalled out.old) (K.stalled out.new)) }
{
    let mut at = 0;
    while at < bytes.len() {
        match out.write(&bytes[at..]) {
            Ok(count) => {
                if count == 0 {
                    return Err(Status::WriteFault);
                }
                at += count;
            }
            Err(_) => return Err(Status::WriteFault),
        }
    }
    Ok(())
}

/// Writes all of the bytes before the run ends for this cause, and answers how it ends: by a write fault where the sink fails.
pub fn write_before_end<K: Sink>(out: &mut K, bytes: &[u8], why: Lost) -> Status
    ensures written { WritesUntil result (outflow (K.written out.old) (K.took out.old)) bytes.now (outflow (K.written out.new) (K.took out.new)) }
    ensures meta { result ≡ status.DiskFault → why ≡ lost.Meta }
    ensures later { (K.faulted out.old ≤ K.faulted out.new) × (K.stalled out.old ≤ K.stalled out.new) }
    ensures cause { (meta_before meta_now : ℕ) → (why ≡ lost.Meta → Rose meta_before meta_now)
        → EndsLine result (K.faulted out.old) (K.faulted out.new) (K.stalled out.old) (K.stalled out.new) meta_before meta_now }
{
    match write_all(out, bytes) {
        Ok(()) => Status::of_lost(why),
        Err(status) => status,
    }
}

/// Writes what is held where that is 65,536 bytes or more, and nothing where it is less.
pub fn write_full<K: Sink>(out: &mut K, replies: &mut Vec<u8>) -> Result<(), Status>
    ensures ok { OnOk result (Gathers (outflow (K.written out.old) (K.took out.old)) replies.old.items [] (outflow (K.written out.new) (K.took out.new)) replies.new.items) }
    ensures err { OnErr result ((lost : List ℕ) × Gathers (outflow (K.written out.old) (K.took out.old)) replies.old.items [] (outflow (K.written out.new) (K.took out.new)) lost) }
    ensures few { OnOk result (length replies.new.items < 65536) }
    ensures held { length replies.old.items < 65536 → replies.new.items ≡ replies.old.items }
    ensures by { IfErr result (λ s. s ≡ status.WriteFault) }
    ensures later { (K.faulted out.old ≤ K.faulted out.new) × (K.stalled out.old ≤ K.stalled out.new) }
    ensures cause { OnErr result (Rose (K.faulted out.old) (K.faulted out.new) ⊎ Rose (K.stalled out.old) (K.stalled out.new)) }
{
    if replies.len() < FULL {
        return Ok(());
    }
    match write_all(out, replies.as_slice()) {
        Ok(()) => {
            replies.clear();
            Ok(())
        }
        Err(status) => Err(status),
    }
}
