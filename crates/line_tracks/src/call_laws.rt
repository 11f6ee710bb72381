//! What calls of clients leave of the list tells of their turns.
ghost use Rattle.line_tracks.specs.calls.Keeps.{LeftAsBefore, LeftByDelivery, LeftByWrite};
ghost use Rattle.line_tracks.specs.calls.Sample.{SampleIsLeft};
ghost use Rattle.line_tracks.specs.calls.ReadLaws.{EndedTells, FirstShortTells, FoundTells, FullTells};
ghost use Rattle.line_tracks.specs.calls.Laws.{AcknowledgedTells, DeliveredTells, NothingServes, NothingTells, UnmetTells, UnsentTells};

use m3_outside::Disk;
use session_net::Net;

/// A write that begins so leaves events that tell of its line: where it was acknowledged, where too few took it, and where
/// it wanted memory once it was sent.
pub fn writes_tell<D: Disk>(net: &Net<D>)
    ensures acknowledged { AcknowledgedTells D.state net.now }
    ensures unmet { UnmetTells D.state net.now }
    ensures unsent { UnsentTells D.state net.now }
{}

/// A delivery that begins so leaves events that tell of its line.
pub fn deliveries_tell<D: Disk>(net: &Net<D>)
    ensures { DeliveredTells D.state net.now }
{}

/// Where nothing came to the list, that tells of a line that was given up for want of memory or of room; and one that wanted
/// memory is served.
pub fn nothing_tells()
    ensures tells { NothingTells }
    ensures serves { NothingServes }
{}

/// A read that begins so leaves events that tell of its line: where it was answered, where too few answered it, where it
/// ended early for want of memory, and where the list had no room, in which the line is served.
pub fn reads_tell<D: Disk>(net: &Net<D>)
    ensures found { FoundTells D.state net.now }
    ensures first_short { FirstShortTells D.state net.now }
    ensures ended { EndedTells D.state net.now }
    ensures full { FullTells D.state net.now }
{}

/// The fields by which calls go are again what the turns left, the call's with them.
pub fn fields_stay_left<D: Disk>(net: &Net<D>)
    ensures same_bag { LeftAsBefore net.now }
    ensures write { LeftByWrite net.now }
    ensures delivery { LeftByDelivery net.now }
{}

/// What is asked of the fields can be met: by those that a run with a late message leaves.
pub fn sample_is_left<D: Disk>(net: &Net<D>)
    ensures { SampleIsLeft net.now }
{}
