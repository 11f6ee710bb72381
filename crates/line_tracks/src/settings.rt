//! Lines that are refused, that are given up, or that set the rules or the fates; and lines after which a cluster stands still.
ghost use Rattle.line_tracks.specs.acts.Settings.{FatesTell, FullDeliveryTells, FullWriteTells, MovedTells, NamedTells, NoRoomTells, RefusedTells};
ghost use Rattle.line_tracks.specs.acts.Quiet.{DeliversNothingSo, KeepsStopsSo, NumbersGoOn, SetsNothingSo};
ghost use Rattle.line_tracks.specs.acts.Stays.{NoneIsPlaced, NoneStandsAtFirst, StandsStill, StandsUnchanged, StaysUnmade};

use m3_outside::Disk;
use node_calls::of_cluster_members::Members;
use session_net::Net;

/// The list tells of a line that was answered with the refusal that is due, by which nothing changed, and serves it: also
/// before an `init`, where the list is empty.
pub fn refused_tells()
    ensures { RefusedTells }
{}

/// So it does of a line for which the list had no room.
pub fn full_tells()
    ensures { NoRoomTells }
{}

/// As of a write or a delivery that found no room.
pub fn full_calls_tell<D: Disk>(net: &Net<D>)
    ensures write { FullWriteTells D.state net.now }
    ensures delivery { FullDeliveryTells net.now }
{}

/// A line that made a namespace or moved the moment on is told by the Clock that came, and served; so is one that set fates.
/// The cluster stands after each.
pub fn settings_tell<D: Disk>(members: &Members<D>)
    ensures named { NamedTells D.state members.now }
    ensures moved { MovedTells D.state members.now }
    ensures fates { FatesTell members.now }
{}

/// What a turn leaves as it was, by its answer, and how it numbers calls.
pub fn turns_leave()
    ensures sets_nothing { SetsNothingSo }
    ensures keeps_stops { KeepsStopsSo }
    ensures delivers_nothing { DeliversNothingSo }
    ensures numbers { NumbersGoOn }
{}

/// No cluster stands before the first turn, nor after one more that sets nothing and stops no node; and then there is no placement.
pub fn none_stands()
    ensures first { NoneStandsAtFirst }
    ensures stays { StaysUnmade }
    ensures placed { NoneIsPlaced }
{}

/// A cluster stands after a line in which nothing changed, and after one that made no placement, where the slots alone stepped and
/// no node was stopped or restarted.
pub fn stands_again<D: Disk>(members: &Members<D>)
    ensures unchanged { StandsUnchanged members.now }
    ensures still { StandsStill D.state members.now }
{}
