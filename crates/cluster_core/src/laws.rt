//! What is so of each legal list.
ghost use Rattle.std.specs.Prelude.{true};
ghost use Rattle.cluster_core.specs.Core.{ListKeepsPoints};
ghost use Rattle.cluster_core.specs.Legal.{Legal, LegalOverAny};
ghost use Rattle.cluster_core.specs.Makers.{StaysLawful, FollowsFromItsSeat, AddsWhatIsLawful};
ghost use Rattle.cluster_core.specs.Shown.{FoundShows, PageShows};

use crate::event::Event;
use m3_model::Seq;

/// The core theorem: whatever is lost, late, repeated, fenced, moved or restarted, a fetch that a majority answered
/// holds each point that a majority took before it began, and nothing that wasn't written.
pub fn reads_keep(_events: &Seq<Event>)
    ensures { Legal true _events.now → ListKeepsPoints _events.now }
{}

/// What one maker may add depends on its own events, and on the existence and the number of earlier ones: what others add
/// leaves it lawful, so that a seat may add what is lawful after the list that it has seen. The state of a replica follows from what its
/// own seat made.
pub fn others_leave_lawful()
    ensures stays { StaysLawful }
    ensures own { FollowsFromItsSeat }
    ensures may_add { AddsWhatIsLawful }
{}

/// A replica may answer what a content answers that shows it.
pub fn contents_show()
    ensures found { FoundShows }
    ensures page { PageShows }
{}

/// A list that is legal over disks that tell what they hold is legal over any.
pub fn legal_over_any()
    ensures { LegalOverAny }
{}
