ghost use Rattle.std.proofs.Props.{props};
ghost use Rattle.listed_volumes.specs.Kept.{HasSeeker};

use m3_model::{Seq, Series};
use std::snapshot::Snapshot;
use volume_points::of_volume_bytes::Head;
use volume_points::of_volume_rows::Seeker;

/// A volume that counts. Beside its head it has the volume's seeker, four bytes or so for each series, so that a look-up reads
/// little; and none where its rows can't be those of a volume of this head, as a disk that doesn't tell what it holds may give.
#[derive(Drop)]
pub struct ListedVolume {
    /// Which volume of a disk it is.
    pub head: Head,
    /// Its series, for proofs alone.
    pub rows: Snapshot<Seq<Series>>,
    // What a look-up begins with.
    pub(crate) seeker: Option<Seeker>,
    ghost kept: { HasSeeker rows.value seeker } by { Prim.hlevel props },
}
