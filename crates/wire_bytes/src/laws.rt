//! Laws over the definitions of bytes.
ghost use Rattle.wire_bytes.specs.ByteLaws.{VolumesAreOne, SnapshotsAreOne, OneSpellingStops, StopsAtOne, HelloRow, HelloEntry, HelloEntryInFormat2, EverySixteenth};

/// No two volumes have the same info and the same data.
pub fn volumes_are_one()
    ensures { VolumesAreOne }
{}

/// No two snapshots have the same bytes.
pub fn snapshots_are_one()
    ensures { SnapshotsAreOne }
{}

/// Where a form has one spelling, the offset at which bytes stop is the first byte that differs, their end, or its end.
pub fn one_spelling_stops()
    ensures { OneSpellingStops }
{}

/// Bytes stop to have a form at one offset at most.
pub fn stops_at_one()
    ensures { StopsAtOne }
{}

/// The record and the index entry of a series, worked out.
pub fn worked_series()
    ensures row { HelloRow }
    ensures entry { HelloEntry }
    ensures entry_in_format_2 { HelloEntryInFormat2 }
{}

/// Summaries name every sixteenth series, worked out.
pub fn worked_summaries()
    ensures { EverySixteenth }
{}
