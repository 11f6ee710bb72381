//! What is so of streams.
ghost use Rattle.peer_streams.specs.Joins.{WholeStreamsJoin};

/// A former replica that was fenced behind the begin of the joining one, and then gave pages up to the last, each of which was
/// merged, is one that the joining replica has streamed.
pub fn whole_streams_join()
    ensures { WholeStreamsJoin }
{}
