//! Transcripts with fates of messages and stopped nodes.
ghost use Rattle.std.specs.Prelude.{[], true};
ghost use Rattle.transcripts.specs.Caused.{Caused};
ghost use Rattle.model_laws.specs.Building.{life_of};
ghost use Rattle.model_laws.specs.Messages.{lost_messages, stopped_nodes, late_messages, lost_and_acked, stopped_and_acked, down_unstopped, cut_by_other_fate, cut_by_other_client, not_short_enough, stopped_again, delivered_twice, fate_of_nobody};

/// Messages are lost by the listed fates, call by call.
pub fn lost_messages_are_cut()
    ensures { Caused true (life_of lost_messages) [] }
{}

/// Stopped nodes don't answer, and an unstrict read comes short.
pub fn stopped_nodes_are_down()
    ensures { Caused true (life_of stopped_nodes) [] }
{}

/// Late messages are delivered once, in the order in which they were made late.
pub fn late_messages_come()
    ensures { Caused true (life_of late_messages) [] }
{}

/// A node took a write whose message was lost.
pub fn lost_message_answered()
    ensures { ¬ Caused true (life_of lost_and_acked) [] }
{}

/// A stopped node took a write.
pub fn stopped_node_answered()
    ensures { ¬ Caused true (life_of stopped_and_acked) [] }
{}

/// A node is down, though none was stopped.
pub fn down_without_stop()
    ensures { ¬ Caused true (life_of down_unstopped) [] }
{}

/// A call is cut by the fate of another one.
pub fn cut_by_another_call()
    ensures { ¬ Caused true (life_of cut_by_other_fate) [] }
{}

/// A call is cut by the fate of another client's call.
pub fn cut_by_another_client()
    ensures { ¬ Caused true (life_of cut_by_other_client) [] }
{}

/// An unstrict read isn't short, though it reached one node of three.
pub fn short_left_out()
    ensures { ¬ Caused true (life_of not_short_enough) [] }
{}

/// A stopped node is stopped again.
pub fn stopped_twice()
    ensures { ¬ Caused true (life_of stopped_again) [] }
{}

/// A late message is delivered twice.
pub fn late_message_twice()
    ensures { ¬ Caused true (life_of delivered_twice) [] }
{}

/// Fates are set of a node that isn't there.
pub fn fate_without_node()
    ensures { ¬ Caused true (life_of fate_of_nobody) [] }
{}
