//! What is so of each life that is kept.
ghost use Rattle.transcripts.specs.Record.{Life};
ghost use Rattle.transcripts.specs.Kept.{Kept};
ghost use Rattle.model_laws.specs.General.{FindsAcknowledged, FindsEarlierWrites, FindsOnlySent, FindsOnlyWritten};

/// A read that at least a majority answered finds each acknowledged point that it asks for.
pub fn acknowledged_is_found()
    ensures acknowledged { (life : Life) → Kept life → FindsAcknowledged life }
    ensures written { (life : Life) → Kept life → FindsEarlierWrites life }
{}

/// A read finds only what a write sent.
pub fn nothing_unwritten()
    ensures sent { (life : Life) → Kept life → FindsOnlySent life }
    ensures written { (life : Life) → Kept life → FindsOnlyWritten life }
{}
