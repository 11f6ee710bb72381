//! What becomes of the messages of a call.
ghost use Rattle.std.specs.Prelude.{◌≡◌};
ghost use Rattle.m3_model.specs.Delivery.{is_cut};
ghost use Rattle.session_net.specs.Messages.{fate_to};

use m3_model::Fate;
use net_plan::{FateKey, Fates};
use replica_calls::CallId;

/// What becomes of the call's message to the node.
pub fn fate_to(fates: &Fates, call: CallId, node: u8) -> Fate
    ensures { result ≡ fate_to fates.now call node }
{
    fates.fate(&FateKey {
        client: call.client,
        call: call.number,
        node,
    })
}

/// Whether a message of this fate isn't delivered.
pub fn is_cut(fate: Fate) -> bool
    ensures { result ≡ is_cut fate }
{
    match fate {
        Fate::Lose | Fate::Late => true,
        Fate::Deliver | Fate::Twice => false,
    }
}
