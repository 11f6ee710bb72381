ghost use Rattle.std.specs.Prelude.{◌≡◌, ◌↔◌, IsTrue};
ghost use Rattle.served_acts.specs.NotYet.{IsServed};
ghost use Rattle.m3_json.specs.NotYet.{refusal_of, is_put_off};

use line_fields::{LineErr, is_one_of};
use m3_model::{Act, Request};

/// What an op without a row is answered: `Later` where it is put off, else `Form`.
#[tactic(auto, using(line_fields::proofs::Keys::one_of_texts), unfolding(crate::specs::NotYet::refusal_of))]
pub fn refusal_of(op: &str) -> LineErr
    ensures { result ≡ refusal_of op.now }
{
    let later_ops = ["par"];
    if is_one_of(&later_ops, op) {
        LineErr::Later
    } else {
        LineErr::Form
    }
}

/// Whether a cluster serves the request: one act that isn't put off.
#[tactic(auto, using(crate::proofs::Served::kept_exactly))]
pub fn is_served(request: &Request) -> bool
    ensures { IsTrue result ↔ IsServed request.now }
{
    match request {
        Request::One(act) => !is_put_off(act),
        Request::Par { .. } => false,
    }
}

/// Whether the act is put off.
#[tactic(auto, unfolding(crate::specs::NotYet::is_put_off))]
pub fn is_put_off(act: &Act) -> bool
    ensures { result ≡ is_put_off act.now }
{
    match act {
        Act::Init { .. }
        | Act::Namespace { .. }
        | Act::Now { .. }
        | Act::Write { .. }
        | Act::Fetch { .. }
        | Act::Match { .. }
        | Act::Fates { .. }
        | Act::Deliver
        | Act::Stop { .. }
        | Act::Restart { .. }
        | Act::Bootstrap { .. }
        | Act::Add { .. }
        | Act::Drain { .. }
        | Act::Cancel { .. }
        | Act::Remove { .. }
        | Act::Replace { .. }
        | Act::Tick
        | Act::Flush
        | Act::Snapshot
        | Act::Status => false,
        Act::Repair => true,
    }
}
