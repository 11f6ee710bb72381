ghost use Rattle.std.specs.Prelude.{◌≡◌, IsTrue};

use crate::act::{Act, copied_act};
use crate::answer::{Answer, copied_answer};
use crate::copies::{copied_list, finished};
use crate::duplicate::Duplicate;
use crate::memory::Memory;
use crate::seq::Seq;
use std::alloc::Global;

/// What one line asks for: one act, or lists of acts that clients and workers do side by side.
#[derive(Drop)]
pub enum Request {
    One(Act),
    Par {
        clients: Seq<Seq<Act>>,
        workers: Seq<Seq<Act>>,
    },
}

/// The answers to a request, in the places of its acts.
#[derive(Drop)]
pub enum Reply {
    One(Answer),
    Par {
        clients: Seq<Seq<Answer>>,
        workers: Seq<Seq<Answer>>,
    },
}

/// A request with its reply.
#[derive(Drop)]
pub struct Turn {
    pub request: Request,
    pub reply: Reply,
}

/// A copy if memory is there for all of it, and a request with empty parts if not.
fn copied_request(alloc: Global, enough: &mut bool, request: &Request) -> Request
    ensures { IsTrue enough.new → (IsTrue enough.old × (result ≡ request.now)) }
{
    match request {
        Request::One(act) => Request::One(copied_act(alloc, enough, act)),
        Request::Par { clients, workers } => Request::Par {
            clients: copied_list(alloc, enough, clients),
            workers: copied_list(alloc, enough, workers),
        },
    }
}

impl Duplicate for Request {
    fn copy(&self, alloc: Global) -> Result<Request, Memory> {
        let mut enough = true;
        let copy = copied_request(alloc, &mut enough, self);
        finished(enough, copy, self)
    }
}

/// A copy if memory is there for all of it, and a reply with empty parts if not.
fn copied_reply(alloc: Global, enough: &mut bool, reply: &Reply) -> Reply
    ensures { IsTrue enough.new → (IsTrue enough.old × (result ≡ reply.now)) }
{
    match reply {
        Reply::One(answer) => Reply::One(copied_answer(alloc, enough, answer)),
        Reply::Par { clients, workers } => Reply::Par {
            clients: copied_list(alloc, enough, clients),
            workers: copied_list(alloc, enough, workers),
        },
    }
}

impl Duplicate for Reply {
    fn copy(&self, alloc: Global) -> Result<Reply, Memory> {
        let mut enough = true;
        let copy = copied_reply(alloc, &mut enough, self);
        finished(enough, copy, self)
    }
}

/// A copy if memory is there for all of it, and a turn with empty parts if not.
fn copied_turn(alloc: Global, enough: &mut bool, turn: &Turn) -> Turn
    ensures { IsTrue enough.new → (IsTrue enough.old × (result ≡ turn.now)) }
{
    Turn {
        request: copied_request(alloc, enough, &turn.request),
        reply: copied_reply(alloc, enough, &turn.reply),
    }
}

impl Duplicate for Turn {
    fn copy(&self, alloc: Global) -> Result<Turn, Memory> {
        let mut enough = true;
        let copy = copied_turn(alloc, &mut enough, self);
        finished(enough, copy, self)
    }
}
