ghost use Rattle.std.specs.Prelude.{◌≡◌, [], ◌∷◌, drop, slice_get, Some, IfOk, OnErr, MatchOption};
ghost use Rattle.load_gen.specs.Script.{script, moment_of, rounds};
ghost use Rattle.load_gen.specs.Left.{next_by_moment, next_after_move, left_from, requests_left};

use crate::draws::drawn;
use crate::lines::{bootstrap, init, match_all, namespace, replace, write};
use m3_model::{Act, Memory, Request};
use std::alloc::Global;

// How many rounds there are, each with a moment of its own: 1 to this.
const ROUNDS: u64 = 500;

// Writes of a round behind its first.
const FURTHER_WRITES: u32 = 9;

// What comes next of a script.
#[derive(Clone, Copy)]
enum Next {
    Init,
    Namespace,
    // The beginning of a round, or the match behind the last one.
    Round,
    // A write, with so many further ones behind it.
    Write(u32),
    Replace,
    Bootstrap,
    Flush,
    Snapshot,
    End,
}

/// A generated script, as far as it has come: which requests are left of it.
#[derive(Drop)]
pub struct Script {
    // The state of the draws.
    x: u64,
    // How many rounds are to begin.
    rounds: u64,
    next: Next,
}

// The moment of the round behind which so many are to begin.
fn moment_of(rounds: u64) -> u64
    ensures { result ≡ moment_of rounds }
{
    ROUNDS.saturating_sub(rounds)
}

// What comes behind the move of a round, where it has one.
fn next_after_move(moment: u64) -> Next
    ensures { result ≡ next_after_move moment }
{
    if moment % 100 == 0 {
        Next::Flush
    } else {
        Next::Round
    }
}

// What comes behind the writes of a round.
fn next_by_moment(moment: u64) -> Next
    ensures { result ≡ next_by_moment moment }
{
    if moment == 250 {
        Next::Replace
    } else {
        next_after_move(moment)
    }
}

impl Script {
    /// The script whose draws begin with this number. Takes no memory.
    pub fn new(n: u32) -> Script
        ensures { requests_left result ≡ script n }
    {
        Script {
            x: n as u64,
            rounds: ROUNDS,
            next: Next::Init,
        }
    }

    // The first request of the next round, or the match where no round is to begin.
    fn round(&self, alloc: Global) -> Result<Request, Memory>
        ensures { IfOk result (λ request. Some request ≡ slice_get (rounds self.now.rounds self.now.x) 0) }
    {
        if self.rounds == 0 {
            return match_all(alloc);
        }
        let now = moment_of(self.rounds - 1);
        Ok(Request::One(Act::Now { now }))
    }

    // The request that comes next, if there is one.
    fn request(&self, alloc: Global) -> Result<Option<Request>, Memory>
        ensures { IfOk result (λ request. request ≡ slice_get (requests_left self.now) 0) }
    {
        match self.next {
            Next::Init => Ok(Some(init(alloc)?)),
            Next::Namespace => Ok(Some(namespace(alloc)?)),
            Next::Round => Ok(Some(self.round(alloc)?)),
            Next::Write(_) => Ok(Some(write(alloc, moment_of(self.rounds), self.x)?)),
            Next::Replace => Ok(Some(replace(alloc)?)),
            Next::Bootstrap => Ok(Some(bootstrap(alloc)?)),
            Next::Flush => Ok(Some(Request::One(Act::Flush))),
            Next::Snapshot => Ok(Some(Request::One(Act::Snapshot))),
            Next::End => Ok(None),
        }
    }

    // Goes on behind a write, with so many further ones: both its draws are made.
    fn pass_write(&mut self, further: u32)
        ensures { requests_left self.new ≡ drop 1 (left_from (Next.Write further) self.old.rounds self.old.x) }
    {
        self.x = drawn(drawn(self.x));
        if further > 0 {
            self.next = Next::Write(further - 1);
        } else {
            self.next = next_by_moment(moment_of(self.rounds));
        }
    }

    // Goes on behind the beginning of a round, or behind the match.
    fn pass_round(&mut self)
        ensures { requests_left self.new ≡ drop 1 (left_from Next.Round self.old.rounds self.old.x) }
    {
        if self.rounds == 0 {
            self.next = Next::End;
        } else {
            self.rounds -= 1;
            self.next = Next::Write(FURTHER_WRITES);
        }
    }

    // Goes on behind the request that comes next.
    fn pass(&mut self)
        ensures { requests_left self.new ≡ drop 1 (requests_left self.old) }
    {
        match self.next {
            Next::Init => self.next = Next::Namespace,
            Next::Namespace | Next::Snapshot => self.next = Next::Round,
            Next::Round => self.pass_round(),
            Next::Write(further) => self.pass_write(further),
            Next::Replace => self.next = Next::Bootstrap,
            Next::Bootstrap => self.next = next_after_move(moment_of(self.rounds)),
            Next::Flush => self.next = Next::Snapshot,
            Next::End => {}
        }
    }

    /// The next request of the script; none exactly where it is at its end, where it stays. The script is at most 5,515
    /// requests long.
    ///
    /// # Errors
    ///
    /// Want of memory, and then the script hasn't gone on: the next call gives the same request.
    #[tactic(auto, using(crate::proofs::LeftLemmas::given))]
    pub fn next(&mut self, alloc: Global) -> Result<Option<Request>, Memory>
        ensures given { IfOk result (λ request. MatchOption request ((requests_left self.old ≡ []) × (requests_left self.new ≡ [])) (λ r. requests_left self.old ≡ r ∷ requests_left self.new)) }
        ensures err { OnErr result (self.new ≡ self.old) }
    {
        let request = self.request(alloc)?;
        self.pass();
        Ok(request)
    }
}
