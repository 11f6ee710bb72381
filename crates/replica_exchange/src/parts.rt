//! What a machine said, as the events of a run have it and as its caller is told.
ghost use Rattle.std.specs.Prelude.{◌≡◌};
ghost use Rattle.replica_machine.specs.cluster_core.declared.event.StepReply.TheVariants as reply;
ghost use Rattle.replica_machine.specs.Steps.{reply_by};
ghost use Rattle.replica_exchange.specs.MachineCalls.{result_of};

use crate::call_err::CallErr;
use event_trail::ReplyView;
use replica_machine::Began;
use replica_machine::of_m3_model::{Page, Reason, Seq, Series};

pub(crate) fn done_view(said: &Result<(), Reason>) -> ReplyView
    ensures { result ≡ reply_by (λ _. reply.Done) said.now }
{
    match said {
        Ok(()) => ReplyView::done(),
        Err(reason) => ReplyView::refused(reason),
    }
}

pub(crate) fn done_of(said: Result<(), Reason>) -> Result<(), CallErr>
    ensures { result ≡ result_of (λ u. u) said }
{
    match said {
        Ok(()) => Ok(()),
        Err(reason) => Err(CallErr::Refused(reason)),
    }
}

pub(crate) fn began_view(said: &Result<Began, Reason>) -> ReplyView
    ensures { result ≡ reply_by (λ began. reply.Began began.fence began.points) said.now }
{
    match said {
        Ok(began) => ReplyView::began(began.fence, &began.points),
        Err(reason) => ReplyView::refused(reason),
    }
}

pub(crate) fn began_of(said: Result<Began, Reason>) -> Result<(), CallErr>
    ensures { result ≡ result_of (λ _. tt) said }
{
    match said {
        Ok(_) => Ok(()),
        Err(reason) => Err(CallErr::Refused(reason)),
    }
}

pub(crate) fn found_view(said: &Result<Seq<Series>, Reason>) -> ReplyView
    ensures { result ≡ reply_by (λ series. reply.Found series) said.now }
{
    match said {
        Ok(series) => ReplyView::found(series),
        Err(reason) => ReplyView::refused(reason),
    }
}

pub(crate) fn found_of(said: Result<Seq<Series>, Reason>) -> Result<Seq<Series>, CallErr>
    ensures { result ≡ result_of (λ series. series) said }
{
    match said {
        Ok(series) => Ok(series),
        Err(reason) => Err(CallErr::Refused(reason)),
    }
}

pub(crate) fn paged_view(said: &Result<Page, Reason>) -> ReplyView
    ensures { result ≡ reply_by (λ page. reply.Paged page) said.now }
{
    match said {
        Ok(page) => ReplyView::paged(page),
        Err(reason) => ReplyView::refused(reason),
    }
}

pub(crate) fn page_of(said: Result<Page, Reason>) -> Result<Page, CallErr>
    ensures { result ≡ result_of (λ page. page) said }
{
    match said {
        Ok(page) => Ok(page),
        Err(reason) => Err(CallErr::Refused(reason)),
    }
}

pub(crate) fn count_view(said: &Result<u64, Reason>) -> ReplyView
    ensures { result ≡ reply_by (λ n. reply.Count n) said.now }
{
    match said {
        Ok(count) => ReplyView::count(*count),
        Err(reason) => ReplyView::refused(reason),
    }
}

pub(crate) fn count_of(said: Result<u64, Reason>) -> Result<u64, CallErr>
    ensures { result ≡ result_of (λ n. n) said }
{
    match said {
        Ok(count) => Ok(count),
        Err(reason) => Err(CallErr::Refused(reason)),
    }
}
