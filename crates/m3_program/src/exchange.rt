ghost use Rattle.std.specs.Prelude.{◌≡◌, ℕ, List, ◌++◌, Option, OnOk, OnErr, IfErr, IsErrOf};
ghost use Rattle.std.specs.Option.{option_copied};
ghost use Rattle.m3_outside.specs.Causes.{CountsFaults};
ghost use Rattle.saved_cluster.specs.Saved.{MayClose, MayServeSaved};
ghost use Rattle.saved_cluster.specs.declared.lost.Lost.TheVariants as lost;
ghost use Rattle.m3_program.specs.Exchanges.{is_blank, reply_line};
ghost use Rattle.m3_program.specs.Streams.{Advances, Drops, stage};

use line_fields::LineErr;
use m3_json::of_json::Scratch;
use m3_json::read_line;
use m3_model::{Answer, Placement, Reply};
use m3_outside::Disks;
use m3_replies::print_reply;
use saved_cluster::{Lost, SavedCluster};
use std::alloc::Global;

fn is_blank(line: &[u8]) -> bool
    ensures { result ≡ is_blank line.now }
{
    line.iter()
        .all(|&b| (b == b' ' || b == b'\t') || b == b'\r')
}

/// Memory that is used again for each line: to read it, and to put its reply together. Nothing in it goes from a line to the next.
#[derive(Drop)]
pub struct Workspace {
    scratch: Scratch,
    text: Vec<u8>,
}

impl Workspace {
    pub fn new(alloc: Global) -> Workspace {
        Workspace {
            scratch: Scratch::new(alloc),
            text: Vec::new(alloc),
        }
    }
}

// Appends the text of a reply and a newline, or nothing where memory is wanted. They are put together
// beside, as the writer makes ready a multiple of what a vector holds.
fn put_reply(
    alloc: Global,
    work: &mut Workspace,
    replies: &mut Vec<u8>,
    reply: &Reply,
    place: Option<&Placement>,
) -> Result<(), Lost>
    ensures ok { OnOk result (replies.new.items ≡ replies.old.items ++ reply_line (option_copied place.entry) reply.now) }
    ensures err { OnErr result (replies.new.items ≡ replies.old.items) }
    ensures want { IfErr result (λ e. e ≡ lost.Memory) }
{
    work.text.clear();
    match print_reply(alloc, &mut work.text, reply, place) {
        Ok(()) => {}
        Err(_) => return Err(Lost::Memory),
    }
    match work.text.push(b'\n') {
        Ok(()) => {}
        Err(_) => return Err(Lost::Memory),
    }
    match replies.extend_from_slice(work.text.as_slice()) {
        Ok(()) => Ok(()),
        Err(_) => Err(Lost::Memory),
    }
}

/// Serves a line, which has no newline, and appends what is to be written for it.
///
/// # Errors
///
/// The meta disk failed, or memory was wanted. Then nothing is appended, and the request may have been served.
pub fn answer_line<X: Disks>(
    alloc: Global,
    work: &mut Workspace,
    cluster: &mut SavedCluster<X::D>,
    disks: &mut X,
    replies: &mut Vec<u8>,
    line: &[u8],
) -> Result<(), Lost>
    requires may { MayServeSaved X.D.state cluster.old (X.depot disks.old).held }
    ensures ok { OnOk result ((text : List ℕ) × (replies.new.items ≡ replies.old.items ++ text)
        × Advances X.D.state (stage cluster.old (X.depot disks.old)) line.now text
        (stage cluster.new (X.depot disks.new))) }
    ensures err { OnErr result (Drops X.D.state (stage cluster.old (X.depot disks.old)) line.now
        (stage cluster.new (X.depot disks.new)) (IsErrOf result lost.Meta)) }
    ensures nothing { OnErr result (replies.new.items ≡ replies.old.items) }
    ensures may { OnOk result (MayServeSaved X.D.state cluster.new (X.depot disks.new).held) }
    ensures close { MayClose cluster.new (X.depot disks.new).held }
    ensures meta { CountsFaults (IsErrOf result lost.Meta) (X.D.state cluster.old.meta).faults (X.D.state cluster.new.meta).faults }
{
    if is_blank(line) {
        return Ok(());
    }
    match read_line(alloc, &mut work.scratch, line) {
        Ok(request) => match cluster.serve(alloc, disks, request) {
            Ok(reply) => put_reply(alloc, work, replies, &reply, cluster.place()),
            Err(lost) => Err(lost),
        },
        Err(LineErr::Form) => {
            put_reply(
                alloc,
                work,
                replies,
                &Reply::One(Answer::Form),
                cluster.place(),
            )
        }
        Err(LineErr::Later) => {
            put_reply(
                alloc,
                work,
                replies,
                &Reply::One(Answer::Later),
                cluster.place(),
            )
        }
        Err(LineErr::Memory) => Err(Lost::Memory),
    }
}
