use crate::stories::story;
use legal_events::any_legal;
use m3_model::Memory;
use std::alloc::Global;
use std::test::Fail;

// What is tried, a legal story, and one that isn't. A letter names the event, then come its node or version and the rest:
// P a placement, C a moment, S a Send, A an Ack, K a FetchStart, D a FetchDone, and the steps B begin, W put, R read,
// F fence, G page, H block, M merge, T tick, L flush, Z snapshot, Y digests, Q report, E end, X stop, U restart.
const LISTS: &str = "nothing must have happened>>U0
the first placement comes first>P1s C1>C1 P1s
it ends no move>P1s>P1d
it is lawful>P1s>P1e
the second event is a clock>P1s C1>P1s P2m
an ask may stand at any later position>P1s C1 ?B011>P1s ?B011
moments don't go back>P1s C1 C2>P1s C1 C0
namespaces stay>P1s C1 C12>P1s C1 C10
a clock is asked for>P1s C1 C2>P1s C1 ~C2
a placement is a step>P1s C1 P2m>P1s C1 P3m
a move may be cancelled>P1s C1 P2m P3s>P1s C1 P2m P3f
a placement is asked for>P1s C1 P2m>P1s C1 ~P2m
each step is asked for>P1s C1 B011 B011>P1s C1 B011 ~B011
each has an ask of its own>P1s C1 ?B011 ?B011 ~B011 ~B011>P1s C1 ?B011 ~B011 ~B011
for its own call>P1s C1 ?B011 ~B011>P1s C1 ?B021 ~B011
of its own node>P1s C1 ?B011 ~B011>P1s C1 ?B111 ~B011
and of its own shard>P1s C1 ?B011 ~B011>P1s C1 ?B011/1 ~B011
a send has a version that stood>P1s C1 S1p>P1s C1 S2p
and a shard of it>P1s C1 S1p/1>P1s C1 S1p/2
a fetch has a version that stood>P1s C1 K11>P1s C1 K21
and a shard of it>P1s C1 K11/1>P1s C1 K11/2
and rules that stood>P1s C1 K11>P1s C1 K12
an ack has nodes that took the point>P1s C1 B011 B111 S1p W01p W11p A01>P1s C1 B011 B111 S1p W01p W11p A02
each once>P1s C1 B011 B111 S1p W01p W11p A01>P1s C1 B011 B111 S1p W01p W11p A00
at the send's version>P1s C1 P2m B111 B211 S2p S1p W11p W21p A12>P1s C1 P2m B111 B211 S1p S2p W11p W21p A12
in the send's shard>P1s C1 B011/1 B111/1 S1p S1p/1 W01p/1 W11p/1 A01>P1s C1 B011/1 B111/1 S1p/1 W01p/1 W11p/1 S1p A01
an ack has a send>P1s C1 B011 B111 S1p W01p W11p A01>P1s C1 B011 B111 A01
a leaving replica doesn't count>P1s C1 P2m B111 B211 S2p W12p W22p A12>P1s C1 P2m B011 B111 S2p W02p W12p A01
nor does a joining one>P1s C1 P2m B111 B211 S2p W12p W22p A12>P1s C1 P2m B322 B111 S2p W32p W12p A13
a fetch joins the answers>P1s C1 B011 B111 S1p W01p K11 R01p R11 D01p>P1s C1 B011 B111 S1p W01p K11 R01p R11 D01
and adds nothing>P1s C1 B011 B111 K11 R01 R11 D01>P1s C1 B011 B111 S1p K11 R01 R11 D01p
in order>P1s C1 B011 B111 S1p W01p S1r W11r K11 R01p R11r D01pr>P1s C1 B011 B111 S1p W01p S1r W11r K11 R01p R11r D01rp
the greater value is joined>P1s C1 B011 B111 S1p W01p S1q W11q K11 R01p R11q D01q>P1s C1 B011 B111 S1p W01p S1q W11q K11 R01p R11q D01p
a fetch has a start>P1s C1 B011 B111 S1p K11 R01 R11 D01>P1s C1 B011 B111 K11 R01 R11 S1p D01
each node has answered>P1s C1 B011 B111 K11 R01 R11 D01>P1s C1 B011 B111 K11 R01 D01
since the fetch began>P1s C1 B011 B111 K11 R01 R11 D01>P1s C1 B011 B111 R01 R11 K11 D01
by its rules>P1s C1 B011 B111 C2 K12 R01 R11 D01>P1s C1 B011 B111 C2 K11 R01 R11 D01
at its version>P1s C1 P2m B111 B211 K21 R12 R22 D12>P1s C1 P2m B111 B211 K21 R11 R21 D12
in its shard>P1s C1 B011/1 B111/1 K11/1 R01/1 R11/1 D01>P1s C1 B011/1 B111/1 K11 R01/1 R11/1 D01
each of another node>P1s C1 B011 B111 K11 R01 R11 D01>P1s C1 B011 B111 K11 R01 R11 D00
a leaving replica's answer doesn't count>P1s C1 P2m B111 B211 K21 R12 R22 D12>P1s C1 P2m B011 B111 K21 R02 R12 D01
nor does a joining one's>P1s C1 P2m B111 B211 K21 R12 R22 D12>P1s C1 P2m B322 B111 K21 R32 R12 D13";

// The same of steps that are answered.
const STEPS: &str = "a point is sent before it is put>P1s C1 B011 S1p W01p>P1s C1 B011 W01p
it is sent with its value>P1s C1 B011 S1q W01q>P1s C1 B011 S1p W01q
at its version>P1s C1 P2m B111 S2p W12p>P1s C1 P2m B111 S1p W12p
in its shard>P1s C1 B011/1 S1p/1 W01p/1>P1s C1 B011/1 S1p W01p/1
it is in the window>P1s C1 B011 S1r W01r>P1s C1 B011 S1o W01o
it isn't ahead of it>P1s C1 B011 S1r W01r>P1s C1 B011 S1n W01n
it is put by rules that stood>P1s C1 B011 S1p W01p>P1s C1 B011 S1p w01p
it is put at a replica that began>P1s C1 B011 S1p W01p>P1s C1 S1p W01p
whose tenure isn't above the version>P1s C1 P2m B322 S2p W32p>P1s C1 P2m B322 S1p W31p
whose fence isn't above it>P1s C1 B011 F01 S1p W01p>P1s C1 B011 F02 S1p W01p
a read finds what is sure>P1s C1 B011 S1p W01p R01p>P1s C1 B011 S1p W01p R01
and nothing else>P1s C1 B011 R01>P1s C1 B011 R01p
the greatest value>P1s C1 B011 S1p W01p S1q W01q R01q>P1s C1 B011 S1p W01p S1q W01q R01p
in order>P1s C1 B011 S1p W01p S1r W01r R01pr>P1s C1 B011 S1p W01p S1r W01r R01rp
of the series that it picks>P1s C1 B011 S1i W01i R01>P1s C1 B011 S1i W01i R01i
in its range>P1s C1 B011 S1u W01u R01>P1s C1 B011 S1u W01u R01u
unexpired>P1s C1 B011 S1p W01p C7 R01>P1s C1 B011 S1p W01p C7 R01p
by rules that stood>P1s C1 B011 R01>P1s C1 B011 r01
at a replica that began>P1s C1 B011 R01>P1s C1 R01
whose tenure isn't above the version>P1s C1 P2m B322 R32>P1s C1 P2m B322 R31
a read of an older version doesn't pass the fence>P1s C1 B011 R01 F02>P1s C1 B011 F02 R01
that of its own shard>P1s C1 B011 B011/1 F02/1 R01>P1s C1 B011 B011/1 F02 R01
a fence comes after the tenure>P1s C1 P2m B322 F32>P1s C1 P2m B322 F31
a fenced replica is open>P1s C1 B011 F01>P1s C1 F01
and has a tenure>P1s C1 B011 F01>P1s C1 B011 E0 F01
a lower fence changes nothing>P1s C1 B011 F03 F02 R01!s3>P1s C1 B011 F03 F02 R01!s2
a page skips no key>P1s C1 B011 S1p W01p G0p>P1s C1 B011 S1p W01p G0
nor adds one>P1s C1 B011 G0>P1s C1 B011 G0p
it has the greatest value>P1s C1 B011 S1p W01p S1q W01q G0q>P1s C1 B011 S1p W01p S1q W01q G0p
in order>P1s C1 B011 S1p W01p S1r W01r G0pr>P1s C1 B011 S1p W01p S1r W01r G0rp
a page of an open replica>P1s C1 B011 G0>P1s C1 G0
with a tenure>P1s C1 B011 G0>P1s C1 B011 E0 G0
a block has the points in it>P1s C1 B011 S1p W01p S1r W01r H0p>P1s C1 B011 S1p W01p S1r W01r H0pr
a block of an open replica>P1s C1 B011 H0>P1s C1 H0
with a tenure>P1s C1 B011 H0>P1s C1 B011 E0 H0
a merged page was given>P1s C1 B011 B111 S1p W01p G0p M1p>P1s C1 B011 B111 S1p W01p M1p
or a block was>P1s C1 B011 B111 S1p W01p H0p M1p>P1s C1 B011 B111 S1p W01p H0p M1
by a replica of the shard>P1s C1 B011/1 B111/1 G0/1 M1/1>P1s C1 B011 B111/1 G0 M1/1
it is merged by an open replica>P1s C1 B011 B111 G0 M1>P1s C1 B011 G0 M1
with a tenure>P1s C1 B011 B111 G0 M1>P1s C1 B011 B111 E1 G0 M1
a merged point is sure>P1s C1 B011 B111 S1p W01p G0p M1p R11p>P1s C1 B011 B111 S1p W01p G0p M1p R11
a placement gave the tenure>P1s C1 B011>P1s C1 B022
in the shard>P1s C1 B011/1>P1s C1 B011/2
the fence isn't below the tenure>P1s C1 B011>P1s C1 B010
tenures don't go back>P1s C1 P2m P3s P4m B322 B344>P1s C1 P2m P3s P4m B344 B322
a closed replica doesn't begin>P1s C1 X0 U0 B011>P1s C1 X0 B011
the first begin loads what it may>P1s C1 B013p>P1s C1 B011 X0 U0 B013p
no fence falls at a restart>P1s C1 B011 F03 X0 U0 B013>P1s C1 B011 F03 X0 U0 B011
nor rises by itself>P1s C1 B011 X0 U0 B011>P1s C1 B011 X0 U0 B013
a fence in doubt may stand>P1s C1 B011 F03!k U0 B013>P1s C1 B011 F03!m X0 U0 B013
and so may a tenure>P1s C1 P2m P3s P4m B322 X3 U3 B344!k U3 B324>P1s C1 P2m P3s P4m B322 X3 U3 B344!m B324
what is sure stays at a restart>P1s C1 B011 S1p W01p X0 U0 B011p>P1s C1 B011 S1p W01p X0 U0 B011
with the greatest value>P1s C1 B011 S1p W01p S1q W01q X0 U0 B011q>P1s C1 B011 S1p W01p S1q W01q X0 U0 B011p
but for what a tick dropped>P1s C1 B011 S1p W01p C7 T0 X0 U0 B011>P1s C1 B011 S1p W01p C7 X0 U0 B011
what was neither sure nor in doubt doesn't come>P1s C1 B011 S1p W01p!k U0 B011p>P1s C1 B011 S1p W01p!m X0 U0 B011p
a merged page is in doubt, too>P1s C1 B011 B111 S1p W01p G0p M1p!k U1 B111p>P1s C1 B011 B111 S1p W01p G0p M1p!m X1 U1 B111p
doubt that came is sure>P1s C1 B011 S1p W01p!k U0 B011p R01p>P1s C1 B011 S1p W01p!k U0 B011p R01
doubt may go, and then is gone>P1s C1 B011 S1p W01p!k U0 B011 R01>P1s C1 B011 S1p W01p!k U0 B011 R01p
an open replica loads nothing>P1s C1 B011 B011>P1s C1 B011 B011p
and keeps its fence>P1s C1 B011 F03 B013>P1s C1 B011 F03 B011
a tick is of an open replica>P1s C1 B011 T0>P1s C1 T0
by rules that stood>P1s C1 B011 T0>P1s C1 B011 t0
a tick may drop what has expired>P1s C1 B011 S1p W01p C7 T0 G0>P1s C1 B011 S1p W01p C7 G0
and nothing else>P1s C1 B011 S1p W01p T0 G0p>P1s C1 B011 S1p W01p T0 G0
a flush is of an open replica>P1s C1 B011 L0>P1s C1 L0
by rules that stood>P1s C1 B011 L0>P1s C1 B011 l0
a snapshot is of an open replica>P1s C1 B011 Z0>P1s C1 Z0
digests are left out>P1s C1 B011 Y0!m>P1s C1 B011 Y0
a report has the standing>P1s C1 Q0b0>P1s C1 Q0o0
and the fence>P1s C1 B011 F02 Q0o2>P1s C1 B011 F02 Q0o1
where it is open>P1s C1 B011 F02 X0 Q0d0>P1s C1 B011 F02 X0 Q0d2
a report needs no ask>P1s C1 ~Q0b0>P1s C1 ~X0
an end, a stop and a restart may come anywhere>P1s C1 E0 X0 E0 X0 U0 U0>P1s C1 E0 X0 E0 X0!d
an end takes the tenure>P1s C1 B011 S1p E0 W01p!n>P1s C1 B011 S1p E0 W01p
a stop closes>P1s C1 B011 X0 Q0d0>P1s C1 B011 X0 Q0o1
a restart doesn't open>P1s C1 B011 X0 U0 Q0b0>P1s C1 B011 X0 U0 Q0o1";

// The same of steps that are refused.
const REFUSED: &str = "memory may be short anywhere>P1s C1 X0!m W01p!m>P1s C1 X0!c W01p!c
a closed replica is down>P1s C1 X0 R01!d>P1s C1 R01!d
also to a begin>P1s C1 B011 X0 B011!d>P1s C1 B011 X0 B011!n
it isn't at boot>P1s C1 R01!b>P1s C1 X0 R01!b
a begin is never refused for that>P1s C1 R01!b>P1s C1 B011!b
a page needs a tenure>P1s C1 B011 E0 G0!n>P1s C1 B011 G0!n
a read needs one that isn't above its version>P1s C1 P2m B322 R31!n>P1s C1 P2m B322 R32!n
a stale call has the fence>P1s C1 B011 F03 R01!s3>P1s C1 B011 F03 R01!s2
a stale call is below the fence>P1s C1 B011 F03 R01!s3>P1s C1 B011 F03 R03!s3
a fence is never stale>P1s C1 B011 F03 F02>P1s C1 B011 F03 F02!s3
a put is past the window>P1s C1 B011 W01o!p>P1s C1 B011 W01p!p
a put is ahead of it>P1s C1 B011 W01n!f>P1s C1 B011 W01o!f
down comes before the tenure>P1s C1 B011 E0 X0 F02!d>P1s C1 B011 E0 X0 F02!n
the tenure before the fence>P1s C1 P2m B322 F33 R31!n>P1s C1 P2m B322 F33 R31!s3
the fence before the window>P1s C1 B011 F03 W01o!s3>P1s C1 B011 F03 W01o!p
a begin may find a higher tenure in the files>P1s C1 B011!n>P1s C1 B011 X0 U0 B011!n
or one that was begun>P1s C1 P2m P3s P4m B344 B322!n>P1s C1 P2m P3s P4m B322 B344!n
or with which it was to begin>P1s C1 P2m P3s P4m B322 B344!k U3 B322!n>P1s C1 P2m P3s P4m B322 B344!m B322!n
a disk fails a put that was sent>P1s C1 B011 S1p W01p!k>P1s C1 B011 W01p!k
a merge of a page that was given>P1s C1 B011 G0 M0!k>P1s C1 B011 M0!k
a tick by rules that stood>P1s C1 B011 T0!k>P1s C1 B011 t0!k
a begin of the highest tenure>P1s C1 P2m P3s P4m B322 B344!k>P1s C1 P2m P3s P4m B344 B322!k
a restart, but no stop>P1s C1 U0!k>P1s C1 X0!k
a snapshot, but no report>P1s C1 B011 Z0!k>P1s C1 B011 Q0!k
a disk fails no call that is refused>P1s C1 B011 S1p W01p!k>P1s C1 S1p W01p!k
not for the window either>P1s C1 B011 S1r W01r!k>P1s C1 B011 S1o W01o!k
a disk that failed closes>P1s C1 B011 F02!k R01!d>P1s C1 B011 F02!k R01
a failed tick may drop, too>P1s C1 B011 S1p W01p C7 T0!k U0 B011>P1s C1 B011 S1p W01p C7 T0!m X0 U0 B011
damage is found where files are read>P1s C1 B011 R01!x>P1s C1 B011 F01!x
at a begin, but at no restart>P1s C1 B011!x>P1s C1 U0!x
at a tick by rules that stood>P1s C1 B011 T0!x>P1s C1 B011 t0!x
but at no put>P1s C1 B011 S1p W01p!m>P1s C1 B011 S1p W01p!x
damage is found by no call that is refused>P1s C1 B011 R01!x>P1s C1 R01!x
damage closes>P1s C1 B011 R01!x R01!d>P1s C1 B011 R01!x R01";

// The start of a move: two nodes have a point, and node 3 begins to take over node 0's replica.
const MOVE: &str = "P1s C1 B011 B111 B011/1 B111/1 S1p W01p W11p A01 P2m B322";

// A joining replica has merged what a majority of the former ones gave, once they were fenced.
const JOINS: &str =
    "fences, pages and merges of a majority>F02 G0p M3p F12 G1p M3p P3e>F02 G0p M3p F12 G1p M3p P3f
a majority, not one less>F02 G0p M3p F12 G1p P3e>F02 G0p M3p P3e
a fence of each>F02 F12 G0p G1p M3p P3e>F02 G0p G1p M3p P3e
at the move's version>F02 F12 G0p G1p M3p P3e>F02 F11 G0p G1p M3p P3e
or above it>F02 F13 G0p G1p M3p P3e>F02 F13!m G0p G1p M3p P3e
in the shard>F02 F12 G0p G1p M3p P3e>F02/1 F12/1 G0p G1p M3p P3e
before its page>F02 G0p F12 G1p M3p P3e>F02 G0p G1p F12 M3p P3e
with each page merged>F02 F12 G0p G1p M3p P3e>F02 F12 G0p G1p P3e
by the node that joins>F02 F12 G0p G1p M3p P3e>F02 F12 G0p G1p M1p P3e
of different peers>F02 F12 G0p G1p M3p P3e>F02 F02 G0p G0p M3p P3e
of those who had the shard>F02 F12 G0p G1p M3p P3e>F02 F32 G0p M3p G3p M3p P3e
of whole pages>F02 F12 G0p G1p M3p P3e>F02 F12 H0p H0p H1p M3p P3e";

// The same where the two nodes have more than one page of points.
const MANY: &str = "P1s C1 B011 B111 N P2m B322";

const PAGES: &str =
    "each page is given and merged>F02 F12 G0a G0b G1a G1b M3a M3b P3e>F02 F12 G0a G0b G1a G1b M3a P3e
the second one, too>F02 F12 G0a M3a G0b M3b G1a G1b P3e>F02 F12 G0a M3a G1a G1b M3b P3e
the first page skips no key>F02 F12 G0a>F02 F12 G0d
nor does the second>F02 F12 G0a G0b>F02 F12 G0a G0c
a page goes on where more follows>F02 F12 G0a>F02 F12 G0e
from where it ended>F02 F12 G0a G0b G1a G1b M3a M3b P3e>F02 F12 G0a G0f G1a G1b M3a M3b M3f P3e
one after the other>F02 F12 G0a G0b G1a G1b M3a M3b P3e>F02 F12 G0b G0a G1a G1b M3a M3b P3e
all past the fence>F02 G0a G0b F12 G1a G1b M3a M3b P3e>G0a F02 G0b F12 G1a G1b M3a M3b P3e
with merges in any order>F02 F12 G1a G1b M3b M3a G0a G0b P3e>F02 F12 G1a G1b M3b M3a G0a P3e";

// Of three nodes with one shard, two begin, take a point at the moment 100, and are named in its Ack.
const WORKED: &str = "by those that took it>S1p W01p W11p A01>S1p W01p W11p A02
once it was sent>S1p W01p W11p A01>W01p W11p A01
when they were asked>S1p W01p W11p A01>S1p W01p ~W11p A01";

fn is_legal(alloc: Global, before: &str, words: &str) -> Result<bool, Memory> {
    let events = story(alloc, before, words)?;
    any_legal(alloc, &events)
}

fn is_told(alloc: Global, row: &str, before: &str) -> Result<bool, Memory> {
    let (_, stories) = row.split_once('>').unwrap_or(("", ""));
    let (legal, other) = stories.split_once('>').unwrap_or(("", ""));
    Ok(is_legal(alloc, before, legal)? && !is_legal(alloc, before, other)?)
}

// The first row that isn't told so.
fn wrong_row<'a>(alloc: Global, rows: &'a str, before: &str) -> Result<Option<&'a str>, Memory> {
    for row in rows.lines() {
        if !is_told(alloc, row, before)? {
            return Ok(Some(row));
        }
    }
    Ok(None)
}

#[test]
fn lists_are_told(rt: HostRuntime) -> Result<(), Fail> {
    assert_eq!(rt; wrong_row(rt.alloc(), LISTS, "")?, None);
    Ok(())
}

#[test]
fn steps_are_told(rt: HostRuntime) -> Result<(), Fail> {
    assert_eq!(rt; wrong_row(rt.alloc(), STEPS, "")?, None);
    Ok(())
}

#[test]
fn refused_steps_are_told(rt: HostRuntime) -> Result<(), Fail> {
    assert_eq!(rt; wrong_row(rt.alloc(), REFUSED, "")?, None);
    Ok(())
}

#[test]
fn joins_are_told(rt: HostRuntime) -> Result<(), Fail> {
    assert_eq!(rt; wrong_row(rt.alloc(), JOINS, MOVE)?, None);
    Ok(())
}

#[test]
fn pages_are_told(rt: HostRuntime) -> Result<(), Fail> {
    assert_eq!(rt; wrong_row(rt.alloc(), PAGES, MANY)?, None);
    Ok(())
}

#[test]
fn worked_history_is_told(rt: HostRuntime) -> Result<(), Fail> {
    assert_eq!(rt; wrong_row(rt.alloc(), WORKED, "P1o C1 B011 B111")?, None);
    Ok(())
}
