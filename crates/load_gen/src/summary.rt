ghost use Rattle.std.specs.Prelude.{◌≡◌, ◌<◌, ◌≤◌, ◌+◌, ◌^◌, ℕ, ◌+ℤ◌, List, [], ◌∷◌, ◌++◌, length, string_bytes, decimal, IfOk, IfSome, IsSome, OnOk};
ghost use Rattle.std.specs.Fmt.{signed_decimal};
ghost use Rattle.std.specs.Int.{w64};
ghost use Rattle.std.specs.Int.RustNames.{FitsSigned};
ghost use Rattle.m3_model.specs.declared.turn.Reply.{Reply as TheReply};
ghost use Rattle.load_gen.specs.Sums.{IsSumOfFew};
ghost use Rattle.load_gen.specs.Summaries.{Counts, says_ok, points_by, all_points, sum_of, summary_line};

use m3_model::{Answer, Memory, Reply, Series};
use std::alloc::Global;

/// What the replies to a script came to, as far as they were given: how many there are, how many say ok, and the points of
/// the last one with the sum of their values.
#[derive(Clone, Copy)]
pub struct Summary {
    lines: u64,
    ok: u64,
    points: u64,
    sum: i128,
}

fn says_ok(reply: &Reply) -> bool
    ensures { result ≡ says_ok reply.now }
{
    match reply {
        Reply::One(answer) => matches!(
            answer,
            Answer::Done
                | Answer::Placed { .. }
                | Answer::Acks { .. }
                | Answer::Found { .. }
                | Answer::Outcomes { .. }
                | Answer::Available { .. }
                | Answer::Swept { .. }
                | Answer::Repaired { .. }
                | Answer::Status { .. }
        ),
        Reply::Par { .. } => true,
    }
}

fn value_of(point: &(u64, i64)) -> i128
    ensures value { result ≡ point.now.1 }
    ensures fits { FitsSigned w64 result }
{
    point.1 as i128
}

// The sum of the values of these points and of what came before them, where it fits: it does with at most 2^63 points.
fn sum_on(before: i128, points: &[(u64, i64)]) -> Option<i128>
    ensures sum { IfSome result (λ sum. sum ≡ before +ℤ sum_of points.now) }
    ensures few { IfSome result (λ sum. (count : ℕ) → IsSumOfFew count before → IsSumOfFew (count + length points.now) sum) }
    ensures some { (count : ℕ) → IsSumOfFew count before → count + length points.now ≤ 2 ^ 63 → IsSome result }
{
    let mut sum = before;
    for point in points {
        sum = sum.checked_add(value_of(point))?;
    }
    Some(sum)
}

// How many points the series have, and the sum of their values, where both fit.
fn tally_of(series: &[Series]) -> Option<(u64, i128)>
    ensures tally { IfSome result (λ t. (t.0 ≡ length (all_points series.now)) × (t.1 ≡ sum_of (all_points series.now))) }
    ensures some { length (all_points series.now) ≤ 2 ^ 63 → IsSome result }
{
    let mut points: u64 = 0;
    let mut sum: i128 = 0;
    for one in series {
        let own = one.points.as_slice();
        points = points.checked_add(own.len() as u64)?;
        sum = sum_on(sum, own)?;
    }
    Some((points, sum))
}

// The same of a reply.
fn tally_by(reply: &Reply) -> Option<(u64, i128)>
    ensures tally { IfSome result (λ t. (t.0 ≡ length (points_by reply.now)) × (t.1 ≡ sum_of (points_by reply.now))) }
    ensures some { length (points_by reply.now) ≤ 2 ^ 63 → IsSome result }
{
    match reply {
        Reply::One(Answer::Found { series, .. }) => tally_of(series.as_slice()),
        _ => Some((0, 0)),
    }
}

// Appends a name and a number.
fn push_count(alloc: Global, line: &mut String, name: &str, count: u64) -> Result<(), Memory>
    ensures { OnOk result (string_bytes line.new ≡ (string_bytes line.old ++ name.now) ++ decimal count) }
{
    line.push_str(name)?;
    let digits = format!(in alloc; "{count}")?;
    line.push_str(digits.as_str())?;
    Ok(())
}

fn push_sum(alloc: Global, line: &mut String, name: &str, sum: i128) -> Result<(), Memory>
    ensures { OnOk result (string_bytes line.new ≡ (string_bytes line.old ++ name.now) ++ signed_decimal sum) }
{
    line.push_str(name)?;
    let digits = format!(in alloc; "{sum}")?;
    line.push_str(digits.as_str())?;
    Ok(())
}

impl Summary {
    /// The summary of no replies.
    pub fn new() -> Summary
        ensures { Counts [] result }
    {
        Summary {
            lines: 0,
            ok: 0,
            points: 0,
            sum: 0,
        }
    }

    /// The summary with one more reply; none only behind 2^63 replies, or where this one has more than 2^63 points.
    pub fn with(self, reply: &Reply) -> Option<Summary>
        ensures counts { IfSome result (λ next. (replies : List TheReply) → Counts replies self → Counts (replies ++ reply.now ∷ []) next) }
        ensures some { (replies : List TheReply) → Counts replies self → length replies < 2 ^ 63 → length (points_by reply.now) ≤ 2 ^ 63 → IsSome result }
    {
        let lines = self.lines.checked_add(1)?;
        let ok = self.ok.checked_add(says_ok(reply) as u64)?;
        let (points, sum) = tally_by(reply)?;
        Some(Summary {
            lines,
            ok,
            points,
            sum,
        })
    }

    /// The line of the summary, with its newline.
    ///
    /// # Errors
    ///
    /// Want of memory.
    pub fn line(&self, alloc: Global) -> Result<String, Memory>
        ensures { IfOk result (λ line. (replies : List TheReply) → Counts replies self.now → string_bytes line ≡ summary_line replies) }
    {
        let refused = self.lines.saturating_sub(self.ok);
        let mut line = String::new(alloc);
        push_count(alloc, &mut line, "{\"lines\":", self.lines)?;
        push_count(alloc, &mut line, ",\"ok\":", self.ok)?;
        push_count(alloc, &mut line, ",\"points\":", self.points)?;
        push_count(alloc, &mut line, ",\"refused\":", refused)?;
        push_sum(alloc, &mut line, ",\"sum\":", self.sum)?;
        line.push_str("}\n")?;
        Ok(line)
    }
}
