//! What a run wrote that ended so.
ghost use Rattle.std.specs.Prelude.{◌≤◌, ℕ, List, [], ◌∷◌, ◌++◌, length, Option, None, Some, codes};
ghost use Rattle.m3_model.specs.declared.turn.Request.{Request as Asked};
ghost use Rattle.m3_program.specs.Exchanges.{Exchange};
ghost use Rattle.m3_program.specs.Runs.{GotTo};
ghost use Rattle.m3_program.specs.declared.status.Status.TheVariants as status;
ghost use Rattle.run_laws.specs.Samples.{ask, both_lines, gets, one, two};

/// With status 0 the reply to the last line is left out, or written twice, or lines are left, or bytes of a source that tells. Of one that
/// doesn't the clause `ended` of `run` says that it was read to its end.
pub fn not_at_the_end()
    ensures left_out { ¬ GotTo status.Done both_lines [] (codes "r") two None [] }
    ensures twice { ¬ GotTo status.Done both_lines [] (codes "rss") two None [] }
    ensures lines { ¬ GotTo status.Done both_lines [] (codes "rs") two None (codes "z" ∷ []) }
    ensures bytes { ¬ GotTo status.Done both_lines (codes "z") (codes "rs") two None [] }
{}

/// The source failed, or too much was taken, and a whole line got no reply, or a request was taken without one.
pub fn line_taken_without_reply()
    ensures fault { ¬ GotTo status.ReadFault both_lines [] (codes "r") one None [] }
    ensures limit { ¬ GotTo status.TooLong both_lines [] (codes "r") one None [] }
    ensures fault_taken { (taken left written : List ℕ) (xs : List Exchange) (later : List (List ℕ)) → ¬ GotTo status.ReadFault taken left written xs (Some ask) later }
    ensures limit_taken { (taken left written : List ℕ) (xs : List Exchange) (later : List (List ℕ)) → ¬ GotTo status.TooLong taken left written xs (Some ask) later }
{}

/// Too much is said to have been taken, and two lines were.
pub fn limit_without_cause()
    ensures { ¬ GotTo status.TooLong both_lines [] (codes "rs") two None [] }
{}

/// The meta disk failed, and a reply is left out, or no request was taken.
pub fn disk_fault_of_no_request()
    ensures left_out { ¬ GotTo status.DiskFault both_lines [] (codes "r") two (Some ask) [] }
    ensures none { (taken left written : List ℕ) (xs : List Exchange) (later : List (List ℕ)) → ¬ GotTo status.DiskFault taken left written xs None later }
{}

/// Memory was wanted, and two replies are left out.
pub fn two_replies_cut()
    ensures { ¬ GotTo status.Memory both_lines [] [] two None [] }
{}

/// The sink failed, and the reply to a line is left out that ended more than a piece ago.
pub fn reply_held_too_long()
    ensures { (more left : List ℕ) (xs : List Exchange) (asked : Option Asked) (later : List (List ℕ)) → 65536 ≤ length more → ¬ GotTo status.WriteFault (120 ∷ 10 ∷ more) left [] (gets (codes "x") (codes "r") ∷ xs) asked later }
{}

/// A run that was opened ends as if its words were wrong, or its log damaged.
pub fn status_of_no_run()
    ensures usage { (taken left written : List ℕ) (xs : List Exchange) (asked : Option Asked) (later : List (List ℕ)) → ¬ GotTo status.Usage taken left written xs asked later }
    ensures corrupt { (taken left written : List ℕ) (xs : List Exchange) (asked : Option Asked) (later : List (List ℕ)) → ¬ GotTo status.Corrupt taken left written xs asked later }
{}
