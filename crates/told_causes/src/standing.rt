//! Why replicas are closed.
ghost use Rattle.std.specs.Prelude.{Bool};
ghost use Rattle.told_causes.specs.Boot.{BootHasCause, BootIsSaid};
ghost use Rattle.told_causes.specs.Running.{WhoServedRuns, WhoServesRuns};
ghost use Rattle.told_causes.specs.Sample.{BootIsHeard};
ghost use Rattle.told_causes.specs.Standing.{DownHasCause, DownIsSaid};

/// A replica that refuses a call as closed is of a node that is stopped, or a fault of its own closed it and its node
/// wasn't restarted since; and so a transcript says of it.
pub fn down_has_cause()
    ensures cause { (tells : Bool) → DownHasCause tells }
    ensures said { DownIsSaid }
{}

/// A replica that refuses a call as not begun waits for a bootstrap, as a transcript says, where each bootstrap is alone
/// in its line: since the run opened, since it was assigned, or since its node was restarted.
pub fn boot_has_cause()
    ensures cause { (tells : Bool) → BootHasCause tells }
    ensures said { BootIsSaid }
{}

/// The premises of that can be met: a run finds a replica that nobody began, and hears so from it.
pub fn not_begun_is_heard()
    ensures { BootIsHeard }
{}

/// A node whose replica serves isn't stopped, where stops and restarts are alone in their lines; so the nodes run whose
/// replicas did as a call asks.
pub fn who_serves_runs()
    ensures serves { (tells : Bool) → WhoServesRuns tells }
    ensures served { (tells : Bool) → WhoServedRuns tells }
{}
