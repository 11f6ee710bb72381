//! Transcripts with disks that fail, nodes that are restarted and replicas that bootstrap.
ghost use Rattle.std.specs.Prelude.{ℕ, List, [], ◌∷◌, true};
ghost use Rattle.transcripts.specs.Record.{Life};
ghost use Rattle.transcripts.specs.Faults.{Fault};
ghost use Rattle.transcripts.specs.Caused.{Caused};
ghost use Rattle.m3_model.specs.declared.reason.Damage.{Damage};
ghost use Rattle.m3_model.specs.declared.reason.Damage.TheVariants as damaged;
ghost use Rattle.model_laws.specs.Building.{life_of};
ghost use Rattle.fault_laws.specs.Faulty.{fails, untaken, stopped_and_back, failed_and_back, restart_failed, init_failed, shard_missing, down_restarted, boot_bootstrapped, boot_covered, boot_of_another, disk_at_once, corrupt_at_once, bootstrapped_stopped, bootstrapped_missing, restarted_running, damages, damaged_boot, no_shard_restarted, no_shard_made, idle_acked, other_asked, asked_and_acked};

/// A node that was stopped, or a replica whose disk failed, is down; once its node is restarted it waits for a
/// bootstrap, and after one it takes writes again.
pub fn replicas_come_back()
    ensures stopped { Caused true (life_of stopped_and_back) [] }
    ensures failed { Caused true (life_of failed_and_back) (fails 3 2 ∷ []) }
{}

/// A restart whose disk fails leaves the node stopped.
pub fn restart_fails()
    ensures { Caused true (life_of restart_failed) (fails 4 2 ∷ []) }
{}

/// An `init` that can't take a disk makes no cluster.
pub fn init_fails()
    ensures { Caused true (life_of init_failed) (untaken 0 1 ∷ []) }
{}

/// A bootstrap that finds damage names it, and the replica is down from then on.
pub fn bootstrap_finds_damage()
    ensures { (file : List ℕ) → (at : ℕ) → Caused true (life_of (damaged_boot (damaged.Form file at))) (damages 5 2 ∷ []) }
{}

/// A bootstrap of a shard that isn't there names its number, and of a node that isn't there the node first.
pub fn shard_not_there()
    ensures { Caused true (life_of shard_missing) [] }
{}

/// A replica that was restarted takes no write before a bootstrap of it is asked; it may take one after that, whatever it was
/// answered.
pub fn idle_replica_takes_nothing()
    ensures asked { Caused true (life_of asked_and_acked) [] }
    ensures idle { (faults : List Fault) → ¬ Caused true (life_of idle_acked) faults }
    ensures other { (faults : List Fault) → ¬ Caused true (life_of other_asked) faults }
{}

/// A replica is down by a fault, though its node was restarted since.
pub fn down_after_restart()
    ensures { ¬ Caused true (life_of down_restarted) (fails 3 2 ∷ []) }
{}

/// A replica waits for a bootstrap, though one was answered ok and its node wasn't restarted since.
pub fn boot_after_bootstrap()
    ensures { (faults : List Fault) → ¬ Caused true (life_of boot_bootstrapped) faults }
{}

/// A replica waits for a bootstrap, though one of its own shard was answered ok; one of another node ends nothing.
pub fn boot_after_bootstrap_of_shard()
    ensures other_node { Caused true (life_of boot_of_another) [] }
    ensures covering { (faults : List Fault) → ¬ Caused true (life_of boot_covered) faults }
{}

/// A replica's disk fails in a line, though only that of another node failed in it, or its own in another line.
pub fn disk_of_another_fault()
    ensures node { ¬ Caused true (life_of disk_at_once) (fails 3 1 ∷ []) }
    ensures line { ¬ Caused true (life_of disk_at_once) (fails 2 2 ∷ []) }
    ensures restart { ¬ Caused true (life_of restart_failed) (fails 3 2 ∷ []) }
    ensures init { ¬ Caused true (life_of init_failed) (untaken 0 0 ∷ []) }
{}

/// A replica's files are damaged, though its disk failed and no damage was found.
pub fn corrupt_by_a_fault()
    ensures { (damage : Damage) → ¬ Caused true (life_of (corrupt_at_once damage)) (fails 3 2 ∷ []) }
{}

/// A file is damaged, though its digest is the one that was kept for it.
pub fn corrupt_by_equal_digests()
    ensures { (file digest : List ℕ) → (faults : List Fault) → ¬ Caused true (life_of (damaged_boot (damaged.Digest file digest digest))) faults }
{}

/// A disk of a shard that isn't there fails.
pub fn disk_of_no_shard()
    ensures restart { (faults : List Fault) → ¬ Caused true (life_of no_shard_restarted) faults }
    ensures init { (faults : List Fault) → ¬ Caused true (life_of no_shard_made) faults }
{}

/// A fault is listed twice.
pub fn fault_listed_twice()
    ensures { (life : Life) → (fault : Fault) → ¬ Caused true life (fault ∷ fault ∷ []) }
{}

/// A stopped node bootstraps.
pub fn stopped_node_bootstrapped()
    ensures { (faults : List Fault) → ¬ Caused true (life_of bootstrapped_stopped) faults }
{}

/// A shard that isn't there bootstraps.
pub fn missing_shard_bootstrapped()
    ensures { (faults : List Fault) → ¬ Caused true (life_of bootstrapped_missing) faults }
{}

/// A node is restarted that isn't stopped.
pub fn running_node_restarted()
    ensures { (faults : List Fault) → ¬ Caused true (life_of restarted_running) faults }
{}
