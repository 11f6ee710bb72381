//! Why a run ends as it does.
ghost use Rattle.std.specs.Prelude.{ℕ};
ghost use Rattle.m3_program.specs.Causes.{EndsIdly, EndsReading, EndsScript};
ghost use Rattle.m3_program.specs.declared.status.Status.TheVariants as status;

/// A fault is answered, and the counts stand that have to show it: of the source, of the sink in both, of the meta disk.
pub fn fault_uncounted()
    ensures source { (faults faults2 stalls stalls2 disk disk2 : ℕ) → ¬ EndsReading status.ReadFault 3 3 faults faults2 stalls stalls2 disk disk2 }
    ensures sink { (reads reads2 disk disk2 : ℕ) → ¬ EndsReading status.WriteFault reads reads2 3 3 4 4 disk disk2 }
    ensures disk { (reads reads2 faults faults2 stalls stalls2 : ℕ) → ¬ EndsReading status.DiskFault reads reads2 faults faults2 stalls stalls2 5 5 }
    ensures script_sink { (disk disk2 : ℕ) → ¬ EndsScript status.WriteFault 3 3 4 4 disk disk2 }
    ensures script_disk { (faults faults2 stalls stalls2 : ℕ) → ¬ EndsScript status.DiskFault faults faults2 stalls stalls2 5 5 }
{}

/// A run of lines ends for its words, a script's for what it read, or one that is asked for nothing as if it were done.
pub fn status_of_another_task()
    ensures lines { (reads reads2 faults faults2 stalls stalls2 disk disk2 : ℕ) → ¬ EndsReading status.Usage reads reads2 faults faults2 stalls stalls2 disk disk2 }
    ensures script { (faults faults2 stalls stalls2 disk disk2 : ℕ) → ¬ EndsScript status.ReadFault faults faults2 stalls stalls2 disk disk2 }
    ensures idle { ¬ EndsIdly status.Done }
{}
