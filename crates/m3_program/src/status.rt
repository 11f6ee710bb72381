ghost use Rattle.std.specs.Prelude.{◌≡◌};
ghost use Rattle.std.specs.Option.{option_copied};
ghost use Rattle.m3_program.specs.Codes.{code_of, message_of};
ghost use Rattle.m3_program.specs.Openings.{ended_by, ended_for};

use placement_log::OpenErr;
use saved_cluster::Lost;

/// How a run ends.
#[derive(Clone, Copy, Debug, PartialEq, Eq)]
pub enum Status {
    /// The input was read to its end, and all replies were written; or a script was served to its end, and its line was written.
    Done,
    /// The words ask for nothing.
    Usage,
    /// The source failed.
    ReadFault,
    /// The sink failed, or took nothing of a piece that isn't empty.
    WriteFault,
    /// A disk failed as the cluster was opened, or the meta disk while a line was served.
    DiskFault,
    /// The placement log of the meta disk was damaged as the cluster was opened.
    Corrupt,
    /// Want of memory for the words, the cluster as it was opened, a line, its reply, or the replicas of an `init`.
    Memory,
    /// 2^32 bytes were taken, and the input's end wasn't reached.
    TooLong,
}

impl Status {
    /// The status with which the process ends.
    pub fn code(self) -> u8
        ensures { result ≡ code_of self }
    {
        match self {
            Status::Done => 0,
            Status::Usage => 1,
            Status::ReadFault => 2,
            Status::WriteFault => 3,
            Status::DiskFault => 4,
            Status::Corrupt => 5,
            Status::Memory => 6,
            Status::TooLong => 8,
        }
    }

    /// How a run ends whose cluster isn't opened for this cause.
    pub(crate) fn of_opening(why: OpenErr) -> Status
        ensures { result ≡ ended_by why }
    {
        match why {
            OpenErr::Disk => Status::DiskFault,
            OpenErr::Memory => Status::Memory,
            OpenErr::Digest { .. } | OpenErr::Form { .. } => Status::Corrupt,
        }
    }

    /// How a run ends that can't go on for this cause.
    pub(crate) fn of_lost(why: Lost) -> Status
        ensures { result ≡ ended_for why }
    {
        match why {
            Lost::Meta => Status::DiskFault,
            Lost::Memory => Status::Memory,
        }
    }

    /// What is written on standard error, if anything.
    pub fn message(self) -> Option<&'static str>
        ensures { option_copied result ≡ message_of self }
    {
        match self {
            Status::Done => None,
            Status::Usage => Some("usage: m3 run [--disk FOLDER] or m3 generate N"),
            Status::ReadFault => Some("m3: read fault"),
            Status::WriteFault => Some("m3: write fault"),
            Status::DiskFault => Some("m3: disk fault"),
            Status::Corrupt => Some("m3: corrupt placement log"),
            Status::Memory => Some("m3: out of memory"),
            Status::TooLong => Some("m3: input too long"),
        }
    }
}
