//! The program's exit statuses.

ghost use Rattle.std.specs.Prelude.{◌≡◌};
ghost use Rattle.gas_run.specs.Statuses.{status_number};

/// How the program has ended. The script `gaslab` has one more, 6: there was no program to run.
#[derive(Clone, Copy, Debug, PartialEq, Eq)]
pub enum Status {
    /// What was asked for was done.
    Done,
    /// Reading, writing or listening failed, or a session reached its limit of reads.
    Failed,
    /// The command line was refused, or asked for help.
    NoPlan,
    /// The snapshot to load could not be read, or is not a snapshot.
    NotLoaded,
    /// Memory ran out for the plan, for the start or for a reply.
    NoMemory,
    /// A line was too long, or not UTF-8.
    BadLine,
}

impl Status {
    /// The exit status as a number.
    pub fn number(self) -> u8
        ensures { result ≡ status_number self }
    {
        match self {
            Status::Done => 0,
            Status::Failed => 1,
            Status::NoPlan => 2,
            Status::NotLoaded => 3,
            Status::NoMemory => 4,
            Status::BadLine => 5,
        }
    }
}
