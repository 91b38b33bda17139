//! How a call of the program ends: its exit status, and what standard error says of it.

ghost use Rattle.std.specs.Prelude.{◌≡◌, ◌≢◌};
ghost use Rattle.std.specs.Option.{option_map};
ghost use Rattle.sequencer.specs.Complaint.{complaint_of};
ghost use Rattle.sequencer.specs.Number.{number_of};

use std::io::ErrorKind;

/// How a call of the program ended. Its number is the program's exit status.
#[derive(Clone, Copy, Debug, PartialEq, Eq)]
pub enum Status {
    /// 0: the answer was written.
    Done,
    /// 1: a plan was written, and it isn't known to be the best.
    Best,
    /// 2: the words ask for no job.
    Usage,
    /// 3: the input has no instance text, or is too long.
    Refused,
    /// 4: the plan or the proof that follows the instance is rejected.
    Rejected,
    /// 5: the input could not be read.
    ReadFault,
    /// 6: the output could not be written.
    WriteFault,
    /// 7: no memory was left.
    Memory,
}

impl Status {
    /// The exit status of the program.
    pub fn number(self) -> u8
        ensures { result ≡ number_of self }
    {
        match self {
            Status::Done => 0,
            Status::Best => 1,
            Status::Usage => 2,
            Status::Refused => 3,
            Status::Rejected => 4,
            Status::ReadFault => 5,
            Status::WriteFault => 6,
            Status::Memory => 7,
        }
    }

    /// The status of a call whose words can't be had, by the kind of error with which the system refused them: want of
    /// memory, or words that no job has, as those that aren't UTF-8.
    pub fn without_words(kind: ErrorKind) -> Status
        ensures memory { kind ≡ ErrorKind.OutOfMemory → result ≡ Status.Memory }
        ensures usage { kind ≢ ErrorKind.OutOfMemory → result ≡ Status.Usage }
    {
        match kind {
            ErrorKind::OutOfMemory => Status::Memory,
            _ => Status::Usage,
        }
    }

    /// What went wrong, where nothing on standard output says so: the line for standard error, without the program's name.
    pub fn complaint(self) -> Option<&'static str>
        ensures { option_map (λ line. line.now) result ≡ complaint_of self }
    {
        match self {
            Status::Usage => Some(
                "usage: strips COMMAND [--workers N] [--budget N] [--cut N] [--seed N] [--size N]; COMMAND is solve, check, score, make or trial",
            ),
            Status::ReadFault => Some("standard input could not be read"),
            Status::WriteFault => Some("standard output could not be written"),
            Status::Memory => Some("out of memory"),
            _ => None,
        }
    }
}
