//! How a run ended.
ghost use Rattle.std.specs.Prelude.{◌≡◌};
ghost use Rattle.rd_walk.specs.Output.{ended_status};

use crate::analysis::Halt;
use crate::writing::status_of;

/// How a run ended. The numbers are those that the program ends with.
#[derive(Clone, Copy, PartialEq, Eq)]
pub enum Status {
    /// 0: the trace was read to its end, and no call is reported, or under `replay` none differs; or a specification was written
    Clean,
    /// 1: the trace was read to its end, and some call is reported
    Raced,
    /// 2: the words match no command
    Usage,
    /// 3: the specification was refused, for a cause other than a limit
    SpecRefused,
    /// 4: the trace was refused at a line, for a cause other than a limit
    TraceRefused,
    /// 5: the trace was read to its end, no call is reported, and the recorded results are not those of the objects
    ReplayDiffers,
    /// 6: opening or reading a file failed
    InputFault,
    /// 7: writing failed
    OutputFault,
    /// 8: memory ran out
    NoMemory,
    /// 9: a limit was reached
    LimitReached,
    /// 10: the trace was read to its end, and a line that `adjacent` was given isn't the line of a call
    NotACall,
    /// 11: a log that was to be woven is refused, or the logs are stuck
    LogRefused,
}

impl Status {
    ghost use Rattle.std.specs.Prelude.{◌≡◌};
    ghost use Rattle.rd_walk.specs.Output.{code_of};

    /// The number of the status, from 0 to 11. It takes no memory.
    pub fn code(&self) -> u8
        ensures { result ≡ code_of self.now }
    {
        *self as u8
    }
}

/// How a command ended of which all was written: a status but for a failed write and want of memory, which are a `Halt`.
#[derive(Clone, Copy, PartialEq, Eq)]
pub enum Ended {
    /// the trace was read to its end, and no call is reported, or under `replay` none differs; or a text was written
    Clean,
    /// the trace was read to its end, and some call is reported
    Raced,
    /// the words match no command
    Usage,
    /// the specification was refused, for a cause other than a limit
    SpecRefused,
    /// the trace was refused at a line, for a cause other than a limit
    TraceRefused,
    /// the trace was read to its end, no call is reported, and the recorded results are not those of the objects
    ReplayDiffers,
    /// opening or reading a file failed
    InputFault,
    /// a limit was reached
    LimitReached,
    /// the trace was read to its end, and a line that `adjacent` was given isn't the line of a call
    NotACall,
    /// a log that was to be woven is refused, or the logs are stuck
    LogRefused,
}

/// The status of a command that ended so, or was cut short.
pub fn ended_status(ended: Result<Ended, Halt>) -> Status
    ensures { result ≡ ended_status ended }
{
    match ended {
        Ok(Ended::Clean) => Status::Clean,
        Ok(Ended::Raced) => Status::Raced,
        Ok(Ended::Usage) => Status::Usage,
        Ok(Ended::SpecRefused) => Status::SpecRefused,
        Ok(Ended::TraceRefused) => Status::TraceRefused,
        Ok(Ended::ReplayDiffers) => Status::ReplayDiffers,
        Ok(Ended::InputFault) => Status::InputFault,
        Ok(Ended::LimitReached) => Status::LimitReached,
        Ok(Ended::NotACall) => Status::NotACall,
        Ok(Ended::LogRefused) => Status::LogRefused,
        Err(halt) => status_of(halt),
    }
}
