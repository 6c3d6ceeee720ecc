ghost use Rattle.std.specs.Prelude.{◌≡◌};
ghost use Rattle.fx_program.specs.Stops.{exit_status};

use fx_base::{Failed, NoMemory, ReadStop};
use fx_book::WriteStop;

/// The exit status where the words or the text are refused.
pub const REFUSED: u8 = 3;

/// The exit status where a call on an object outside failed.
const FAILED: u8 = 4;

/// The exit status where memory ran out.
pub const NO_MEMORY: u8 = 5;

/// Why the program ends before its end.
#[derive(Debug, Clone, Copy)]
pub enum Stop {
    /// A call on the source, the listing or the shelf failed.
    Failed,
    /// Memory ran out.
    NoMemory,
}

impl From<Failed> for Stop {
    ghost use Rattle.std.specs.Prelude.{◌≡◌};
    ghost use Rattle.fx_program.specs.declared.stop.Stop.TheVariants as stop;

    ghost from_gives = { λ _ e. e ≡ stop.Failed };

    fn from(_e: Failed) -> Stop {
        Stop::Failed
    }
}

impl From<NoMemory> for Stop {
    ghost use Rattle.std.specs.Prelude.{◌≡◌};
    ghost use Rattle.fx_program.specs.declared.stop.Stop.TheVariants as stop;

    ghost from_gives = { λ _ e. e ≡ stop.NoMemory };

    fn from(_e: NoMemory) -> Stop {
        Stop::NoMemory
    }
}

impl From<ReadStop> for Stop {
    ghost use Rattle.std.specs.Prelude.{◌≡◌};
    ghost use Rattle.fx_program.specs.Stops.{reading_stop};

    ghost from_gives = { λ why e. e ≡ reading_stop why };

    fn from(why: ReadStop) -> Stop {
        match why {
            ReadStop::ReadFault => Stop::Failed,
            ReadStop::NoMemory => Stop::NoMemory,
        }
    }
}

impl From<WriteStop> for Stop {
    ghost use Rattle.std.specs.Prelude.{◌≡◌};
    ghost use Rattle.fx_program.specs.Stops.{writing_stop};

    ghost from_gives = { λ why e. e ≡ writing_stop why };

    fn from(why: WriteStop) -> Stop {
        match why {
            WriteStop::WriteFault => Stop::Failed,
            WriteStop::NoMemory => Stop::NoMemory,
        }
    }
}

/// The exit status of a program that ended with this status of its steps or of a refusal, or was
/// stopped.
pub fn exit_status(ended: Result<u8, Stop>) -> u8
    ensures { result ≡ exit_status ended }
{
    match ended {
        Ok(status) => status,
        Err(Stop::Failed) => FAILED,
        Err(Stop::NoMemory) => NO_MEMORY,
    }
}
