//! The statuses in which a run ends, with their numbers.
ghost use Rattle.std.specs.Prelude.{◌≡◌};
ghost use Rattle.heesch_app.specs.Endings.{written_status};
ghost use Rattle.heesch_app.specs.Statuses.{status_number};

use heesch_io::IoStop;

/// How a run ended. The program ends with this number.
#[derive(Clone, Copy, Debug, PartialEq, Eq)]
pub enum Status {
    /// The whole output was written.
    Done = 0,
    /// The input is no valid catalogue.
    Invalid = 1,
    /// The words have none of the forms.
    Usage = 2,
    /// The input has a fault.
    BadInput = 3,
    /// The source failed.
    ReadFault = 4,
    /// The sink failed.
    WriteFault = 5,
    /// Memory was refused.
    NoMemory = 6,
}

impl Status {
    /// The number with which the program ends.
    pub fn number(self) -> u8
        ensures { result ≡ status_number self }
    {
        self as u8
    }

    /// How a run ended that wrote a catalogue, or stopped.
    pub(crate) fn of_writing(written: Result<(), IoStop>) -> Status
        ensures { result ≡ written_status written }
    {
        match written {
            Ok(()) => Status::Done,
            Err(IoStop::Failed) => Status::WriteFault,
            Err(IoStop::NoMemory) => Status::NoMemory,
        }
    }
}
