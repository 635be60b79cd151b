//! What is written, and the status that comes with it.
ghost use Rattle.std.specs.Prelude.{◌≡◌, IfOk, IfErr, IsOk, Ok};
ghost use Rattle.heesch_app.specs.Endings.{IsPut, read_status};

use crate::Status;
use heesch_io::{Failed, IoStop, NoMemory, Sink, put};

/// What is written, and the status that comes with it where all of it is.
#[derive(Drop)]
pub struct Reply {
    pub status: Status,
    pub text: Vec<u8>,
}

impl Reply {
    /// The text with the status Done, or want of memory.
    pub fn done(text: Result<Vec<u8>, NoMemory>) -> Result<Reply, IoStop>
        ensures ok { IfOk result (λ r. (text ≡ Ok r.text) × (r.status ≡ Status.Done)) }
        ensures err { IfErr result (λ e. e ≡ IoStop.NoMemory) }
        ensures given { IfOk text (λ written. IsOk result) }
    {
        match text {
            Ok(text) => Ok(Reply {
                status: Status::Done,
                text,
            }),
            Err(NoMemory) => Err(IoStop::NoMemory),
        }
    }
}

/// Puts the reply's text, and answers how the run ended: with the reply's status, or why it stopped. Where there is no
/// reply nothing is put.
pub fn put_reply<W: Sink>(reply: Result<Reply, IoStop>, sink: &mut W) -> Status
    ensures ok { IfOk reply (λ r. IsPut r.text.items r.status result
        (W.held sink.old) (W.held sink.new) (W.faults sink.old) (W.faults sink.new)) }
    ensures err { IfErr reply (λ stop. (result ≡ read_status stop) × (sink.new ≡ sink.old)) }
{
    let Reply { status, text } = match reply {
        Ok(reply) => reply,
        Err(IoStop::Failed) => return Status::ReadFault,
        Err(IoStop::NoMemory) => return Status::NoMemory,
    };
    match put(sink, &text) {
        Ok(()) => status,
        Err(Failed) => Status::WriteFault,
    }
}
