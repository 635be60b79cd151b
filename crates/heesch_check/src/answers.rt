//! What a check answers, and its line.
ghost use Rattle.std.specs.Prelude.{◌≡◌, ◌++◌, codes, decimal, length, take, OnOk, OnErr};
ghost use Rattle.heesch_check.specs.Answers.{checked_text};

use heesch_io::NoMemory;
use heesch_text::fields::{append_byte, append_bytes};
use itoa::Buffer;

/// What bytes are.
#[derive(Clone, Copy, Debug, PartialEq, Eq)]
pub enum Checked {
    /// A valid catalogue, of so many entries.
    Valid { count: u32 },
    /// The first line is no header of a catalogue that isn't brief.
    InvalidHeader,
    /// The entries before the one of this number are true and in their places, and it isn't.
    InvalidEntry { number: u64 },
    /// The entries are true and in their places, but what stands behind them is no end.
    InvalidEnd,
    /// More bytes than are read, which decide no invalid part. The first byte too many is on this line.
    TooLong { line: u64 },
}

/// Appends the line of an answer: `valid COUNT`, `invalid header`, `invalid entry I` or `invalid end`, and nothing for
/// an input that is too long, which has a fault's line.
///
/// Errors: at `NoMemory` the text is as it was before.
pub fn write_checked(checked: Checked, text: &mut Vec<u8>) -> Result<(), NoMemory>
    ensures ok { OnOk result (text.new.items ≡ text.old.items ++ checked_text checked) }
    ensures err { OnErr result (text.new.items ≡ text.old.items) }
{
    let before = text.len();
    let written = append_checked(checked, text);
    if written.is_err() {
        text.truncate(before);
    }
    written
}

fn append_checked(checked: Checked, text: &mut Vec<u8>) -> Result<(), NoMemory>
    ensures ok { OnOk result (text.new.items ≡ text.old.items ++ checked_text checked) }
    ensures kept { take (length text.old.items) text.new.items ≡ text.old.items }
{
    match checked {
        Checked::Valid { count } => append_numbered(b"valid ", u64::from(count), text),
        Checked::InvalidHeader => append_bytes(b"invalid header\n", text),
        Checked::InvalidEntry { number } => append_numbered(b"invalid entry ", number, text),
        Checked::InvalidEnd => append_bytes(b"invalid end\n", text),
        Checked::TooLong { line: _ } => Ok(()),
    }
}

/// Appends words, and a number behind them, as a line.
fn append_numbered(words: &[u8], number: u64, text: &mut Vec<u8>) -> Result<(), NoMemory>
    ensures ok { OnOk result (text.new.items ≡ text.old.items ++ (words.now ++ decimal number ++ codes "\n")) }
    ensures kept { take (length text.old.items) text.new.items ≡ text.old.items }
{
    append_bytes(words, text)?;
    append_bytes(Buffer::new().format(number).as_bytes(), text)?;
    append_byte(b'\n', text)
}
