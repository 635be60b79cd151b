//! The text of an answer, which follows that of its entry.
ghost use Rattle.std.specs.Prelude.{◌≡◌, ◌++◌, length, take, OnOk, OnErr};
ghost use Rattle.std.specs.List.{AllByRecursion};
ghost use Rattle.heesch_cert.specs.TrueEntry.{first_number};
ghost use Rattle.heesch_outer.specs.Record.{answer_lines, answer_text, number_line};
ghost use Rattle.heesch_text.specs.Naturals.{HasNaturals};

use crate::OuterAnswer;
use heesch_cert::Entry;
use heesch_io::NoMemory;
use heesch_text::fields::append_bytes;
use heesch_text::{append_layers, append_proof};
use itoa::Buffer;

/// The label, a number and a newline stand last.
fn append_number_line(label: &[u8], number: u64, out: &mut Vec<u8>) -> Result<(), NoMemory>
    ensures ok { OnOk result (out.new.items ≡ out.old.items ++ number_line label.now number) }
    ensures kept { take (length out.old.items) out.new.items ≡ out.old.items }
{
    append_bytes(label, out)?;
    append_bytes(Buffer::new().format(number).as_bytes(), out)?;
    append_bytes(b"\n", out)
}

fn append_answer(h: u32, answer: &OuterAnswer, out: &mut Vec<u8>) -> Result<(), NoMemory>
    ensures ok { OnOk result (out.new.items ≡ out.old.items ++ answer_text h answer.now) }
    ensures kept { take (length out.old.items) out.new.items ≡ out.old.items }
    ensures naturals { OnOk result (AllByRecursion HasNaturals (answer_lines answer.now)) }
{
    let h = u64::from(h);
    match answer {
        OuterAnswer::Tiles => append_bytes(b"hh tiles\n", out),
        OuterAnswer::Unknown => append_bytes(b"hh undecided\n", out),
        OuterAnswer::More { layers } => {
            append_number_line(b"hc ", h, out)?;
            append_number_line(b"hh ", h + 1, out)?;
            append_layers(layers.layers.as_slice(), out)
        }
        OuterAnswer::Same { proof } => {
            append_number_line(b"hc ", h, out)?;
            append_number_line(b"hh ", h, out)?;
            append_proof(proof, out)
        }
        OuterAnswer::Spent { proof } => {
            append_number_line(b"hc ", h, out)?;
            append_bytes(b"hh spent\n", out)?;
            append_proof(proof, out)
        }
    }
}

/// Appends what is known of the outer number of the entry's shape: `hh tiles`; `hh undecided`; `hc H` and `hh K` with
/// K = H + 1 and a line for each layer; `hc H`, `hh H` and the lines of the refutation; or `hc H`, `hh spent` and the
/// lines of the proof. The natural numbers of the lines of layers and of proofs that it wrote fit 32 bits.
///
/// Errors: at `NoMemory` the text is as it was before. Its cost is the length of what it appends.
pub fn write_answer(entry: &Entry, answer: &OuterAnswer, out: &mut Vec<u8>) -> Result<(), NoMemory>
    ensures ok { OnOk result
        (out.new.items ≡ out.old.items ++ answer_text (first_number entry.now.verdict) answer.now) }
    ensures err { OnErr result (out.new.items ≡ out.old.items) }
    ensures naturals { OnOk result (AllByRecursion HasNaturals (answer_lines answer.now)) }
{
    let before = out.len();
    let written = append_answer(entry.verdict.first_number(), answer, out);
    if written.is_err() {
        out.truncate(before);
    }
    written
}
