// The writer: the text of a value, given by its handle, into an output area.
#![tactic(auto)]

ghost use Rattle.std.specs.Prelude.{◌≡◌, length};
ghost use Rattle.heap.specs.Unfold.{areas_of};
ghost use Rattle.writer.specs.Contract.{refusal_of, answered, handle_written};
ghost use Rattle.writer.specs.Inner.{fitted};

use crate::value::{Progress, write_value};
use area::clear_from;
use heap::areas::Areas;
use heap::handle::Handle;
use model::refusal::Refusal;
use model::{MAX_NESTING, MAX_VALUES};

mod part;
mod scalar;
mod value;

// Why a value is not written.
#[derive(Clone, Copy)]
pub enum WriteFault {
    TooLarge,
    OutputTooShort,
}

impl From<WriteFault> for Refusal {
    ghost from_gives = { λ f r. r ≡ refusal_of f };

    fn from(f: WriteFault) -> Refusal {
        match f {
            WriteFault::TooLarge => Refusal::AnswerTooLarge,
            WriteFault::OutputTooShort => Refusal::OutputTooShort,
        }
    }
}

// The length of the text, unless it is too large, or the output too short.
fn fitted(reached: Option<Progress>, room: usize) -> Result<usize, WriteFault>
    ensures { result ≡ fitted reached room }
{
    let end = reached.ok_or(WriteFault::TooLarge)?.at;
    if room < end {
        return Err(WriteFault::OutputTooShort);
    }
    Ok(end)
}

// Writes a value into the output, zeros behind its text; on a refusal zeros only. Its handle refers to the strings of the rule, the
// strings and the table of the record, and the cells of the heap, which may hold any bytes. It tells the length of the text.
pub fn write(areas: Areas, h: Handle, output: &mut [u8]) -> Result<usize, WriteFault>
    ensures { answered result output.new ≡ handle_written (areas_of areas.entry) h (length output.old) }
{
    let start = Progress {
        at: 0,
        left: MAX_VALUES,
    };
    let reached = write_value(areas, output, h, MAX_NESTING, start);
    let size = fitted(reached, output.len());
    clear_from(output, size.unwrap_or(0));
    size
}
