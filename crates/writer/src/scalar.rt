// Scalars and instants.
ghost use Rattle.std.specs.Prelude.{◌≤◌};
ghost use Rattle.model.specs.Limits.{max_text_bytes};
ghost use Rattle.model.specs.Writing.{integer_text, value_text};
ghost use Rattle.syntax.specs.Layout.{unbiased};
ghost use Rattle.heap.specs.Unfold.{instant_at};
ghost use Rattle.print.specs.Contract.{Put};
ghost use Rattle.writer.specs.Inner.{Puts, handle_text};

use calendar::instant::Instant;
use heap::areas::Areas;
use heap::handle::Handle;
use heap::string::bytes;
use print::decimal::put_decimal;
use print::instant::put_instant;
use print::put::{put_byte, put_text};
use print::string::put_string;
use syntax::BIAS;

// The integer to which 2^53 was added.
#[tactic(auto, unfolding(model::specs::Limits::max_text_bytes))]
fn put_integer(output: &mut [u8], at: usize, biased: u64) -> usize
    requires { at ≤ max_text_bytes }
    ensures { Put (integer_text (unbiased biased)) at output.old result output.new }
{
    if biased >= BIAS {
        return put_decimal(output, at, biased - BIAS);
    }
    put_byte(output, at, b'-');
    put_decimal(output, at + 1, BIAS - biased)
}

// The instant so many milliseconds after 0000-01-01; null for a number past the latest.
fn put_since(output: &mut [u8], at: usize, since: u64) -> usize
    requires { at ≤ max_text_bytes }
    ensures { Put (value_text (instant_at since)) at output.old result output.new }
{
    let Ok(t) = Instant::from_year_0(since) else {
        return put_text(output, at, b"null");
    };
    put_instant(output, at, t)
}

// A value that is no array or object; nothing for one that is.
#[tactic(auto, unfolding(model::specs::Limits::max_text_bytes))]
pub fn put_scalar(areas: Areas, output: &mut [u8], h: Handle, at: usize) -> usize
    requires { at ≤ max_text_bytes }
    ensures { Puts (handle_text areas.entry.rule_strings.now areas.entry.record_strings.now h) at output.old result output.new }
{
    match h {
        Handle::Null => put_text(output, at, b"null"),
        Handle::False => put_text(output, at, b"false"),
        Handle::True => put_text(output, at, b"true"),
        Handle::Integer(n) => put_integer(output, at, n),
        Handle::Instant(n) => put_since(output, at, n),
        Handle::String(s) => put_string(
            output,
            at,
            bytes(areas.rule_strings, areas.record_strings, s),
        ),
        Handle::Compound(_) => at,
    }
}
