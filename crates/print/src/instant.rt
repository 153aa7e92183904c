// An instant's text, copied from its fixed record of 24 bytes, as a string.
ghost use Rattle.model.specs.InstantText.{instant_text};
ghost use Rattle.model.specs.Writing.{string_text};
ghost use Rattle.print.specs.Contract.{Near, Put};

use crate::put::{put_byte, put_bytes};
use calendar::instant::Instant;
use instants::text::InstantText;

#[tactic(auto, unfolding(model::specs::Limits::max_text_bytes))]
pub fn put_instant(output: &mut [u8], at: usize, t: Instant) -> usize
    requires { Near at }
    ensures { Put (string_text (instant_text t.ms)) at output.old result output.new }
{
    let text = InstantText::from(t);
    put_byte(output, at, b'"');
    put_bytes(output, at + 1, &text.bytes);
    put_byte(output, at + 25, b'"');
    at + 26
}
