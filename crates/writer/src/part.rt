// What stands before the first part of an array or object, and around all parts.
ghost use Rattle.std.specs.Prelude.{◌≡◌, ◌+◌, ◌≤◌};
ghost use Rattle.model.specs.Limits.{max_text_bytes};
ghost use Rattle.writer.specs.Inner.{Puts, opening_of, label_text, front_text};

use heap::areas::Areas;
use heap::handle::{Form, Parts};
use heap::part::{Label, name_of};
use print::put::{put_byte, put_text};
use print::string::put_string;
use table::string::bytes_of;

// The opening bracket or brace.
pub fn opening(form: Form) -> u8
    ensures { result ≡ opening_of form }
{
    match form {
        Form::Items | Form::List => b'[',
        Form::Members | Form::Context => b'{',
    }
}

// A name and its colon; nothing where there is no name.
#[tactic(auto, unfolding(model::specs::Limits::max_text_bytes))]
fn put_label(record_strings: &[u8], output: &mut [u8], name: Label, at: usize) -> usize
    requires { at ≤ max_text_bytes + 2 }
    ensures { Puts (label_text record_strings.now name) at output.old result output.new }
{
    match name {
        Label::Nothing => at,
        Label::Name(s) => {
            let end = put_string(output, at, bytes_of(record_strings, s));
            put_byte(output, end, b':');
            end + 1
        }
        Label::Current => put_text(output, at, b"\"current\":"),
        Label::Accumulator => put_text(output, at, b"\"accumulator\":"),
    }
}

// A comma, if one is wanted, and the name of the first part with its colon.
#[tactic(auto, unfolding(model::specs::Limits::max_text_bytes))]
pub fn put_front(areas: Areas, output: &mut [u8], p: Parts, comma: bool, at: usize) -> usize
    requires { at ≤ max_text_bytes + 1 }
    ensures { Puts (front_text areas.entry.record_strings.now areas.entry.record_table.now p comma) at output.old result output.new }
{
    let name = name_of(areas.record_table, p);
    if comma {
        put_byte(output, at, b',');
        return put_label(areas.record_strings, output, name, at + 1);
    }
    put_label(areas.record_strings, output, name, at)
}
