// The name of a member.
ghost use Rattle.json_reader.specs.Inner.{NameRoom, NameRead};

use crate::row::Label;
use chars::chars;
use model::refusal::ReadFault;
use name_index::enter;
use scan::Fault;
use scan::token::{skip_white, stands};

// A member's name, with the offset of its content.
#[derive(Clone, Copy)]
pub struct Named {
    pub at: usize,
    pub name: Label,
}

// A member's name, its colon and the white space after it. `first` is the row of the object's first member.
pub fn member_name(
    text: &[u8],
    at: usize,
    table: &mut [u8],
    first: usize,
    row: usize,
    strings: &mut [u8],
    used: usize,
) -> Result<Named, Fault>
    requires { NameRoom text.now table.old strings.old at first row used }
    ensures { NameRead text.now at first row used table.old strings.old result table.new strings.new }
{
    if !stands(text, at, b'"') {
        return Err(Fault {
            reason: ReadFault::NotJson,
            at,
        });
    }
    let end = chars(text, at + 1, strings, used)?;
    let name = Label {
        start: used,
        size: end.used - used,
    };
    if enter(table, strings, first, row, used, name.size) {
        return Err(Fault {
            reason: ReadFault::RepeatedName,
            at: end.at,
        });
    }
    let colon = skip_white(text, end.at + 1);
    if !stands(text, colon, b':') {
        return Err(Fault {
            reason: ReadFault::NotJson,
            at: colon,
        });
    }
    Ok(Named {
        at: skip_white(text, colon + 1),
        name,
    })
}
