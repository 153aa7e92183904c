// One text, read into its two areas.
ghost use Rattle.std.specs.Prelude.{◌≡◌};
ghost use Rattle.syntax.specs.Entry.{too_short};
ghost use Rattle.pipeline.specs.Areas.{text_areas};
ghost use Rattle.pipeline.specs.Contract.{stop, Reads, ReadsRule};
ghost use Rattle.pipeline.specs.Inner.{told_of};

use json_reader::{NotRead, read_rows};
use model::refusal::Refusal;
use shape::is_rule;
use syntax::{STRINGS_BYTES, TABLE_BYTES};

// The numbers of the texts, as they are told.
pub const RULE_TEXT: usize = 1;

pub const SHEET_TEXT: usize = 2;

pub const RECORD_TEXT: usize = 3;

// A refusal, and the text and place that are told with it.
#[derive(Clone, Copy)]
pub struct Stop {
    pub refusal: Refusal,
    pub which: usize,
    pub place: usize,
}

// A refusal that tells no text and no place.
impl From<Refusal> for Stop {
    ghost from_gives = { λ r s. s ≡ stop r 0 0 };

    fn from(refusal: Refusal) -> Stop {
        Stop {
            refusal,
            which: 0,
            place: 0,
        }
    }
}

// Whether a text's areas are below their stated sizes.
#[tactic(auto, unfolding(model::specs::Limits::max_values, model::specs::Limits::max_text_bytes, syntax::specs::Layout::row_bytes, syntax::specs::Layout::entry_bytes))]
pub fn is_short(table: &[u8], strings: &[u8]) -> bool
    ensures { result ≡ too_short table.now strings.now }
{
    table.len() < TABLE_BYTES || strings.len() < STRINGS_BYTES
}

// What reading comes to: with a refusal, this text.
fn told(which: usize, a: Result<usize, NotRead>) -> Result<(), Stop>
    ensures { result ≡ told_of which a }
{
    match a {
        Ok(_) => Ok(()),
        Err(NotRead::AreaTooShort) => Err(Stop {
            which,
            ..Stop::from(Refusal::InvalidArgument)
        }),
        Err(NotRead::Fault(f)) => Err(Stop {
            refusal: Refusal::from(f.reason),
            which,
            place: f.at,
        }),
    }
}

// A text.
pub fn read_text(
    which: usize,
    text: &[u8],
    table: &mut [u8],
    strings: &mut [u8],
) -> Result<(), Stop>
    ensures { Reads which text.now (text_areas table.old strings.old) result (text_areas table.new strings.new) }
{
    told(which, read_rows(text, table, strings))
}

// A rule's text; 6 where it is not one.
pub fn read_rule(text: &[u8], table: &mut [u8], strings: &mut [u8]) -> Result<(), Stop>
    ensures { ReadsRule text.now (text_areas table.old strings.old) result (text_areas table.new strings.new) }
{
    read_text(RULE_TEXT, text, table, strings)?;
    if !is_rule(table, strings) {
        return Err(Stop::from(Refusal::NotRule));
    }
    Ok(())
}
