// The entries for C (include/jehvrukam.h): the static library. Each is that of the crate jehvrukam, and states its contract again.
#![tactic(auto)]

ghost use Rattle.std.specs.Prelude.{◌≡◌};
ghost use Rattle.syntax.specs.Entry.{read_entry};
ghost use Rattle.jehvrukam.specs.Check.{check_entry};
ghost use Rattle.jehvrukam.specs.Contract.{answered, entry, areas_of, numbers_of, check_areas_of, check_numbers_of, fits_areas_of, fits_numbers_of, checked_areas_of, checked_numbers_of, told, seen, span};
ghost use Rattle.jehvrukam.specs.Evaluate.{evaluate_entry};
ghost use Rattle.jehvrukam.specs.EvaluateChecked.{evaluate_checked_entry};
ghost use Rattle.jehvrukam.specs.Fits.{fits_entry};
ghost use Rattle.jehvrukam.specs.View.{view_entry, view_part_entry, view_integer_entry, view_string_entry, view_name_entry};

// Reads a text into a table of rows and a strings area.
#[unsafe(no_mangle)]
pub extern "C" fn jehvrukam_read(
    text: &[u8],
    table: &mut [u8],
    strings: &mut [u8],
    place: &mut u64,
) -> u32
    ensures { answered result place.new table.new strings.new ≡ read_entry text.now table.old strings.old place.old }
{
    jehvrukam::jehvrukam_read(text, table, strings, place)
}

// Checks a rule's text under a sheet's, and tells the types that the rule may give, a bit for each.
#[unsafe(no_mangle)]
pub extern "C" fn jehvrukam_check(
    rule_text: &[u8],
    sheet_text: &[u8],
    rule_table: &mut [u8],
    rule_strings: &mut [u8],
    sheet_table: &mut [u8],
    sheet_strings: &mut [u8],
    which: &mut u64,
    place: &mut u64,
    words: &mut u64,
) -> u32
    ensures { entry result (check_numbers_of which.new place.new words.new) (check_areas_of rule_table.new rule_strings.new sheet_table.new sheet_strings.new) ≡ check_entry rule_text.now sheet_text.now (check_areas_of rule_table.old rule_strings.old sheet_table.old sheet_strings.old) (check_numbers_of which.old place.old words.old) }
{
    jehvrukam::jehvrukam_check(
        rule_text,
        sheet_text,
        rule_table,
        rule_strings,
        sheet_table,
        sheet_strings,
        which,
        place,
        words,
    )
}

// Tells whether a record's text fits a sheet's.
#[unsafe(no_mangle)]
pub extern "C" fn jehvrukam_fits(
    sheet_text: &[u8],
    record_text: &[u8],
    sheet_table: &mut [u8],
    sheet_strings: &mut [u8],
    record_table: &mut [u8],
    record_strings: &mut [u8],
    which: &mut u64,
    place: &mut u64,
    fits: &mut u64,
) -> u32
    ensures { entry result (fits_numbers_of which.new place.new fits.new) (fits_areas_of sheet_table.new sheet_strings.new record_table.new record_strings.new) ≡ fits_entry sheet_text.now record_text.now (fits_areas_of sheet_table.old sheet_strings.old record_table.old record_strings.old) (fits_numbers_of which.old place.old fits.old) }
{
    jehvrukam::jehvrukam_fits(
        sheet_text,
        record_text,
        sheet_table,
        sheet_strings,
        record_table,
        record_strings,
        which,
        place,
        fits,
    )
}

// Evaluates a rule's text on a record's text under a step limit, and writes the answer's text into the output.
#[unsafe(no_mangle)]
pub extern "C" fn jehvrukam_evaluate(
    rule_text: &[u8],
    record_text: &[u8],
    limit: u64,
    rule_table: &mut [u8],
    rule_strings: &mut [u8],
    record_table: &mut [u8],
    record_strings: &mut [u8],
    cells: &mut [u8],
    output: &mut [u8],
    which: &mut u64,
    place: &mut u64,
    steps: &mut u64,
    length: &mut u64,
) -> u32
    ensures { entry result (numbers_of which.new place.new steps.new length.new) (areas_of rule_table.new rule_strings.new record_table.new record_strings.new cells.new output.new) ≡ evaluate_entry rule_text.now record_text.now limit (areas_of rule_table.old rule_strings.old record_table.old record_strings.old cells.old output.old) (numbers_of which.old place.old steps.old length.old) }
{
    jehvrukam::jehvrukam_evaluate(
        rule_text,
        record_text,
        limit,
        rule_table,
        rule_strings,
        record_table,
        record_strings,
        cells,
        output,
        which,
        place,
        steps,
        length,
    )
}

// The same under a sheet's text: the rule has to pass the kind check first. It also tells the types found, and whether the record fits.
#[unsafe(no_mangle)]
pub extern "C" fn jehvrukam_evaluate_checked(
    rule_text: &[u8],
    sheet_text: &[u8],
    record_text: &[u8],
    limit: u64,
    rule_table: &mut [u8],
    rule_strings: &mut [u8],
    sheet_table: &mut [u8],
    sheet_strings: &mut [u8],
    record_table: &mut [u8],
    record_strings: &mut [u8],
    cells: &mut [u8],
    output: &mut [u8],
    which: &mut u64,
    place: &mut u64,
    words: &mut u64,
    fits: &mut u64,
    steps: &mut u64,
    length: &mut u64,
) -> u32
    ensures { entry result (checked_numbers_of which.new place.new words.new fits.new steps.new length.new) (checked_areas_of rule_table.new rule_strings.new sheet_table.new sheet_strings.new record_table.new record_strings.new cells.new output.new) ≡ evaluate_checked_entry rule_text.now sheet_text.now record_text.now limit (checked_areas_of rule_table.old rule_strings.old sheet_table.old sheet_strings.old record_table.old record_strings.old cells.old output.old) (checked_numbers_of which.old place.old words.old fits.old steps.old length.old) }
{
    jehvrukam::jehvrukam_evaluate_checked(
        rule_text,
        sheet_text,
        record_text,
        limit,
        rule_table,
        rule_strings,
        sheet_table,
        sheet_strings,
        record_table,
        record_strings,
        cells,
        output,
        which,
        place,
        words,
        fits,
        steps,
        length,
    )
}

// The kind of the value at a place, and how many items or members it has.
#[unsafe(no_mangle)]
pub extern "C" fn jehvrukam_view(table: &[u8], place: u64, kind: &mut u64, count: &mut u64) -> u32
    ensures { told result (seen kind.new count.new) ≡ view_entry table.now place (seen kind.old count.old) }
{
    jehvrukam::jehvrukam_view(table, place, kind, count)
}

// The place of its nth item or member's content, from 0.
#[unsafe(no_mangle)]
pub extern "C" fn jehvrukam_view_part(table: &[u8], place: u64, nth: u64, part: &mut u64) -> u32
    ensures { told result part.new ≡ view_part_entry table.now place nth part.old }
{
    jehvrukam::jehvrukam_view_part(table, place, nth, part)
}

// The integer at a place.
#[unsafe(no_mangle)]
pub extern "C" fn jehvrukam_view_integer(table: &[u8], place: u64, value: &mut i64) -> u32
    ensures { told result value.new ≡ view_integer_entry table.now place value.old }
{
    jehvrukam::jehvrukam_view_integer(table, place, value)
}

// Where the string at a place lies in the strings area.
#[unsafe(no_mangle)]
pub extern "C" fn jehvrukam_view_string(
    table: &[u8],
    place: u64,
    start: &mut u64,
    length: &mut u64,
) -> u32
    ensures { told result (span start.new length.new) ≡ view_string_entry table.now place (span start.old length.old) }
{
    jehvrukam::jehvrukam_view_string(table, place, start, length)
}

// Where the name of the member whose content is at a place lies in the strings area; in a read table 0 and 0 of no member.
#[unsafe(no_mangle)]
pub extern "C" fn jehvrukam_view_name(
    table: &[u8],
    place: u64,
    start: &mut u64,
    length: &mut u64,
) -> u32
    ensures { told result (span start.new length.new) ≡ view_name_entry table.now place (span start.old length.old) }
{
    jehvrukam::jehvrukam_view_name(table, place, start, length)
}
