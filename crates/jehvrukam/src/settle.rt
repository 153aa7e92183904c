// Areas at the end of a call.
ghost use Rattle.jehvrukam.specs.Inner.{SettledText, SettledWork};

use area::clear_from;
use json_reader::clear_index;

// On a refusal a text's areas are cleared; after success, if it is done, the work room behind the table's rows is.
pub fn settle_text(done: bool, table: &mut [u8], strings: &mut [u8])
    ensures { SettledText done table.old strings.old table.new strings.new }
{
    if done {
        clear_index(table);
        return;
    }
    clear_from(table, 0);
    clear_from(strings, 0);
}

// On a refusal the cells and the output are cleared; after success they stay as they are.
pub fn settle_work(done: bool, cells: &mut [u8], output: &mut [u8])
    ensures { SettledWork done cells.old output.old cells.new output.new }
{
    if done {
        return;
    }
    clear_from(cells, 0);
    clear_from(output, 0);
}
