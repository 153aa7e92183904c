// The writer for callers in C: what the host's tests and benchmarks link. Not a part of the product's library.
#![tactic(auto)]

ghost use Rattle.std.specs.Prelude.{◌≡◌, length};
ghost use Rattle.heap.specs.Cells.{cell_handle};
ghost use Rattle.heap.specs.Unfold.{areas};
ghost use Rattle.writer.specs.Contract.{handle_written};
ghost use Rattle.test_writer.specs.Contract.{told};

use heap::areas::Areas;
use heap::cell::get;
use model::refusal::Refusal;
use writer::write;

// Writes the value whose handle stands in a cell: 0 and the length of its text, or 11 or 12 and 0.
#[unsafe(no_mangle)]
pub extern "C" fn writer_write<'a>(
    rule_strings: &'a [u8],
    record_strings: &'a [u8],
    record_table: &[u8],
    cells: &[u8],
    cell: u64,
    output: &mut [u8],
    size: &mut u64,
) -> u32
    ensures { told result size.new output.new ≡ handle_written (areas rule_strings.now record_strings.now record_table.now cells.now) (cell_handle cells.now cell) (length output.old) }
{
    let h = get(cells, cell as usize);
    let areas = Areas {
        rule_strings,
        record_strings,
        record_table,
        cells,
    };
    let answer = write(areas, h, output);
    *size = answer.unwrap_or(0) as u64;
    match answer {
        Ok(_) => 0,
        Err(fault) => u32::from(Refusal::from(fault)),
    }
}
