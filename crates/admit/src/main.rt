// The program of document 01: evaluates rule.json on record.json, both of the folder that it is run in, and prints the
// answer or the refusal, and the steps. No contract can say what is read or printed: the system does both. What lies
// between is promised: `report` makes, of the bytes of the files, the bytes that are printed (`printed_for`).
#![tactic(auto)]

ghost use Rattle.std.specs.Prelude.{◌≡◌, ◌+◌, ◌≤◌, length};
ghost use Rattle.model.specs.Writing.{decimal};
ghost use Rattle.print.specs.Contract.{Put};
ghost use Rattle.admit.specs.Limits.{step_limit, output_bytes};
ghost use Rattle.admit.specs.Printed.{answer_to, line, printed_for};
ghost use Rattle.admit.specs.Inner.{Answers, result_by, Near, Begins};

use files::read_file;
use heap::cell::CELL_BYTES;
use jehvrukam::jehvrukam_evaluate;
use model::{HEAP_CELLS, MAX_TEXT_BYTES};
use print::decimal::put_decimal;
use print::put::{put_byte, put_bytes};
use std::io;
use std::rt::Files;
use syntax::{STRINGS_BYTES, TABLE_BYTES};

// The program's own limits, as specs/Limits.antt has them: they stay where the model's are raised.
const STEP_LIMIT: u64 = 1000;

const OUTPUT_BYTES: usize = 16384;

// A byte more than the largest text, so that a longer file is refused as one.
const FILE_BYTES: usize = MAX_TEXT_BYTES + 1;

const CELLS_BYTES: usize = HEAP_CELLS * CELL_BYTES;

// Room for the largest answer and, in 64 bytes, for what else the two lines have.
const REPORT_BYTES: usize = OUTPUT_BYTES + 64;

// As the entry for C tells it: a refusal's number, or 0; the steps; the length of the answer's text.
#[derive(Drop)]
struct Outcome {
    refusal: u32,
    steps: u64,
    size: usize,
}

// ---- evaluation

// Under the program's step limit, in areas of the stated sizes.
fn evaluate_in(
    rule: &[u8],
    record: &[u8],
    rule_table: &mut [u8; TABLE_BYTES],
    rule_strings: &mut [u8; STRINGS_BYTES],
    record_table: &mut [u8; TABLE_BYTES],
    record_strings: &mut [u8; STRINGS_BYTES],
    cells: &mut [u8; CELLS_BYTES],
    output: &mut [u8],
) -> Outcome
    requires { length output.old ≡ output_bytes }
    ensures { Answers (answer_to rule.now «record».now step_limit output_bytes) result output.new }
{
    let mut which: u64 = 0;
    let mut place: u64 = 0;
    let mut steps: u64 = 0;
    let mut size: u64 = 0;
    let refusal = jehvrukam_evaluate(
        rule,
        record,
        STEP_LIMIT,
        rule_table,
        rule_strings,
        record_table,
        record_strings,
        cells,
        output,
        &mut which,
        &mut place,
        &mut steps,
        &mut size,
    );
    Outcome {
        refusal,
        steps,
        size: size as usize,
    }
}

// The same in areas of its own: the proof of the function above does not know their bytes, and so computes with none.
fn evaluate(rule: &[u8], record: &[u8], output: &mut [u8]) -> Outcome
    requires { length output.old ≡ output_bytes }
    ensures { Answers (answer_to rule.now «record».now step_limit output_bytes) result output.new }
{
    let mut rule_table = [0u8; TABLE_BYTES];
    let mut rule_strings = [0u8; STRINGS_BYTES];
    let mut record_table = [0u8; TABLE_BYTES];
    let mut record_strings = [0u8; STRINGS_BYTES];
    let mut cells = [0u8; CELLS_BYTES];
    evaluate_in(
        rule,
        record,
        &mut rule_table,
        &mut rule_strings,
        &mut record_table,
        &mut record_strings,
        &mut cells,
        output,
    )
}

// ---- what is printed

// A word, a text and a line end.
fn put_line(out: &mut [u8], at: usize, word: &[u8], text: &[u8]) -> usize
    requires { Near at word.now text.now }
    ensures { Put (line word.now text.now) at out.old result out.new }
{
    let start = at + word.len();
    let end = start + text.len();
    put_bytes(out, at, word);
    put_bytes(out, start, text);
    put_byte(out, end, b'\n');
    end + 1
}

// A word, a number in decimal and a line end.
fn put_number_line(out: &mut [u8], at: usize, word: &[u8], n: u64) -> usize
    requires { (at ≤ output_bytes + 64) × (length word.now ≤ 8) }
    ensures { Put (line word.now (decimal n)) at out.old result out.new }
{
    let mut digits = [0u8; 20];
    let size = put_decimal(&mut digits, 0, n);
    put_line(out, at, word, &digits[..size])
}

// The first line: the answer, or the refusal.
fn put_result(out: &mut [u8], refusal: u32, text: &[u8]) -> usize
    requires { length text.now ≤ output_bytes }
    ensures { Put (result_by refusal text.now) 0 out.old result out.new }
{
    if refusal == 0 {
        return put_line(out, 0, b"answer ", text);
    }
    put_number_line(out, 0, b"refused ", u64::from(refusal))
}

// What is printed, at the start of `out`; its length.
fn report(rule: &[u8], record: &[u8], out: &mut [u8]) -> usize
    requires { length out.old ≡ output_bytes + 64 }
    ensures { Begins (printed_for rule.now «record».now) result out.new }
{
    let mut output = [0u8; OUTPUT_BYTES];
    let o = evaluate(rule, record, &mut output);
    let end = put_result(out, o.refusal, &output[..o.size]);
    put_number_line(out, end, b"steps ", o.steps)
}

// ---- files

// Reads into two buffers, and prints what a third takes.
fn run(
    rt: &(impl Files + Print),
    rule: &mut [u8],
    record: &mut [u8],
    out: &mut [u8],
) -> io::Result<()>
    requires { length out.old ≡ output_bytes + 64 }
{
    let rule_size = read_file(rt, "rule.json", rule);
    let record_size = read_file(rt, "record.json", record);
    let size = report(&rule[..rule_size], &record[..record_size], out);
    rt.write_all(&out[..size])
}

fn main(rt: HostRuntime) -> io::Result<()> {
    let mut rule = [0u8; FILE_BYTES];
    let mut record = [0u8; FILE_BYTES];
    let mut out = [0u8; REPORT_BYTES];
    run(&rt, &mut rule, &mut record, &mut out)
}
