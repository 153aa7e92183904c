// Runs the cases of the file `cases`, which host/vectors makes of vectors/ and document 01, on the entry for C. Prints the
// first line of each case that differs, then how many there are and how many differ. No contract can say what is read or
// printed: the system does both. What the two numbers are is promised: `take_cases` counts, of the bytes of the file,
// what the definition of the entry gives (`tally_of`).
#![tactic(auto)]

ghost use Rattle.std.specs.Prelude.{◌≡◌, true, ◌+◌, ◌*◌, ◌≤◌, ◌<◌, length};
ghost use Rattle.model.specs.Bytes.{digit_value};
ghost use Rattle.jehvrukam.specs.Evaluate.{evaluate_entry};
ghost use Rattle.test_vectors.specs.Cases.{takes_digit, number_at, header_at, is_whole, lent, untold, is_expected, is_text, agrees_in, agrees_on, counted, tally_of};
ghost use Rattle.test_vectors.specs.Inner.{Past, Gives, Ran, Few};

use files::read_file;
use heap::cell::CELL_BYTES;
use jehvrukam::jehvrukam_evaluate;
use model::{HEAP_CELLS, MAX_TEXT_BYTES};
use octets::same;
use std::io;
use std::rt::Files;
use syntax::{STRINGS_BYTES, TABLE_BYTES};

// The most bytes that are read.
const FILE_BYTES: usize = 524288;

const OUTPUT_BYTES: usize = MAX_TEXT_BYTES;

const CELLS_BYTES: usize = HEAP_CELLS * CELL_BYTES;

// A number, and where the text goes on.
#[derive(Clone, Copy)]
struct Number {
    value: u64,
    end: usize,
}

// A case's first line: what is given, what is expected, the sizes of the texts; and where they begin.
#[derive(Clone, Copy)]
struct Header {
    limit: u64,
    room: u64,
    refusal: u64,
    which: u64,
    place: u64,
    steps: u64,
    rule: u64,
    record: u64,
    answer: u64,
    end: usize,
}

// What the entry for C tells, a refusal by its number.
#[derive(Clone, Copy)]
struct Outcome {
    refusal: u32,
    which: u64,
    place: u64,
    steps: u64,
    size: u64,
}

// Whether a case agrees, and where the next one begins.
#[derive(Clone, Copy)]
struct Case {
    agrees: bool,
    end: usize,
}

#[derive(Clone, Copy)]
struct Tally {
    cases: u64,
    differ: u64,
}

// ---- a case's first line

// Whether a byte is a digit, and the number with this digit more fits.
fn takes_digit(n: u64, x: u8) -> bool
    ensures { result ≡ takes_digit n x }
{
    x.is_ascii_digit() && n <= (u64::MAX - u64::from(x - b'0')) / 10
}

fn with_digit(n: u64, x: u8) -> u64
    requires { takes_digit n x ≡ true }
    ensures { result ≡ n * 10 + digit_value x }
{
    n * 10 + u64::from(x - b'0')
}

// The digits from `at` on, and past the byte behind them.
fn read_number(text: &[u8], at: usize) -> Number
    ensures { result ≡ number_at text.now at }
{
    let mut n: u64 = 0;
    let mut i = at;
    while i < text.len() {
        let x = text[i];
        if !takes_digit(n, x) {
            return Number {
                value: n,
                end: i + 1,
            };
        }
        n = with_digit(n, x);
        i += 1;
    }
    Number { value: n, end: i }
}

// Past the first such byte from `at` on, or the text's end.
fn past(text: &[u8], byte: u8, at: usize) -> usize
    requires { at ≤ length text.now }
    ensures { Past text.now byte at result }
{
    let mut i = at;
    while i < text.len() {
        if text[i] == byte {
            return i + 1;
        }
        i += 1;
    }
    i
}

// A name, then nine numbers.
fn read_header(text: &[u8], at: usize) -> Header
    requires { at ≤ length text.now }
    ensures { result ≡ header_at text.now at }
{
    let limit = read_number(text, past(text, b' ', at));
    let room = read_number(text, limit.end);
    let refusal = read_number(text, room.end);
    let which = read_number(text, refusal.end);
    let place = read_number(text, which.end);
    let steps = read_number(text, place.end);
    let rule = read_number(text, steps.end);
    let record = read_number(text, rule.end);
    let answer = read_number(text, record.end);
    Header {
        limit: limit.value,
        room: room.value,
        refusal: refusal.value,
        which: which.value,
        place: place.value,
        steps: steps.value,
        rule: rule.value,
        record: record.value,
        answer: answer.value,
        end: answer.end,
    }
}

// Whether the file has so many bytes that the texts are whole.
fn is_whole(n: usize, h: Header) -> bool
    ensures { result ≡ is_whole n h }
{
    if h.end > n {
        return false;
    }
    let left = (n - h.end) as u64;
    if h.rule > left {
        return false;
    }
    if h.record > left - h.rule {
        return false;
    }
    h.answer <= left - h.rule - h.record
}

// ---- a case

// In areas of the stated sizes, whatever they hold.
fn evaluate_in(
    rule: &[u8],
    record: &[u8],
    limit: u64,
    rule_table: &mut [u8; TABLE_BYTES],
    rule_strings: &mut [u8; STRINGS_BYTES],
    record_table: &mut [u8; TABLE_BYTES],
    record_strings: &mut [u8; STRINGS_BYTES],
    cells: &mut [u8; CELLS_BYTES],
    output: &mut [u8],
) -> Outcome
    ensures { Gives (evaluate_entry rule.now «record».now limit (lent output.old) untold) result output.new }
{
    let mut which: u64 = 0;
    let mut place: u64 = 0;
    let mut steps: u64 = 0;
    let mut size: u64 = 0;
    let refusal = jehvrukam_evaluate(
        rule,
        record,
        limit,
        rule_table,
        rule_strings,
        record_table,
        record_strings,
        cells,
        output,
        &mut which,
        &mut place,
        &mut steps,
        &mut size,
    );
    Outcome {
        refusal,
        which,
        place,
        steps,
        size,
    }
}

// The same in areas of its own: the proof of the function above does not know their bytes, and so computes with none.
fn evaluate(rule: &[u8], record: &[u8], limit: u64, output: &mut [u8]) -> Outcome
    ensures { Gives (evaluate_entry rule.now «record».now limit (lent output.old) untold) result output.new }
{
    let mut rule_table = [0u8; TABLE_BYTES];
    let mut rule_strings = [0u8; STRINGS_BYTES];
    let mut record_table = [0u8; TABLE_BYTES];
    let mut record_strings = [0u8; STRINGS_BYTES];
    let mut cells = [0u8; CELLS_BYTES];
    evaluate_in(
        rule,
        record,
        limit,
        &mut rule_table,
        &mut rule_strings,
        &mut record_table,
        &mut record_strings,
        &mut cells,
        output,
    )
}

fn is_expected(h: Header, o: Outcome) -> bool
    ensures { result ≡ is_expected h o.refusal o.which o.place o.steps }
{
    u64::from(o.refusal) == h.refusal
        && o.which == h.which
        && o.place == h.place
        && o.steps == h.steps
}

// Whether a text of this size stands at the start of the output.
fn is_text(output: &[u8], size: u64, text: &[u8]) -> bool
    ensures { result ≡ is_text output.now size text.now }
{
    let n = text.len();
    if size != n as u64 {
        return false;
    }
    if n > output.len() {
        return false;
    }
    same(&output[..n], text)
}

fn agrees_in(h: Header, rule: &[u8], record: &[u8], answer: &[u8], output: &mut [u8]) -> bool
    ensures { result ≡ agrees_in h rule.now «record».now answer.now output.old }
{
    let o = evaluate(rule, record, h.limit, output);
    is_expected(h, o) && is_text(output, o.size, answer)
}

// With an output of the room that the case has.
fn agrees(h: Header, rule: &[u8], record: &[u8], answer: &[u8]) -> bool
    ensures { result ≡ agrees_on h rule.now «record».now answer.now }
{
    let room = h.room as usize;
    if room > OUTPUT_BYTES {
        return false;
    }
    let mut output = [0u8; OUTPUT_BYTES];
    agrees_in(h, rule, record, answer, &mut output[..room])
}

// The case at a place; one whose texts are not whole differs, and ends the file.
fn run_case(text: &[u8], at: usize) -> Case
    requires { at < length text.now }
    ensures { Ran text.now at result }
{
    let h = read_header(text, at);
    if !is_whole(text.len(), h) {
        return Case {
            agrees: false,
            end: text.len(),
        };
    }
    let start = h.end;
    let rule_end = start + h.rule as usize;
    let record_end = rule_end + h.record as usize;
    let answer_end = record_end + h.answer as usize;
    let agrees = agrees(
        h,
        &text[start..rule_end],
        &text[rule_end..record_end],
        &text[record_end..answer_end],
    );
    Case {
        agrees,
        end: past(text, b'\n', answer_end),
    }
}

// ---- all cases

fn count(t: Tally, agrees: bool) -> Tally
    requires { Few t }
    ensures { result ≡ counted t agrees }
{
    Tally {
        cases: t.cases + 1,
        differ: if agrees { t.differ } else { t.differ + 1 },
    }
}

// A case's first line.
fn print_first_line(rt: &impl Print, text: &[u8], at: usize) -> io::Result<()>
    requires { at < length text.now }
{
    let end = past(text, b'\n', at);
    rt.write_all(b"differs: ")?;
    rt.write_all(&text[at..end])
}

// Counts what it promises whether or not the lines reach the output; a case whose line does not is counted all the same.
fn take_cases(rt: &impl Print, text: &[u8]) -> Tally
    ensures { result ≡ tally_of text.now }
{
    let mut tally = Tally {
        cases: 0,
        differ: 0,
    };
    let mut at: usize = 0;
    while at < text.len() {
        let c = run_case(text, at);
        if !c.agrees {
            let _ = print_first_line(rt, text, at);
        }
        tally = count(tally, c.agrees);
        at = c.end;
    }
    tally
}

// Zeros. The clause gives the length alone, so that no proof computes with so many bytes.
fn zeros() -> [u8; FILE_BYTES]
    ensures { length result ≡ FILE_BYTES }
{
    [0; FILE_BYTES]
}

fn main(rt: HostRuntime) -> io::Result<()> {
    let mut text = zeros();
    let n = read_file(&rt, "cases", &mut text);
    let tally = take_cases(&rt, &text[..n]);
    let cases = tally.cases;
    let differ = tally.differ;
    println!(rt; "{cases} cases, {differ} differ")
}
