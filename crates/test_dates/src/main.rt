// Runs the vectors of host/dates, from standard input, on the crates calendar and dates.
// Prints each line that differs, then how many of each kind agree and differ.
#![tactic(auto)]

ghost use Rattle.std.specs.Prelude.{◌≡◌, ◌≤◌, IfSome, length, nat_abs};

use calendar::instant::{DateFault, Instant};
use dates::{read_date, read_day};
use instants::shift::shift;
use instants::text::InstantText;
use model::TimeUnit;
use std::io;
use std::io::Read;

// The most bytes that are read.
const ROOM: usize = 524288;

// Numbers from 10^18 on are not read.
const NUMBERS_END: u64 = 1000000000000000000;

// What a line's first field says that it is.
#[derive(Clone, Copy)]
enum Kind {
    Date,
    Day,
    Shift,
    Text,
}

#[derive(Clone, Copy, Default)]
struct Count {
    agree: u64,
    differ: u64,
}

#[derive(Clone, Copy, Default)]
struct Tally {
    date: Count,
    day: Count,
    shift: Count,
    text: Count,
    all: Count,
}

// ---- fields, which TABs part

// The first field, and what follows it and its TAB; nothing if there is no TAB.
fn cut(fields: &[u8]) -> (&[u8], &[u8]) {
    let mut parts = fields.splitn(2, |b| *b == b'\t');
    let first = parts.next().unwrap_or(&[]);
    (first, parts.next().unwrap_or(&[]))
}

// Digits, with a minus sign or none.
fn number(text: &[u8]) -> Option<i64>
    ensures { IfSome result (λ z. nat_abs z ≤ 999999999999999999) }
{
    if text.starts_with(b"+") {
        return None;
    }
    let n = str::from_utf8(text).ok()?.parse::<i64>().ok()?;
    (n.unsigned_abs() < NUMBERS_END).then_some(n)
}

fn same(a: &[u8], b: &[u8]) -> bool {
    a == b
}

fn kind_of(name: &[u8]) -> Option<Kind> {
    if same(name, b"date") {
        return Some(Kind::Date);
    }
    if same(name, b"day") {
        return Some(Kind::Day);
    }
    if same(name, b"shift") {
        return Some(Kind::Shift);
    }
    if same(name, b"text") {
        return Some(Kind::Text);
    }
    None
}

fn unit_of(name: &[u8]) -> Option<TimeUnit> {
    if same(name, b"year") {
        return Some(TimeUnit::Year);
    }
    if same(name, b"month") {
        return Some(TimeUnit::Month);
    }
    if same(name, b"day") {
        return Some(TimeUnit::Day);
    }
    if same(name, b"hour") {
        return Some(TimeUnit::Hour);
    }
    None
}

// ---- vectors: whether the crates answer what the fields say; none for fields that cannot be read

// Whether an answer is the expected one: milliseconds, or a refusal.
fn is_expected(answer: Result<Instant, DateFault>, expected: &[u8]) -> bool {
    match answer {
        Ok(t) => number(expected) == Some(t.milliseconds()),
        Err(DateFault::BadDate) => same(expected, b"refused 8"),
        Err(DateFault::OutOfRange) => same(expected, b"refused 9"),
    }
}

// The instant so many milliseconds from 1970-01-01, shifted.
fn shift_from(ms: i64, amount: i64, unit: TimeUnit) -> Result<Instant, DateFault> {
    Ok(shift(Instant::new(ms)?, amount, unit)?)
}

// MS, AMOUNT, UNIT, and what is expected.
fn shift_agrees(fields: &[u8]) -> Option<bool> {
    let (ms, after_ms) = cut(fields);
    let (amount, after_amount) = cut(after_ms);
    let (unit, expected) = cut(after_amount);
    let shifted = shift_from(number(ms)?, number(amount)?, unit_of(unit)?);
    Some(is_expected(shifted, expected))
}

// MS, and the 24 bytes.
fn text_agrees(fields: &[u8]) -> Option<bool> {
    let (ms, expected) = cut(fields);
    let t = Instant::new(number(ms)?).ok()?;
    Some(same(&InstantText::from(t).bytes, expected))
}

fn agrees(kind: Kind, fields: &[u8]) -> Option<bool> {
    let (text, expected) = cut(fields);
    match kind {
        Kind::Date => Some(is_expected(read_date(text), expected)),
        Kind::Day => Some(is_expected(read_day(text), expected)),
        Kind::Shift => shift_agrees(fields),
        Kind::Text => text_agrees(fields),
    }
}

// ---- the tally; no count wraps, since there are far fewer lines than 2^64

impl Count {
    fn count(&mut self, agrees: bool) {
        let counted = if agrees {
            &mut self.agree
        } else {
            &mut self.differ
        };
        *counted = counted.wrapping_add(1);
    }
}

impl Tally {
    // A line of no kind counts among all alone.
    fn count(&mut self, kind: Option<Kind>, agrees: bool) {
        self.all.count(agrees);
        match kind {
            Some(Kind::Date) => self.date.count(agrees),
            Some(Kind::Day) => self.day.count(agrees),
            Some(Kind::Shift) => self.shift.count(agrees),
            Some(Kind::Text) => self.text.count(agrees),
            None => {}
        }
    }
}

fn print_count(rt: &impl Print, name: &str, count: Count) -> io::Result<()> {
    let agree = count.agree;
    let differ = count.differ;
    println!(rt; "{name} {agree} agree, {differ} differ")
}

fn print_tally(rt: &impl Print, tally: Tally) -> io::Result<()> {
    print_count(rt, "date", tally.date)?;
    print_count(rt, "day", tally.day)?;
    print_count(rt, "shift", tally.shift)?;
    print_count(rt, "text", tally.text)?;
    print_count(rt, "all", tally.all)
}

// ---- lines

// Counts a line, and prints it if it differs.
fn take_line(rt: &impl Print, tally: &mut Tally, line: &[u8]) -> io::Result<()> {
    let (name, fields) = cut(line);
    let kind = kind_of(name);
    let is_right = kind.and_then(|k| agrees(k, fields)).unwrap_or(false);
    tally.count(kind, is_right);
    if !is_right {
        rt.write_all(b"differs: ")?;
        rt.write_all(line)?;
        rt.write_all(b"\n")?;
    }
    Ok(())
}

fn take_lines(rt: &impl Print, text: &[u8]) -> io::Result<Tally> {
    let mut tally = Tally::default();
    for line in text.split_inclusive(|b| *b == b'\n') {
        take_line(rt, &mut tally, line.strip_suffix(b"\n").unwrap_or(line))?;
    }
    Ok(tally)
}

// Reads until the buffer is full, the input ends or a read fails; how many bytes were put at the start of the buffer.
fn read_full(reader: &mut impl Read, buffer: &mut [u8]) -> usize
    ensures { result ≤ length buffer.new }
{
    let mut done: usize = 0;
    // `done` goes on by what each read gave. (The library's reads to the end put the bytes on the heap, or tell not how many there are.)
    while done < buffer.len() {
        match reader.read(&mut buffer[done..]) {
            Ok(0) => return done,
            Ok(n) => done += n,
            Err(_) => return done,
        }
    }
    done
}

// Zeros. The clause gives the length alone, so that no proof computes with so many bytes.
fn zeros() -> [u8; ROOM]
    ensures { length result ≡ ROOM }
{
    [0; ROOM]
}

fn main(rt: HostRuntime) -> io::Result<()> {
    let mut buffer = zeros();
    let mut input = rt.stdin();
    let n = read_full(&mut input, &mut buffer);
    print_tally(&rt, take_lines(&rt, &buffer[..n])?)
}
