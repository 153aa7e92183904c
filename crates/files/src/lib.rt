// A file, read into a buffer. No contract can say what is read: the system does it.
#![tactic(auto)]

ghost use Rattle.files.specs.Contract.{Counts};

use std::fs;
use std::io::Read;
use std::rt::Files;

// Reads until the buffer is full, the input ends or a read fails; how many bytes were put at the start of the buffer.
fn read_full(reader: &mut impl Read, buffer: &mut [u8]) -> usize
    ensures { Counts result buffer.new }
{
    let mut done: usize = 0;
    while done < buffer.len() {
        match reader.read(&mut buffer[done..]) {
            Ok(0) | Err(_) => return done,
            Ok(n) => done += n,
        }
    }
    done
}

// The first bytes of a file, as many as the buffer takes; a missing file counts as empty.
pub fn read_file(rt: &impl Files, path: &str, buffer: &mut [u8]) -> usize
    ensures { Counts result buffer.new }
{
    match fs::open(rt, path) {
        Ok(mut file) => read_full(&mut file, buffer),
        Err(_) => 0,
    }
}
