// Decimal digits without leading zeros.
ghost use Rattle.model.specs.Writing.{decimal};
ghost use Rattle.print.specs.Contract.{Near, Put};
ghost use Rattle.print.specs.Inner.{Ends};

use crate::put::put_text;
use instants::text::digit;

// The digits of a number: what stands in `bytes` from `start` on. Their number is known only at run time, and there is no heap.
#[derive(Clone, Copy)]
pub struct Digits {
    pub bytes: [u8; 20],
    pub start: usize,
}

// From the last digit to the first, two at a time.
fn digits_of(n: u64) -> Digits
    ensures { Ends n result }
{
    let mut bytes = [0u8; 20];
    let mut i: usize = 20;
    let mut rest = n;
    while rest >= 100 {
        let pair = rest % 100;
        bytes[i - 1] = digit(pair);
        bytes[i - 2] = digit(pair / 10);
        rest /= 100;
        i -= 2;
    }
    bytes[i - 1] = digit(rest);
    if rest < 10 {
        return Digits {
            bytes,
            start: i - 1,
        };
    }
    bytes[i - 2] = digit(rest / 10);
    Digits {
        bytes,
        start: i - 2,
    }
}

pub fn put_decimal(output: &mut [u8], at: usize, n: u64) -> usize
    requires { Near at }
    ensures { Put (decimal n) at output.old result output.new }
{
    let Digits { bytes, start } = digits_of(n);
    put_text(output, at, &bytes[start..])
}
