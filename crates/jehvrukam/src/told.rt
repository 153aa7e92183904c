// What is told to C. The numbers of refusals are those of its interface.
ghost use Rattle.std.specs.Prelude.{◌≡◌};
ghost use Rattle.jehvrukam.specs.Inner.{told_of};

use pipeline::text::Stop;

// A refusal's number, or 0, the text and the place, and what else is told.
#[derive(Clone, Copy)]
pub struct Report<T> {
    pub refusal: u32,
    pub which: usize,
    pub place: usize,
    pub value: T,
}

// With a refusal nothing else.
pub fn told<T: Copy>(r: Result<T, Stop>, nothing: T) -> Report<T>
    ensures { result ≡ told_of nothing r }
{
    match r {
        Ok(value) => Report {
            refusal: 0,
            which: 0,
            place: 0,
            value,
        },
        Err(s) => Report {
            refusal: u32::from(s.refusal),
            which: s.which,
            place: s.place,
            value: nothing,
        },
    }
}
