// The bytes of a string, where they lie.
ghost use Rattle.std.specs.Prelude.{◌≡◌};
ghost use Rattle.table.specs.Contract.{part, bytes_of};

use crate::row::Span;

// So many bytes of an area from `start` on; fewer where it ends before.
pub fn part_of(area: &[u8], start: usize, size: usize) -> &[u8]
    ensures { result.now ≡ part area.now start size }
{
    let rest = &area[start.min(area.len())..];
    &rest[..size.min(rest.len())]
}

// The bytes of a string or name in its strings area.
pub fn bytes_of(strings: &[u8], s: Span) -> &[u8]
    ensures { result.now ≡ bytes_of strings.now s }
{
    part_of(strings, s.start, s.size)
}
