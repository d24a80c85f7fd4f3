//! A cursor over the lines of a lent text.
ghost use Rattle.std.specs.Prelude.{◌+◌, ◌^◌, ◌<◌, length};

pub mod lines;

/// Where a reading of a lent text stands: so many lines are read, and these bytes are left.
#[derive(Drop)]
pub struct Reader<'a> {
    left: &'a [u8],
    lines: usize,
    ghost room: { lines + length left.now < 2 ^ 64 },
}
