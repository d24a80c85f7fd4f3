//! Decimal numbers and report lines, written into a buffer.
//!
//! Buffer and place are two parameters: a struct that holds the `&mut` owes a clause more, that it lends the same buffer still.
ghost use Rattle.std.specs.Prelude.{◌≡◌, ◌+◌, ◌%◌, ◌≤◌, length};
ghost use Rattle.text.specs.Lines.{numeral};
ghost use Rattle.text.specs.Written.{Wrote, control_line};

/// How many digits the number has.
pub(crate) fn numeral_len(n: u32) -> usize
    ensures value { result ≡ length (numeral n) }
    ensures few { result ≤ 10 }
{
    // Sessions have one digit or two, and a report asks for thousands.
    match n {
        0..=9 => 1,
        10..=99 => 2,
        _ => n.ilog10() as usize + 1,
    }
}

fn last_digit(n: u32) -> u8
    ensures { result ≡ 48 + n % 10 }
{
    b'0' + (n % 10) as u8
}

/// Writes the number in decimal at `at`; answers the place behind it.
pub(crate) fn write_numeral(buffer: &mut [u8], at: usize, n: u32) -> usize
    requires { at + length (numeral n) ≤ length buffer.old }
    ensures { Wrote buffer.old at buffer.new result (numeral n) }
{
    let end = at + numeral_len(n);
    let mut left = n;
    // By places: after a loop over `iter_mut().rev()` the proof did not close, since it lacks what stands in the buffer.
    for i in (at..end).rev() {
        buffer[i] = last_digit(left);
        left /= 10;
    }
    end
}

/// Writes the bytes at `at`; answers the place behind them.
pub(crate) fn write_bytes(buffer: &mut [u8], at: usize, bytes: &[u8]) -> usize
    requires { at + length bytes.now ≤ length buffer.old }
    ensures { Wrote buffer.old at buffer.new result bytes.now }
{
    let end = at + bytes.len();
    buffer[at..end].copy_from_slice(bytes);
    end
}

/// How long the report's line is that says that session `s` controls session `t`.
pub fn control_line_len(s: u32, t: u32) -> usize
    ensures { result ≡ length (control_line s t) }
{
    b"control=".len() + numeral_len(s) + 1 + numeral_len(t) + 1
}

/// Writes that line at `at`; answers the place behind it.
pub fn write_control_line(buffer: &mut [u8], at: usize, s: u32, t: u32) -> usize
    requires { at + length (control_line s t) ≤ length buffer.old }
    ensures { Wrote buffer.old at buffer.new result (control_line s t) }
{
    let numbers = write_bytes(buffer, at, b"control=");
    let comma = write_numeral(buffer, numbers, s);
    let other = write_bytes(buffer, comma, b",");
    let end = write_numeral(buffer, other, t);
    write_bytes(buffer, end, b"\n")
}
