//! Fields written into a line from the left: what stands before a field stays.
//! Each call names the place in the line, as the format's tables do, rather than a writer that counts on: a place is then read beside its table.
ghost use Rattle.std.specs.Prelude.{◌≡◌, ◌+◌, ◌-◌, ◌≤◌, ◌++◌, length};
ghost use Rattle.fields.specs.Words.{blank};
ghost use Rattle.tables.specs.Forms.{shown};
ghost use Rattle.tables.specs.Forms.Form.{decimals, dates};
ghost use Rattle.places.specs.Fronts.{front};

use digits::put_digits;

/// Puts these bytes after the first `from`.
pub fn put_bytes(out: &mut [u8], from: usize, bytes: &[u8])
    requires { from + length bytes.now ≤ length out.old }
    ensures { front (from + length bytes.now) out.new ≡ front from out.old ++ bytes.now }
{
    let to = from + bytes.len();
    out[from..to].copy_from_slice(bytes);
}

/// Puts a number in digits after the first `from` bytes.
pub fn put_number(out: &mut [u8], from: usize, to: usize, number: u64)
    requires order { from ≤ to }
    requires within { to ≤ length out.old }
    ensures { front to out.new ≡ front from out.old ++ shown (decimals (to - from)) number }
{
    put_digits(&mut out[from..to], number);
}

/// Puts spaces after the first `from` bytes.
pub fn put_spaces(out: &mut [u8], from: usize, to: usize)
    requires order { from ≤ to }
    requires within { to ≤ length out.old }
    ensures { front to out.new ≡ front from out.old ++ blank (to - from) }
{
    out[from..to].fill(b' ');
}

/// Puts a day's text after the first `from` bytes.
pub fn put_day(out: &mut [u8], from: usize, day: u32)
    requires { from + 6 ≤ length out.old }
    ensures { front (from + 6) out.new ≡ front from out.old ++ shown dates day }
{
    // Reckoned here, since `write_date` refuses a number that is no day, and every number has its six bytes.
    // A run of four years has 1,461 days, and the leap year comes first in it.
    let day = day as u64;
    let year = 4 * day / 1461;
    let place = day - (365 * year + (year + 3) / 4) + 1;
    put_bytes(out, from, b" ");
    put_number(out, from + 1, from + 6, 1000 * year + place);
}
