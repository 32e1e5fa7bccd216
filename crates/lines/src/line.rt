ghost use Rattle.std.specs.Prelude.{◌≡◌, ℕ, ◌<◌, true, List, length, IfSome, is_ok, Ok};
ghost use Rattle.std.specs.Result.{result_map_both};
ghost use Rattle.lines.specs.declared.fault.FileFault.{FileFault};
ghost use Rattle.lines.specs.Feeds.{feed_from, line_reading, plain, put_answer, put_after};
ghost use Rattle.tables.specs.Lines.{line_width};
ghost use Rattle.lines.specs.Places.{Place, ReadsPlace, place_reading};

use crate::{FileFault, LineFault};
use terms::StateCause;

/// A kind of line: it has one length, one reading and one writing.
pub trait Line {
    /// What earlier lines fix, and what else the line is judged by.
    type Context;

    /// What a line says.
    type Value;

    /// How many bytes a line has before its line feed.
    const LENGTH: usize;

    /// The same number, which proofs know.
    ghost LENGTH: { ℕ };

    /// The values of the fields that a value stands for.
    ghost Says: { Type 0 };

    ghost says: { Self.Value → Says };

    /// The table of fields that a line is judged and read by.
    ghost place: { Self.Context → List ℕ → Place Says };

    /// The line that is written of a value.
    ghost image: { Self.Context → Self.Value → List ℕ };

    /// What may be written: each field is allowed by the table.
    ghost fits: { Self.Context → Self.Value → Type 0 };

    /// Reads a line of that length: judges its fields from the left.
    fn read(line: &[u8], context: &Self::Context) -> Result<Self::Value, FileFault>
        requires { length line.now ≡ LENGTH }
        ensures { result_map_both says (λ e. e) result ≡ place_reading (place context.now line.now) line.now };

    /// Writes a line over that many bytes.
    fn write(value: &Self::Value, context: &Self::Context, out: &mut [u8])
        requires { length out.old ≡ LENGTH }
        ensures { out.new ≡ image context.now value.now };

    ghost tiled: { (c : Self.Context) (l : List ℕ) → line_width (place c l).table ≡ LENGTH };

    ghost unbroken: { (c : Self.Context) (v : Self.Value) → fits c v → plain (image c v) ≡ true };

    ghost back: { (c : Self.Context) (v : Self.Value) → fits c v → place_reading (place c (image c v)) (image c v) ≡ Ok (says v) };
}

/// How many bytes stand before the first line feed.
fn feed(bytes: &[u8]) -> Option<usize>
    ensures value { result ≡ feed_from 0 bytes.now }
    ensures within { IfSome result (λ n. n < length bytes.now) }
{
    bytes.iter().position(|byte| *byte == b'\n')
}

/// Reads the line at the front of the bytes: finds its line feed, tests its length, and judges its fields from the left.
pub fn read_line<L: Line>(bytes: &[u8], context: &L::Context) -> Result<L::Value, FileFault>
    ensures { result_map_both L.says (λ e. e) result ≡ line_reading L.LENGTH (λ l. place_reading (L.place context.now l) l) bytes.now }
{
    let found = feed(bytes).ok_or(LineFault::NoLineFeed(bytes.len() + 1))?;
    if found != L::LENGTH {
        return Err(LineFault::WrongLength.into());
    }
    L::read(&bytes[..found], context)
}

/// Writes a line and its line feed at the front of an area, and answers how many bytes these are. An area that is too small is left as it is.
pub fn write_line<L: Line>(
    value: &L::Value,
    context: &L::Context,
    out: &mut [u8],
) -> Result<usize, StateCause>
    ensures answer { result ≡ put_answer L.LENGTH out.old }
    ensures after { out.new ≡ put_after L.LENGTH (L.image context.now value.now) out.old }
    ensures back { L.fits context.now value.now → is_ok result ≡ true → line_reading L.LENGTH (λ l. place_reading (L.place context.now l) l) out.new ≡ Ok (L.says value.now) }
{
    if out.len() <= L::LENGTH {
        return Err(StateCause::AreaTooSmall);
    }
    L::write(value, context, &mut out[..L::LENGTH]);
    out[L::LENGTH] = b'\n';
    Ok(L::LENGTH + 1)
}

/// For every kind of line, whatever its context: one of its length is accepted exactly if it is the image of allowed values, free places among
/// them, and then says these; else it gets the fault of the first field from the left that has one, with the lowest cause in that field.
pub fn lines_are_read_by_table<L: Line>()
    ensures { (c : L.Context) (l : List ℕ) → length l ≡ L.LENGTH → ReadsPlace (L.place c l) l }
{}
