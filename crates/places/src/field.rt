//! A field at its place in a line.
ghost use Rattle.std.specs.Prelude.{◌≡◌, ℕ, ◌+◌, ◌-◌, ◌≤◌, List, length, Ok, IfOk};
ghost use Rattle.std.specs.Result.{result_map_both};
ghost use Rattle.lines.specs.Faults.{fault_of};
ghost use Rattle.tables.specs.Kinds.{Allowed, Kind, Value, width};
ghost use Rattle.tables.specs.Walks.{field_reading, part, reading};

use lines::FileFault;
use terms::InputCause;

/// A kind of field: what its bytes say, or the lowest cause that refuses them.
pub trait Field {
    /// What a field says.
    type Said;

    /// The kind as tables have it.
    ghost kind: { Self → Kind };

    /// What stands in the tables for a value.
    ghost says: { (f : Self) → Self.Said → Value (kind f) };

    /// How many places the field has.
    fn places(&self) -> usize
        ensures { result ≡ width (kind self.now) };

    /// Reads the bytes of the field.
    fn read(&self, bytes: &[u8]) -> Result<Self::Said, InputCause>
        requires { length bytes.now ≡ width (kind self.now) }
        ensures { result_map_both (says self.now) (λ e. e) result ≡ reading (kind self.now) bytes.now };

    /// Reads the field after the first `from` bytes of a line: its fault gets the field's position.
    final fn at(&self, line: &[u8], from: usize) -> Result<Self::Said, FileFault>
        requires { from + width (kind self.now) ≤ length line.now }
        ensures value { result_map_both (says self.now) (λ e. e) result ≡ field_reading fault_of (kind self.now) from line.now }
        ensures allowed { IfOk result (λ v. Allowed (kind self.now) (says self.now v)) }
    {
        let bytes = part(line, from, from + self.places());
        self.read(bytes)
            .map_err(|cause| FileFault::of_cause(cause, from + 1))
    }
}

/// What a field says is allowed by its kind: a number has no more digits than places, a day is a day, and bytes keep their rules.
pub fn said_is_allowed<F: Field>()
    ensures { (f : F) (v : F.Said) (bs : List ℕ) → length bs ≡ width (F.kind f) → reading (F.kind f) bs ≡ Ok (F.says f v) → Allowed (F.kind f) (F.says f v) }
{}

/// The bytes after the first `from`, up to the first `to`.
pub fn part(line: &[u8], from: usize, to: usize) -> &[u8]
    requires order { from ≤ to }
    requires within { to ≤ length line.now }
    ensures value { result.now ≡ part from to line.now }
    ensures len { length result.now ≡ to - from }
{
    &line[from..to]
}
