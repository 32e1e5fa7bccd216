ghost use Rattle.std.specs.Prelude.{◌≡◌, ◌+◌, ◌≤◌, length, IfSome};

use terms::Service;

/// A row of the table.
#[derive(Clone, Copy)]
pub struct Case<'a> {
    /// All that stands before the `|`.
    pub header: &'a [u8],
    pub kind: &'a [u8],
    pub service: Service,
    /// The word that chooses the context, or nothing.
    pub context: &'a [u8],
    /// All that stands after the `|`.
    pub line: &'a [u8],
}

/// The case that a row gives.
pub fn read_case(row: &[u8]) -> Option<Case<'_>> {
    let (header, line) = parted(row, b'|')?;
    let (kind, rest) = parted(header, b' ')?;
    let (letter, context) = parted(rest, b' ').unwrap_or((rest, b""));
    let [letter] = letter else {
        return None;
    };
    let service = Service::try_from(*letter).ok()?;
    Some(Case {
        header,
        kind,
        service,
        context,
        line,
    })
}

/// What stands before and after the first byte of this kind.
fn parted(bytes: &[u8], mark: u8) -> Option<(&[u8], &[u8])>
    ensures { IfSome result (λ p. length p.0.now + 1 + length p.1.now ≡ length bytes.now) }
{
    let at = bytes.iter().position(|byte| *byte == mark)?;
    Some((&bytes[..at], &bytes[at + 1..]))
}

/// The line without its line feed, if a `~` stands before that; else as it is.
pub fn cut_feed(line: &[u8]) -> &[u8]
    ensures { length result.now ≤ length line.now }
{
    match line {
        [rest @ .., b'~', b'\n'] => rest,
        _ => line,
    }
}
