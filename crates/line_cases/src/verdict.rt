use lines::{FileFault, Layer, Line, read_line, write_line};
use std::fmt;
use thiserror::Error;

/// The longest line with its line feed.
const LONGEST: usize = 107;

/// How a line that is taken looks when it is written again.
#[derive(Clone, Copy)]
pub enum Again {
    /// Byte for byte the same.
    Same,
    /// Other only where a space is written.
    Free,
    Other,
}

/// Why no line is taken.
#[derive(Clone, Copy, Debug, Error)]
pub enum Refusal {
    /// The case names a kind or a context that there is not.
    #[error("no such kind or context")]
    NoSuchCase,
    #[error("{number} {position} {layer}", number = .0.cause().number(), position = .0.position(), layer = word_of(.0.layer()))]
    Fault(#[from] FileFault),
}

/// Reads a line as one of a kind, in the context that its case gives, and writes what is read again.
pub fn judge_as<L: Line>(line: &[u8], context: Option<L::Context>) -> Result<Again, Refusal>
where
    L::Context: Drop,
    L::Value: Drop,
{
    let context = context.ok_or(Refusal::NoSuchCase)?;
    let value = read_line::<L>(line, &context)?;
    Ok(written_again::<L>(line, &value, &context))
}

fn written_again<L: Line>(line: &[u8], value: &L::Value, context: &L::Context) -> Again {
    let mut out = [0; LONGEST];
    match write_line::<L>(value, context, &mut out) {
        Ok(count) => compared(line, &out[..count]),
        Err(_) => Again::Other,
    }
}

/// How what is written differs from what was read.
fn compared(read: &[u8], written: &[u8]) -> Again {
    if read == written {
        Again::Same
    } else if read.len() == written.len()
        && read
            .iter()
            .zip(written)
            .all(|(old, new)| *old == *new || *new == b' ')
    {
        Again::Free
    } else {
        Again::Other
    }
}

impl fmt::Display for Again {
    fn fmt<W: fmt::Write>(&self, f: &mut fmt::Formatter<W>) -> fmt::Result {
        f.write_str(match self {
            Again::Same => "ok same",
            Again::Free => "ok free",
            Again::Other => "ok other",
        })
    }
}

/// The word by which a verdict names a layer.
fn word_of(layer: Layer) -> &'static str {
    match layer {
        Layer::Field => "field",
        Layer::Line => "line",
        Layer::File => "file",
    }
}
