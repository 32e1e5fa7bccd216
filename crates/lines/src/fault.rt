ghost use Rattle.std.specs.Prelude.{◌≡◌};
ghost use Rattle.lines.specs.declared.fault.FileFault.TheVariants.{Line};
ghost use Rattle.lines.specs.declared.fault.LineFault.TheVariants.{Field};

use terms::InputCause;
use thiserror::Error;

/// A fault in one field of a line.
#[derive(Clone, Copy, PartialEq, Eq, Debug)]
pub struct FieldFault {
    pub cause: InputCause,
    /// The first place of the field, from 1.
    pub position: usize,
}

/// A fault of a line: in one of its fields, or in its end or length.
#[derive(Clone, Copy, PartialEq, Eq, Debug)]
pub enum LineFault {
    Field(FieldFault),
    /// The position is one past the bytes that are left.
    NoLineFeed(usize),
    WrongLength,
}

/// A fault of a line as part of its file: of the line itself, or against what earlier lines or the calendar say.
#[derive(Clone, Copy, PartialEq, Eq, Debug, Error)]
#[error("{number} at position {position}: {cause}", number = self.cause().number(), position = self.position(), cause = self.cause())]
pub enum FileFault {
    Line(LineFault),
    DayOutOfRange(usize),
    DayNotOpen(usize),
    Differs(usize),
}

/// A fault with the line of the file in which it lies.
#[derive(Clone, Copy, PartialEq, Eq, Debug, Error)]
#[error("line {line}: {fault}")]
pub struct Fault {
    /// The number of the line, from 1.
    pub line: usize,
    pub fault: FileFault,
}

/// Where a fault lies.
#[derive(Clone, Copy, PartialEq, Eq, Debug)]
pub enum Layer {
    Field,
    Line,
    File,
}

impl From<FieldFault> for LineFault {
    ghost from_gives = { λ e r. r ≡ Field e };

    fn from(e: FieldFault) -> LineFault {
        LineFault::Field(e)
    }
}

impl From<LineFault> for FileFault {
    ghost from_gives = { λ e r. r ≡ Line e };

    fn from(e: LineFault) -> FileFault {
        FileFault::Line(e)
    }
}

impl From<FieldFault> for FileFault {
    ghost from_gives = { λ e r. r ≡ Line (Field e) };

    fn from(e: FieldFault) -> FileFault {
        FileFault::Line(LineFault::Field(e))
    }
}
