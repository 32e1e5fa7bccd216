ghost use Rattle.std.specs.Prelude.{◌≡◌};
ghost use Rattle.lines.specs.Faults.{cause_of, fault_layer, fault_of, layer_of_cause, line_cause, line_position, numbered, position_of};

use crate::{Fault, FieldFault, FileFault, Layer, LineFault};
use terms::InputCause;

impl LineFault {
    /// What is wrong.
    pub fn cause(self) -> InputCause
        ensures { result ≡ line_cause self }
    {
        match self {
            LineFault::Field(fault) => fault.cause,
            LineFault::NoLineFeed(_) => InputCause::NoLineFeed,
            LineFault::WrongLength => InputCause::WrongLength,
        }
    }

    /// The place in the line, from 1.
    pub fn position(self) -> usize
        ensures { result ≡ line_position self }
    {
        match self {
            LineFault::Field(fault) => fault.position,
            LineFault::NoLineFeed(position) => position,
            LineFault::WrongLength => 1,
        }
    }
}

impl FileFault {
    /// The fault of a cause at a place of the line, from 1.
    pub fn of_cause(cause: InputCause, position: usize) -> FileFault
        ensures { result ≡ fault_of cause position }
    {
        match cause {
            InputCause::NoLineFeed => FileFault::Line(LineFault::NoLineFeed(position)),
            InputCause::WrongLength => FileFault::Line(LineFault::WrongLength),
            InputCause::DayOutOfRange => FileFault::DayOutOfRange(position),
            InputCause::DayNotOpen => FileFault::DayNotOpen(position),
            InputCause::Differs => FileFault::Differs(position),
            _ => FileFault::Line(LineFault::Field(FieldFault { cause, position })),
        }
    }

    /// What is wrong.
    pub fn cause(self) -> InputCause
        ensures { result ≡ cause_of self }
    {
        match self {
            FileFault::Line(fault) => fault.cause(),
            FileFault::DayOutOfRange(_) => InputCause::DayOutOfRange,
            FileFault::DayNotOpen(_) => InputCause::DayNotOpen,
            FileFault::Differs(_) => InputCause::Differs,
        }
    }

    /// The place in the line, from 1.
    pub fn position(self) -> usize
        ensures { result ≡ position_of self }
    {
        match self {
            FileFault::Line(fault) => fault.position(),
            FileFault::DayOutOfRange(position) => position,
            FileFault::DayNotOpen(position) => position,
            FileFault::Differs(position) => position,
        }
    }

    /// Whether the fault lies in a field, in the line, or against the file.
    pub fn layer(self) -> Layer
        ensures { result ≡ fault_layer self }
    {
        match self {
            FileFault::Line(LineFault::Field(_)) => Layer::Field,
            FileFault::Line(_) => Layer::Line,
            _ => Layer::File,
        }
    }

    /// The fault as that of the line with this number.
    pub fn in_line(self, line: usize) -> Fault
        ensures { result ≡ numbered self line }
    {
        Fault { line, fault: self }
    }
}

/// The layer in which a cause lies: the line for 1 and 2, the file for 7, 8 and 13, a field for the others.
pub fn layer_of(cause: InputCause) -> Layer
    ensures { result ≡ layer_of_cause cause }
{
    match cause {
        InputCause::NoLineFeed | InputCause::WrongLength => Layer::Line,
        InputCause::DayOutOfRange | InputCause::DayNotOpen | InputCause::Differs => Layer::File,
        _ => Layer::Field,
    }
}
