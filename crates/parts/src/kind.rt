ghost use Rattle.std.specs.Prelude.{◌≡◌};
ghost use Rattle.parts.specs.Kinds.{line_length};

use std::fmt;

/// The kinds of line. A record carries its own day only in a multi-day file: it is dated then, and six places longer.
#[derive(Clone, Copy, PartialEq, Eq, Debug)]
pub enum LineKind {
    Vol1,
    Hdr1,
    Hdr2,
    Uhl1,
    Payment,
    DatedPayment,
    Contra,
    DatedContra,
    Eof1,
    Eof2,
    Utl1,
}

impl LineKind {
    /// How many bytes a line has, its line feed not counted.
    pub fn length(self) -> usize
        ensures { result ≡ line_length self }
    {
        match self {
            LineKind::Payment | LineKind::Contra => 100,
            LineKind::DatedPayment | LineKind::DatedContra => 106,
            _ => 80,
        }
    }
}

impl fmt::Display for LineKind {
    fn fmt<W: fmt::Write>(&self, f: &mut fmt::Formatter<W>) -> fmt::Result {
        f.write_str(match self {
            LineKind::Vol1 => "VOL1",
            LineKind::Hdr1 => "HDR1",
            LineKind::Hdr2 => "HDR2",
            LineKind::Uhl1 => "UHL1",
            LineKind::Payment => "payment",
            LineKind::DatedPayment => "dated payment",
            LineKind::Contra => "contra",
            LineKind::DatedContra => "dated contra",
            LineKind::Eof1 => "EOF1",
            LineKind::Eof2 => "EOF2",
            LineKind::Utl1 => "UTL1",
        })
    }
}
