ghost use Rattle.std.specs.Prelude.{◌≡◌, length, IfOk};
ghost use Rattle.std.specs.Result.{result_map_both};
ghost use Rattle.parts.specs.Kinds.{line_length};
ghost use Rattle.parts.specs.Parts.{says, parts_of, parts_reading, Sized};

use crate::LineKind;
use crate::records::{contra_parts, payment_parts};
use terms::InputCause;

/// The parts of a line, which point into it. Free places, whose contents do not matter, are left out.
#[derive(Clone, Copy)]
pub enum LineParts<'a> {
    Vol1 {
        serial: &'a [u8],
        mark: &'a [u8],
        sun: &'a [u8],
    },
    Hdr1 {
        serial: &'a [u8],
        creation: &'a [u8],
        expiry: &'a [u8],
    },
    Hdr2 {
        record_length: &'a [u8],
    },
    Uhl1 {
        processing_day: &'a [u8],
        work_code: &'a [u8],
        file_number: &'a [u8],
    },
    /// The day is empty in a single-day file.
    Payment {
        sort_code: &'a [u8],
        account: &'a [u8],
        code: &'a [u8],
        originator_sort_code: &'a [u8],
        originator_account: &'a [u8],
        free_format: &'a [u8],
        amount: &'a [u8],
        originator_name: &'a [u8],
        reference: &'a [u8],
        name: &'a [u8],
        day: &'a [u8],
    },
    /// The day is empty in a single-day file.
    Contra {
        sort_code: &'a [u8],
        account: &'a [u8],
        code: &'a [u8],
        originator_sort_code: &'a [u8],
        originator_account: &'a [u8],
        amount: &'a [u8],
        narrative: &'a [u8],
        originator_name: &'a [u8],
        day: &'a [u8],
    },
    Eof1 {
        serial: &'a [u8],
        creation: &'a [u8],
        expiry: &'a [u8],
    },
    Eof2 {
        record_length: &'a [u8],
    },
    Utl1 {
        debit_total: &'a [u8],
        credit_total: &'a [u8],
        debit_count: &'a [u8],
        credit_count: &'a [u8],
    },
}

/// The parts of a line of that kind, its line feed not among its bytes. A line of another length than its kind is refused, and nothing else is judged.
pub fn line_parts<'a>(kind: LineKind, line: &'a [u8]) -> Result<LineParts<'a>, InputCause>
    ensures value { result_map_both says (λ e. e) result ≡ parts_reading kind line.now }
    ensures sized { IfOk result (Sized (line_length kind)) }
{
    if line.len() != kind.length() {
        return Err(InputCause::WrongLength);
    }
    Ok(parts_of_line(kind, line))
}

/// The parts of a line that is as long as its kind. The end labels repeat the headers.
#[tactic(auto, unfolding(tables::specs::Walks::part))]
fn parts_of_line<'a>(kind: LineKind, line: &'a [u8]) -> LineParts<'a>
    requires { length line.now ≡ line_length kind }
    ensures value { says result ≡ parts_of kind line.now }
    ensures sized { Sized (line_length kind) result }
{
    // An end label is cut like its header, but into a variant of its own: the variants are public and tell the labels apart.
    match kind {
        LineKind::Vol1 => LineParts::Vol1 {
            serial: &line[4..10],
            mark: &line[31..37],
            sun: &line[41..47],
        },
        LineKind::Hdr1 => LineParts::Hdr1 {
            serial: &line[21..27],
            creation: &line[41..47],
            expiry: &line[47..53],
        },
        LineKind::Hdr2 => LineParts::Hdr2 {
            record_length: &line[10..15],
        },
        LineKind::Uhl1 => LineParts::Uhl1 {
            processing_day: &line[4..10],
            work_code: &line[28..37],
            file_number: &line[37..40],
        },
        LineKind::Payment | LineKind::DatedPayment => payment_parts(line),
        LineKind::Contra | LineKind::DatedContra => contra_parts(line),
        LineKind::Eof1 => LineParts::Eof1 {
            serial: &line[21..27],
            creation: &line[41..47],
            expiry: &line[47..53],
        },
        LineKind::Eof2 => LineParts::Eof2 {
            record_length: &line[10..15],
        },
        LineKind::Utl1 => LineParts::Utl1 {
            debit_total: &line[4..17],
            credit_total: &line[17..30],
            debit_count: &line[30..37],
            credit_count: &line[37..44],
        },
    }
}
