//! Every field of a line by its name, to explain a fault to a person: fixed contents, free places and blanks as well.
ghost use Rattle.std.specs.Prelude.{◌≡◌, map, find, ◌==◌};
ghost use Rattle.std.specs.Option.{option_map};
ghost use Rattle.parts.specs.Places.{places_of, field_places, fields_from, field_ends};

use crate::LineKind;

/// A field's name and its first and last place in the line, from 1.
#[derive(Clone, Copy, PartialEq, Eq, Debug)]
pub struct FieldPlaces {
    pub name: &'static str,
    pub first: usize,
    pub last: usize,
}

/// A row of a table: a field's name, and its first and last place. It is a tuple so that each row is one line.
type Field = (&'static str, usize, usize);

/// The field that begins at a position of the line, from 1.
pub fn field_at(kind: LineKind, position: usize) -> Option<FieldPlaces>
    ensures { option_map places_of result ≡ field_places kind position }
{
    // The day stands in the tables of all records, and is past the end of one that is not dated.
    if position > kind.length() {
        return None;
    }
    field_among(fields(kind), position)
}

/// The field that begins at a position, of these.
fn field_among(fields: &[Field], position: usize) -> Option<FieldPlaces>
    ensures { option_map places_of result ≡ option_map (λ f. (f.1, f.2)) (find (λ f. position == f.1) fields.now) }
{
    fields
        .iter()
        .find(|(_, first, _)| position == *first)
        .map(|&(name, first, last)| FieldPlaces { name, first, last })
}

/// The fields of a kind of line, from its first place on. A record has the day among them, dated or not.
fn fields(kind: LineKind) -> &'static [Field]
    ensures { map (λ f. (f.1, f.2)) result.now ≡ fields_from 1 (field_ends kind) }
{
    match kind {
        LineKind::Vol1 => &VOL1,
        LineKind::Hdr1 => &HDR1,
        LineKind::Hdr2 => &HDR2,
        LineKind::Uhl1 => &UHL1,
        LineKind::Payment | LineKind::DatedPayment => &PAYMENT,
        LineKind::Contra | LineKind::DatedContra => &CONTRA,
        LineKind::Eof1 => &EOF1,
        LineKind::Eof2 => &EOF2,
        LineKind::Utl1 => &UTL1,
    }
}

/// The volume label.
static VOL1: [Field; 9] = [
    ("label", 1, 4),
    ("serial", 5, 10),
    ("free", 11, 11),
    ("blank", 12, 31),
    ("mark", 32, 37),
    ("blank", 38, 41),
    ("service user number", 42, 47),
    ("blank", 48, 79),
    ("fixed", 80, 80),
];

/// The first header.
static HDR1: [Field; 15] = [
    ("label", 1, 5),
    ("free", 6, 11),
    ("fixed", 12, 12),
    ("blank", 13, 14),
    ("free", 15, 15),
    ("free", 16, 21),
    ("serial", 22, 27),
    ("fixed", 28, 35),
    ("free", 36, 39),
    ("free", 40, 41),
    ("creation date", 42, 47),
    ("expiry date", 48, 53),
    ("free", 54, 54),
    ("zeros", 55, 60),
    ("blank", 61, 80),
];

/// The second header.
static HDR2: [Field; 5] = [
    ("label", 1, 10),
    ("record length", 11, 15),
    ("blank", 16, 50),
    ("fixed", 51, 52),
    ("blank", 53, 80),
];

/// The user header.
static UHL1: [Field; 11] = [
    ("label", 1, 4),
    ("processing day", 5, 10),
    ("fixed", 11, 16),
    ("blank", 17, 20),
    ("zeros", 21, 28),
    ("work code", 29, 37),
    ("file number", 38, 40),
    ("blank", 41, 47),
    ("free", 48, 50),
    ("free", 51, 54),
    ("blank", 55, 80),
];

/// A payment, with the day that only a dated one has.
static PAYMENT: [Field; 12] = [
    ("sort code", 1, 6),
    ("account", 7, 14),
    ("fixed", 15, 15),
    ("code", 16, 17),
    ("originator's sort code", 18, 23),
    ("originator's account", 24, 31),
    ("free format", 32, 35),
    ("amount", 36, 46),
    ("originator's name", 47, 64),
    ("reference", 65, 82),
    ("destination name", 83, 100),
    ("day", 101, 106),
];

/// A contra, with the day that only a dated one has.
static CONTRA: [Field; 13] = [
    ("sort code", 1, 6),
    ("account", 7, 14),
    ("fixed", 15, 15),
    ("code", 16, 17),
    ("originator's sort code", 18, 23),
    ("originator's account", 24, 31),
    ("blank", 32, 35),
    ("total", 36, 46),
    ("narrative", 47, 64),
    ("fixed", 65, 70),
    ("blank", 71, 82),
    ("originator's name", 83, 100),
    ("day", 101, 106),
];

/// The first end label. It repeats the first header after its name, so the letter after the name is a field of its own; 55 to 60 are blank here.
/// Its table is whole: what it shares with the first header is neither how they begin nor how they end.
static EOF1: [Field; 16] = [
    ("label", 1, 4),
    ("label letter", 5, 5),
    ("free", 6, 11),
    ("fixed", 12, 12),
    ("blank", 13, 14),
    ("free", 15, 15),
    ("free", 16, 21),
    ("serial", 22, 27),
    ("fixed", 28, 35),
    ("free", 36, 39),
    ("free", 40, 41),
    ("creation date", 42, 47),
    ("expiry date", 48, 53),
    ("free", 54, 54),
    ("blank", 55, 60),
    ("blank", 61, 80),
];

/// The second end label. It repeats the second header after its name.
/// Its table is whole: the four rows that both have would be a third table, and each search one of two parts.
static EOF2: [Field; 6] = [
    ("label", 1, 4),
    ("fixed", 5, 10),
    ("record length", 11, 15),
    ("blank", 16, 50),
    ("fixed", 51, 52),
    ("blank", 53, 80),
];

/// The user trailer.
static UTL1: [Field; 6] = [
    ("label", 1, 4),
    ("debit total", 5, 17),
    ("credit total", 18, 30),
    ("debit count", 31, 37),
    ("credit count", 38, 44),
    ("blank", 45, 80),
];
