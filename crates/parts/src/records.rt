//! The parts of the records. The day is what follows the first 100 bytes: six bytes in a multi-day file, and else none.
//! What both kinds share is written out in each: the fields of the two variants are public, and each is named where it is cut.
//! Both ask for a line of at least 100 bytes, which `line_parts` has tested: a type for it would be made and taken apart in that one call.
#![tactic(auto, unfolding(tables::specs::Walks::part))]

ghost use Rattle.std.specs.Prelude.{◌≡◌, ◌≤◌, length};
ghost use Rattle.parts.specs.Parts.{says, payment_parts, contra_parts, Sized};

use crate::LineParts;

/// A payment: from whom and to whom it goes, how much, and what both accounts are told.
pub(crate) fn payment_parts<'a>(line: &'a [u8]) -> LineParts<'a>
    requires { 100 ≤ length line.now }
    ensures value { says result ≡ payment_parts (length line.now) line.now }
    ensures sized { Sized (length line.now) result }
{
    LineParts::Payment {
        sort_code: &line[0..6],
        account: &line[6..14],
        code: &line[15..17],
        originator_sort_code: &line[17..23],
        originator_account: &line[23..31],
        free_format: &line[31..35],
        amount: &line[35..46],
        originator_name: &line[46..64],
        reference: &line[64..82],
        name: &line[82..100],
        day: &line[100..],
    }
}

/// A contra: the account on the other side of a batch, and the batch's total.
pub(crate) fn contra_parts<'a>(line: &'a [u8]) -> LineParts<'a>
    requires { 100 ≤ length line.now }
    ensures value { says result ≡ contra_parts (length line.now) line.now }
    ensures sized { Sized (length line.now) result }
{
    LineParts::Contra {
        sort_code: &line[0..6],
        account: &line[6..14],
        code: &line[15..17],
        originator_sort_code: &line[17..23],
        originator_account: &line[23..31],
        amount: &line[35..46],
        narrative: &line[46..64],
        originator_name: &line[82..100],
        day: &line[100..],
    }
}
