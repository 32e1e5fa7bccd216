ghost use Rattle.std.specs.Prelude.{◌≡◌, ◌==◌, filter};
ghost use Rattle.fields.specs.Characters.{at_left, each, is_letter, is_sign_byte};
ghost use Rattle.fields.specs.Words.{filled, reference, same_signs, sign_count, strong, text};
ghost use Rattle.fields.specs.Judging.{verdict};

use crate::judging::judged;
use crate::listed::is_blank;
use crate::{allows, is_sign};
use terms::{InputCause, Service};

/// Judges a text: characters of the service, beginning at the left unless it is blank.
pub fn judge_text(service: Service, field: &[u8]) -> Result<(), InputCause>
    ensures { result ≡ verdict (text service) field.now }
{
    judged(is_allowed(service, field), InputCause::WrongCharacter)?;
    judged(is_at_left(field) || is_blank(field), InputCause::NotAtLeft)
}

/// Judges a filled text: a text that is not blank.
pub fn judge_filled(service: Service, field: &[u8]) -> Result<(), InputCause>
    ensures { result ≡ verdict (filled service) field.now }
{
    judged(is_allowed(service, field), InputCause::WrongCharacter)?;
    judged(is_at_left(field), InputCause::NotAtLeft)
}

/// Judges a payment's reference: a text, which for a debit has at least six capitals or digits, not all the same.
pub fn judge_reference(service: Service, field: &[u8]) -> Result<(), InputCause>
    ensures { result ≡ verdict (reference service) field.now }
{
    judge_text(service, field)?;
    judged(is_strong(service, field), InputCause::WeakReference)
}

/// Whether the service allows every character.
fn is_allowed(service: Service, field: &[u8]) -> bool
    ensures { result ≡ each (is_letter service) field.now }
{
    field.iter().all(|byte| allows(service, *byte))
}

fn is_at_left(field: &[u8]) -> bool
    ensures { result ≡ at_left field.now }
{
    field.first().is_some_and(|first| *first != b' ')
}

fn is_strong(service: Service, field: &[u8]) -> bool
    ensures { result ≡ strong service field.now }
{
    match service {
        Service::Debits => count_signs(field) >= 6 && !has_same_signs(field),
        _ => true,
    }
}

/// How many capitals and digits there are.
fn count_signs(field: &[u8]) -> usize
    ensures { result ≡ sign_count field.now }
{
    field.iter().filter(|byte| is_sign(**byte)).count()
}

/// Whether all capitals and digits are the same.
fn has_same_signs(field: &[u8]) -> bool
    ensures { result ≡ same_signs field.now }
{
    match field.iter().position(|byte| is_sign(*byte)) {
        Some(at) => has_no_other_sign(&field[at + 1..], field[at]),
        None => true,
    }
}

/// Whether no other capital or digit than this one stands in the field.
fn has_no_other_sign(field: &[u8], sign: u8) -> bool
    ensures { result ≡ each (λ b. b == sign) (filter is_sign_byte field.now) }
{
    field
        .iter()
        .filter(|byte| is_sign(**byte))
        .all(|byte| *byte == sign)
}
