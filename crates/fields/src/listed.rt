ghost use Rattle.std.specs.Prelude.{◌≡◌, [], ◌∷◌, length};
ghost use Rattle.fields.specs.Words.{blank, choice, digits_or_spaces, free_format, good_format, head, is_spare_text, slashed, spaces};
ghost use Rattle.std.specs.Char.{is_ascii_digit};
ghost use Rattle.std.specs.Str.{bytes_eq};
ghost use Rattle.fields.specs.Characters.{each, is_after_slash, is_space};
ghost use Rattle.fields.specs.Judging.{verdict};

use crate::is_plain;
use crate::judging::judged;
use terms::{InputCause, Service};

// Each judgement is one test and the cause that its kind of field names, so two of them that look alike have nothing more to share.

/// Judges fixed contents.
pub fn judge_fixed(field: &[u8], text: &[u8]) -> Result<(), InputCause>
    ensures { result ≡ verdict (head text.now) field.now }
{
    judged(field == text, InputCause::NotListed)
}

/// Judges a run of unnamed places: spaces.
#[tactic(auto, using(crate::proofs::Contents::blank_spaces))]
pub fn judge_spaces(field: &[u8]) -> Result<(), InputCause>
    ensures { result ≡ verdict (spaces (length field.now)) field.now }
{
    judged(is_blank(field), InputCause::NotListed)
}

/// Judges a free place that is blank or has these contents.
#[tactic(auto, using(crate::proofs::Contents::blank_spaces, crate::proofs::Contents::other_width))]
pub fn judge_blank_or(field: &[u8], text: &[u8]) -> Result<(), InputCause>
    ensures { result ≡ verdict (choice (length text.now) (blank (length text.now) ∷ text.now ∷ [])) field.now }
{
    let blank = field.len() == text.len() && is_blank(field);
    judged(blank || field == text, InputCause::NotListed)
}

/// Whether there are only spaces.
pub(crate) fn is_blank(field: &[u8]) -> bool
    ensures { result ≡ each is_space field.now }
{
    field.iter().all(|byte| *byte == b' ')
}

/// Judges a free place that is all digits or all spaces.
pub fn judge_digits_or_spaces(field: &[u8]) -> Result<(), InputCause>
    ensures { result ≡ verdict (digits_or_spaces (length field.now)) field.now }
{
    judged(is_spare(field), InputCause::NotListed)
}

fn is_spare(field: &[u8]) -> bool
    ensures { result ≡ is_spare_text field.now }
{
    is_digits(field) || is_blank(field)
}

fn is_digits(field: &[u8]) -> bool
    ensures { result ≡ each is_ascii_digit field.now }
{
    field.iter().all(|byte| byte.is_ascii_digit())
}

/// Judges the free-format characters: spaces or, for a credit, a slash and plain characters other than space and ampersand.
pub fn judge_free_format(service: Service, field: &[u8]) -> Result<(), InputCause>
    ensures { result ≡ verdict (free_format service) field.now }
{
    judged(is_good_format(service, field), InputCause::NotListed)
}

fn is_good_format(service: Service, field: &[u8]) -> bool
    ensures { result ≡ good_format service field.now }
{
    is_blank(field) || matches!(service, Service::Credits) && is_slashed(field)
}

fn is_slashed(field: &[u8]) -> bool
    ensures { result ≡ slashed field.now }
{
    match field {
        [first, rest @ ..] => *first == b'/' && rest.iter().all(|byte| is_after_slash(*byte)),
        [] => false,
    }
}

fn is_after_slash(byte: u8) -> bool
    ensures { result ≡ is_after_slash byte }
{
    is_plain(byte) && !b" &".contains(&byte)
}
