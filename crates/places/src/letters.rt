//! Fields whose bytes are what they say. Each kind joins the table's kind to its judgement: a further trait over the two would need an impl for each as well.
ghost use Rattle.std.specs.Prelude.{◌≡◌, ℕ, [], ◌∷◌, length, List, Ok};
ghost use Rattle.fields.specs.Words.{blank, choice, digits_or_spaces, filled, free_format, reference, serial, text};
ghost use Rattle.tables.specs.Kinds.Kind.{letters};
ghost use Rattle.tables.specs.Walks.{after};

use crate::field::Field;
use fields::{
    judge_blank_or, judge_digits_or_spaces, judge_filled, judge_free_format, judge_reference,
    judge_serial, judge_text,
};
use terms::{InputCause, Service};

/// The bytes of a field that is judged: taken where nothing is wrong with it.
pub(crate) fn taken<const N: usize>(
    bytes: &[u8],
    verdict: Result<(), InputCause>,
) -> Result<[u8; N], InputCause>
    requires { length bytes.now ≡ N }
    ensures { result ≡ after verdict (λ _. Ok bytes.now) }
{
    verdict?;
    let mut text = [0; N];
    text.copy_from_slice(bytes);
    Ok(text)
}

/// The serial of a file.
#[derive(Clone, Copy)]
pub struct Serial;

impl Field for Serial {
    type Said = [u8; 6];

    ghost kind = { λ _. serial };

    ghost says = { λ _ v. v };

    fn places(&self) -> usize {
        6
    }

    fn read(&self, bytes: &[u8]) -> Result<[u8; 6], InputCause> {
        taken(bytes, judge_serial(bytes))
    }
}

/// A text in the service's characters, which may be blank.
#[derive(Clone, Copy)]
pub struct Text(pub Service);

impl Field for Text {
    type Said = [u8; 18];

    ghost kind = { λ f. text f.0 };

    ghost says = { λ _ v. v };

    fn places(&self) -> usize {
        18
    }

    fn read(&self, bytes: &[u8]) -> Result<[u8; 18], InputCause> {
        taken(bytes, judge_text(self.0, bytes))
    }
}

/// A text that is not blank.
#[derive(Clone, Copy)]
pub struct Filled(pub Service);

impl Field for Filled {
    type Said = [u8; 18];

    ghost kind = { λ f. filled f.0 };

    ghost says = { λ _ v. v };

    fn places(&self) -> usize {
        18
    }

    fn read(&self, bytes: &[u8]) -> Result<[u8; 18], InputCause> {
        taken(bytes, judge_filled(self.0, bytes))
    }
}

/// The reference of a payment.
#[derive(Clone, Copy)]
pub struct Reference(pub Service);

impl Field for Reference {
    type Said = [u8; 18];

    ghost kind = { λ f. reference f.0 };

    ghost says = { λ _ v. v };

    fn places(&self) -> usize {
        18
    }

    fn read(&self, bytes: &[u8]) -> Result<[u8; 18], InputCause> {
        taken(bytes, judge_reference(self.0, bytes))
    }
}

/// The free-format characters of a payment.
#[derive(Clone, Copy)]
pub struct FreeFormat(pub Service);

impl Field for FreeFormat {
    type Said = [u8; 4];

    ghost kind = { λ f. free_format f.0 };

    ghost says = { λ _ v. v };

    fn places(&self) -> usize {
        4
    }

    fn read(&self, bytes: &[u8]) -> Result<[u8; 4], InputCause> {
        taken(bytes, judge_free_format(self.0, bytes))
    }
}

/// A free place that is blank or has these contents.
#[derive(Clone, Copy)]
pub struct BlankOr<const N: usize>(pub [u8; N]);

impl<const N: usize> Field for BlankOr<N> {
    type Said = [u8; N];

    ghost kind = { λ f. choice N (blank N ∷ f.0 ∷ []) };

    ghost says = { λ _ v. v };

    fn places(&self) -> usize {
        N
    }

    fn read(&self, bytes: &[u8]) -> Result<[u8; N], InputCause> {
        taken(bytes, judge_blank_or(bytes, &self.0))
    }
}

/// A free place that is all digits or all spaces.
#[derive(Clone, Copy)]
pub struct DigitsOrSpaces<const N: usize>;

impl<const N: usize> Field for DigitsOrSpaces<N> {
    type Said = [u8; N];

    ghost kind = { λ _. digits_or_spaces N };

    ghost says = { λ _ v. v };

    fn places(&self) -> usize {
        N
    }

    fn read(&self, bytes: &[u8]) -> Result<[u8; N], InputCause> {
        taken(bytes, judge_digits_or_spaces(bytes))
    }
}

/// Any bytes.
#[derive(Clone, Copy)]
pub struct AnyBytes<const N: usize>;

impl<const N: usize> Field for AnyBytes<N> {
    type Said = [u8; N];

    ghost kind = { λ _. letters N [] };

    ghost says = { λ _ v. v };

    fn places(&self) -> usize {
        N
    }

    fn read(&self, bytes: &[u8]) -> Result<[u8; N], InputCause> {
        taken(bytes, Ok(()))
    }
}
