ghost use Rattle.std.specs.Prelude.{◌≡◌};
ghost use Rattle.fields.specs.Characters.{at_right, each, empty_serial, is_sign_byte};
ghost use Rattle.fields.specs.Words.{serial};
ghost use Rattle.fields.specs.Judging.{verdict};

use crate::is_sign;
use crate::judging::judged;
use terms::InputCause;

/// Judges a serial: spaces, and then capitals and digits to the end, not only spaces and zeros.
pub fn judge_serial(field: &[u8]) -> Result<(), InputCause>
    ensures { result ≡ verdict serial field.now }
{
    judged(is_at_right(field), InputCause::WrongCharacter)?;
    judged(!is_empty_serial(field), InputCause::NotAtLeft)
}

fn is_at_right(field: &[u8]) -> bool
    ensures { result ≡ at_right field.now }
{
    match field.iter().position(|byte| *byte != b' ') {
        Some(at) => has_only_signs(&field[at..]),
        None => true,
    }
}

fn has_only_signs(field: &[u8]) -> bool
    ensures { result ≡ each is_sign_byte field.now }
{
    field.iter().all(|byte| is_sign(*byte))
}

fn is_empty_serial(field: &[u8]) -> bool
    ensures { result ≡ empty_serial field.now }
{
    field.iter().all(|byte| matches!(*byte, b' ' | b'0'))
}
