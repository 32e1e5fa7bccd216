ghost use Rattle.std.specs.Prelude.{◌≡◌};
ghost use Rattle.earliest.specs.Questions.{service_word, opening_word};

use days::read_date;
use terms::{InputCause, Service};

/// The service that a word names by its one letter.
pub fn read_service(word: &[u8]) -> Result<Service, InputCause>
    ensures { result ≡ service_word word.now }
{
    match word {
        [letter] => Service::try_from(*letter),
        _ => Err(InputCause::NotListed),
    }
}

/// The opening day that a word names: a date's text, whose space in front may be left out.
pub fn read_opening(word: &[u8]) -> Result<u32, InputCause>
    ensures { result ≡ opening_word word.now }
{
    match word {
        [a, b, c, d, e] => read_date(&[b' ', *a, *b, *c, *d, *e]),
        _ => read_date(word),
    }
}
