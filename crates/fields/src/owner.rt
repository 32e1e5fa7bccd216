ghost use Rattle.std.specs.Prelude.{◌≡◌};
ghost use Rattle.std.specs.Result.{result_map_both};
ghost use Rattle.fields.specs.Judging.{mark_text, marks};
ghost use Rattle.tables.specs.Walks.{reading};

use terms::InputCause;

/// Who a file belongs to: a service user by its number, or a mark.
#[derive(Clone, Copy, PartialEq, Eq, Debug)]
pub enum Owner {
    /// The service user number (SUN), six digits.
    Sun(u32),
    Marked(Mark),
}

/// A mark in the place of a service user number.
#[derive(Clone, Copy, PartialEq, Eq, Debug)]
pub enum Mark {
    Hsbc,
    Sage,
}

impl Mark {
    /// The six characters of the mark.
    pub fn text(self) -> [u8; 6]
        ensures { result ≡ mark_text self }
    {
        match self {
            Mark::Hsbc => *b"HSBC  ",
            Mark::Sage => *b"SAGE  ",
        }
    }
}

/// The mark that six characters say.
// A named reading like those of codes and amounts, which take a service too, so no TryFrom.
pub fn read_mark(field: &[u8]) -> Result<Mark, InputCause>
    ensures { result_map_both mark_text (λ e. e) result ≡ reading marks field.now }
{
    [Mark::Hsbc, Mark::Sage]
        .into_iter()
        .find(|mark| field == mark.text().as_slice())
        .ok_or(InputCause::NotListed)
}
