//! Fields with fixed contents.
ghost use Rattle.std.specs.Prelude.{◌≡◌, length};
ghost use Rattle.fields.specs.Words.{head, spaces};

use crate::field::Field;
use fields::{judge_fixed, judge_spaces};
use terms::InputCause;

/// These contents, as the head of a label.
#[derive(Clone, Copy)]
pub struct Fixed<'a>(pub &'a [u8]);

impl<'a> Field for Fixed<'a> {
    type Said = ();

    ghost kind = { λ f. head f.0.now };

    ghost says = { λ f v. v };

    fn places(&self) -> usize {
        self.0.len()
    }

    fn read(&self, bytes: &[u8]) -> Result<(), InputCause> {
        judge_fixed(bytes, self.0)
    }
}

/// So many spaces, in unnamed places.
#[derive(Clone, Copy)]
pub struct Spaces(pub usize);

impl Field for Spaces {
    type Said = ();

    ghost kind = { λ f. spaces f.0 };

    ghost says = { λ f v. v };

    fn places(&self) -> usize {
        self.0
    }

    fn read(&self, bytes: &[u8]) -> Result<(), InputCause> {
        judge_spaces(bytes)
    }
}
