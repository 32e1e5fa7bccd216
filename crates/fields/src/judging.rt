//! What is said of a field that was tested.
ghost use Rattle.std.specs.Prelude.{◌≡◌, cond, Ok, Err};

use terms::InputCause;

/// Nothing is wrong if the test passed, else this is.
pub(crate) fn judged(passed: bool, cause: InputCause) -> Result<(), InputCause>
    ensures { result ≡ cond passed (Ok tt) (Err cause) }
{
    passed.then_some(()).ok_or(cause)
}
