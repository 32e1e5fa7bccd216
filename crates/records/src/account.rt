ghost use Rattle.std.specs.Prelude.{◌≡◌, ◌+◌, ◌≤◌, ◌++◌, length};
ghost use Rattle.places.specs.Fronts.{front};
ghost use Rattle.tables.specs.Forms.{shown};
ghost use Rattle.tables.specs.Forms.Form.{decimals};

use fields::{AccountNumber, SortCode};
use places::put_number;

/// Puts a sort code and an account number after the first `from` bytes.
pub(crate) fn put_account(out: &mut [u8], from: usize, sort_code: SortCode, account: AccountNumber)
    requires { from + 14 ≤ length out.old }
    ensures { front (from + 14) out.new ≡ (front from out.old ++ shown (decimals 6) sort_code.value) ++ shown (decimals 8) account.value }
{
    put_number(out, from, from + 6, sort_code.number() as u64);
    put_number(out, from + 6, from + 14, account.number() as u64);
}
