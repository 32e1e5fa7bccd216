ghost use Rattle.std.specs.Prelude.{◌≡◌, length};
ghost use Rattle.trailers.specs.Closings.{eof2_line, eof2_place, Utl1Fits, utl1_line, utl1_place};
ghost use Rattle.trailers.specs.ClosingLaws.{eof2_back, utl1_unbroken, utl1_back};
ghost use Rattle.std.proofs.Common.{rules};

use crate::Utl1Context;
use labels::{Hdr2, record_length};
use lines::{FileFault, Line};
use places::{AnyBytes, Field, Fixed, Given, Number, Spaces, put_bytes, put_number, put_spaces};

/// The kind of line that repeats HDR2.
pub struct Eof2Label;

impl Line for Eof2Label {
    type Context = Hdr2;

    type Value = ();

    const LENGTH: usize = 80;

    ghost Says = { Unit {0} };

    ghost says = { λ v. v };

    ghost LENGTH = { 80 };

    ghost place = { λ h l. eof2_place h };

    ghost image = { λ h v. eof2_line h };

    ghost fits = { λ h v. Unit {0} };

    ghost tiled = { Prim.search rules };

    ghost unbroken = { Prim.search rules };

    ghost back = { λ h v a. eof2_back h };

    fn read(line: &[u8], context: &Hdr2) -> Result<(), FileFault> {
        Fixed(b"EOF2").at(line, 0)?;
        Given(Fixed(b"F02000"), ()).at(line, 4)?;
        Given(AnyBytes, record_length(context.multi)).at(line, 10)?;
        Given(Fixed(b"                                   "), ()).at(line, 15)?;
        Given(Fixed(b"00"), ()).at(line, 50)?;
        Given(Fixed(b"                            "), ()).at(line, 52)?;
        Ok(())
    }

    fn write(_value: &(), context: &Hdr2, out: &mut [u8]) {
        put_bytes(out, 0, b"EOF2");
        put_bytes(out, 4, b"F02000");
        put_bytes(out, 10, &record_length(context.multi));
        put_spaces(out, 15, 50);
        put_bytes(out, 50, b"00");
        put_spaces(out, 52, 80);
    }
}

/// The kind of line that ends a file with its totals and counts.
pub struct Utl1Label;

impl Line for Utl1Label {
    type Context = Utl1Context;

    type Value = ();

    const LENGTH: usize = 80;

    ghost Says = { Unit {0} };

    ghost says = { λ v. v };

    ghost LENGTH = { 80 };

    ghost place = { λ k l. utl1_place k };

    ghost image = { λ k v. utl1_line k };

    ghost fits = { λ k v. Utl1Fits k };

    ghost tiled = { Prim.search rules };

    ghost unbroken = { λ k v a. utl1_unbroken k a };

    ghost back = { λ k v a. utl1_back k a };

    fn read(line: &[u8], context: &Utl1Context) -> Result<(), FileFault> {
        let total = Number { places: 13 };
        let count = Number { places: 7 };
        Fixed(b"UTL1").at(line, 0)?;
        Given(total, context.debit_total).at(line, 4)?;
        Given(total, context.credit_total).at(line, 17)?;
        Given(count, context.debit_count).at(line, 30)?;
        Given(count, context.credit_count).at(line, 37)?;
        Spaces(36).at(line, 44)?;
        Ok(())
    }

    fn write(_value: &(), context: &Utl1Context, out: &mut [u8]) {
        put_bytes(out, 0, b"UTL1");
        put_number(out, 4, 17, context.debit_total);
        put_number(out, 17, 30, context.credit_total);
        put_number(out, 30, 37, context.debit_count);
        put_number(out, 37, 44, context.credit_count);
        put_spaces(out, 44, 80);
    }
}
