ghost use Rattle.std.specs.Prelude.{◌≡◌, length};
ghost use Rattle.trailers.specs.Repeats.{Eof1Fits, eof1_line, eof1_place};
ghost use Rattle.trailers.specs.RepeatLaws.{eof1_unbroken, eof1_back};
ghost use Rattle.std.proofs.Common.{rules};

use crate::Eof1Context;
use lines::{FileFault, Line};
use places::{AnyBytes, Date, Field, Fixed, Given, Spaces, put_bytes, put_day, put_spaces};

/// The kind of line that repeats HDR1.
pub struct Eof1Label;

impl Line for Eof1Label {
    type Context = Eof1Context;

    type Value = ();

    const LENGTH: usize = 80;

    ghost Says = { Unit {0} };

    ghost says = { λ v. v };

    ghost LENGTH = { 80 };

    ghost place = { λ k l. eof1_place k };

    ghost image = { λ k v. eof1_line k };

    ghost fits = { λ k v. Eof1Fits k };

    ghost tiled = { Prim.search rules };

    ghost unbroken = { λ k v a. eof1_unbroken k a };

    ghost back = { λ k v a. eof1_back k a };

    fn read(line: &[u8], context: &Eof1Context) -> Result<(), FileFault> {
        let header = &context.header;
        let free = &header.free;
        Fixed(b"EOF1").at(line, 0)?;
        Given(Fixed(b"A"), ()).at(line, 4)?;
        Given(AnyBytes, free.user).at(line, 5)?;
        Given(Fixed(b"S"), ()).at(line, 11)?;
        Given(Fixed(b"  "), ()).at(line, 12)?;
        Given(AnyBytes, free.version).at(line, 14)?;
        Given(AnyBytes, free.user_again).at(line, 15)?;
        Given(AnyBytes, context.serial).at(line, 21)?;
        Given(Fixed(b"00010001"), ()).at(line, 27)?;
        Given(AnyBytes, free.spare4).at(line, 35)?;
        Given(AnyBytes, free.spare2).at(line, 39)?;
        Given(Date, header.creation).at(line, 41)?;
        Given(Date, header.expiry).at(line, 47)?;
        Given(AnyBytes, free.access).at(line, 53)?;
        Spaces(6).at(line, 54)?;
        Given(Fixed(b"                    "), ()).at(line, 60)?;
        Ok(())
    }

    fn write(_value: &(), context: &Eof1Context, out: &mut [u8]) {
        put_bytes(out, 0, b"EOF1");
        put_bytes(out, 4, b"A");
        put_bytes(out, 5, &context.header.free.user);
        put_bytes(out, 11, b"S");
        put_spaces(out, 12, 14);
        put_bytes(out, 14, &context.header.free.version);
        put_bytes(out, 15, &context.header.free.user_again);
        put_bytes(out, 21, &context.serial);
        put_bytes(out, 27, b"00010001");
        put_bytes(out, 35, &context.header.free.spare4);
        put_bytes(out, 39, &context.header.free.spare2);
        put_day(out, 41, context.header.creation);
        put_day(out, 47, context.header.expiry);
        put_bytes(out, 53, &context.header.free.access);
        put_spaces(out, 54, 60);
        put_spaces(out, 60, 80);
    }
}
