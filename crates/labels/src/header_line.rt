ghost use Rattle.std.specs.Prelude.{◌≡◌};
ghost use Rattle.labels.specs.declared.header.Hdr1.{Hdr1 as Header1};
ghost use Rattle.labels.specs.Headers.{Hdr1Fits, hdr1_line, hdr1_place, places_of_owner, user};
ghost use Rattle.labels.specs.HeaderLaws.{hdr1_unbroken, hdr1_back};
ghost use Rattle.std.proofs.Common.{rules};

use crate::{Hdr1, Hdr1Context, Hdr1Free};
use digits::put_digits;
use fields::Owner;
use lines::{FileFault, Line};
use places::{
    AnyBytes, BlankOr, Date, DigitsOrSpaces, Field, Fixed, Given, Spaces, put_bytes, put_day,
    put_spaces,
};
use terms::InputCause;

/// The kind of line that gives the dates of a file.
pub struct Hdr1Label;

impl Line for Hdr1Label {
    type Context = Hdr1Context;

    type Value = Hdr1;

    const LENGTH: usize = 80;

    ghost Says = { Header1 };

    ghost says = { λ h. h };

    ghost LENGTH = { 80 };

    ghost place = { λ k l. hdr1_place k };

    ghost image = { hdr1_line };

    ghost fits = { Hdr1Fits };

    ghost tiled = { Prim.search rules };

    ghost unbroken = { hdr1_unbroken };

    ghost back = { hdr1_back };

    fn read(line: &[u8], context: &Hdr1Context) -> Result<Hdr1, FileFault> {
        Fixed(b"HDR1A").at(line, 0)?;
        let user = OwnerAgain(context.owner).at(line, 5)?;
        Fixed(b"S").at(line, 11)?;
        Spaces(2).at(line, 12)?;
        let version = BlankOr(*b"1").at(line, 14)?;
        let user_again = OwnerAgain(context.owner).at(line, 15)?;
        Given(AnyBytes, context.serial).at(line, 21)?;
        Fixed(b"00010001").at(line, 27)?;
        let spare4 = DigitsOrSpaces::<4>.at(line, 35)?;
        let spare2 = DigitsOrSpaces::<2>.at(line, 39)?;
        let creation = Date.at(line, 41)?;
        let expiry = Date.at(line, 47)?;
        let access = BlankOr(*b"0").at(line, 53)?;
        Fixed(b"000000").at(line, 54)?;
        Spaces(20).at(line, 60)?;
        let free = Hdr1Free {
            user,
            version,
            user_again,
            spare4,
            spare2,
            access,
        };
        Ok(Hdr1 {
            creation,
            expiry,
            free,
        })
    }

    fn write(value: &Hdr1, context: &Hdr1Context, out: &mut [u8]) {
        put_bytes(out, 0, b"HDR1A");
        put_spaces(out, 5, 11);
        put_bytes(out, 11, b"S");
        put_spaces(out, 12, 14);
        put_spaces(out, 14, 15);
        put_spaces(out, 15, 21);
        put_bytes(out, 21, &context.serial);
        put_bytes(out, 27, b"00010001");
        put_spaces(out, 35, 39);
        put_spaces(out, 39, 41);
        put_day(out, 41, value.creation);
        put_day(out, 47, value.expiry);
        put_spaces(out, 53, 54);
        put_bytes(out, 54, b"000000");
        put_spaces(out, 60, 80);
    }
}

/// A free place that is blank or repeats VOL1 42-47. By its own kind, the table's kind is named by the owner and not by what a call answered.
#[derive(Clone, Copy)]
struct OwnerAgain(Owner);

impl Field for OwnerAgain {
    type Said = [u8; 6];

    ghost kind = { λ f. user f.0 };

    ghost says = { λ _ v. v };

    fn places(&self) -> usize {
        6
    }

    fn read(&self, bytes: &[u8]) -> Result<[u8; 6], InputCause> {
        BlankOr(owner_places(self.0)).read(bytes)
    }
}

/// What stands at VOL1 42-47: the service user number, or spaces beside a mark.
pub fn owner_places(owner: Owner) -> [u8; 6]
    ensures { result ≡ places_of_owner owner }
{
    let mut places = [b' '; 6];
    if let Owner::Sun(sun) = owner {
        put_digits(&mut places, sun as u64);
    }
    places
}
