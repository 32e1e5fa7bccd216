ghost use Rattle.std.specs.Prelude.{◌≡◌};
ghost use Rattle.labels.specs.declared.user.Uhl1.{Uhl1 as UserLabel};
ghost use Rattle.labels.specs.Users.{in_order, only, processing, Uhl1Fits, uhl1_line, uhl1_place, work};
ghost use Rattle.labels.specs.UserLaws.{uhl1_unbroken, uhl1_back};
ghost use Rattle.std.proofs.Common.{rules};

use crate::{Uhl1, Uhl1Context};
use fields::judge_fixed;
use lines::{FileFault, Line};
use places::{
    BlankOr, Date, DigitsOrSpaces, Field, Fixed, SmallNumber, Spaces, put_bytes, put_day,
    put_number, put_spaces, usable_day,
};
use terms::{InputCause, Service};

/// The kind of line that gives the processing day.
pub struct Uhl1Label;

impl Line for Uhl1Label {
    type Context = Uhl1Context;

    type Value = Uhl1;

    const LENGTH: usize = 80;

    ghost Says = { UserLabel };

    ghost says = { λ u. u };

    ghost LENGTH = { 80 };

    ghost place = { λ k l. uhl1_place k };

    ghost image = { uhl1_line };

    ghost fits = { Uhl1Fits };

    ghost tiled = { Prim.search rules };

    ghost unbroken = { uhl1_unbroken };

    ghost back = { uhl1_back };

    fn read(line: &[u8], context: &Uhl1Context) -> Result<Uhl1, FileFault> {
        Fixed(b"UHL1").at(line, 0)?;
        let processing = ProcessingDay(*context).at(line, 4)?;
        Fixed(b"999999").at(line, 10)?;
        Spaces(4).at(line, 16)?;
        Fixed(b"00000000").at(line, 20)?;
        WorkCode {
            service: context.service,
            multi: context.multi,
        }
        .at(line, 28)?;
        let number = SmallNumber { places: 3 }.at(line, 37)?;
        Spaces(7).at(line, 40)?;
        BlankOr(*b"AUD").at(line, 47)?;
        DigitsOrSpaces::<4>.at(line, 50)?;
        Spaces(26).at(line, 54)?;
        Ok(Uhl1 { processing, number })
    }

    fn write(value: &Uhl1, context: &Uhl1Context, out: &mut [u8]) {
        put_bytes(out, 0, b"UHL1");
        put_day(out, 4, value.processing);
        put_bytes(out, 10, b"999999");
        put_spaces(out, 16, 20);
        put_bytes(out, 20, b"00000000");
        put_bytes(out, 28, &work_code(context.service, context.multi));
        put_number(out, 37, 40, value.number as u64);
        put_spaces(out, 40, 47);
        put_spaces(out, 47, 50);
        put_spaces(out, 50, 54);
        put_spaces(out, 54, 80);
    }
}

/// The work code of a kind of file.
pub fn work_code(service: Service, multi: bool) -> [u8; 9]
    ensures { result ≡ work service multi }
{
    match service {
        Service::FasterPayments => *b"2 FPS    ",
        _ => { if multi { *b"4 MULTI  " } else { *b"1 DAILY  " } }
    }
}

/// The work code of the file, exactly.
#[derive(Clone, Copy)]
struct WorkCode {
    service: Service,
    multi: bool,
}

impl Field for WorkCode {
    type Said = ();

    ghost kind = { λ f. only 9 (work f.service f.multi) };

    ghost says = { λ f _. work f.service f.multi };

    fn places(&self) -> usize {
        9
    }

    fn read(&self, bytes: &[u8]) -> Result<(), InputCause> {
        judge_fixed(bytes, &work_code(self.service, self.multi))
    }
}

/// Whether the days of the file stand in order: for Faster Payments all are the opening day.
pub fn is_in_order(context: &Uhl1Context, day: u32) -> bool
    ensures { result ≡ in_order context.now.service context.now.opening context.now.creation context.now.expiry day }
{
    match context.service {
        Service::FasterPayments => {
            context.creation == context.opening
                && context.expiry == context.opening
                && day == context.opening
        }
        _ => context.creation <= day && day < context.expiry && context.opening < day,
    }
}

/// The processing day: in order, and open.
#[derive(Clone, Copy)]
struct ProcessingDay(Uhl1Context);

impl Field for ProcessingDay {
    type Said = u32;

    ghost kind = { λ f. processing f.0 };

    ghost says = { λ _ d. d };

    fn places(&self) -> usize {
        6
    }

    fn read(&self, bytes: &[u8]) -> Result<u32, InputCause> {
        let day = Date.read(bytes)?;
        usable_day(day, is_in_order(&self.0, day), self.0.open)
    }
}
