ghost use Rattle.std.specs.Prelude.{◌≡◌, ℕ, List, map};
ghost use Rattle.fields.specs.Words.{choice};
ghost use Rattle.lines.specs.Faults.{fault_of};
ghost use Rattle.labels.specs.Headers.{Hdr2Fits, hdr2_line, hdr2_place, hdr2_says, lengths, record_length_text, hdr2};
ghost use Rattle.tables.proofs.Written.{written_reads};
ghost use Rattle.std.proofs.Common.{rules};

use crate::{Hdr2, Hdr2Context};
use lines::{FileFault, Line};
use places::{Field, Fixed, Spaces, put_bytes, put_spaces};
use terms::{InputCause, Service};

/// The kind of line that gives the length of a record.
pub struct Hdr2Label;

impl Line for Hdr2Label {
    type Context = Hdr2Context;

    type Value = Hdr2;

    const LENGTH: usize = 80;

    ghost Says = { List ℕ };

    ghost says = { hdr2_says };

    ghost LENGTH = { 80 };

    ghost place = { λ k l. hdr2_place k.service };

    ghost image = { λ k h. hdr2_line k.service h };

    ghost fits = { λ k h. Hdr2Fits k.service h };

    ghost tiled = { Prim.search rules };

    ghost unbroken = { Prim.search rules };

    ghost back = { λ k h a. written_reads fault_of (hdr2 k.service) (λ long. long) (hdr2_says h, tt) a };

    fn read(line: &[u8], context: &Hdr2Context) -> Result<Hdr2, FileFault> {
        Fixed(b"HDR2F02000").at(line, 0)?;
        let multi = RecordLength(context.service).at(line, 10)?;
        Spaces(35).at(line, 15)?;
        Fixed(b"00").at(line, 50)?;
        Spaces(28).at(line, 52)?;
        Ok(Hdr2 { multi })
    }

    fn write(value: &Hdr2, _context: &Hdr2Context, out: &mut [u8]) {
        put_bytes(out, 0, b"HDR2F02000");
        put_bytes(out, 10, &record_length(value.multi));
        put_spaces(out, 15, 50);
        put_bytes(out, 50, b"00");
        put_spaces(out, 52, 80);
    }
}

/// The length of a record as HDR2 has it: 106 in a multi-day file, else 100.
pub fn record_length(multi: bool) -> [u8; 5]
    ensures { result ≡ record_length_text multi }
{
    if multi { *b"00106" } else { *b"00100" }
}

/// The length of a record, which says whether the file is multi-day. A Faster Payments file never is.
#[derive(Clone, Copy)]
struct RecordLength(Service);

impl Field for RecordLength {
    type Said = bool;

    ghost kind = { λ f. choice 5 (lengths f.0) };

    ghost says = { λ _ multi. record_length_text multi };

    fn places(&self) -> usize {
        5
    }

    fn read(&self, bytes: &[u8]) -> Result<bool, InputCause> {
        kinds_of_file(self.0)
            .iter()
            .find(|multi| bytes == record_length(**multi).as_slice())
            .copied()
            .ok_or(InputCause::NotListed)
    }
}

/// The kinds of file that the service has, each by whether it is multi-day.
fn kinds_of_file(service: Service) -> &'static [bool]
    ensures { map record_length_text result.now ≡ lengths service }
{
    match service {
        Service::FasterPayments => &[false],
        _ => &[false, true],
    }
}
