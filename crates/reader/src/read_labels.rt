ghost use Rattle.std.specs.Prelude.{◌≡◌, ◌+◌, ◌<◌, ◌≤◌, length, drop, IfOk, OnOk};
ghost use Rattle.std.specs.Result.{result_map_both};
ghost use Rattle.lines.specs.Places.{place_reading};
ghost use Rattle.grammar.specs.Next.Said.{start};
ghost use Rattle.grammar.specs.Reading.{reading_on};
ghost use Rattle.taking.specs.Taking.{carried, taking};
ghost use Rattle.reader.specs.Labelling.{after_labels};
ghost use Rattle.reader.specs.Settings.{setting};

use crate::label_values::Labels;
use calendars::Calendar;
use labels::{
    Hdr1Context, Hdr1Label, Hdr2, Hdr2Context, Hdr2Label, Uhl1, Uhl1Context, Uhl1Label, Vol1,
    Vol1Label,
};
use lines::{Fault, Line};
use taking::{opens_day_at, take_line};
use terms::Service;

/// Reads the label with this number at the front of the bytes, and hands on the bytes behind its line feed.
fn take_label<'a, L: Line>(
    number: usize,
    bytes: &'a [u8],
    context: &L::Context,
) -> Result<(L::Value, &'a [u8]), Fault>
    ensures value { result_map_both (λ p. L.says p.0) (λ e. e) result ≡ taking number L.LENGTH (λ l. place_reading (L.place context.now l) l) bytes.now }
    ensures behind { IfOk result (λ p. p.1.now ≡ drop (L.LENGTH + 1) bytes.now) }
    ensures within { OnOk result (L.LENGTH < length bytes.now) }
{
    let value = take_line::<L>(number, bytes, context)?;
    Ok((value, &bytes[L::LENGTH + 1..]))
}

/// Reads VOL1, HDR1, HDR2 and UHL1 at the front of a file.
pub(crate) fn read_labels<C: Calendar>(
    service: Service,
    opening: u32,
    calendar: &C,
    bytes: &[u8],
) -> Result<Labels, Fault>
    ensures value { reading_on (setting service opening (C.opens calendar.now)) 1 start bytes.now ≡ carried result (λ l. reading_on (setting service opening (C.opens calendar.now)) 5 (after_labels l) (drop 324 bytes.now)) }
    ensures within { OnOk result (324 ≤ length bytes.now) }
{
    let (Vol1 { owner, serial }, after_volume) = take_label::<Vol1Label>(1, bytes, &())?;
    let context = Hdr1Context { owner, serial };
    let (header, after_header) = take_label::<Hdr1Label>(2, after_volume, &context)?;
    let context = Hdr2Context { service };
    let (Hdr2 { multi }, after_size) = take_label::<Hdr2Label>(3, after_header, &context)?;
    let context = Uhl1Context {
        service,
        opening,
        creation: header.creation,
        expiry: header.expiry,
        multi,
        open: opens_day_at(calendar, after_size, 4),
    };
    let (Uhl1 { processing, number }, _) = take_label::<Uhl1Label>(4, after_size, &context)?;
    Ok(Labels {
        owner,
        serial,
        header,
        multi,
        processing,
        number,
    })
}
