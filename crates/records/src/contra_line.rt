ghost use Rattle.std.specs.Prelude.{◌≡◌, ◌≤◌, [], length};
ghost use Rattle.std.specs.Result.{result_map_both};
ghost use Rattle.fields.specs.Words.{contra_code_text, head};
ghost use Rattle.lines.specs.Faults.{fault_of};
ghost use Rattle.lines.specs.Places.{place_reading};
ghost use Rattle.places.specs.Fronts.{front};
ghost use Rattle.tables.specs.Walks.{fields_reading};
ghost use Rattle.records.specs.Contras.{ContraSays, body_after, body_fields, ContraFits, contra_line, contra_of, contra_place, contra_says, contra_shown, DatedContraFits, dated_contra_line, dated_contra_place};
ghost use Rattle.records.specs.ContraLaws.{contra_unbroken, contra_back, dated_contra_unbroken, dated_contra_back};
ghost use Rattle.std.proofs.Common.{rules};

use crate::account::put_account;
use crate::fixing::Narrative;
use crate::{Contra, ContraContext, DatedContraContext};
use fields::{contra_code, judge_fixed};
use lines::{FileFault, Line};
use places::{
    AnyBytes, BankDigits, Date, Field, Fixed, Given, Number, Spaces, part, put_bytes, put_day,
    put_number, put_spaces,
};
use terms::{InputCause, Service};

/// The kind of line that a contra of a single-day file has.
pub struct ContraRecord;

/// The kind of line that a contra of a multi-day file has.
pub struct DatedContraRecord;

impl Line for ContraRecord {
    type Context = ContraContext;

    type Value = Contra;

    const LENGTH: usize = 100;

    ghost Says = { ContraSays };

    ghost says = { contra_says };

    ghost LENGTH = { 100 };

    ghost place = { λ c _. contra_place c.service c.originator c.total c.narrative };

    ghost image = { λ c v. contra_line c.service c.originator c.total (contra_says v) };

    ghost fits = { λ c v. ContraFits c.service c.originator c.total c.narrative (contra_says v) };

    ghost tiled = { Prim.search rules };

    ghost unbroken = { λ c v h. contra_unbroken c.service c.originator c.total c.narrative (contra_says v) h };

    ghost back = { λ c v h. contra_back c.service c.originator c.total c.narrative (contra_says v) h };

    fn read(line: &[u8], context: &ContraContext) -> Result<Contra, FileFault> {
        read_contra(line, context)
    }

    fn write(value: &Contra, context: &ContraContext, out: &mut [u8]) {
        write_contra(value, context, out);
    }
}

impl Line for DatedContraRecord {
    type Context = DatedContraContext;

    type Value = Contra;

    const LENGTH: usize = 106;

    ghost Says = { ContraSays };

    ghost says = { contra_says };

    ghost LENGTH = { 106 };

    ghost place = { λ c _. let k = c.undated in dated_contra_place k.service k.originator k.total k.narrative c.day };

    ghost image = { λ c v. let k = c.undated in dated_contra_line k.service k.originator k.total c.day (contra_says v) };

    ghost fits = { λ c v. let k = c.undated in DatedContraFits k.service k.originator k.total k.narrative c.day (contra_says v) };

    ghost tiled = { Prim.search rules };

    ghost unbroken = { λ c v h. let k = c.undated in dated_contra_unbroken k.service k.originator k.total k.narrative (contra_says v) c.day h };

    ghost back = { λ c v h. let k = c.undated in dated_contra_back k.service k.originator k.total k.narrative (contra_says v) c.day h };

    fn read(line: &[u8], context: &DatedContraContext) -> Result<Contra, FileFault> {
        let contra = read_contra(line, &context.undated)?;
        Given(Date, context.day).at(line, 100)?;
        Ok(contra)
    }

    fn write(value: &Contra, context: &DatedContraContext, out: &mut [u8]) {
        write_contra(value, &context.undated, out);
        put_day(out, 100, context.day);
    }
}

/// Whether the service's code of a contra stands at places 16-17, by which a contra is told from a payment.
pub fn is_contra(service: Service, line: &[u8]) -> bool
    ensures { result ≡ contra_shown service line.now }
{
    let code: &[u8] = &contra_code(service);
    line.len() >= 17 && part(line, 15, 17) == code
}

/// Places 1-100, which both kinds of line share. A type for a line of at least 100 bytes would be made and taken apart in each `Line::read` and `Line::write`.
fn read_contra(line: &[u8], context: &ContraContext) -> Result<Contra, FileFault>
    requires { 100 ≤ length line.now }
    ensures { let k = context.now in result_map_both contra_says (λ e. e) result ≡ place_reading (contra_place k.service k.originator k.total k.narrative) line.now }
{
    let from = &context.originator;
    Given(BankDigits { places: 6 }, from.sort_code).at(line, 0)?;
    Given(BankDigits { places: 8 }, from.account).at(line, 6)?;
    Fixed(b"0").at(line, 14)?;
    ContraCode(context.service).at(line, 15)?;
    read_body(line, context)
}

/// Places 18-100. They are read apart from those before: to a proof the code before them is the service's, and that it has two places is a step of its own.
fn read_body(line: &[u8], context: &ContraContext) -> Result<Contra, FileFault>
    requires { 100 ≤ length line.now }
    ensures { let k = context.now in result_map_both contra_says (λ e. e) result ≡ fields_reading fault_of ContraSays (body_fields k.service k.originator k.total k.narrative []) contra_of 17 line.now }
{
    let from = &context.originator;
    Given(BankDigits { places: 6 }, from.sort_code).at(line, 17)?;
    Given(BankDigits { places: 8 }, from.account).at(line, 23)?;
    Spaces(4).at(line, 31)?;
    Given(Number { places: 11 }, context.total).at(line, 35)?;
    let narrative = Narrative {
        service: context.service,
        narrative: context.narrative,
    }
    .at(line, 46)?;
    Fixed(b"CONTRA").at(line, 64)?;
    Spaces(12).at(line, 70)?;
    Given(AnyBytes, from.name).at(line, 82)?;
    Ok(Contra { narrative })
}

/// The service's code of a contra. By its own kind, the table's kind is named by the service and not by what a call answered.
#[derive(Clone, Copy)]
struct ContraCode(Service);

impl Field for ContraCode {
    type Said = ();

    ghost kind = { λ f. head (contra_code_text f.0) };

    ghost says = { λ _ v. v };

    fn places(&self) -> usize {
        2
    }

    fn read(&self, bytes: &[u8]) -> Result<(), InputCause> {
        judge_fixed(bytes, &contra_code(self.0))
    }
}

/// Places 1-100, which both kinds of line share.
fn write_contra(value: &Contra, context: &ContraContext, out: &mut [u8])
    requires { 100 ≤ length out.old }
    ensures { let k = context.now in front 100 out.new ≡ contra_line k.service k.originator k.total (contra_says value.now) }
{
    put_account(
        out,
        0,
        context.originator.sort_code,
        context.originator.account,
    );
    put_bytes(out, 14, b"0");
    put_bytes(out, 15, &contra_code(context.service));
    write_body(value, context, out);
}

/// Places 18-100.
fn write_body(value: &Contra, context: &ContraContext, out: &mut [u8])
    requires { 100 ≤ length out.old }
    ensures { let k = context.now in front 100 out.new ≡ body_after (front 17 out.old) k.service k.originator k.total (contra_says value.now) }
{
    let originator = &context.originator;
    put_account(out, 17, originator.sort_code, originator.account);
    put_spaces(out, 31, 35);
    put_number(out, 35, 46, context.total);
    put_bytes(out, 46, &value.narrative);
    put_bytes(out, 64, b"CONTRA");
    put_spaces(out, 70, 82);
    put_bytes(out, 82, &originator.name);
}
