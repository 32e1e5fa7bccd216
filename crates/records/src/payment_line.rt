ghost use Rattle.std.specs.Prelude.{◌≡◌, ◌≤◌, length};
ghost use Rattle.std.specs.Result.{result_map_both};
ghost use Rattle.lines.specs.Places.{place_reading};
ghost use Rattle.places.specs.Fronts.{front};
ghost use Rattle.records.specs.Payments.{DatedSays, PaymentSays, DatedFits, dated_line, dated_place, dated_says, PaymentFits, payment_line, payment_place, payment_says};
ghost use Rattle.records.specs.PaymentLaws.{payment_unbroken, payment_back, dated_unbroken, dated_back};
ghost use Rattle.std.proofs.Common.{rules};

use crate::account::put_account;
use crate::fixing::{OriginatorAccount, OriginatorName, OriginatorSortCode, RecordDay};
use crate::{Dated, DatedPayment, DatedPaymentContext, Originator, Payment, PaymentContext};
use lines::{FileFault, Line};
use places::{
    Amount, BankDigits, Code, Field, Filled, Fixed, FreeFormat, Reference, put_bytes, put_day,
    put_number,
};

/// The kind of line that a payment of a single-day file has.
pub struct PaymentRecord;

/// The kind of line that a payment of a multi-day file has.
pub struct DatedPaymentRecord;

impl Line for PaymentRecord {
    type Context = PaymentContext;

    type Value = Payment;

    const LENGTH: usize = 100;

    ghost Says = { PaymentSays };

    ghost says = { payment_says };

    ghost LENGTH = { 100 };

    ghost place = { λ c _. payment_place c.service c.originator };

    ghost image = { λ _ v. payment_line (payment_says v) };

    ghost fits = { λ c v. PaymentFits c.service c.originator (payment_says v) };

    ghost tiled = { Prim.search rules };

    ghost unbroken = { λ c v h. payment_unbroken c.service c.originator (payment_says v) h };

    ghost back = { λ c v h. payment_back c.service c.originator (payment_says v) h };

    fn read(line: &[u8], context: &PaymentContext) -> Result<Payment, FileFault> {
        read_payment(line, context)
    }

    fn write(value: &Payment, _context: &PaymentContext, out: &mut [u8]) {
        write_payment(value, out);
    }
}

// Not one generic kind of line with `DatedContraRecord`: the day of a payment is judged by its own rule, and the laws are those of two tables.
impl Line for DatedPaymentRecord {
    type Context = DatedPaymentContext;

    type Value = DatedPayment;

    const LENGTH: usize = 106;

    ghost Says = { DatedSays };

    ghost says = { dated_says };

    ghost LENGTH = { 106 };

    ghost place = { λ c _. dated_place c.undated.service c.undated.originator c.day };

    ghost image = { λ _ v. dated_line (dated_says v) };

    ghost fits = { λ c v. DatedFits c.undated.service c.undated.originator c.day (dated_says v) };

    ghost tiled = { Prim.search rules };

    ghost unbroken = { λ c v h. dated_unbroken c.undated.service c.undated.originator c.day (dated_says v) h };

    ghost back = { λ c v h. dated_back c.undated.service c.undated.originator c.day (dated_says v) h };

    fn read(line: &[u8], context: &DatedPaymentContext) -> Result<DatedPayment, FileFault> {
        let undated = read_payment(line, &context.undated)?;
        let day = RecordDay(context.day).at(line, 100)?;
        Ok(Dated { undated, day })
    }

    fn write(value: &DatedPayment, _context: &DatedPaymentContext, out: &mut [u8]) {
        write_payment(&value.undated, out);
        put_day(out, 100, value.day);
    }
}

/// Places 1-100, which both kinds of line share. A type for a line of at least 100 bytes would be made and taken apart in each `Line::read` and `Line::write`.
fn read_payment(line: &[u8], context: &PaymentContext) -> Result<Payment, FileFault>
    requires { 100 ≤ length line.now }
    ensures { result_map_both payment_says (λ e. e) result ≡ place_reading (payment_place context.now.service context.now.originator) line.now }
{
    let sort_code = BankDigits { places: 6 }.at(line, 0)?;
    let account = BankDigits { places: 8 }.at(line, 6)?;
    Fixed(b"0").at(line, 14)?;
    let code = Code(context.service).at(line, 15)?;
    let from_sort_code = OriginatorSortCode(context.originator).at(line, 17)?;
    let from_account = OriginatorAccount(context.originator).at(line, 23)?;
    let free_format = FreeFormat(context.service).at(line, 31)?;
    let amount = Amount(context.service).at(line, 35)?;
    let from_name = OriginatorName {
        service: context.service,
        originator: context.originator,
    }
    .at(line, 46)?;
    let reference = Reference(context.service).at(line, 64)?;
    let name = Filled(context.service).at(line, 82)?;
    Ok(Payment {
        sort_code,
        account,
        code,
        free_format,
        amount,
        reference,
        name,
        originator: Originator {
            sort_code: from_sort_code,
            account: from_account,
            name: from_name,
        },
    })
}

/// Places 1-100, which both kinds of line share.
fn write_payment(value: &Payment, out: &mut [u8])
    requires { 100 ≤ length out.old }
    ensures { front 100 out.new ≡ payment_line (payment_says value.now) }
{
    let from = &value.originator;
    put_account(out, 0, value.sort_code, value.account);
    put_bytes(out, 14, b"0");
    put_bytes(out, 15, &value.code.text());
    put_account(out, 17, from.sort_code, from.account);
    put_bytes(out, 31, &value.free_format);
    put_number(out, 35, 46, value.amount);
    put_bytes(out, 46, &from.name);
    put_bytes(out, 64, &value.reference);
    put_bytes(out, 82, &value.name);
}
