use crate::case::Case;
use crate::contexts::{
    contra_context, dated_context, dated_contra_context, eof1_context, eof2_context, hdr1_context,
    payment_context, uhl1_context, utl1_context,
};
use crate::verdict::{Again, Refusal, judge_as};
use labels::{Hdr1Label, Hdr2Context, Hdr2Label, Uhl1Label, Vol1Label};
use records::{ContraRecord, DatedContraRecord, DatedPaymentRecord, PaymentRecord};
use trailers::{Eof1Label, Eof2Label, Utl1Label};

/// The verdict on a line by the kind and the context of its case. A kind is its word in the table: an enum of the kinds would be matched a second time to make the same calls.
pub fn judge(case: &Case<'_>, line: &[u8]) -> Result<Again, Refusal> {
    let service = case.service;
    let word = case.context;
    match case.kind {
        b"vol1" => judge_as::<Vol1Label>(line, Some(())),
        b"hdr1" => judge_as::<Hdr1Label>(line, hdr1_context(word)),
        b"hdr2" => judge_as::<Hdr2Label>(line, Some(Hdr2Context { service })),
        b"uhl1" => judge_as::<Uhl1Label>(line, uhl1_context(service, word)),
        b"payment" => judge_as::<PaymentRecord>(line, payment_context(service, word)),
        b"dated" => judge_as::<DatedPaymentRecord>(line, dated_context(service, word)),
        b"contra" => judge_as::<ContraRecord>(line, contra_context(service, word)),
        b"datedcontra" => judge_as::<DatedContraRecord>(line, dated_contra_context(service, word)),
        b"eof1" => judge_as::<Eof1Label>(line, eof1_context(word)),
        b"eof2" => judge_as::<Eof2Label>(line, eof2_context(word)),
        b"utl1" => judge_as::<Utl1Label>(line, utl1_context(word)),
        _ => Err(Refusal::NoSuchCase),
    }
}
