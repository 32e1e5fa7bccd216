//! The contexts that a case may choose among. A word that names none gives nothing.
use fields::{AccountNumber, Mark, Owner, SortCode};
use labels::{Hdr1, Hdr1Context, Hdr1Free, Hdr2, Uhl1Context};
use records::{
    ContraContext, Dated, DatedContraContext, DatedPaymentContext, DayRule, Originator,
    PaymentContext,
};
use terms::Service;
use trailers::{Eof1Context, Utl1Context};

const SERIAL: [u8; 6] = *b"ABC123";

/// Day 3 of 2016.
const OPENING: u32 = 5846;

/// Day 10 of 2016.
const CREATION: u32 = 5853;

/// Day 20 of 2016.
const EXPIRY: u32 = 5863;

const NAME: [u8; 18] = *b"ACME WIDGETS      ";

const NARRATIVE: [u8; 18] = *b"WAGES WEEK 2      ";

/// The total of a batch, in pence.
const TOTAL: u64 = 98_765_432_101;

/// The owner is service user 123456, or has a mark.
pub fn hdr1_context(word: &[u8]) -> Option<Hdr1Context> {
    let owner = match word {
        b"" => Owner::Sun(123456),
        b"marked" => Owner::Marked(Mark::Hsbc),
        _ => return None,
    };
    Some(Hdr1Context {
        owner,
        serial: SERIAL,
    })
}

/// A file that is created on day 10 and expires on day 20; for Faster Payments both on the opening day.
pub fn uhl1_context(service: Service, word: &[u8]) -> Option<Uhl1Context> {
    let (creation, expiry) = match service {
        Service::FasterPayments => (OPENING, OPENING),
        _ => (CREATION, EXPIRY),
    };
    let mut context = Uhl1Context {
        service,
        opening: OPENING,
        creation,
        expiry,
        multi: false,
        open: true,
    };
    match word {
        b"" => {}
        b"multi" => context.multi = true,
        b"closed" => context.open = false,
        b"early" => context.creation = OPENING - 1,
        b"late" => context.expiry = OPENING + 1,
        b"wide" => {
            context.opening = 0;
            context.creation = 0;
            context.expiry = 36524;
        }
        _ => return None,
    }
    Some(context)
}

/// Sort code 010203, account 00123456.
fn originator() -> Option<Originator> {
    Some(Originator {
        sort_code: SortCode::new(10203).ok()?,
        account: AccountNumber::new(123456).ok()?,
        name: NAME,
    })
}

/// The first payment of a file, or a later one.
pub fn payment_context(service: Service, word: &[u8]) -> Option<PaymentContext> {
    let originator = match word {
        b"" => None,
        b"later" => Some(originator()?),
        _ => return None,
    };
    Some(PaymentContext {
        service,
        originator,
    })
}

/// The first payment of a file, the first of another batch, or a later one of a batch, whose day is day 12.
pub fn dated_context(service: Service, word: &[u8]) -> Option<DatedPaymentContext> {
    let (originator, day) = match word {
        b"first" => (None, ranged(true)),
        b"closed" => (None, ranged(false)),
        b"batch" => (Some(originator()?), ranged(true)),
        b"later" => (Some(originator()?), DayRule::Fixed(CREATION + 2)),
        _ => return None,
    };
    let undated = PaymentContext {
        service,
        originator,
    };
    Some(Dated { undated, day })
}

/// Days 10 to 20.
fn ranged(open: bool) -> DayRule {
    DayRule::Range {
        first: CREATION,
        last: EXPIRY,
        open,
    }
}

/// The first contra of a file, or a later one.
pub fn contra_context(service: Service, word: &[u8]) -> Option<ContraContext> {
    Some(ContraContext {
        service,
        originator: originator()?,
        total: TOTAL,
        narrative: narrative(word)?,
    })
}

/// The same with day 12.
pub fn dated_contra_context(service: Service, word: &[u8]) -> Option<DatedContraContext> {
    Some(Dated {
        undated: contra_context(service, word)?,
        day: CREATION + 2,
    })
}

/// Whether a narrative is fixed, and which.
fn narrative(word: &[u8]) -> Option<Option<[u8; 18]>> {
    match word {
        b"first" => Some(None),
        b"later" => Some(Some(NARRATIVE)),
        _ => None,
    }
}

/// A header whose free places are blank, or filled.
pub fn eof1_context(word: &[u8]) -> Option<Eof1Context> {
    let free = match word {
        b"" => Hdr1Free {
            user: [b' '; 6],
            version: [b' '; 1],
            user_again: [b' '; 6],
            spare4: [b' '; 4],
            spare2: [b' '; 2],
            access: [b' '; 1],
        },
        b"filled" => Hdr1Free {
            user: *b"123456",
            version: *b"1",
            user_again: *b"123456",
            spare4: *b"7890",
            spare2: *b"45",
            access: *b"0",
        },
        _ => return None,
    };
    let header = Hdr1 {
        creation: CREATION,
        expiry: EXPIRY,
        free,
    };
    Some(Eof1Context {
        serial: SERIAL,
        header,
    })
}

/// A header of a single-day file, or of a multi-day one.
pub fn eof2_context(word: &[u8]) -> Option<Hdr2> {
    match word {
        b"" => Some(Hdr2 { multi: false }),
        b"multi" => Some(Hdr2 { multi: true }),
        _ => None,
    }
}

/// Some totals and counts; none; and the highest that have places.
pub fn utl1_context(word: &[u8]) -> Option<Utl1Context> {
    let (total, count) = match word {
        b"" => (1_234_567, 1_002),
        b"none" => (0, 0),
        b"most" => (9_999_999_999_998, 9_999_998),
        _ => return None,
    };
    let more = if total == 0 { 0 } else { 1 };
    Some(Utl1Context {
        debit_total: total,
        credit_total: total + more,
        debit_count: count,
        credit_count: count + more,
    })
}
