use labels::Hdr1;

/// What EOF1 repeats.
#[derive(Clone, Copy)]
pub struct Eof1Context {
    pub serial: [u8; 6],
    pub header: Hdr1,
}

/// What UTL1 adds up: both totals in pence, and how many debits and credits there are, contras among them.
#[derive(Clone, Copy)]
pub struct Utl1Context {
    pub debit_total: u64,
    pub credit_total: u64,
    pub debit_count: u64,
    pub credit_count: u64,
}
