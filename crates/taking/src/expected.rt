ghost use Rattle.std.specs.Prelude.{◌≡◌};
ghost use Rattle.taking.specs.Expecting.{expected_line};

use records::is_contra;
use terms::Service;

/// How far the records so far have come.
#[derive(Clone, Copy, PartialEq, Eq, Debug)]
pub enum Progress {
    /// There is none yet.
    Start,
    /// The last batch has payments and no contra yet.
    InBatch,
    /// The last record is the contra of its batch.
    AfterContra,
}

/// Which line comes after the records so far.
#[derive(Clone, Copy, PartialEq, Eq, Debug)]
pub enum Expected {
    Payment,
    Contra,
    /// EOF1, the first label after the batches.
    Trailer,
}

/// Which line comes, by the bytes that follow.
pub fn expect_line(service: Service, multi: bool, progress: Progress, bytes: &[u8]) -> Expected
    ensures { result ≡ expected_line service multi progress bytes.now }
{
    match progress {
        Progress::InBatch if is_contra(service, bytes) => Expected::Contra,
        Progress::AfterContra if !multi || bytes.starts_with(b"EOF1") => Expected::Trailer,
        Progress::Start | Progress::InBatch | Progress::AfterContra => Expected::Payment,
    }
}
