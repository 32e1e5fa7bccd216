ghost use Rattle.std.specs.Prelude.{◌≡◌};
ghost use Rattle.terms.specs.declared.cause.Cause.TheVariants.{Input, State};
ghost use Rattle.terms.specs.Causes.{cause_number, input_number, state_number};

use thiserror::Error;

/// Why input is refused.
#[derive(Clone, Copy, PartialEq, Eq, Debug, Error)]
pub enum InputCause {
    /// No line feed ends the line.
    #[error("no line feed ends the line")]
    NoLineFeed = 1,
    /// The line has another length than its kind, or bytes follow the last line.
    #[error("the line has a wrong length, or bytes follow the last line")]
    WrongLength = 2,
    /// Other contents than those listed.
    #[error("none of the contents that may stand here")]
    NotListed = 3,
    /// A place without a digit, or a number too large for its places.
    #[error("no digits, or a number too large for its places")]
    NotANumber = 4,
    /// A character that the field does not take.
    #[error("a character that may not stand here")]
    WrongCharacter = 5,
    /// No date, or no day number from 0 to 36,524.
    #[error("no date or day")]
    NoDate = 6,
    /// A day out of order or out of range.
    #[error("a day out of order or out of range")]
    DayOutOfRange = 7,
    /// A day that the calendar does not open.
    #[error("a day that is not open")]
    DayNotOpen = 8,
    /// A code that is not the service's.
    #[error("a code that the service does not have")]
    WrongCode = 9,
    /// An amount outside the service's limits.
    #[error("an amount outside the service's limits")]
    WrongAmount = 10,
    /// A text that does not begin at the left, or is blank where it has to be filled; an empty serial.
    #[error("a text that does not begin at the left, or is empty")]
    NotAtLeft = 11,
    /// A debit's reference with fewer than six capitals or digits, or with all of them the same.
    #[error("a reference with fewer than six capitals or digits, or with all the same")]
    WeakReference = 12,
    /// Other contents than earlier lines give.
    #[error("not what earlier lines give")]
    Differs = 13,
}

impl InputCause {
    /// The number by which people know the cause.
    // A method: `u8::from(cause)` would not say which number is meant.
    pub fn number(self) -> u8
        ensures { result ≡ input_number self }
    {
        self as u8
    }
}

/// Why a call is refused in the state that it finds.
#[derive(Clone, Copy, PartialEq, Eq, Debug, Error)]
pub enum StateCause {
    /// The workbook is not open or, at opening, open already.
    #[error("the workbook is not open, or is open already")]
    NotOpen = 20,
    /// The table is full.
    #[error("no room for one more")]
    TableFull = 21,
    /// As many changes stand as the history holds.
    #[error("the history holds no more changes")]
    HistoryFull = 22,
    /// There is no such row.
    #[error("there is no such row")]
    NoSuchRow = 23,
    /// There is nothing to undo.
    #[error("there is nothing to undo")]
    NothingToUndo = 24,
    /// There is nothing to redo.
    #[error("there is nothing to redo")]
    NothingToRedo = 25,
    /// A day's total would pass 99,999,999,999 pence.
    #[error("the day's total would be too large")]
    DayTotalTooLarge = 26,
    /// There is no payment.
    #[error("there is no payment")]
    NoPayment = 27,
    /// The area is too small.
    #[error("the area is too small")]
    AreaTooSmall = 28,
}

impl StateCause {
    /// The number by which people know the cause.
    pub fn number(self) -> u8
        ensures { result ≡ state_number self }
    {
        self as u8
    }
}

/// Why a call is refused: by its input, or by the state.
#[derive(Clone, Copy, PartialEq, Eq, Debug, Error)]
pub enum Cause {
    #[error(transparent)]
    Input(InputCause),
    #[error(transparent)]
    State(StateCause),
}

impl Cause {
    /// The number by which people know the cause.
    pub fn number(self) -> u8
        ensures { result ≡ cause_number self }
    {
        match self {
            Cause::Input(cause) => cause.number(),
            Cause::State(cause) => cause.number(),
        }
    }
}

// Derived, `From` would not say which cause it makes.
impl From<InputCause> for Cause {
    ghost from_gives = { λ e r. r ≡ Input e };

    fn from(e: InputCause) -> Cause {
        Cause::Input(e)
    }
}

impl From<StateCause> for Cause {
    ghost from_gives = { λ e r. r ≡ State e };

    fn from(e: StateCause) -> Cause {
        Cause::State(e)
    }
}
