//! What a call came to.
ghost use Rattle.std.specs.Prelude.{◌≡◌};
ghost use Rattle.ecma_rows.specs.Told as told;

/// What a call came to.
#[derive(Clone, Copy, Debug, PartialEq, Eq)]
pub enum Status {
    /// All was written.
    Done,
    /// A place that was named is not that of a `/` or `/=` which is read there.
    NoSlash,
    /// The text is no UTF-8.
    NotUtf8,
    /// An error is recorded, or a token is one, so that there is no canonical text.
    NotClean,
    /// Allocation failed.
    OutOfMemory,
    /// There is no room for all. What fits was written.
    NoRoom,
    /// An option is unknown, the places do not ascend, or two of these are to say which slashes begin regular expressions: the
    /// flag, the tokens before, and places.
    Refused,
    /// The text, or its canonical text, is longer than 4,294,967,295 bytes.
    TooLong,
}

impl Status {
    /// The number of the status. Our own.
    pub fn number(self) -> u32
        ensures { result ≡ told.status_number self }
    {
        match self {
            Status::Done => 0,
            Status::NoSlash => 2,
            Status::NotUtf8 => 3,
            Status::NotClean => 4,
            Status::OutOfMemory => 5,
            Status::NoRoom => 6,
            Status::Refused => 7,
            Status::TooLong => 8,
        }
    }
}

/// The status where rows were written: each place that was named is that of a slash or not, and all rows have room or not.
pub(crate) fn status_of(is_met: bool, fits: bool) -> Status
    ensures { result ≡ told.status_of is_met fits }
{
    match (is_met, fits) {
        (false, _) => Status::NoSlash,
        (true, true) => Status::Done,
        (true, false) => Status::NoRoom,
    }
}

/// What a call came to, and how many rows there are, also where there is no room for all of them.
#[derive(Clone, Copy, Debug, PartialEq, Eq)]
pub struct Answer {
    pub status: Status,
    pub count: usize,
}

impl Answer {
    /// Nothing is written.
    pub(crate) fn of_status(status: Status) -> Answer
        ensures { result ≡ record { status = status; count = 0 } }
    {
        Answer { status, count: 0 }
    }

    /// There are so many rows. `is_met` says whether each place that was named is that of a slash, `fits` whether there
    /// is room for all rows.
    pub(crate) fn of_count(is_met: bool, fits: bool, count: usize) -> Answer
        ensures { result ≡ record { status = told.status_of is_met fits; count = count } }
    {
        Answer {
            status: status_of(is_met, fits),
            count,
        }
    }
}
