//! What ends a run before its text is made, and how it is reported.
ghost use Rattle.std.specs.Prelude.{◌≡◌};
ghost use Rattle.ecma_stdio.specs.Faults.{fault_status, fault_line};

use std::alloc::AllocError;

/// What a run writes one line about.
#[derive(Clone, Copy, Debug, PartialEq, Eq)]
pub enum Fault {
    BadWords,
    NotUtf8,
    TooLong,
    /// A token that is to be read again is no slash, or isn't there.
    NoSlash,
    /// An error was recorded, or a token is one.
    NotClean,
    OutOfMemory,
}

impl Fault {
    /// The exit status that reports the fault.
    pub fn status(self) -> u8
        ensures { result ≡ fault_status self }
    {
        match self {
            Fault::BadWords | Fault::NoSlash => 2,
            Fault::NotUtf8 | Fault::TooLong => 3,
            Fault::NotClean => 4,
            Fault::OutOfMemory => 5,
        }
    }

    /// The line that reports the fault, with its line feed.
    pub fn line(self) -> &'static [u8]
        ensures { result.now ≡ fault_line self }
    {
        match self {
            Fault::BadWords => b"bad words\n",
            Fault::NotUtf8 => b"not UTF-8\n",
            Fault::TooLong => b"too long\n",
            Fault::NoSlash => b"no slash\n",
            Fault::NotClean => b"not clean\n",
            Fault::OutOfMemory => b"out of memory\n",
        }
    }
}

impl From<AllocError> for Fault {
    ghost use Rattle.ecma_stdio.specs.declared.fault.Fault.{Fault};

    ghost from_gives = { λ _ fault. fault ≡ Fault.OutOfMemory };

    fn from(_: AllocError) -> Fault {
        Fault::OutOfMemory
    }
}

/// Why there is no text to write.
#[derive(Clone, Copy, Debug, PartialEq, Eq)]
pub enum Halt {
    /// A read failed, or the reader had not ended after the turns that it had.
    ReadFailed,
    Fault(Fault),
}

impl From<Fault> for Halt {
    ghost use Rattle.ecma_stdio.specs.declared.fault.Halt.{Halt};

    ghost from_gives = { λ fault halt. halt ≡ Halt.Fault fault };

    fn from(fault: Fault) -> Halt {
        Halt::Fault(fault)
    }
}

impl From<AllocError> for Halt {
    ghost use Rattle.ecma_stdio.specs.declared.fault.Fault.{Fault};
    ghost use Rattle.ecma_stdio.specs.declared.fault.Halt.{Halt};

    ghost from_gives = { λ _ halt. halt ≡ Halt.Fault Fault.OutOfMemory };

    fn from(_: AllocError) -> Halt {
        Halt::Fault(Fault::OutOfMemory)
    }
}
