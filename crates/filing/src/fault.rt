ghost use Rattle.std.specs.Prelude.{◌≡◌};
ghost use Rattle.filing.specs.declared.fault.FilingFault.TheVariants.{Entries, Line, TooLarge};
ghost use Rattle.filing.specs.declared.fault.OpenFault.TheVariants.{Memory, Filing};
ghost use Rattle.filing.specs.Faults.{shown};

use charges::TooLargeAt;
use lines::LineFault;
use std::alloc::AllocError;
use tables::EntriesFault;

/// Why a filing declines a call. A fault of a lower layer is held whole.
#[derive(Clone, Copy, PartialEq, Eq, Debug)]
pub enum FilingFault {
    /// The year is outside 2000 to 4095.
    Year,
    /// The quarter is outside 1 to 4.
    Quarter,
    /// The entries replace no table.
    Entries(EntriesFault),
    /// The line breaks a rule of its kind.
    Line(LineFault),
    /// There is no room for the line, by the number that it would get.
    Full(usize),
    /// No line has that number.
    NoLine(usize),
    /// The lowest figure that is too large.
    TooLarge(u8),
}

// By a rule of the project a refusal is told as three numbers, so there is no `Display` and no struct.
impl FilingFault {
    /// The refusal's number and its two places.
    pub fn shown(self) -> (u8, usize, usize)
        ensures { result ≡ shown self }
    {
        match self {
            FilingFault::Year => (2, 1, 0),
            FilingFault::Quarter => (2, 2, 0),
            FilingFault::Entries(fault) => fault.shown(),
            FilingFault::Line(fault) => fault.shown(),
            FilingFault::Full(line) => (8, line, 0),
            FilingFault::NoLine(number) => (9, number, 0),
            FilingFault::TooLarge(figure) => (10, usize::from(figure), 0),
        }
    }
}

// Written out, since a `From` of `thiserror` would promise nothing of the value.
impl From<LineFault> for FilingFault {
    ghost from_gives = { λ e r. r ≡ Line e };

    fn from(fault: LineFault) -> FilingFault {
        FilingFault::Line(fault)
    }
}

impl From<EntriesFault> for FilingFault {
    ghost from_gives = { λ e r. r ≡ Entries e };

    fn from(fault: EntriesFault) -> FilingFault {
        FilingFault::Entries(fault)
    }
}

impl From<TooLargeAt> for FilingFault {
    ghost from_gives = { λ e r. r ≡ TooLarge e.0 };

    fn from(at: TooLargeAt) -> FilingFault {
        FilingFault::TooLarge(at.0)
    }
}

/// Why no new filing is opened.
#[derive(Clone, Copy, PartialEq, Eq, Debug)]
pub enum OpenFault {
    /// There is no memory for 128 lines.
    Memory,
    /// The filing declines.
    Filing(FilingFault),
}

impl From<FilingFault> for OpenFault {
    ghost from_gives = { λ e r. r ≡ Filing e };

    fn from(fault: FilingFault) -> OpenFault {
        OpenFault::Filing(fault)
    }
}

impl From<AllocError> for OpenFault {
    ghost from_gives = { λ _ r. r ≡ Memory };

    fn from(_: AllocError) -> OpenFault {
        OpenFault::Memory
    }
}
