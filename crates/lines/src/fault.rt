ghost use Rattle.std.specs.Prelude.{◌≡◌};
ghost use Rattle.lines.specs.Faults.{shown};

/// The first field of a line that breaks a rule; each case holds the line's number.
#[derive(Clone, Copy, PartialEq, Eq, Debug)]
pub enum LineFault {
    /// No kind has that number.
    Kind(usize),
    /// Not a class of the kind.
    Class(usize),
    /// The rate is above the kind's limit.
    Rate(usize),
    /// The first amount is above the kind's limit.
    First(usize),
    /// The second amount is above the kind's limit.
    Second(usize),
}

// By a rule of the project a refusal is told as three numbers, so there is no `Display` and no struct.
impl LineFault {
    /// The refusal's number, the line's number and the field's place.
    pub fn shown(self) -> (u8, usize, usize)
        ensures { result ≡ shown self }
    {
        match self {
            LineFault::Kind(line) => (4, line, 1),
            LineFault::Class(line) => (5, line, 2),
            LineFault::Rate(line) => (6, line, 3),
            LineFault::First(line) => (7, line, 4),
            LineFault::Second(line) => (7, line, 5),
        }
    }
}
