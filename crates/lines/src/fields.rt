ghost use Rattle.std.specs.Prelude.{◌≡◌};

/// The fields of a line as given, not judged yet: the kind is a number, since it may be none that a
/// `Kind` has.
#[derive(Clone, Copy, PartialEq, Eq, Debug)]
pub struct Fields {
    pub kind: u8,
    pub class: u8,
    pub rate: u16,
    pub first: u32,
    pub second: u32,
}

impl From<(u8, u8, u16, u32, u32)> for Fields {
    ghost from_gives = { λ t r. r ≡ record { kind = t.0; class = t.1; rate = t.2; first = t.3; second = t.4 } };

    fn from((kind, class, rate, first, second): (u8, u8, u16, u32, u32)) -> Fields {
        Fields {
            kind,
            class,
            rate,
            first,
            second,
        }
    }
}
