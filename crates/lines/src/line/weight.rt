ghost use Rattle.std.specs.Prelude.{◌≡◌};
ghost use Rattle.lines.specs.Held.{fields_of};
ghost use Rattle.lines.specs.Weights.{capped, factor, span, weight};

use super::super::kind::Kind;
use super::Line;

// A spread line's duration in hundredths of a year, capped for the lower classes and for unrated.
// A class is no enum: what its number means depends on the kind.
fn capped(class: u8, duration: u16) -> u16
    ensures { result ≡ capped class duration }
{
    match class {
        5 | 8 => duration.min(800),
        6 => duration.min(500),
        7 => duration.min(400),
        _ => duration,
    }
}

// The spread factor of a class, in hundredths of a percent.
fn factor(class: u8) -> u32
    ensures { result ≡ factor class }
{
    match class {
        1 | 2 => 25,
        3 => 103,
        4 => 125,
        5 => 339,
        6 => 560,
        7 => 1_120,
        _ => 200,
    }
}

impl Line {
    // What the first amount is multiplied by.
    fn span(&self) -> u32
        ensures { result ≡ span (fields_of self.now) }
    {
        let fields = self.fields();
        match self.kind() {
            Kind::Spread => u32::from(capped(fields.class, fields.rate)) * factor(fields.class),
            Kind::Concentration | Kind::Catastrophe => fields.first,
            Kind::HealthExpense
            | Kind::HealthClaims
            | Kind::Accumulation
            | Kind::PremiumReserve
            | Kind::CounterpartyDefault => u32::from(fields.rate),
            _ => 1,
        }
    }

    /// What it adds to the total of its kind and class.
    #[tactic(auto, unfolding(crate::specs::Weights::weight))]
    pub fn weight(&self) -> u64
        ensures { result ≡ weight (fields_of self.now) }
    {
        u64::from(self.fields().first) * u64::from(self.span())
    }
}
