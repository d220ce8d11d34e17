use super::businesses::Businesses;
use charges::{Difference, Module, Rate, RootOfSquares};

/// The two classes of equity.
pub type EquityParts = (Rate, (Rate, ()));

/// Figures 1 to 6.
pub type MarketParts = (
    Difference,
    (
        Module<EquityParts>,
        (Rate, (Rate, (RootOfSquares, (Rate, ())))),
    ),
);

/// Figures 7 to 13.
pub type LifeParts = (
    Difference,
    (
        Difference,
        (
            Difference,
            (Difference, (Difference, (Difference, (Difference, ())))),
        ),
    ),
);

/// Figures 14 to 16.
pub type HealthParts = (Rate, (Rate, (Rate, ())));

/// Figures 17 and 18.
pub type NonLifeParts = (Module<Businesses>, (RootOfSquares, ()));

/// The charges of figures 19 to 23, nested.
pub type BasicParts = (
    Module<MarketParts>,
    (
        Rate,
        (
            Module<LifeParts>,
            (Module<HealthParts>, (Module<NonLifeParts>, ())),
        ),
    ),
);

/// Figures 19 to 23, the members of the basic SCR. They are a type of its own: written out, as the
/// associated type of a choice, the modules of modules are too large for the check to finish.
#[derive(Clone, Copy)]
pub struct Basic {
    /// Market, default, life, health, non-life: each is a charge that may be asked alone.
    pub nested: BasicParts,
}

mod members;
