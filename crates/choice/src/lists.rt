ghost use Rattle.std.specs.Prelude.{◌≡◌, ◌+◌};

use charges::Members;

/// Lists of charges for figures 1 to 23: 18 that are shown, and the five members of the basic SCR.
pub trait Lists {
    /// Figures 1 to 6.
    type Market: Members + Drop;
    /// Figures 7 to 13.
    type Life: Members + Drop;
    /// Figures 14 to 16.
    type Health: Members + Drop;
    /// Figures 17 and 18.
    type NonLife: Members + Drop;
    /// Figures 19 to 23, the members of the basic SCR.
    type Basic: Members + Drop;

    // how many charges there are
    ghost shown: { Self.Market.Members.count + Self.Life.Members.count + Self.Health.Members.count + Self.NonLife.Members.count ≡ 18 };

    ghost five: { Self.Basic.Members.count ≡ 5 };

    ghost proper: { Self.Market.Members.proper × Self.Life.Members.proper × Self.Health.Members.proper × Self.NonLife.Members.proper × Self.Basic.Members.proper };
}
