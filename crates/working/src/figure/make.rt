ghost use Rattle.std.specs.Prelude.{◌≡◌, ◌≤◌};
ghost use Rattle.std.specs.Option.{option_map};
ghost use Rattle.working.specs.Figures.{number_of, figure_numbered};

use super::Figure;

// No `TryFrom`: of a number that is no figure there is nothing to say but that.
impl Figure {
    /// The figure with that number, or `None` outside 1 to 28.
    pub fn new(number: u8) -> Option<Figure>
        ensures { option_map number_of result ≡ figure_numbered number }
    {
        if number < 1 || number > 28 {
            return None;
        }
        Some(Figure { number })
    }

    /// Its number.
    pub fn number(self) -> u8
        ensures value { result ≡ number_of self }
        ensures least { 1 ≤ result }
        ensures most { result ≤ 28 }
    {
        self.number
    }
}
