ghost use Rattle.std.specs.Prelude.{◌≡◌};
ghost use Rattle.lines.specs.Held.{plain};
ghost use Rattle.lines.specs.Tally.{Tally};
ghost use Rattle.tables.specs.Replacing.{answer};
ghost use Rattle.filing.specs.Machine.{Standing};
ghost use Rattle.filing.specs.Stands.{stands, told};
ghost use Rattle.working.specs.Figures.{work_out_refusal, Worked, OneWorked, number_of};

use super::figure::Figure;
use choice::{Choice, Given, figures_by};
use filing::{Filing, FilingFault};
use tables::NamedTables;

/// What has figures to be worked out.
pub trait WorkOut {
    // what stands
    ghost standing: { Self → Standing };

    /// The 28 figures into the place; a refusal leaves the place as it was.
    fn work_out<C: Choice>(&self, place: &mut [(u32, u32); 28]) -> Result<(), FilingFault>
        ensures answer { told result ≡ answer (work_out_refusal C.Choice.meaning (standing self.now)) }
        ensures figures { Worked C.Choice.meaning (standing self.now) place.old place.new result };

    /// One figure's low and high, or the refusal that working out all of them gives.
    fn figure<C: Choice>(&self, figure: Figure) -> Result<(u32, u32), FilingFault>
        ensures { OneWorked C.Choice.meaning (standing self.now) (number_of figure) result };
}

impl WorkOut for Filing {
    ghost standing = { stands };

    fn work_out<C: Choice>(&self, place: &mut [(u32, u32); 28]) -> Result<(), FilingFault> {
        let tables = NamedTables::from(*self.tables());
        let Some(given) = Given::new(self.lines(), &tables) else {
            unreachable()
        };
        figures_by::<C>(&given, place)?;
        Ok(())
    }

    fn figure<C: Choice>(&self, figure: Figure) -> Result<(u32, u32), FilingFault> {
        let mut place = [(0, 0); 28];
        self.work_out::<C>(&mut place)?;
        Ok(place[usize::from(figure.number()) - 1])
    }
}
