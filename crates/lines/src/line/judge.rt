ghost use Rattle.std.specs.Prelude.{◌≡◌, ◌==◌};
ghost use Rattle.lines.specs.Held.{fields_of};
ghost use Rattle.lines.specs.Kinds.{number};
ghost use Rattle.lines.specs.Judged.{told, judged};
ghost use Rattle.lines.specs.Rules.{allows};

use super::super::fault::LineFault;
use super::super::fields::Fields;
use super::super::kind::{Kind, Rule};
use super::Line;

// The class of a line of a kind without classes.
const BLANK: u8 = 0;

// Whether a line under the rule may have that class.
fn allows(rule: Rule, class: u8) -> bool
    ensures { result ≡ allows rule class }
{
    class <= rule.classes && (class > BLANK || rule.classes == BLANK)
}

impl Line {
    /// The line of these fields, or the first field that breaks a rule of its kind.
    pub fn new(fields: Fields, number: usize) -> Result<Line, LineFault>
        ensures { told result ≡ judged fields number }
    {
        let kind = Kind::try_from(fields.kind).map_err(|_| LineFault::Kind(number))?;
        let rule = kind.rule();
        if !allows(rule, fields.class) {
            return Err(LineFault::Class(number));
        }
        if fields.rate > rule.rate {
            return Err(LineFault::Rate(number));
        }
        if fields.first > rule.first {
            return Err(LineFault::First(number));
        }
        if fields.second > rule.second {
            return Err(LineFault::Second(number));
        }
        Ok(Line { fields })
    }

    /// Its kind.
    pub fn kind(&self) -> Kind
        ensures { number result ≡ (fields_of self.now).kind }
    {
        Kind::try_from(self.fields.kind).unwrap()
    }

    /// Whether it is of that kind.
    pub fn is_of(&self, kind: Kind) -> bool
        ensures { result ≡ ((fields_of self.now).kind == number kind) }
    {
        self.kind() == kind
    }

    /// Its fields.
    pub fn fields(&self) -> Fields
        ensures { result ≡ fields_of self.now }
    {
        self.fields
    }
}
