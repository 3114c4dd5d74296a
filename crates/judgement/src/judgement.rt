ghost use Rattle.std.specs.Prelude.{Some};
ghost use Rattle.judgement.specs.Texts.{judgement_text};

use std::fmt;
use tsp::Rule;

/// What is found of a stamp.
#[derive(Clone, Copy, Debug, PartialEq, Eq)]
pub enum Judgement {
    /// It is given by the rules.
    Given,
    /// It is, if nothing was held when it was reserved: each moment that its clock may have stood for is held, but a
    /// hold may have been added later.
    MayHaveBeenHeld,
    /// It isn't: the first rule that fails under the reading that comes furthest.
    Fails(Rule),
    /// It isn't: no rule fails, but its row, or the TSTInfo in it, isn't that of the stamp which the rules allow.
    Differs,
}

impl fmt::Display for Judgement {
    ghost output = { λ judgement. Some (judgement_text judgement) };

    fn fmt<W: fmt::Write>(&self, f: &mut fmt::Formatter<W>) -> fmt::Result {
        match self {
            Judgement::Given => write!(f, "given"),
            Judgement::MayHaveBeenHeld => write!(f, "may have been held"),
            Judgement::Fails(rule) => {
                let number = rule.number();
                write!(f, "isn't given by these rules: rule {number}")
            }
            Judgement::Differs => write!(f, "isn't given by these rules: text"),
        }
    }
}
