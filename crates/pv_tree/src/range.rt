//! The values of a branch of CASE.
ghost use Rattle.std.specs.Prelude.{◌≡◌, option_map};

use crate::stmt::Choice;
use std::marker::Model;

/// A value of a branch of CASE that stands alone, or both ends of a range of them, which contracts
/// see as a value and the upper end where there is one. That one lies in a box, since most values
/// stand alone.
#[derive(Drop)]
pub struct ChoiceRange {
    lower: Choice,
    upper: Option<Box<Choice>>,
}

// The bytes of a value of a branch.
const _: () = prove!(size_of::<ChoiceRange>() <= 80);

impl Model for ChoiceRange {
    ghost use Rattle.std.specs.Prelude.{Option, option_map};
    ghost use Rattle.pv_tree.specs.declared.stmt.Choice.{Choice as A_choice};

    ghost Value = { A_choice × Option A_choice };

    ghost view = { λ r. (r.lower, option_map (λ upper. upper.value) r.upper) };
}

impl ChoiceRange {
    /// A value, with the upper end of the values that it begins where it does.
    pub fn of(lower: Choice, upper: Option<Box<Choice>>) -> ChoiceRange
        ensures { result ≡ (lower, option_map (λ upper. upper.value) upper) }
    {
        ChoiceRange { lower, upper }
    }

    /// The value that stands alone, or the lower end.
    pub fn lower(&self) -> &Choice
        ensures { result.now ≡ self.now.0 }
    {
        &self.lower
    }

    /// The upper end of a range.
    pub fn upper(&self) -> Option<&Choice>
        ensures { option_map (λ upper. upper.now) result ≡ self.now.1 }
    {
        match &self.upper {
            Some(upper) => Some(upper.as_ref()),
            None => None,
        }
    }
}
