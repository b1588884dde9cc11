//! What a check answers.
ghost use Rattle.std.specs.Prelude.{IsTrue};
ghost use Rattle.pv_case.specs.Checks.{Answers, ask};

use crate::fault::Kind;

/// The first rule that is broken, with the innermost member that breaks it; of an array's element it is the array's name.
#[derive(Clone, Copy)]
pub struct Breach<'a> {
    pub kind: Kind,
    pub field: &'a str,
}

/// Whether the rule holds.
pub(crate) fn ask<'a>(holds: bool, kind: Kind, field: &'a str) -> Result<(), Breach<'a>>
    ensures { Answers (ask holds kind field.now) result }
{
    if holds {
        Ok(())
    } else {
        Err(Breach { kind, field })
    }
}
