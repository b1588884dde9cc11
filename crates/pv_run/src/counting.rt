//! FOR: its beginning, the test before a turn, and the step behind one.
ghost use Rattle.std.specs.Prelude.{◌≡◌, ◌≤◌, ◌+ℤ◌, length, IfOk, Option};
ghost use Rattle.pv_word.specs.declared.types.Ty.TheVariants.{Dint};
ghost use Rattle.pv_word.specs.Types.{wrap_of};
ghost use Rattle.pv_place.specs.declared.place.Place.{Place};
ghost use Rattle.pv_types.specs.declared.name.Name.{Name};
ghost use Rattle.pv_types.specs.declared.declaration.Literal.{Literal};
ghost use Rattle.pv_tree.specs.Tree.{ExprTree, BlockTree};
ghost use Rattle.pv_mean.specs.Sources.{Source};
ghost use Rattle.pv_mean.specs.Endings.{end_of};
ghost use Rattle.pv_mean.specs.Statements.{is_on_the_way};
ghost use Rattle.pv_eval.specs.Means.{activation};
ghost use Rattle.pv_eval.specs.Operands.{spot_of, IsSpot};
ghost use Rattle.pv_eval.specs.Writes.{TypesOf};
ghost use Rattle.pv_run.specs.Code.{Counts};
ghost use Rattle.pv_run.specs.Turns.{for_begin, for_step, begun_end, stepped_end};
ghost use Rattle.pv_run.specs.Runs.{frame_in};

use crate::program::{Counting, Program};
use crate::stop::Stop;
use pv_eval::{Room, Spot, read, write_spot};
use pv_place::Place;
use pv_word::{Ty, wrap};

/// A FOR that has begun: the spot of its variable, its first value and its end.
#[derive(Clone, Copy)]
pub(crate) struct Begun {
    pub spot: Spot,
    pub count: i64,
    pub last: i64,
}

/// Whether a count isn't past the end.
pub(crate) fn is_on_the_way(counting: &Counting, count: i128, begun: &Begun) -> bool
    ensures { result ≡ is_on_the_way counting.now.by count begun.now.last }
{
    let last = i128::from(begun.last);
    if counting.by < 0 {
        last <= count
    } else {
        count <= last
    }
}

/// The count behind this one, a whole number.
fn next_count(v: i64, by: i64) -> i128
    ensures { result ≡ v +ℤ by }
{
    i128::from(v) + i128::from(by)
}

/// The count as each type of at most 32 bits takes it.
fn narrowed(count: i128) -> i64
    ensures { result ≡ wrap_of Dint count }
{
    wrap(Ty::Dint, count) as i64
}

impl Program {
    /// Evaluates a FOR's first value and its end, and its variable takes the first.
    pub(crate) fn begin(
        &self,
        counting: &Counting,
        first: u32,
        visible: &mut [i64],
        brief: &mut [Option<i64>],
        scratch: &mut [i64],
    ) -> Result<Begun, Stop>
        requires { self.now.scratch ≤ length scratch.old }
        ensures value { (source : Source) (block : BlockTree) (name : Name) (place : Place) (a b : ExprTree)
            (by : Option Literal) → TypesOf source self.now.types.items
            → Counts source block self.now counting.now name place a b by
            → begun_end result (frame_in visible.new brief.new)
            ≡ end_of (for_begin source (activation block first) (frame_in visible.old brief.old) name place a b) }
        ensures spot { IfOk result (λ b. IsSpot b.spot) }
    {
        let count = self.value(counting.first, first, visible, brief, scratch)?;
        let last = self.value(counting.last, first, visible, brief, scratch)?;
        match self.locate(counting.variable, first, visible, brief, scratch) {
            Ok(spot) => {
                write_spot(self.types.as_slice(), visible, brief, spot, count);
                Ok(Begun { spot, count, last })
            }
            Err(stop) => Err(stop),
        }
    }

    /// The variable takes its value and the step, which is the next count, a whole number.
    pub(crate) fn step(
        &self,
        begun: &Begun,
        counting: &Counting,
        first: u32,
        visible: &mut [i64],
        brief: &mut [Option<i64>],
    ) -> Result<i128, Stop>
        requires { IsSpot begun.now.spot }
        ensures { (source : Source) → TypesOf source self.now.types.items
            → stepped_end result (frame_in visible.new brief.new)
            ≡ end_of (for_step source counting.now.variable_place counting.now.by (spot_of begun.now.spot)
            (frame_in visible.old brief.old)) }
    {
        let room = Room {
            first,
            visible,
            brief,
        };
        match read(&room, begun.spot, counting.variable_place) {
            Ok(v) => {
                let count = next_count(v, counting.by);
                write_spot(
                    self.types.as_slice(),
                    visible,
                    brief,
                    begun.spot,
                    narrowed(count),
                );
                Ok(count)
            }
            Err(trap) => Err(Stop::Trap(trap)),
        }
    }
}
