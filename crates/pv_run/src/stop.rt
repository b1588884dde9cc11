//! How statements end.
ghost use Rattle.std.specs.Prelude.{◌≡◌};
ghost use Rattle.pv_run.specs.Ends as ends;

use pv_eval::Trap;
use pv_place::Place;

/// Why a scan stops before its end.
#[derive(Clone, Copy, PartialEq, Eq, Debug)]
pub enum Stop {
    Trap(Trap),
    /// An entry into the loop at this place would take one turn too many.
    Over(Place),
}

/// Where statements go on.
#[derive(Clone, Copy, PartialEq, Eq, Debug)]
pub enum Flow {
    /// Behind them.
    Normal,
    /// Behind the innermost loop.
    Exit,
    /// At the end of the innermost loop's turn.
    Continue,
    /// At the end of the block.
    Return,
}

impl Stop {
    /// Why instructions stop.
    pub(crate) fn of(stop: pv_stl_run::Stop) -> Stop
        ensures { result ≡ ends.stop_from stop }
    {
        match stop {
            pv_stl_run::Stop::Trap(trap) => Stop::Trap(trap),
            pv_stl_run::Stop::Over(place) => Stop::Over(place),
        }
    }
}

impl Flow {
    /// Whether it goes on behind the statement.
    pub(crate) fn is_normal(self) -> bool
        ensures { result ≡ ends.is_normal self }
    {
        match self {
            Flow::Normal => true,
            Flow::Exit | Flow::Continue | Flow::Return => false,
        }
    }

    /// How a loop ends by a turn that ends so, if it does.
    pub(crate) fn behind_turn(self) -> Option<Flow>
        ensures { result ≡ ends.behind_turn self }
    {
        match self {
            Flow::Normal | Flow::Continue => None,
            Flow::Exit => Some(Flow::Normal),
            Flow::Return => Some(Flow::Return),
        }
    }
}
