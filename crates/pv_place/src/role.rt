//! Roles: how a cell takes part in a scan.
ghost use Rattle.std.specs.Prelude.{◌≡◌};
ghost use Rattle.pv_place.specs.Roles.{is_input, is_stored};

/// How a cell takes part in a scan.
#[derive(Clone, Copy, PartialEq, Eq, Debug)]
pub enum Role {
    /// It takes a value from each scan's input.
    Input,
    /// It has one value for the whole run, which the run is free to choose or the case binds.
    Param,
    /// It keeps its value from one scan's end to the next scan's beginning.
    Kept,
    /// It has a value within one activation of its block alone.
    Brief,
}

impl Role {
    /// Whether the cell takes a value from each scan's input.
    pub fn is_input(self) -> bool
        ensures { result ≡ is_input self }
    {
        match self {
            Role::Input => true,
            Role::Param | Role::Kept | Role::Brief => false,
        }
    }

    /// Whether an image has a value for the cell: it is kept or a parameter.
    pub fn is_stored(self) -> bool
        ensures { result ≡ is_stored self }
    {
        match self {
            Role::Param | Role::Kept => true,
            Role::Input | Role::Brief => false,
        }
    }
}
