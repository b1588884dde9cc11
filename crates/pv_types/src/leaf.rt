//! Leaves: what declarations come down to.
ghost use Rattle.std.specs.Prelude.{◌≡◌};

use crate::declaration::Section;
use pv_edge::Text;
use pv_word::Ty;
use std::marker::Model;

/// A variable of a simple type, or an element or a field of one, as it stands in declarations that
/// are laid out.
#[derive(Drop)]
pub struct Leaf {
    /// The path as it is declared: `start`, `arr[3]`, `inst.q`, `s.a[-2].b`.
    pub path: Text,
    pub ty: Ty,
    /// The value with which it starts.
    pub start: i128,
    /// The section of the outermost declaration around it.
    pub section: Section,
}

/// Leaves in order, which contracts see as their list.
#[derive(Drop)]
pub struct Leaves {
    leaves: Vec<Leaf>,
}

impl Model for Leaves {
    ghost use Rattle.std.specs.Prelude.{List};
    ghost use Rattle.pv_types.specs.declared.leaf.Leaf.{Leaf};

    ghost Value = { List Leaf };

    ghost view = { λ l. l.leaves.items };
}

impl Leaves {
    /// The leaves.
    pub fn as_slice(&self) -> &[Leaf]
        ensures { result.now ≡ self.now }
    {
        self.leaves.as_slice()
    }
}

/// The leaves stay as they are, and no memory is taken.
impl From<Vec<Leaf>> for Leaves {
    ghost from_gives = { λ list leaves. leaves ≡ list.items };

    fn from(leaves: Vec<Leaf>) -> Leaves {
        Leaves { leaves }
    }
}
