//! What the tokens before a place say of it, as far as it matters for words outside the profile.
ghost use Rattle.std.specs.Prelude.{◌≡◌};
ghost use Rattle.pv_tree.specs.Outside.{first_spot, behind_other, behind_sign};
ghost use Rattle.pv_parse.specs.Roles.{spot_of, behind_role};

use crate::look_up::is_sign;
use crate::role::{BEGIN_WORD, CODE_WORD, DATA_WORD, END_WORD, NETWORK_WORD};
use crate::token_kinds::is_mark;

/// A place between tokens.
#[derive(Clone, Copy)]
pub struct Spot {
    /// The token before it is `#` or `.`.
    pub marked: bool,
    /// The block around it, as its first word says, is one with code.
    pub has_code: bool,
    /// It lies behind BEGIN of such a block and before the word that ends it.
    pub in_code: bool,
    /// An instruction begins here.
    pub begins: bool,
    /// The token before it is a word with which one began: a label before `:`.
    pub labels: bool,
}

/// A text's begin.
pub fn first_spot() -> Spot
    ensures { spot_of result ≡ first_spot }
{
    Spot {
        marked: false,
        has_code: false,
        in_code: false,
        begins: false,
        labels: false,
    }
}

/// The spot behind a token that says nothing of what follows it.
pub fn behind_other(spot: Spot) -> Spot
    ensures { spot_of result ≡ behind_other (spot_of spot) }
{
    Spot {
        marked: false,
        has_code: spot.has_code,
        in_code: spot.in_code,
        begins: false,
        labels: false,
    }
}

/// The spot behind a word of this role that isn't directly behind `#` or `.`.
pub fn behind_role(spot: Spot, role: u8) -> Spot
    ensures { spot_of result ≡ behind_role (spot_of spot) role }
{
    let mut next = behind_other(spot);
    if role == CODE_WORD {
        next.has_code = true;
        next.in_code = false;
    } else if role == DATA_WORD || role == END_WORD {
        next.has_code = false;
        next.in_code = false;
    } else if role == BEGIN_WORD {
        next.in_code = spot.has_code;
        next.begins = spot.has_code;
    } else if role == NETWORK_WORD {
        next.begins = spot.in_code;
    } else {
        next.labels = spot.begins;
    }
    next
}

/// The spot behind a sign.
#[tactic(auto, unfolding(pv_tree::specs::Outside::behind_sign))]
pub fn behind_sign(spot: Spot, bytes: &[u8]) -> Spot
    ensures { spot_of result ≡ behind_sign (spot_of spot) bytes.now }
{
    let mut next = behind_other(spot);
    next.marked = is_mark(bytes);
    next.begins = (is_sign(bytes, b';') && spot.in_code) || (is_sign(bytes, b':') && spot.labels);
    next
}
