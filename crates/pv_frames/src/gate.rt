//! The clauses of a gate.

ghost use Rattle.std.specs.Prelude.{◌≡◌};
ghost use Rattle.std.specs.List.{flat_map};
ghost use Rattle.pv_frames.specs.Frames.{and_clauses, xor_clauses, mux_clauses};
ghost use Rattle.pv_frames.specs.Formulas.{written};
ghost use Rattle.pv_frames.specs.Short.{clauses_of};

use crate::short::{Short, three, two};
use pv_cnf::flip;

/// `g` is `a AND b`.
pub(crate) fn and_gate(g: u32, a: u32, b: u32) -> [Short; 4]
    ensures { flat_map clauses_of result ≡ flat_map written (and_clauses g a b) }
{
    [
        two(flip(g), a),
        two(flip(g), b),
        three(g, flip(a), flip(b)),
        Short::Omitted,
    ]
}

/// `g` is one of `a` and `b` and not the other.
pub(crate) fn xor_gate(g: u32, a: u32, b: u32) -> [Short; 4]
    ensures { flat_map clauses_of result ≡ flat_map written (xor_clauses g a b) }
{
    [
        three(flip(g), a, b),
        three(flip(g), flip(a), flip(b)),
        three(g, flip(a), b),
        three(g, a, flip(b)),
    ]
}

/// `g` is `a` where `s`, else `b`.
pub(crate) fn mux_gate(g: u32, s: u32, a: u32, b: u32) -> [Short; 4]
    ensures { flat_map clauses_of result ≡ flat_map written (mux_clauses g s a b) }
{
    [
        three(flip(g), flip(s), a),
        three(g, flip(s), flip(a)),
        three(flip(g), s, b),
        three(g, s, flip(b)),
    ]
}
