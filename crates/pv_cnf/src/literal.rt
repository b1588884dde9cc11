//! Literals by their codes.
ghost use Rattle.std.specs.Prelude.{◌≡◌, ℕ, Bool, not};
ghost use Rattle.pv_cnf.specs.Literal.{complement, variable_of, literal_value};

/// The literal of the same variable with the other sign: `2v + 1` for `2v`, and `2v` for `2v + 1`.
pub fn flip(code: u32) -> u32
    ensures complement { result ≡ complement code }
    ensures variable { variable_of result ≡ variable_of code }
    ensures back { complement result ≡ code }
    ensures value { (values : ℕ → Bool) →
        literal_value values result ≡ not (literal_value values code) }
{
    code ^ 1
}
