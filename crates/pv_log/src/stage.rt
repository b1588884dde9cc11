//! How far the reading of a line has come.
ghost use Rattle.std.specs.Prelude.{◌≡◌, ◌≤◌, IfSome};
ghost use Rattle.pv_log.specs.Reading.{StageFits, with_digit, first_digit, stage_after};

/// What of a line's text is being read.
#[derive(Clone, Copy, Debug, PartialEq, Eq)]
pub(crate) enum Stage {
    /// Nothing was read.
    Start,
    /// The id, with this value so far.
    Id(u32),
    /// A literal or the first 0 begins.
    Literals,
    /// A literal's sign was read.
    Minus,
    /// A literal: whether it has a sign, and its variable so far.
    Literal(bool, u32),
    /// The first 0 was read.
    Break,
    /// A hint or the last 0 begins.
    Hints,
    /// A hint, with this value so far.
    Hint(u32),
    /// The last 0 was read.
    End,
}

/// A number and a digit behind it: none behind a 0, and none past the greatest number.
fn longer(greatest: u32, n: u32, byte: u8) -> Option<u32>
    ensures { result ≡ with_digit greatest n byte }
{
    if n >= 1 && byte >= b'0' && byte <= b'9' {
        let value = 10 * n as u64 + (byte - b'0') as u64;
        if value <= greatest as u64 {
            return Some(value as u32);
        }
    }
    None
}

/// A number's first digit, not below this one.
fn begun(least: u8, byte: u8) -> Option<u32>
    requires { 48 ≤ least }
    ensures { result ≡ first_digit least byte }
{
    if least <= byte && byte <= b'9' {
        Some((byte - b'0') as u32)
    } else {
        None
    }
}

impl Stage {
    /// What is read after a byte, if some line goes on so.
    pub(crate) fn after(self, byte: u8) -> Option<Stage>
        ensures value { result ≡ stage_after self byte }
        ensures fits { IfSome result StageFits }
    {
        match self {
            Stage::Start => begun(b'0', byte).map(Stage::Id),
            Stage::Id(_) if byte == b' ' => Some(Stage::Literals),
            Stage::Id(n) => longer(u32::MAX, n, byte).map(Stage::Id),
            Stage::Literals => match byte {
                b'0' => Some(Stage::Break),
                b'-' => Some(Stage::Minus),
                _ => begun(b'1', byte).map(|n| Stage::Literal(false, n)),
            },
            Stage::Minus => begun(b'1', byte).map(|n| Stage::Literal(true, n)),
            Stage::Literal(_, _) if byte == b' ' => Some(Stage::Literals),
            Stage::Literal(negated, n) => {
                longer(MAX_VARIABLE, n, byte).map(|n| Stage::Literal(negated, n))
            }
            Stage::Break => (byte == b' ').then_some(Stage::Hints),
            Stage::Hints if byte == b'0' => Some(Stage::End),
            Stage::Hints => begun(b'1', byte).map(Stage::Hint),
            Stage::Hint(_) if byte == b' ' => Some(Stage::Hints),
            Stage::Hint(n) => longer(u32::MAX, n, byte).map(Stage::Hint),
            Stage::End => None,
        }
    }
}

/// The greatest variable: its literals' codes fit 32 bits.
const MAX_VARIABLE: u32 = 2_147_483_647;
