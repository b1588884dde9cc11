//! The block that a call begins.
ghost use Rattle.std.specs.Prelude.{◌≡◌, ◌+◌, ◌*◌, ◌<◌, ◌^◌, IfSome};
ghost use Rattle.pv_run.specs.Code.{first_of, statements_end};
ghost use Rattle.pv_run.specs.Runs.{Starts};

use crate::program::{At, Called, Code, First, Program};

/// A called block at its start.
#[derive(Clone, Copy)]
pub(crate) struct Started {
    pub call: Called,
    pub code: Code,
    pub at: At,
}

/// The first cell of the instance on which a called block works.
fn first_of(from: First, first: u32) -> u32
    requires { first + 2 ^ 16 < 2 ^ 32 }
    ensures value { result ≡ first_of first from }
    ensures within { result < first + 2 ^ 16 }
{
    match from {
        First::Own(n) => first + u32::from(n),
        First::At(n) => u32::from(n),
    }
}

impl Program {
    /// The block that the call of this number begins, where it runs one and so many calls may still stand behind one another.
    pub(crate) fn started(&self, c: usize, at: At) -> Option<Started>
        requires { at.first + at.calls * 2 ^ 16 < 2 ^ 32 }
        ensures starts { Starts self.now c at result }
        ensures calls { IfSome result (λ s. at.calls ≡ s.at.calls + 1) }
        ensures short { IfSome result (λ s. statements_end s.code.body < 2 ^ 63) }
        ensures first { IfSome result (λ s. s.at.first + s.at.calls * 2 ^ 16 < 2 ^ 32) }
    {
        if at.calls == 0 {
            return None;
        }
        let Some(call) = self.calls.get(c) else {
            return None;
        };
        let Some(n) = call.block else {
            return None;
        };
        let Some(code) = self.code(n) else {
            return None;
        };
        if code.body.statements_end() > self.stmts.len() {
            return None;
        }
        Some(Started {
            call: *call,
            code,
            at: At {
                first: first_of(call.first, at.first),
                calls: at.calls - 1,
            },
        })
    }
}
