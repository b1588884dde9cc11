//! Calls that read and write the parts of certificates.
ghost use Rattle.std.specs.Prelude.{◌≡◌, ◌++◌, Option, IfOk, IfErr, OnOk};
ghost use Rattle.pv_claims.specs.declared.claim.Claim.{Claim};
ghost use Rattle.pv_claims.specs.declared.trace.Trace.{Trace};
ghost use Rattle.pv_claims.specs.Lines.{StopsAt, text_of_lines};
ghost use Rattle.pv_claims.specs.Heads.{ClaimFits, head_lines};
ghost use Rattle.pv_claims.specs.TracePart.{HasTrace, TraceFits, trace_form, trace_lines};

use pv_claims::{Claim, Stop, Trace};
use std::alloc::{AllocError, Global};

/// [`pv_claims::read_head`].
pub fn read_head(text: &[u8]) -> Result<(Claim, &[u8]), Stop>
    ensures ok { IfOk result (λ cut. ClaimFits cut.0
        × (text.now ≡ text_of_lines (head_lines cut.0) ++ cut.1.now)) }
    ensures stuck { IfErr result (StopsAt Claim ClaimFits head_lines text.now) }
{
    pv_claims::read_head(text)
}

/// [`pv_claims::read_trace_part`].
pub fn read_trace_part(
    alloc: Global,
    claim: Claim,
    text: &[u8],
) -> Result<(Option<Trace>, &[u8]), Stop>
    ensures ok { IfOk result (λ cut. HasTrace (trace_form claim) cut.0
        × (text.now ≡ text_of_lines (trace_lines cut.0) ++ cut.1.now)) }
    ensures stuck { IfErr result
        (StopsAt (Option Trace) (HasTrace (trace_form claim)) trace_lines text.now) }
{
    pv_claims::read_trace_part(alloc, claim, text)
}

/// [`pv_claims::push_head`].
pub fn push_head(text: &mut Vec<u8>, claim: Claim) -> Result<(), AllocError>
    ensures text { OnOk result (text.new.items
        ≡ text.old.items ++ text_of_lines (head_lines claim)) }
    ensures fits { ClaimFits claim }
{
    pv_claims::push_head(text, claim)
}

/// [`pv_claims::push_trace_part`].
pub fn push_trace_part(text: &mut Vec<u8>, trace: &Option<Trace>) -> Result<(), AllocError>
    ensures text { OnOk result (text.new.items
        ≡ text.old.items ++ text_of_lines (trace_lines trace.now)) }
    ensures fits { OnOk result (TraceFits trace.now) }
{
    pv_claims::push_trace_part(text, trace)
}
