//! The proofs of a certificate.
ghost use Rattle.std.specs.Prelude.{◌≡◌, Bool, ◌++◌, IfOk, IfErr};
ghost use Rattle.std.specs.List.{flat_map, AllByRecursion};
ghost use Rattle.pv_claims.specs.Lines.{StopsAt, text_of_lines};
ghost use Rattle.pv_cert.specs.declared.proof.Proof.{Proof};
ghost use Rattle.pv_cert.specs.CertificateText.{proof_lines, HasProofText, QueryFits};
ghost use Rattle.pv_cert.specs.Reading.{IsProofOf, lines_behind_query, Body, HasBody, body_lines, IsNoQuery};

use crate::certificate::Proofs;
use crate::chain::chain_line;
use crate::logs::log_lines;
use crate::proof::{Proof, Query};
use crate::query::{count_line, query_line};
use pv_claims::Stop;
use std::alloc::Global;

/// The proof of a query whose line was read, and what follows it.
fn proof_of(alloc: Global, query: Query, text: &[u8]) -> Result<(Proof, &[u8]), Stop>
    ensures ok { QueryFits query → IfOk result (λ cut. IsProofOf query cut.0
        × (text.now ≡ text_of_lines (lines_behind_query cut.0) ++ cut.1.now)) }
    ensures stuck { QueryFits query → IfErr result
        (StopsAt Proof (IsProofOf query) lines_behind_query text.now) }
{
    let Some((chain, rest)) = chain_line(alloc, text)? else {
        return Err(Stop::Left(text.len()));
    };
    let Some((count, behind)) = count_line(rest) else {
        return Err(Stop::Left(rest.len()));
    };
    let (log, after) = log_lines(alloc, count, behind)?;
    Ok((Proof { query, chain, log }, after))
}

/// All proofs, and what follows the last.
pub(crate) fn proofs(alloc: Global, text: &[u8]) -> Result<(Proofs, &[u8]), Stop>
    ensures ok { IfOk result (λ cut. AllByRecursion HasProofText cut.0
        × (text.now ≡ text_of_lines (flat_map proof_lines cut.0) ++ cut.1.now)
        × IsNoQuery cut.1.now) }
    ensures stuck { (region : Bool) → IfErr result
        (StopsAt Body (HasBody region) (body_lines region) text.now) }
{
    let mut proofs = Proofs::new(alloc);
    let mut rest = text;
    while let Some((query, behind)) = query_line(rest) {
        let (proof, after) = proof_of(alloc, query, behind)?;
        proofs.push(proof)?;
        rest = after;
    }
    Ok((proofs, rest))
}
