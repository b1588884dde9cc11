//! The lines of a query and of a number of lines.
ghost use Rattle.std.specs.Prelude.{◌≡◌, ℕ, ◌^◌, ◌<◌, List, ◌∷◌, ◌++◌, IfSome, IfNone};
ghost use Rattle.pv_cert.specs.declared.proof.Query.{Query};
ghost use Rattle.pv_cert.specs.CertificateText.{query_line, log_line, QueryFits};

use crate::proof::Query;
use pv_claims::{cut_line, number_behind};

/// The query whose line this is.
fn query(line: &[u8]) -> Option<Query>
    ensures found { IfSome result (λ query. QueryFits query × (line.now ≡ query_line query)) }
    ensures none { IfNone result ((query : Query) → QueryFits query
        → line.now ≡ query_line query → ⊥) }
{
    if let Some(k) = number_behind(line, b"query base ") {
        Some(Query::Base(k))
    } else {
        let k = number_behind(line, b"query step ")?;
        Some(Query::Step(k))
    }
}

/// The query of the first line, and what follows that.
pub(crate) fn query_line(text: &[u8]) -> Option<(Query, &[u8])>
    ensures found { IfSome result (λ cut. QueryFits cut.0
        × (text.now ≡ query_line cut.0 ++ 10 ∷ cut.1.now)) }
    ensures none { IfNone result ((query : Query) (after : List ℕ) → QueryFits query
        → text.now ≡ query_line query ++ 10 ∷ after → ⊥) }
{
    let (line, after) = cut_line(text)?;
    let query = query(line)?;
    Some((query, after))
}

/// The number of a log's lines, which the first line says, and what follows that.
pub(crate) fn count_line(text: &[u8]) -> Option<(u32, &[u8])>
    ensures found { IfSome result (λ cut. text.now ≡ log_line cut.0 ++ 10 ∷ cut.1.now) }
    ensures none { IfNone result ((n : ℕ) (after : List ℕ) → n < 2 ^ 32
        → text.now ≡ log_line n ++ 10 ∷ after → ⊥) }
{
    let (line, after) = cut_line(text)?;
    let count = number_behind(line, b"log ")?;
    Some((count, after))
}
