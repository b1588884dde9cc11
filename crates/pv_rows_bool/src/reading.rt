//! What a row's texts are read as.
ghost use Rattle.std.specs.Prelude.{IfSome};
ghost use Rattle.pv_frames.specs.Queries.{IsAsked};

use pv_cert::Query;
use pv_lex::{Language, MAX_SOURCE, tokens};
use pv_rows_form::{Row, Told};
use pv_scl_parse::{expression, parse};
use pv_tree::{Block, Blocks, Expr};

/// The blocks of the row's source; else the fault is told.
pub fn blocks_of(row: Row<'_>, told: &mut Told) -> Vec<Block> {
    let alloc = told.alloc();
    let bytes = row.setting("source", told);
    if bytes.len() > MAX_SOURCE {
        return Vec::new(alloc);
    }
    match tokens(alloc, 0, Language::Scl, bytes.as_slice()) {
        Ok(cut) => match parse(alloc, bytes.as_slice(), cut.as_slice()) {
            Ok(Blocks { list }) => list,
            Err(fault) => {
                told.words(&fault);
                Vec::new(alloc)
            }
        },
        Err(fault) => {
            told.words(&fault);
            Vec::new(alloc)
        }
    }
}

/// The expression that bytes read as; else the fault is told.
pub fn expression_of(bytes: &[u8], told: &mut Told) -> Option<Expr> {
    if bytes.len() > MAX_SOURCE {
        return None;
    }
    match tokens(told.alloc(), 0, Language::Scl, bytes) {
        Ok(cut) => match expression(told.alloc(), bytes, cut.as_slice()) {
            Ok(tree) => Some(tree),
            Err(fault) => {
                told.words(&fault);
                None
            }
        },
        Err(fault) => {
            told.words(&fault);
            None
        }
    }
}

/// The query of its words.
pub fn query_of(said: &str) -> Option<Query>
    ensures { IfSome result (λ q. IsAsked q) }
{
    let (kind, number) = said.split_once(' ').unwrap_or((said, ""));
    let k = number.trim().parse::<u32>().unwrap_or(255);
    if k > 64 {
        return None;
    }
    if kind == "step" {
        return Some(Query::Step(k));
    }
    if k == 0 {
        return None;
    }
    Some(Query::Base(k))
}
