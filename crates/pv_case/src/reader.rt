//! The reader of cases.
ghost use Rattle.std.specs.Prelude.{◌≡◌, [], map, codes, string_bytes, unwrap_or, IsTrue, IfOk, IfErr, String as A_string};
ghost use Rattle.std.specs.declared.alloc.Global.{Global as The_heap};
ghost use Rattle.serde_json.specs.View.{view};
ghost use Rattle.pv_case.specs.declared.fault.Kind.{Kind as A_kind};
ghost use Rattle.pv_case.specs.declared.fault.CaseFault.TheVariants.{NotJson as Is_no_json, Broken as Is_broken};
ghost use Rattle.pv_case.specs.Checks.{Answers};
ghost use Rattle.pv_case.specs.Members.{pairs_at, is_object};
ghost use Rattle.pv_case.specs.Fields.{first_checks, input_checks, last_checks, case_checks};
ghost use Rattle.pv_case.specs.Cases.{AreSymbols, symbol_data, data_of, Says, IsCaseText, BreaksFirst, IsNoObject};
ghost use Rattle.pv_case.specs.Makes.{Makes};

use crate::case::{Case, Symbol};
use crate::checks::Breach;
use crate::fault::CaseFault;
use crate::fields::{certificate, entry, limits, name, version};
use crate::inputs::{bind, params};
use crate::making::{
    bounds_in, certificate_in, limits_in, params_in, pattern_in, reductions_in, sources_in,
};
use crate::members::text_in;
use crate::pattern::pattern;
use crate::reductions::reduce;
use crate::sources::sources;
use crate::stop::Stop;
use crate::strays::known;
use crate::symbol_list::good_symbols;
use crate::symbols::symbols;
use serde_json::Value;
use std::alloc::{AllocError, Global};

/// Reads a case: the bytes of one JSON object in UTF-8. Of a member that stands twice the last one counts.
///
/// `NotJson` where the bytes are no text of an object, which nests no deeper than 127. Else `Broken` with the first rule that is
/// broken. The members are asked in the order version, name, sources, entry, params, bind, symbols, pattern, loopBound, depth,
/// lemmas, regionWords, reduce, certificate; of each first whether it is there with all that stands in it, then whether each value is
/// of the right JSON type, then whether it keeps its own rule. Members that no case has come last, the least of them by its bytes.
pub fn read(alloc: Global, bytes: &[u8]) -> Result<Case, CaseFault>
    ensures found { IfOk result (λ case. IsCaseText bytes.now (data_of case)) }
    ensures broken { IfErr result (λ fault. (kind : A_kind) (field : A_string The_heap)
        → fault ≡ Is_broken kind field → BreaksFirst bytes.now kind (string_bytes field)) }
    ensures not_json { IfErr result (λ fault. fault ≡ Is_no_json → IsNoObject bytes.now) }
{
    match Value::from_slice(alloc, bytes) {
        Ok(value) => case_in(alloc, &value),
        Err(error) if error.is_memory() => Err(CaseFault::NoMemory),
        Err(_) => Err(CaseFault::NotJson),
    }
}

fn case_in(alloc: Global, value: &Value) -> Result<Case, CaseFault>
    ensures found { IfOk result (λ case. IsTrue (is_object (view value.now)) × (case_checks (view value.now)).keeps × Says (view value.now) (data_of case)) }
    ensures broken { IfErr result (λ fault. (kind : A_kind) (field : A_string The_heap)
        → fault ≡ Is_broken kind field → IsTrue (is_object (view value.now)) × (case_checks (view value.now)).breaks kind (string_bytes field)) }
    ensures not_json { IfErr result (λ fault. fault ≡ Is_no_json → IsTrue (is_object (view value.now)) → ⊥) }
{
    if !value.is_object() {
        return Err(CaseFault::NotJson);
    }
    case_of(alloc, value)
}

/// The case that the object says, or the first rule that it breaks.
fn case_of(alloc: Global, value: &Value) -> Result<Case, CaseFault>
    ensures found { IfOk result (λ case. (case_checks (view value.now)).keeps × Says (view value.now) (data_of case)) }
    ensures broken { IfErr result (λ fault. (kind : A_kind) (field : A_string The_heap)
        → fault ≡ Is_broken kind field → (case_checks (view value.now)).breaks kind (string_bytes field)) }
    ensures object { IfErr result (λ fault. fault ≡ Is_no_json → ⊥) }
{
    match checked(alloc, value) {
        Ok(symbols) => Ok(made(alloc, value, symbols)?),
        Err(Stop::Broken(breach)) => Err(fault_of(alloc, breach)),
        Err(Stop::NoMemory) => Err(CaseFault::NoMemory),
    }
}

/// The breach with a name of its own.
fn fault_of(alloc: Global, breach: Breach<'_>) -> CaseFault
    ensures broken { (kind : A_kind) (field : A_string The_heap) → result ≡ Is_broken kind field
        → (kind ≡ breach.entry.kind) × (string_bytes field ≡ breach.entry.field.now) }
    ensures object { result ≡ Is_no_json → ⊥ }
{
    match String::from_str(alloc, breach.field) {
        Ok(field) => CaseFault::Broken {
            kind: breach.kind,
            field,
        },
        Err(_) => CaseFault::NoMemory,
    }
}

/// Asks of the value all that is asked of a case, and reads its symbols.
fn checked<'a>(alloc: Global, value: &'a Value) -> Result<Vec<Symbol>, Stop<'a>>
    ensures { Makes (case_checks (view value.now))
        (λ symbols. AreSymbols (unwrap_or (pairs_at (view value.now) (codes "symbols")) []) (map symbol_data symbols.items)) result }
{
    first_members(value)?;
    input_members(value)?;
    let symbols = good_symbols(alloc, value)?;
    last_members(value)?;
    Ok(symbols)
}

fn first_members(value: &Value) -> Result<(), Breach<'_>>
    ensures { Answers (first_checks (view value.now)) result }
{
    version(value)?;
    name(value)?;
    sources(value)?;
    entry(value)
}

fn input_members(value: &Value) -> Result<(), Breach<'_>>
    ensures { Answers (input_checks (view value.now)) result }
{
    params(value)?;
    bind(value)?;
    symbols(value)
}

fn last_members(value: &Value) -> Result<(), Breach<'_>>
    ensures { Answers (last_checks (view value.now)) result }
{
    pattern(value)?;
    limits(value)?;
    reduce(value)?;
    certificate(value)?;
    known(value)
}

/// The case that a value says, with its symbols.
fn made(alloc: Global, value: &Value, symbols: Vec<Symbol>) -> Result<Case, AllocError>
    requires keeps { (case_checks (view value.now)).keeps }
    requires symbols { AreSymbols (unwrap_or (pairs_at (view value.now) (codes "symbols")) []) (map symbol_data symbols.items) }
    ensures { IfOk result (λ case. Says (view value.now) (data_of case)) }
{
    Ok(Case {
        name: String::from_str(alloc, text_in(value, "name"))?,
        sources: sources_in(alloc, value)?,
        entry: String::from_str(alloc, text_in(value, "entry"))?,
        params: params_in(alloc, value)?,
        bind: bounds_in(alloc, value)?,
        symbols,
        pattern: pattern_in(alloc, value)?,
        limits: limits_in(value),
        reductions: reductions_in(value),
        certificate: certificate_in(alloc, value)?,
    })
}
