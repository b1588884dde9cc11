//! The symbols that a case names, each a good one.
ghost use Rattle.std.specs.Prelude.{◌≡◌, [], ◌++◌, ℕ, List, map, codes, unwrap_or, IfOk, IfErr, IfSome, IfNone, OnOk};
ghost use Rattle.pv_word.specs.declared.types.Ty.{Ty as A_type};
ghost use Rattle.pv_tree.specs.Tree.{OperandTree};
ghost use Rattle.pv_tree.specs.View.{operand_tree};
ghost use Rattle.serde_json.specs.View.{view};
ghost use Rattle.pv_case.specs.declared.checks.Breach.{Breach as A_breach};
ghost use Rattle.pv_case.specs.declared.fault.Kind.TheVariants.{BadSymbol as Is_bad};
ghost use Rattle.pv_case.specs.declared.stop.Stop.TheVariants.{Broken as Is_broken};
ghost use Rattle.pv_case.specs.Members.{pairs_at};
ghost use Rattle.pv_case.specs.Viewed.{pair_of};
ghost use Rattle.pv_case.specs.Symbols.{ReadsAs};
ghost use Rattle.pv_case.specs.Fields.{symbols_behind, good_symbols};
ghost use Rattle.pv_case.specs.Cases.{IsNamed, AreSymbols, symbol_data};
ghost use Rattle.pv_case.specs.Makes.{Makes};
ghost use Rattle.pv_case.specs.SymbolLists.{IsGood, Adds};

use crate::address::{address_in, type_of_width};
use crate::case::Symbol;
use crate::checks::Breach;
use crate::fault::Kind;
use crate::members::{pairs_at, text_in};
use crate::stop::Stop;
use indexmap::IndexSet;
use pv_edge::Text;
use pv_tree::{Operand, Root};
use pv_types::Name;
use pv_word::Ty;
use serde_json::{Map, Value};
use std::alloc::{AllocError, Global};

/// The symbols so far, and their names without regard to case.
#[derive(Drop)]
struct Symbols {
    list: Vec<Symbol>,
    seen: IndexSet<Text>,
}

/// An operand with its type.
#[derive(Drop)]
struct TypedAt {
    at: Operand,
    ty: Ty,
}

/// What the texts of a symbol's members say, where the one is an address and the other suits it.
fn operand_of(alloc: Global, at: &str, ty: &str) -> Result<Option<TypedAt>, AllocError>
    ensures found { IfOk result (λ o. IfSome o (λ t. ReadsAs at.now ty.now (operand_tree t.at) t.ty)) }
    ensures none { IfOk result (λ o. IfNone o ((its : OperandTree) (of : A_type) → ReadsAs at.now ty.now its of → ⊥)) }
{
    let Some(address) = address_in(alloc, at)? else {
        return Ok(None);
    };
    let Some(ty) = type_of_width(address.bits, ty) else {
        return Ok(None);
    };
    let root = Root::Area {
        area: address.area,
        bits: address.bits,
        byte: address.byte,
        bit: address.bit,
    };
    let root = Box::new(alloc, root)?;
    Ok(Some(TypedAt {
        at: Operand {
            root,
            steps: Vec::new(alloc),
            place: address.place,
        },
        ty,
    }))
}

/// The symbol is no good one.
fn bad(name: &str) -> Stop<'_>
    ensures { (b : A_breach) → result ≡ Is_broken b → (b.kind ≡ Is_bad) × (b.field.now ≡ name.now) }
{
    Stop::Broken(Breach {
        kind: Kind::BadSymbol,
        field: name,
    })
}

/// Reads one symbol more.
fn add<'a>(
    alloc: Global,
    name: &'a str,
    symbol: &Value,
    symbols: &mut Symbols,
) -> Result<(), Stop<'a>>
    ensures added { OnOk result (Adds symbols.old symbols.new (name.now, view symbol.now)) }
    ensures bad { IfErr result (λ stop. (b : A_breach) → stop ≡ Is_broken b
        → (b.kind ≡ Is_bad) × (b.field.now ≡ name.now) × (IsGood symbols.old.seen.keys (name.now, view symbol.now) → ⊥)) }
{
    let Some(typed) = operand_of(alloc, text_in(symbol, "at"), text_in(symbol, "type"))? else {
        return Err(bad(name));
    };
    let name_of = Name::plain(alloc, name.as_bytes())?;
    let key = name_of.key().clone()?;
    if !symbols.seen.insert(key)? {
        return Err(bad(name));
    }
    symbols.list.push(Symbol {
        name: name_of,
        at: typed.at,
        ty: typed.ty,
    })?;
    Ok(())
}

/// The symbols of these members, all of them good, or the first that isn't.
fn good_among<'a>(alloc: Global, pairs: &'a Map<String, Value>) -> Result<Vec<Symbol>, Stop<'a>>
    ensures { Makes (symbols_behind [] (map pair_of pairs.now.entries))
        (λ symbols. AreSymbols (map pair_of pairs.now.entries) (map symbol_data symbols.items)) result }
{
    let mut symbols = Symbols {
        list: Vec::new(alloc),
        seen: IndexSet::new(alloc),
    };
    for (name, symbol) in pairs {
        add(alloc, name.as_str(), symbol, &mut symbols)?;
    }
    Ok(symbols.list)
}

/// The symbols of a case, all of them good, or the first that isn't.
pub(crate) fn good_symbols<'a>(alloc: Global, d: &'a Value) -> Result<Vec<Symbol>, Stop<'a>>
    ensures { Makes (good_symbols (view d.now))
        (λ symbols. AreSymbols (unwrap_or (pairs_at (view d.now) (codes "symbols")) []) (map symbol_data symbols.items)) result }
{
    match pairs_at(d, "symbols") {
        Some(pairs) => good_among(alloc, pairs),
        None => Ok(Vec::new(alloc)),
    }
}
