//! The DIMACS text of a formula.
ghost use Rattle.std.specs.Prelude.{◌≡◌, ℕ, ◌^◌, ◌<◌, List, ◌++◌, length, IfOk, OnOk};
ghost use Rattle.std.specs.Fmt.{decimal};
ghost use Rattle.pv_cnf.specs.Clause.{AreClauses};
ghost use Rattle.pv_cnf.specs.Dimacs.{literal_text, clause_line, header_line, dimacs_text};

use crate::clauses::ClauseView;
use itoa::Buffer;
use std::alloc::{AllocError, Global};

fn push_number(text: &mut Vec<u8>, n: u32) -> Result<(), AllocError>
    ensures { OnOk result (text.new.items ≡ text.old.items ++ decimal n) }
{
    let mut buffer = Buffer::new();
    text.extend_from_slice(buffer.format(n).as_bytes())
}

fn push_literal(text: &mut Vec<u8>, lit: u32) -> Result<(), AllocError>
    ensures { OnOk result (text.new.items ≡ text.old.items ++ literal_text lit) }
{
    if lit % 2 == 1 {
        text.push(b'-')?;
    }
    push_number(text, lit / 2)
}

fn push_line(text: &mut Vec<u8>, lits: &[u32]) -> Result<(), AllocError>
    ensures { OnOk result (text.new.items ≡ text.old.items ++ clause_line lits.now) }
{
    for lit in lits {
        push_literal(text, *lit)?;
        text.push(b' ')?;
    }
    text.extend_from_slice(b"0\n")
}

fn header(alloc: Global, variables: u32, count: u32) -> Result<Vec<u8>, AllocError>
    ensures { IfOk result (λ text. text.items ≡ header_line variables count) }
{
    let mut text = Vec::from_slice(alloc, b"p cnf ")?;
    push_number(&mut text, variables)?;
    text.push(b' ')?;
    push_number(&mut text, count)?;
    text.push(b'\n')?;
    Ok(text)
}

/// The DIMACS CNF text: the line `p cnf V C` with the numbers of variables and clauses, then a line
/// for each clause, its literals with a blank after each and a 0.
pub fn to_dimacs<F: ClauseView>(alloc: Global, f: &F) -> Result<Vec<u8>, AllocError>
    ensures { IfOk result (λ text. text.items ≡ dimacs_text (F.variables f.now) (F.clauses f.now)) }
{
    let count = f.count();
    let mut text = header(alloc, f.variables(), count)?;
    for n in 0..count {
        push_line(&mut text, f.clause(n + 1))?;
    }
    Ok(text)
}

/// A law: formulas with one DIMACS text have the same number of variables and the same clauses. The
/// numbers in the header are those of `u32` counts.
pub fn text_determines_clauses()
    ensures { (m n : ℕ) (cs ds : List (List ℕ)) → m < 2 ^ 32 → n < 2 ^ 32
        → length cs < 2 ^ 32 → length ds < 2 ^ 32 → AreClauses m cs → AreClauses n ds
        → dimacs_text m cs ≡ dimacs_text n ds → (m ≡ n) × (cs ≡ ds) }
{}
