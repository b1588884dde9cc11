//! Writing the text of a certificate.
ghost use Rattle.std.specs.Prelude.{◌≡◌, ◌∷◌, ◌++◌, [], codes, map, length, true, IfOk, OnOk, if◌then◌else◌};
ghost use Rattle.std.specs.List.{flat_map, AllByRecursion};
ghost use Rattle.std.specs.Fmt.{decimal};
ghost use Rattle.pv_log.specs.LineText.{line_text, HasText, IsWritable as IsWritableLine};
ghost use Rattle.pv_claims.specs.Lines.{text_of_lines};
ghost use Rattle.pv_claims.specs.TracePart.{HasForm, trace_form};
ghost use Rattle.pv_cert.specs.CertificateText.{query_line, log_line, proof_lines, asks_next, tail_lines, certificate_text, QueryFits, HasNext, HasProofText, IsTextOf, IsWritableProof, IsWritableNext};
ghost use Rattle.pv_cert.specs.ChainText.{cells_text, havoc_text, chain_line};

use crate::certificate::Certificate;
use crate::next::asks_next;
use crate::proof::{Chain, Proof, Query};
use itoa::Buffer;
use pv_claims::{push_head, push_trace_part};
use pv_log::{Line, write_line};
use std::alloc::{AllocError, Global};

/// Adds a line that a number ends.
fn push_numbered(text: &mut Vec<u8>, front: &[u8], n: u32) -> Result<(), AllocError>
    ensures { OnOk result (text.new.items
        ≡ text.old.items ++ ((front.now ++ decimal n) ++ codes "\n")) }
{
    let mut buffer = Buffer::new();
    text.extend_from_slice(front)?;
    text.extend_from_slice(buffer.format(n).as_bytes())?;
    text.push(b'\n')?;
    Ok(())
}

fn push_query(text: &mut Vec<u8>, query: Query) -> Result<(), AllocError>
    ensures text { OnOk result (text.new.items
        ≡ text.old.items ++ (query_line query ++ codes "\n")) }
    ensures fits { QueryFits query }
{
    match query {
        Query::Base(k) => push_numbered(text, b"query base ", k),
        Query::Step(k) => push_numbered(text, b"query step ", k),
    }
}

fn push_cells(text: &mut Vec<u8>, cells: &[u32]) -> Result<(), AllocError>
    ensures { OnOk result (text.new.items ≡ text.old.items ++ cells_text cells.now) }
{
    for cell in cells {
        let mut buffer = Buffer::new();
        text.push(b' ')?;
        text.extend_from_slice(buffer.format(*cell).as_bytes())?;
    }
    Ok(())
}

fn push_havoc(text: &mut Vec<u8>, cells: &[u32]) -> Result<(), AllocError>
    ensures { OnOk result (text.new.items ≡ text.old.items ++ havoc_text cells.now) }
{
    if cells.is_empty() {
        return Ok(());
    }
    text.extend_from_slice(b" havoc")?;
    push_cells(text, cells)
}

/// Adds a word, if it is to be there.
fn push_word(text: &mut Vec<u8>, word: &[u8], is_there: bool) -> Result<(), AllocError>
    ensures { OnOk result (text.new.items ≡ text.old.items ++ (if is_there then word.now else [])) }
{
    if is_there {
        text.extend_from_slice(word)?;
    }
    Ok(())
}

fn push_chain(text: &mut Vec<u8>, chain: &Chain) -> Result<(), AllocError>
    ensures { OnOk result (text.new.items
        ≡ text.old.items ++ (chain_line chain.now ++ codes "\n")) }
{
    text.extend_from_slice(b"chain")?;
    push_word(text, b" constants", chain.constants)?;
    push_havoc(text, chain.havoc.as_slice())?;
    push_word(text, b" cone", chain.cone)?;
    text.push(b'\n')?;
    Ok(())
}

fn push_lines(alloc: Global, text: &mut Vec<u8>, lines: &[Line]) -> Result<(), AllocError>
    requires { AllByRecursion IsWritableLine lines.now }
    ensures text { OnOk result (text.new.items
        ≡ text.old.items ++ text_of_lines (map line_text lines.now)) }
    ensures valid { OnOk result (AllByRecursion HasText lines.now) }
{
    for line in lines {
        text.extend_from_slice(write_line(alloc, line)?.as_slice())?;
        text.push(b'\n')?;
    }
    Ok(())
}

fn push_proof(alloc: Global, text: &mut Vec<u8>, proof: &Proof) -> Result<(), AllocError>
    requires { IsWritableProof proof.now }
    ensures text { OnOk result (text.new.items
        ≡ text.old.items ++ text_of_lines (proof_lines proof.now)) }
    ensures valid { OnOk result (HasProofText proof.now) }
{
    let lines = proof.log.as_slice();
    push_query(text, proof.query)?;
    push_chain(text, &proof.chain)?;
    push_numbered(text, b"log ", lines.len() as u32)?;
    push_lines(alloc, text, lines)
}

fn push_proofs(alloc: Global, text: &mut Vec<u8>, proofs: &[Proof]) -> Result<(), AllocError>
    requires { AllByRecursion IsWritableProof proofs.now }
    ensures text { OnOk result (text.new.items
        ≡ text.old.items ++ text_of_lines (flat_map proof_lines proofs.now)) }
    ensures valid { OnOk result (AllByRecursion HasProofText proofs.now) }
{
    for proof in proofs {
        push_proof(alloc, text, proof)?;
    }
    Ok(())
}

/// Adds the next lemma, or that there is none, and the end.
fn push_region_tail(
    alloc: Global,
    text: &mut Vec<u8>,
    next: &Option<Line>,
) -> Result<(), AllocError>
    requires { IsWritableNext true next.now }
    ensures text { OnOk result (text.new.items
        ≡ text.old.items ++ text_of_lines (tail_lines true next.now)) }
    ensures valid { OnOk result (HasNext true next.now) }
{
    match next {
        Some(line) => {
            text.extend_from_slice(b"next\n")?;
            text.extend_from_slice(write_line(alloc, line)?.as_slice())?;
            text.extend_from_slice(b"\nend\n")
        }
        None => text.extend_from_slice(b"next none\nend\n"),
    }
}

/// Adds the lines behind the proofs.
fn push_tail(
    alloc: Global,
    text: &mut Vec<u8>,
    asked: bool,
    next: &Option<Line>,
) -> Result<(), AllocError>
    requires { IsWritableNext asked next.now }
    ensures text { OnOk result (text.new.items
        ≡ text.old.items ++ text_of_lines (tail_lines asked next.now)) }
    ensures valid { OnOk result (HasNext asked next.now) }
{
    if asked {
        push_region_tail(alloc, text, next)
    } else {
        text.extend_from_slice(b"end\n")
    }
}

/// The one text of a certificate: its trace has the form and the number of scans that the claim
/// asks for, a next lemma stands in that of a region alone, the cells of each chain rise, and each
/// line of a log, and the next one, has literals of at least 2 and hints of at least 1.
pub fn write(alloc: Global, certificate: &Certificate) -> Result<Vec<u8>, AllocError>
    requires trace { HasForm (trace_form certificate.now.claim) certificate.now.trace }
    requires next { IsWritableNext (asks_next certificate.now.claim) certificate.now.next }
    requires proofs { AllByRecursion IsWritableProof certificate.now.proofs }
    ensures text { IfOk result (λ text. text.items ≡ certificate_text certificate.now) }
    // `read` gives the certificate back.
    ensures is_text { IfOk result (λ text. IsTextOf text.items certificate.now) }
{
    let mut text = Vec::new(alloc);
    push_head(&mut text, certificate.claim)?;
    push_trace_part(&mut text, &certificate.trace)?;
    push_proofs(alloc, &mut text, certificate.proofs.as_slice())?;
    push_tail(
        alloc,
        &mut text,
        asks_next(certificate.claim),
        &certificate.next,
    )?;
    Ok(text)
}
