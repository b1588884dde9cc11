//! Certificates and traces as texts.
ghost use Rattle.std.specs.List.{AllByRecursion};
ghost use Rattle.pv_trace.specs.TraceText.{IsRange};

use pv_cert::{Certificate, Proof, Query, read, write};
use pv_claims::{CertFault, Trace};
use pv_log::Line;
use pv_rows_form::Told;
use pv_trace::{read_trace, write_trace};

/// Whether a text was written as it had been read.
fn tell_written(bytes: &[u8], written: &[u8], told: &mut Told) {
    told.text(if bytes == written {
        "; written so"
    } else {
        "; written otherwise"
    });
}

fn tell_query(query: Query, told: &mut Told) {
    match query {
        Query::Base(number) => {
            told.text("; base ");
            told.number(i128::from(number));
        }
        Query::Step(number) => {
            told.text("; step ");
            told.number(i128::from(number));
        }
    }
}

fn tell_numbers(numbers: &[u32], told: &mut Told) {
    for number in numbers {
        told.text(" ");
        told.number(i128::from(*number));
    }
}

/// A proof: its query, the words of its chain, and the lines of its log, each its id, literals and hints.
fn tell_proof(proof: &Proof, told: &mut Told) {
    tell_query(proof.query, told);
    if proof.chain.constants {
        told.text(" constants");
    }
    if !proof.chain.havoc.as_slice().is_empty() {
        told.text(" havoc");
        tell_numbers(proof.chain.havoc.as_slice(), told);
    }
    if proof.chain.cone {
        told.text(" cone");
    }
    for line in proof.log.as_slice() {
        told.text(", ");
        tell_line(line, told);
    }
}

fn tell_line(line: &Line, told: &mut Told) {
    told.number(i128::from(line.id));
    told.text(":");
    tell_numbers(line.lits.as_slice(), told);
    told.text(":");
    tell_numbers(line.hints.as_slice(), told);
}

fn tell_values(values: &[i128], told: &mut Told) {
    for value in values {
        told.text(" ");
        told.number(*value);
    }
}

/// Where the scans begin, and their inputs.
fn tell_scans(trace: &Trace, told: &mut Told) {
    match &trace.image {
        Some(image) => {
            told.text("; image");
            tell_values(image.as_slice(), told);
            told.text("; prev ");
            told.words(&trace.prev);
        }
        None => {
            told.text("; params");
            tell_values(trace.params.as_slice(), told);
        }
    }
    for scan in trace.inputs.as_slice() {
        told.text("; scan");
        tell_values(scan.as_slice(), told);
    }
}

fn tell_parts(certificate: &Certificate, told: &mut Told) {
    told.words(&certificate.claim);
    if let Some(trace) = &certificate.trace {
        tell_scans(trace, told);
    }
    for proof in certificate.proofs.as_slice() {
        tell_proof(proof, told);
    }
    if let Some(line) = &certificate.next {
        told.text("; next ");
        tell_line(line, told);
    }
}

/// What a certificate says, and whether it is written as it was read; or the line at fault.
pub fn tell_certificate(bytes: &[u8], told: &mut Told) {
    match read(told.alloc(), bytes) {
        Ok(certificate) => {
            tell_parts(&certificate, told);
            match write(told.alloc(), &certificate) {
                Ok(written) => tell_written(bytes, written.as_slice(), told),
                Err(_) => told.lose(),
            }
        }
        Err(CertFault::NotACertificate { line }) => told.number(i128::from(line)),
        Err(CertFault::NoMemory) => told.lose(),
    }
}

/// A BOOL and an INT.
const SWITCHES: [(i128, i128); 2] = [(0, 1), (-32768, 32767)];

/// An INT and a BYTE.
const NUMBERS: [(i128, i128); 2] = [(-32768, 32767), (0, 255)];

/// A BOOL.
const BIT: [(i128, i128); 1] = [(0, 1)];

/// How many scans a trace has, and whether it is written as it was read; or the line at fault.
fn tell_read(params: &[(i128, i128)], inputs: &[(i128, i128)], bytes: &[u8], told: &mut Told)
    requires params { AllByRecursion IsRange params.now }
    requires inputs { AllByRecursion IsRange inputs.now }
{
    match read_trace(told.alloc(), bytes, params, inputs) {
        Ok(trace) => {
            told.number(trace.inputs.as_slice().len() as i128);
            match write_trace(told.alloc(), &trace) {
                Ok(written) => tell_written(bytes, written.as_slice(), told),
                Err(_) => told.lose(),
            }
        }
        Err(fault) => told.words(&fault),
    }
}

/// The same of a trace with these parameters and inputs: `numbers` of a BOOL and an INT, and of an INT and a BYTE; `bit` of none, and a BOOL;
/// else of none.
pub fn tell_trace(given: &str, bytes: &[u8], told: &mut Told) {
    match given {
        "numbers" => tell_read(&SWITCHES, &NUMBERS, bytes, told),
        "bit" => tell_read(&[], &BIT, bytes, told),
        _ => tell_read(&[], &[], bytes, told),
    }
}
