//! Certificates: a claim, and what shows it.
ghost use Rattle.std.specs.Prelude.{◌≡◌, List, [], ◌∷◌, ◌++◌, OnOk, OnErr};
ghost use Rattle.pv_cert.specs.declared.proof.Proof.{Proof};

use crate::proof::Proof;
use pv_claims::{Claim, Trace};
use pv_log::Line;
use std::alloc::{AllocError, Global};
use std::marker::Model;

/// A list of proofs.
#[derive(Debug, Drop)]
pub struct Proofs {
    items: Vec<Proof>,
}

impl Model for Proofs {
    ghost Value = { List Proof };

    ghost view = { λ p. p.items.items };
}

impl Proofs {
    /// No proofs.
    pub fn new(alloc: Global) -> Self
        ensures { result ≡ [] }
    {
        Proofs {
            items: Vec::new(alloc),
        }
    }

    /// The proofs in order.
    pub fn as_slice(&self) -> &[Proof]
        ensures { result.now ≡ self.now }
    {
        self.items.as_slice()
    }

    /// Adds a proof at the end. Where memory runs out, the proof is given up.
    pub fn push(&mut self, proof: Proof) -> Result<(), AllocError>
        ensures ok { OnOk result (self.new ≡ self.old ++ proof ∷ []) }
        ensures err { OnErr result (self.new ≡ self.old) }
    {
        self.items.push(proof)?;
        Ok(())
    }
}

/// A verdict, and what shows it.
#[derive(Debug, Drop)]
pub struct Certificate {
    /// The verdict.
    pub claim: Claim,
    /// The scans that show it, for the claims of a failing scan, of a reached one and of a depth.
    pub trace: Option<Trace>,
    /// The proofs in the order of their queries.
    pub proofs: Proofs,
    /// For `Region`, the lemma that found no room, where one was learnt.
    pub next: Option<Line>,
}
