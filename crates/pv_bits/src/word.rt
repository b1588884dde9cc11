//! Parts of words, and words that take no gate.

ghost use Rattle.std.specs.Prelude.{◌≡◌, ◌<◌, ◌≤◌, ◌-◌, ◌+◌, All, length, map, neg_ℤ, replicate, IfOk, OnErr, Err};
ghost use Rattle.pv_gate.specs.Node.{Names};
ghost use Rattle.pv_gate.specs.declared.fault.GateFault.TheVariants.{NoMemory};
ghost use Rattle.pv_bits.specs.Circuits.{top, below_top, falses, complements};

use pv_gate::{FALSE, GateFault, Gates, Literals};
use std::alloc::Global;

/// The highest bit.
pub(crate) fn top(word: &[i32]) -> i32
    requires { 1 ≤ length word.now }
    ensures { result ≡ top word.now }
{
    word[word.len() - 1]
}

/// All bits but the highest.
pub(crate) fn below_top(word: &[i32]) -> &[i32]
    requires { 1 ≤ length word.now }
    ensures { result.now ≡ below_top word.now }
{
    &word[..word.len() - 1]
}

/// So many times the literal.
pub(crate) fn copies(alloc: Global, literal: i32, count: usize) -> Result<Literals, GateFault>
    ensures word { IfOk result (λ word. word ≡ replicate count literal) }
    ensures err { OnErr result (result ≡ Err NoMemory) }
{
    let mut word = Literals::new(alloc);
    for _bit in 0..count {
        word.push(literal)?;
    }
    Ok(word)
}

/// So many times constant false.
pub(crate) fn falses(alloc: Global, g: &Gates, count: usize) -> Result<Literals, GateFault>
    ensures word { IfOk result (λ word. word ≡ falses count) }
    ensures names { IfOk result (λ word. All (Names (length g.now.nodes)) word) }
    ensures err { OnErr result (result ≡ Err NoMemory) }
{
    // Node 1 is there.
    let _count = g.nodes();
    copies(alloc, FALSE, count)
}

/// The complement of each bit.
pub(crate) fn complements(alloc: Global, g: &Gates, word: &[i32]) -> Result<Literals, GateFault>
    requires { All (Names (length g.now.nodes)) word.now }
    ensures word { IfOk result (λ made. made ≡ complements word.now) }
    ensures names { IfOk result (λ made. All (Names (length g.now.nodes)) made) }
    ensures err { OnErr result (result ≡ Err NoMemory) }
{
    let mut made = Literals::new(alloc);
    for i in 0..word.len() {
        made.push(g.complement(word[i]))?;
    }
    Ok(made)
}
