//! Which literal an operation gives, and which node it makes for it.

ghost use Rattle.std.specs.Prelude.{◌≡◌, ◌≤◌, neg_ℤ, length, MatchResult, IsOkAnd};

use crate::fault::GateFault;
use crate::literal::{Literal, and_node, mux_node, xor_node};
use crate::sharing::Gates;

// The literal's complement, where there is one.
fn complemented(made: Result<Literal, GateFault>) -> Result<Literal, GateFault>
    ensures { MatchResult made (λ literal. IsOkAnd result (λ other. other.code ≡ neg_ℤ literal.code)) (λ fault. result ≡ Err fault) }
{
    made.map(|literal| literal.complement())
}

impl Gates {
    ghost use Rattle.pv_gate.specs.Node.{Names, gate_count};
    ghost use Rattle.pv_gate.specs.Build.{and_gate, or_gate, xor_gate, xor_made, choice_gate, mux_gate, mux_made};
    ghost use Rattle.pv_gate.specs.Given.{Gives};

    pub(crate) fn and_gate(&mut self, a: Literal, b: Literal) -> Result<Literal, GateFault>
        requires first { Names (length self.old.nodes) a.code }
        requires second { Names (length self.old.nodes) b.code }
        requires within { gate_count self.old.nodes ≤ self.old.limit }
        ensures { Gives self.old self.new (and_gate self.old.nodes a.code b.code) result }
    {
        if a == Literal::FALSE || b == Literal::FALSE || a == b.complement() {
            return Ok(Literal::FALSE);
        }
        if a == Literal::TRUE {
            return Ok(b);
        }
        if b == Literal::TRUE || a == b {
            return Ok(a);
        }
        self.share(and_node(a, b))
    }

    pub(crate) fn or_gate(&mut self, a: Literal, b: Literal) -> Result<Literal, GateFault>
        requires first { Names (length self.old.nodes) a.code }
        requires second { Names (length self.old.nodes) b.code }
        requires within { gate_count self.old.nodes ≤ self.old.limit }
        ensures { Gives self.old self.new (or_gate self.old.nodes a.code b.code) result }
    {
        complemented(self.and_gate(a.complement(), b.complement()))
    }

    pub(crate) fn xor_gate(&mut self, a: Literal, b: Literal) -> Result<Literal, GateFault>
        requires first { Names (length self.old.nodes) a.code }
        requires second { Names (length self.old.nodes) b.code }
        requires within { gate_count self.old.nodes ≤ self.old.limit }
        ensures { Gives self.old self.new (xor_gate self.old.nodes a.code b.code) result }
    {
        if a == Literal::FALSE {
            return Ok(b);
        }
        if a == Literal::TRUE {
            return Ok(b.complement());
        }
        if b == Literal::FALSE {
            return Ok(a);
        }
        if b == Literal::TRUE {
            return Ok(a.complement());
        }
        if a == b {
            return Ok(Literal::FALSE);
        }
        if a == b.complement() {
            return Ok(Literal::TRUE);
        }
        self.xor_made(a, b)
    }

    // An Xor node has no complemented operand: the result is complemented once for each.
    fn xor_made(&mut self, a: Literal, b: Literal) -> Result<Literal, GateFault>
        requires first { Names (length self.old.nodes) a.code }
        requires second { Names (length self.old.nodes) b.code }
        requires within { gate_count self.old.nodes ≤ self.old.limit }
        ensures { Gives self.old self.new (xor_made self.old.nodes a.code b.code) result }
    {
        let made = self.share(xor_node(a.node(), b.node()));
        if a.is_complement() != b.is_complement() {
            return complemented(made);
        }
        made
    }

    fn choice_gate(&mut self, s: Literal, a: Literal, b: Literal) -> Result<Literal, GateFault>
        requires selector { Names (length self.old.nodes) s.code }
        requires first { Names (length self.old.nodes) a.code }
        requires second { Names (length self.old.nodes) b.code }
        requires within { gate_count self.old.nodes ≤ self.old.limit }
        ensures { Gives self.old self.new (choice_gate self.old.nodes s.code a.code b.code) result }
    {
        if a == Literal::TRUE {
            return self.or_gate(s, b);
        }
        if a == Literal::FALSE {
            return self.and_gate(s.complement(), b);
        }
        if b == Literal::TRUE {
            return self.or_gate(s.complement(), a);
        }
        if b == Literal::FALSE {
            return self.and_gate(s, a);
        }
        if b == a.complement() {
            return complemented(self.xor_gate(s, a));
        }
        self.mux_made(s, a, b)
    }

    // A Mux node's first choice is no complement: else both are complemented, and the result.
    fn mux_made(&mut self, s: Literal, a: Literal, b: Literal) -> Result<Literal, GateFault>
        requires selector { Names (length self.old.nodes) s.code }
        requires first { Names (length self.old.nodes) a.code }
        requires second { Names (length self.old.nodes) b.code }
        requires within { gate_count self.old.nodes ≤ self.old.limit }
        ensures { Gives self.old self.new (mux_made self.old.nodes s.code a.code b.code) result }
    {
        if a.is_complement() {
            return complemented(self.share(mux_node(s, a.complement(), b.complement())));
        }
        self.share(mux_node(s, a, b))
    }

    pub(crate) fn mux_gate(
        &mut self,
        s: Literal,
        a: Literal,
        b: Literal,
    ) -> Result<Literal, GateFault>
        requires selector { Names (length self.old.nodes) s.code }
        requires first { Names (length self.old.nodes) a.code }
        requires second { Names (length self.old.nodes) b.code }
        requires within { gate_count self.old.nodes ≤ self.old.limit }
        ensures { Gives self.old self.new (mux_gate self.old.nodes s.code a.code b.code) result }
    {
        if s == Literal::TRUE {
            return Ok(a);
        }
        if s == Literal::FALSE {
            return Ok(b);
        }
        if a == b {
            return Ok(a);
        }
        if s.is_complement() {
            return self.choice_gate(s.complement(), b, a);
        }
        self.choice_gate(s, a, b)
    }
}
