//! The operations on literals: which value each has.

ghost use Rattle.std.specs.Prelude.{◌≡◌, ℕ, ◌≤◌, ◌↔◌, ℤ, neg_ℤ, length, IfOk, OnOk, OnErr};

use crate::fault::GateFault;
use crate::sharing::Gates;

impl Gates {
    ghost use Rattle.pv_gate.specs.Node.{Names};
    ghost use Rattle.pv_gate.specs.Netlist.{Extends, KeepsValues, IsNot, IsAnd, IsOr, IsXor, IsMux};
    ghost use Rattle.pv_gate.specs.Build.{and_gate, or_gate, xor_gate, mux_gate, IsBeyond};
    ghost use Rattle.pv_gate.specs.Building.{make_and, make_or, make_xor, make_mux, Gives};

    /// The literal's complement, which takes no node.
    pub fn complement(&self, literal: i32) -> i32
        requires { Names (length self.now.nodes) literal }
        ensures complement { result ≡ neg_ℤ literal }
        ensures names { Names (length self.now.nodes) result }
        ensures value { IsNot self.now.nodes literal result }
    {
        self.literal(literal).complement().code()
    }

    /// The literal of `a AND b`: false where one is false or one is the other's complement, the other
    /// where one is true or they are the same, else an And node.
    pub fn and(&mut self, a: i32, b: i32) -> Result<i32, GateFault>
        requires first { Names (length self.old.nodes) a }
        requires second { Names (length self.old.nodes) b }
        ensures literal { IfOk result (λ literal. literal ≡ (and_gate self.old.nodes a b).literal) }
        ensures nodes { OnOk result (self.new ≡ record self.old { nodes = (and_gate self.old.nodes a b).nodes }) }
        ensures limit { (result ≡ Err GateFault.Limit) ↔ IsBeyond self.old (and_gate self.old.nodes a b) }
        ensures err { OnErr result (self.new ≡ self.old) }
        ensures built { Gives self.old self.new (make_and a b) result }

        // The value, and older literals keep theirs.
        ensures value { IfOk result (IsAnd self.old.nodes a b self.new.nodes) }
        ensures names { IfOk result (λ literal. Names (length self.new.nodes) literal) }
        ensures extends { Extends self.old.nodes self.new.nodes }
        ensures longer { length self.old.nodes ≤ length self.new.nodes }
        ensures older { KeepsValues self.old.nodes self.new.nodes }
    {
        let (a, b) = (self.literal(a), self.literal(b));
        Ok(self.and_gate(a, b)?.code())
    }

    /// The literal of `a OR b`: the complement of `and` of the two complements.
    pub fn or(&mut self, a: i32, b: i32) -> Result<i32, GateFault>
        requires first { Names (length self.old.nodes) a }
        requires second { Names (length self.old.nodes) b }
        ensures literal { IfOk result (λ literal. literal ≡ (or_gate self.old.nodes a b).literal) }
        ensures nodes { OnOk result (self.new ≡ record self.old { nodes = (or_gate self.old.nodes a b).nodes }) }
        ensures limit { (result ≡ Err GateFault.Limit) ↔ IsBeyond self.old (or_gate self.old.nodes a b) }
        ensures err { OnErr result (self.new ≡ self.old) }
        ensures built { Gives self.old self.new (make_or a b) result }

        // The value, and older literals keep theirs.
        ensures value { IfOk result (IsOr self.old.nodes a b self.new.nodes) }
        ensures names { IfOk result (λ literal. Names (length self.new.nodes) literal) }
        ensures extends { Extends self.old.nodes self.new.nodes }
        ensures longer { length self.old.nodes ≤ length self.new.nodes }
        ensures older { KeepsValues self.old.nodes self.new.nodes }
    {
        let (a, b) = (self.literal(a), self.literal(b));
        Ok(self.or_gate(a, b)?.code())
    }

    /// The literal of one of `a` and `b` and not the other: constants fold, equal literals give
    /// false and complements true, and else an Xor node of the operands without their complements.
    pub fn xor(&mut self, a: i32, b: i32) -> Result<i32, GateFault>
        requires first { Names (length self.old.nodes) a }
        requires second { Names (length self.old.nodes) b }
        ensures literal { IfOk result (λ literal. literal ≡ (xor_gate self.old.nodes a b).literal) }
        ensures nodes { OnOk result (self.new ≡ record self.old { nodes = (xor_gate self.old.nodes a b).nodes }) }
        ensures limit { (result ≡ Err GateFault.Limit) ↔ IsBeyond self.old (xor_gate self.old.nodes a b) }
        ensures err { OnErr result (self.new ≡ self.old) }
        ensures built { Gives self.old self.new (make_xor a b) result }

        // The value, and older literals keep theirs.
        ensures value { IfOk result (IsXor self.old.nodes a b self.new.nodes) }
        ensures names { IfOk result (λ literal. Names (length self.new.nodes) literal) }
        ensures extends { Extends self.old.nodes self.new.nodes }
        ensures longer { length self.old.nodes ≤ length self.new.nodes }
        ensures older { KeepsValues self.old.nodes self.new.nodes }
    {
        let (a, b) = (self.literal(a), self.literal(b));
        Ok(self.xor_gate(a, b)?.code())
    }

    /// The literal of `a` where `s`, else `b`: constants and complements fold, and else a Mux node
    /// whose first two operands are no complements.
    pub fn mux(&mut self, s: i32, a: i32, b: i32) -> Result<i32, GateFault>
        requires selector { Names (length self.old.nodes) s }
        requires first { Names (length self.old.nodes) a }
        requires second { Names (length self.old.nodes) b }
        ensures literal { IfOk result (λ literal. literal ≡ (mux_gate self.old.nodes s a b).literal) }
        ensures nodes { OnOk result (self.new ≡ record self.old { nodes = (mux_gate self.old.nodes s a b).nodes }) }
        ensures limit { (result ≡ Err GateFault.Limit) ↔ IsBeyond self.old (mux_gate self.old.nodes s a b) }
        ensures err { OnErr result (self.new ≡ self.old) }
        ensures built { Gives self.old self.new (make_mux s a b) result }

        // The value, and older literals keep theirs.
        ensures value { IfOk result (IsMux self.old.nodes s a b self.new.nodes) }
        ensures names { IfOk result (λ literal. Names (length self.new.nodes) literal) }
        ensures extends { Extends self.old.nodes self.new.nodes }
        ensures longer { length self.old.nodes ≤ length self.new.nodes }
        ensures older { KeepsValues self.old.nodes self.new.nodes }
    {
        let (s, a, b) = (self.literal(s), self.literal(a), self.literal(b));
        Ok(self.mux_gate(s, a, b)?.code())
    }
}
