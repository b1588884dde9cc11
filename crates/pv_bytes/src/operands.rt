//! The bytes that operands name, with those in their indexes: of expressions, statements, instructions and start values.
//!
//! The walk over an expression recurses as deep as it nests.
ghost use Rattle.std.specs.Prelude.{◌≡◌, ◌≤◌, ◌<◌, ◌||◌, ◌∷◌, [], map, ℕ, nat_eq, true, false, IfNone, IfSome};
ghost use Rattle.std.specs.List.{list_any};
ghost use Rattle.pv_tree.specs.declared.expr.Root.TheVariants.{Area as InArea};
ghost use Rattle.pv_tree.specs.Things as things;
ghost use Rattle.pv_tree.specs.View.{expr_tree, exprs_of, operand_tree, step_tree};
ghost use Rattle.pv_mean.specs.AreaBytes as bytes;
ghost use Rattle.pv_bytes.specs.Numbers.{flag_at};
ghost use Rattle.pv_tree.specs.Operands.{operands_in, operands_in_args, operands_in_step, operands_within};
ghost use Rattle.pv_bytes.specs.Operands.{MarksAlso};

use crate::marks::Marks;
use pv_tree::{Area, Expr, Operand, Root, Step};

/// The last byte of an address, where there is the address.
fn last_byte(bits: u32, byte: u64, bit: u64) -> Option<u64>
    ensures none { IfNone result (things.is_address bits byte bit ≡ false) }
    ensures there { IfSome result (λ last. things.is_address bits byte bit ≡ true) }
    ensures last { IfSome result (λ last. last ≡ things.last_byte bits byte) }
    ensures order { IfSome result (λ last. byte ≤ last) }
    ensures within { IfSome result (λ last. last < 65536) }
{
    if bit > 7 || byte > 65_535 {
        return None;
    }
    let last = byte + (bits.saturating_sub(1) / 8) as u64;
    if last > 65_535 {
        return None;
    }
    Some(last)
}

/// Whether two areas are the same.
fn is_same_area(a: Area, b: Area) -> bool
    ensures { result ≡ bytes.is_same_area a b }
{
    match (a, b) {
        (Area::I, Area::I) | (Area::Q, Area::Q) | (Area::M, Area::M) => true,
        (Area::I, _) | (Area::Q, _) | (Area::M, _) => false,
    }
}

impl Marks {
    /// Marks the bytes of an address, if it lies in the area.
    fn mark_address(&mut self, area: Area, other: Area, bits: u32, byte: u64, bit: u64)
        ensures { (k : ℕ) → flag_at self.new.flags.items k ≡ (flag_at self.old.flags.items k
            || list_any (nat_eq k) (bytes.bytes_of_root area (InArea other bits byte bit))) }
    {
        if !is_same_area(area, other) {
            return;
        }
        if let Some(last) = last_byte(bits, byte, bit) {
            self.mark_all(byte as usize, last as usize);
        }
    }

    /// Marks the bytes that an operand names by what it begins with.
    fn mark_root(&mut self, area: Area, root: &Root)
        ensures { (k : ℕ) → flag_at self.new.flags.items k ≡ (flag_at self.old.flags.items k
            || list_any (nat_eq k) (bytes.bytes_of_root area root.now)) }
    {
        match root {
            Root::Area {
                area: other,
                bits,
                byte,
                bit,
            } => self.mark_address(area, *other, *bits, *byte, *bit),
            Root::Local { .. } => {}
            Root::Named(_) => {}
        }
    }

    /// Marks the bytes that an operand names, without those in its indexes.
    pub(crate) fn mark_own(&mut self, area: Area, operand: &Operand)
        ensures { MarksAlso area self.old.flags.items self.new.flags.items
            (operand_tree operand.now ∷ []) }
    {
        self.mark_root(area, &operand.root);
    }

    /// Marks the bytes that an expression names, with those in it.
    #[cycle(marking)]
    pub(crate) fn mark_expr(&mut self, area: Area, e: &Expr)
        ensures { MarksAlso area self.old.flags.items self.new.flags.items
            (operands_in (expr_tree e.now)) }
    {
        match e {
            Expr::Lit { .. } => {}
            Expr::Read(operand) => self.mark_read(area, operand),
            Expr::Unary { arg, .. } => self.mark_expr(area, arg),
            Expr::Binary { left, right, .. } => {
                self.mark_expr(area, left);
                self.mark_expr(area, right);
            }
            Expr::Std { args, .. } => self.mark_args(area, args.as_slice()),
            Expr::Paren(_, inner) => self.mark_expr(area, inner),
        }
    }

    /// Marks the bytes that an operand names, with those in its indexes.
    #[cycle(marking)]
    fn mark_read(&mut self, area: Area, operand: &Operand)
        ensures { MarksAlso area self.old.flags.items self.new.flags.items
            (operand_tree operand.now ∷ operands_within (operand_tree operand.now)) }
    {
        self.mark_own(area, operand);
        self.mark_indexes(area, operand);
    }

    /// Marks the bytes that arguments name.
    #[cycle(marking)]
    fn mark_args(&mut self, area: Area, args: &[Expr])
        ensures { MarksAlso area self.old.flags.items self.new.flags.items
            (operands_in_args (exprs_of (map expr_tree args.now))) }
    {
        for arg in args {
            self.mark_expr(area, arg);
        }
    }

    /// Marks the bytes that a step's index names.
    #[cycle(marking)]
    fn mark_step(&mut self, area: Area, step: &Step)
        ensures { MarksAlso area self.old.flags.items self.new.flags.items
            (operands_in_step (step_tree step.now)) }
    {
        match step {
            Step::Field(..) => {}
            Step::Index(e, _) => self.mark_expr(area, e),
        }
    }

    /// Marks the bytes that an operand's indexes name.
    #[cycle(marking)]
    pub(crate) fn mark_indexes(&mut self, area: Area, operand: &Operand)
        ensures { MarksAlso area self.old.flags.items self.new.flags.items
            (operands_within (operand_tree operand.now)) }
    {
        for step in &operand.steps {
            self.mark_step(area, step);
        }
    }
}
