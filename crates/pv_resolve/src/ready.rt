//! Expressions and targets of a block, ready to be evaluated and located.
ghost use Rattle.std.specs.Prelude.{◌≡◌, IfOk, IfErr};
ghost use Rattle.pv_tree.specs.View.{expr_tree, operand_tree};
ghost use Rattle.pv_mean.specs.Sources.{Source};
ghost use Rattle.pv_eval.specs.Ready.{Evaluates, Locates};
ghost use Rattle.pv_resolve.specs.declared.fault.ResolveFault.TheVariants.{NoMemory};
ghost use Rattle.pv_resolve.specs.Contexts.{IsContext, block_in};
ghost use Rattle.pv_resolve.specs.Rooms.{HasRoom, FitsExpr, FitsOperand};

use crate::context::Context;
use crate::fault::ResolveFault;
use pv_eval::{Expression, Target};
use pv_tree::{Expr, Operand};
use std::alloc::Global;

impl<'p> Context<'p> {
    /// An expression of the block.
    pub fn expression(&self, alloc: Global, e: &Expr) -> Result<Expression, ResolveFault>
        ensures evaluates { (source : Source) → IsContext self.now source
            → IfOk result (λ x. Evaluates source (block_in self.now) x (expr_tree e.now)) }
        ensures room { (source : Source) → IsContext self.now source
            → HasRoom source (block_in self.now) → FitsExpr (expr_tree e.now)
            → IfErr result (λ e. e ≡ NoMemory) }
    {
        let mut nodes = Vec::new(alloc);
        let made = self.expr(alloc, &mut nodes, e)?;
        let expression = Expression::of(alloc, nodes.as_slice(), made.node)?;
        Ok(expression)
    }

    /// An operand of the block, to be assigned.
    pub fn target(&self, alloc: Global, operand: &Operand) -> Result<Target, ResolveFault>
        ensures locates { (source : Source) → IsContext self.now source
            → IfOk result (λ t. Locates source (block_in self.now) t (operand_tree operand.now)) }
        ensures room { (source : Source) → IsContext self.now source
            → HasRoom source (block_in self.now) → FitsOperand (operand_tree operand.now)
            → IfErr result (λ e. e ≡ NoMemory) }
    {
        let mut nodes = Vec::new(alloc);
        let found = self.operand(alloc, &mut nodes, operand)?;
        let target = Target::of(alloc, nodes.as_slice(), found.operand)?;
        Ok(target)
    }
}
