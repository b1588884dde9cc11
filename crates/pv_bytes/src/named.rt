//! The bytes of an area that a project's sources, its symbols and patterns name.
//!
//! They are marked in a table of the whole area, in one walk over all operands, and read off it in the order of their numbers.
ghost use Rattle.std.specs.Prelude.{◌≡◌, ◌∷◌, [], ◌++◌, flat_map, map, option_map, option_to_list, OnOk, IfOk};
ghost use Rattle.pv_tree.specs.InstructionGroups as groups;
ghost use Rattle.pv_tree.specs.Scopes.{ProjectTree};
ghost use Rattle.pv_tree.specs.Parts as parts;
ghost use Rattle.pv_tree.specs.View.{expr_tree, operand_tree, call_tree, stmt_tree, instr_tree, body_tree, block_tree};
ghost use Rattle.pv_mean.specs.AreaBytes as bytes;
ghost use Rattle.pv_mean.specs.ProjectSizes.{project_tree};
ghost use Rattle.pv_tree.specs.Operands.{operands_in, operands_within};
ghost use Rattle.pv_bytes.specs.Operands.{operands_in_call, operands_in_stmt, operands_in_instr, MarksAlso};

use crate::marks::Marks;
use crate::statements::statements_of;
use pv_tree::{
    Area, Block, Body, CallTree, Expr, ForHead, Instr, Operand, Project, Stmt,
    operand_of_instruction,
};
use pv_types::{Literal, Name};
use pv_word::Ty;
use std::alloc::{AllocError, Global};

/// The operand that a statement assigns.
fn target_of(stmt: &Stmt) -> Option<&Operand>
    ensures { option_map (λ o. operand_tree o.now) result ≡ parts.target_of (stmt_tree stmt.now) }
{
    match stmt {
        Stmt::Assign { target, .. } => Some(target),
        Stmt::AssignCall { target, .. } => Some(target),
        Stmt::If { .. } => None,
        Stmt::Case { .. } => None,
        Stmt::For { .. } => None,
        Stmt::While { .. } => None,
        Stmt::Repeat { .. } => None,
        Stmt::Exit(_) => None,
        Stmt::Continue(_) => None,
        Stmt::Return(_) => None,
        Stmt::Call(_) => None,
        Stmt::Empty(_) => None,
    }
}

impl Marks {
    /// Marks the bytes that an operand names, if there is one.
    fn mark_own_of(&mut self, area: Area, operand: Option<&Operand>)
        ensures { MarksAlso area self.old.flags.items self.new.flags.items
            (option_to_list (option_map (λ o. operand_tree o.now) operand.entry)) }
    {
        match operand {
            Some(operand) => self.mark_own(area, operand),
            None => {}
        }
    }

    /// Marks the bytes that the indexes of an operand name, if there is one.
    fn mark_indexes_of(&mut self, area: Area, operand: Option<&Operand>)
        ensures { MarksAlso area self.old.flags.items self.new.flags.items
            (flat_map operands_within (option_to_list
            (option_map (λ o. operand_tree o.now) operand.entry))) }
    {
        match operand {
            Some(operand) => self.mark_indexes(area, operand),
            None => {}
        }
    }

    /// Marks the bytes that a call's arguments name.
    fn mark_call(&mut self, area: Area, call: &CallTree)
        ensures { MarksAlso area self.old.flags.items self.new.flags.items
            (operands_in_call (call_tree call.now)) }
    {
        for arg in &call.args {
            self.mark_expr(area, &arg.value);
        }
    }

    /// Marks the bytes that the arguments of an instruction's call name, if it is one.
    fn mark_call_of(&mut self, area: Area, instr: &Instr)
        ensures { MarksAlso area self.old.flags.items self.new.flags.items
            (flat_map (λ s. operands_in_call s.call)
            (parts.calls_of_instruction (instr_tree instr.now))) }
    {
        match instr.call() {
            Some(call) => self.mark_call(area, call),
            None => {}
        }
    }

    /// Marks the bytes that the conditions of an IF name.
    fn mark_conditions(&mut self, area: Area, arms: &[(Expr, Vec<Stmt>)])
        ensures { MarksAlso area self.old.flags.items self.new.flags.items
            (flat_map (λ a. operands_in (expr_tree a.0)) arms.now) }
    {
        for arm in arms {
            self.mark_expr(area, &arm.0);
        }
    }

    /// Marks the bytes that two expressions name.
    fn mark_both(&mut self, area: Area, left: &Expr, right: &Expr)
        ensures { MarksAlso area self.old.flags.items self.new.flags.items
            (operands_in (expr_tree left.now) ++ operands_in (expr_tree right.now)) }
    {
        self.mark_expr(area, left);
        self.mark_expr(area, right);
    }

    /// Marks the bytes that the start and the end of a FOR name.
    fn mark_head(&mut self, area: Area, head: &ForHead)
        ensures { MarksAlso area self.old.flags.items self.new.flags.items
            (operands_in (expr_tree head.now.first) ++ operands_in (expr_tree head.now.last)) }
    {
        self.mark_both(area, &head.first, &head.last);
    }

    /// Marks the bytes that an assignment's value and its target's indexes name.
    fn mark_assigned(&mut self, area: Area, target: &Operand, value: &Expr)
        ensures { MarksAlso area self.old.flags.items self.new.flags.items
            (operands_within (operand_tree target.now) ++ operands_in (expr_tree value.now)) }
    {
        self.mark_indexes(area, target);
        self.mark_expr(area, value);
    }

    /// Marks the bytes that an assigned call's arguments and its target's indexes name.
    fn mark_assigned_call(&mut self, area: Area, target: &Operand, call: &CallTree)
        ensures { MarksAlso area self.old.flags.items self.new.flags.items
            (operands_within (operand_tree target.now) ++ operands_in_call (call_tree call.now)) }
    {
        self.mark_indexes(area, target);
        self.mark_call(area, call);
    }

    /// Marks the bytes that a statement reads, without those in it.
    fn mark_stmt(&mut self, area: Area, stmt: &Stmt)
        ensures { MarksAlso area self.old.flags.items self.new.flags.items
            (operands_in_stmt (stmt_tree stmt.now)) }
    {
        match stmt {
            Stmt::Assign { target, value, .. } => self.mark_assigned(area, target, value),
            Stmt::AssignCall { target, call, .. } => self.mark_assigned_call(area, target, call),
            Stmt::If { arms, .. } => self.mark_conditions(area, arms.as_slice()),
            Stmt::Case { selector, .. } => self.mark_expr(area, selector),
            Stmt::For { head, .. } => self.mark_head(area, head),
            Stmt::While { cond, .. } => self.mark_expr(area, cond),
            Stmt::Repeat { cond, .. } => self.mark_expr(area, cond),
            Stmt::Call(call) => self.mark_call(area, call),
            Stmt::Exit(_) => {}
            Stmt::Continue(_) => {}
            Stmt::Return(_) => {}
            Stmt::Empty(_) => {}
        }
    }

    /// Marks the bytes that statements read, without those in them.
    fn mark_stmts(&mut self, area: Area, stmts: &[&Stmt])
        ensures { MarksAlso area self.old.flags.items self.new.flags.items
            (flat_map (λ s. operands_in_stmt (stmt_tree s.now)) stmts.now) }
    {
        for &stmt in stmts {
            self.mark_stmt(area, stmt);
        }
    }

    /// Marks the bytes that statements assign.
    fn mark_targets(&mut self, area: Area, stmts: &[&Stmt])
        ensures { MarksAlso area self.old.flags.items self.new.flags.items
            (flat_map (λ s. option_to_list (parts.target_of (stmt_tree s.now))) stmts.now) }
    {
        for &stmt in stmts {
            self.mark_own_of(area, target_of(stmt));
        }
    }

    /// Marks the bytes that an instruction's index and call name.
    fn mark_instr(&mut self, area: Area, instr: &Instr)
        ensures { MarksAlso area self.old.flags.items self.new.flags.items
            (operands_in_instr (instr_tree instr.now)) }
    {
        self.mark_indexes_of(area, operand_of_instruction(instr));
        self.mark_call_of(area, instr);
    }

    /// Marks the bytes that the indexes and calls of instructions name.
    fn mark_instrs(&mut self, area: Area, instrs: &[Instr])
        ensures { MarksAlso area self.old.flags.items self.new.flags.items
            (flat_map (λ i. operands_in_instr (instr_tree i)) instrs.now) }
    {
        for instr in instrs {
            self.mark_instr(area, instr);
        }
    }

    /// Marks the bytes that instructions read or write.
    fn mark_instr_operands(&mut self, area: Area, instrs: &[Instr])
        ensures { MarksAlso area self.old.flags.items self.new.flags.items
            (flat_map (λ i. option_to_list (groups.operand_of_instruction (instr_tree i)))
            instrs.now) }
    {
        for instr in instrs {
            self.mark_own_of(area, operand_of_instruction(instr));
        }
    }

    /// Marks the bytes that the indexes of start values name.
    fn mark_starts(&mut self, area: Area, starts: &[(Operand, Literal)])
        ensures { MarksAlso area self.old.flags.items self.new.flags.items
            (flat_map (λ v. operands_within (operand_tree v.0)) starts.now) }
    {
        for start in starts {
            self.mark_indexes(area, &start.0);
        }
    }

    /// Marks the bytes that the expressions of instructions and start values name.
    fn mark_body(&mut self, area: Area, body: &Body)
        ensures { MarksAlso area self.old.flags.items self.new.flags.items
            (flat_map operands_in_instr (parts.instructions_of (body_tree body.now))
            ++ flat_map (λ v. operands_within v.0) (parts.starts_of (body_tree body.now))) }
    {
        match body {
            Body::Scl(_) => {}
            Body::Stl(instrs) => self.mark_instrs(area, instrs.as_slice()),
            Body::Starts(starts) => self.mark_starts(area, starts.as_slice()),
        }
    }

    /// Marks the bytes that a body's instructions read or write.
    fn mark_operands_of(&mut self, area: Area, body: &Body)
        ensures { MarksAlso area self.old.flags.items self.new.flags.items
            (flat_map (λ i. option_to_list (groups.operand_of_instruction i))
            (parts.instructions_of (body_tree body.now))) }
    {
        match body {
            Body::Scl(_) => {}
            Body::Stl(instrs) => self.mark_instr_operands(area, instrs.as_slice()),
            Body::Starts(_) => {}
        }
    }

    /// Marks the bytes that a block names.
    fn mark_block(&mut self, alloc: Global, area: Area, block: &Block) -> Result<(), AllocError>
        ensures { OnOk result ((project : ProjectTree) → MarksAlso area self.old.flags.items
            self.new.flags.items (parts.operands_of project (block_tree block.now))) }
    {
        let stmts = statements_of(alloc, &block.body)?;
        self.mark_stmts(area, stmts.as_slice());
        self.mark_body(area, &block.body);
        self.mark_targets(area, stmts.as_slice());
        self.mark_operands_of(area, &block.body);
        Ok(())
    }

    /// Marks the bytes that blocks name.
    fn mark_blocks(&mut self, alloc: Global, area: Area, blocks: &[Block]) -> Result<(), AllocError>
        ensures { OnOk result ((project : ProjectTree) → MarksAlso area self.old.flags.items
            self.new.flags.items (flat_map (λ b. parts.operands_of project (block_tree b))
            blocks.now)) }
    {
        for block in blocks {
            self.mark_block(alloc, area, block)?;
        }
        Ok(())
    }

    /// Marks the bytes that symbols stand for.
    fn mark_symbols(&mut self, area: Area, symbols: &[(Name, Operand, Ty)])
        ensures { MarksAlso area self.old.flags.items self.new.flags.items
            (flat_map (λ s. operand_tree s.1 ∷ []) symbols.now) }
    {
        for symbol in symbols {
            self.mark_own(area, &symbol.1);
        }
    }

    /// Marks the bytes of operands.
    fn mark_operands(&mut self, area: Area, operands: &[Operand])
        ensures { MarksAlso area self.old.flags.items self.new.flags.items
            (flat_map (λ o. operand_tree o ∷ []) operands.now) }
    {
        for operand in operands {
            self.mark_own(area, operand);
        }
    }
}

/// The numbers of an area's bytes that a project's sources, its symbols or one of the operands name, from 0 to 65,535, rising and each
/// once: of a word two bytes, of a double word four. Neither an operand whose last byte would be past 65,535 nor one whose bit is past 7
/// names any, and of those that are handed over the beginning counts, not what their indexes read.
pub fn named_bytes(
    alloc: Global,
    project: &Project,
    named: &[Operand],
    area: Area,
) -> Result<Vec<u32>, AllocError>
    ensures { IfOk result (λ v. v.items ≡ bytes.named_bytes (project_tree project.now)
        (map operand_tree named.now) area) }
{
    let mut marks = Marks::new(alloc)?;
    marks.mark_blocks(alloc, area, project.blocks().list.as_slice())?;
    marks.mark_symbols(area, project.symbols());
    marks.mark_operands(area, named);
    marks.numbers(alloc)
}
