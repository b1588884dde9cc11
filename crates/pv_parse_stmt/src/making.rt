//! Statements that hold lists of pairs, made of their parts: what each is as plain data wants a lemma.
ghost use Rattle.std.specs.Prelude.{◌≡◌};
ghost use Rattle.pv_tree.specs.Tree.{if_, case_};
ghost use Rattle.pv_tree.specs.View.{expr_tree, stmt_tree, arms_of, branches_of, else_of};
ghost use Rattle.pv_parse.specs.CodeItems.{arm_list, branch_list, else_list};

use pv_place::Place;
use pv_tree::{ChoiceRange, Expr, Stmt};

/// An IF of its conditions, each with its statements, and of those behind ELSE.
pub fn if_of(arms: Vec<(Expr, Vec<Stmt>)>, other: Option<Box<Vec<Stmt>>>, place: Place) -> Stmt
    ensures { stmt_tree result ≡ if_ (arms_of (arm_list arms)) (else_of (else_list other)) place }
{
    Stmt::If { arms, other, place }
}

/// A CASE of its branches, each with the values of its label, and of the statements behind ELSE.
pub fn case_of(
    selector: Box<Expr>,
    branches: Vec<(Vec<ChoiceRange>, Vec<Stmt>)>,
    other: Option<Box<Vec<Stmt>>>,
    place: Place,
) -> Stmt
    ensures { stmt_tree result ≡ case_ (expr_tree selector.value) (branches_of (branch_list branches))
        (else_of (else_list other)) place }
{
    Stmt::Case {
        selector,
        branches,
        other,
        place,
    }
}
