//! Laws of where names begin and of a block's variables, each the contract of a function that does nothing. Their statements are those
//! of `specs/Correct`.
ghost use Rattle.pv_variables.specs.Correct.{NamesArePlaced, FieldsArePlaced, ElementsArePlaced};
ghost use Rattle.pv_variables.specs.Correct.{OriginsAreTold, BoundAreCounted, BriefCellsAreApart};

use pv_mean::laws::tables_are_laid_out;

/// Where a name begins in each activation of a block is told apart from the activation.
pub fn names_are_placed()
    ensures { NamesArePlaced }
{}

/// And so is each field behind it.
pub fn fields_are_placed()
    ensures { FieldsArePlaced }
{}

/// And each element.
pub fn elements_are_placed()
    ensures { ElementsArePlaced }
{}

/// What begins alike in each activation is one.
pub fn origins_are_told()
    ensures { OriginsAreTold }
{}

/// There are as many bound variables as are counted.
pub fn bound_are_counted()
    ensures { BoundAreCounted }
{
    tables_are_laid_out()
}

/// Two brief cells have variables of their own.
pub fn brief_cells_are_apart()
    ensures { BriefCellsAreApart }
{
    tables_are_laid_out()
}
