//! Which cells the declared names have.
ghost use Rattle.std.specs.Prelude.{◌≡◌, ◌≢◌, ◌<◌, ◌≤◌, ◌+◌, ℕ, ℤ, int_le, List, Contains, Bool, true, false, length, Some};
ghost use Rattle.pv_place.specs.declared.place.Place.{Place};
ghost use Rattle.pv_types.specs.Tree.{TypeTree, array, VarTree};
ghost use Rattle.pv_types.specs.View.{section_of, declared_type_of};
ghost use Rattle.pv_tree.specs.declared.expr.Area.{Area};
ghost use Rattle.pv_tree.specs.Tree.{OperandTree, StepTrees, BlockTree};
ghost use Rattle.pv_tree.specs.Scopes.{ProjectTree, Scope, is_fb, is_const, is_of_instance, first_block, first_var};
ghost use Rattle.pv_tree.specs.Things.{part, field_of_type, thing_behind};
ghost use Rattle.pv_tree.specs.Types.{are_indexed};
ghost use Rattle.pv_tree.specs.Rules.{KeepsRules};
ghost use Rattle.pv_mean.specs.Layout.{Laid, size_in, size_among, field_laid, element_laid, laid_behind, is_db, data_type, is_brief_in, entry_size, data_size};
ghost use Rattle.pv_mean.specs.AreaBytes.{bytes_of};
ghost use Rattle.pv_mean.specs.Cells.{View};
ghost use Rattle.pv_mean.specs.Sources.{Source, source_of, byte_number};
ghost use Rattle.pv_mean.specs.Frames.{visible_len};
ghost use Rattle.pv_mean.specs.Activations.{Activation, in_visible, in_brief, value_number, word_begins, block_begins};
ghost use Rattle.pv_mean.specs.Scans.{entry_activation};
ghost use Rattle.pv_laws_scans.specs.Areas.{numbers_in};
ghost use Rattle.pv_laws_scans.specs.Naming.{LiesIn, AreApart, NamesTypesOf, HasLiteralIndexes};

use pv_mean::laws::tables_are_laid_out;

/// A variable that is found by its name has cells of its type: in its function block's instance, of
/// the entered block the table's first cells, or among the brief cells of its activation. A data
/// block has its own behind the entered block's, each byte of an area that has a cell one behind these,
/// and the table has all of them.
pub fn declared_names_have_cells()
    ensures instance { (source : Source) (act : Activation) (key : List ℕ) (hash : Bool) (v : VarTree)
        → is_fb act.block.kind ≡ true → first_var act.block.vars key ≡ Some v
        → is_of_instance (section_of v) ≡ true
        → (laid : Laid) × (word_begins source act key hash ≡ in_visible laid)
        × (laid.ty ≡ declared_type_of v) × LiesIn source.project act.first
        (size_among source.project is_of_instance act.block.vars) laid }
    ensures entered { (source : Source) (key : List ℕ) (hash : Bool) (v : VarTree)
        → is_fb source.entry.kind ≡ true → first_var source.entry.vars key ≡ Some v
        → is_of_instance (section_of v) ≡ true
        → (laid : Laid) × (word_begins source (entry_activation source) key hash ≡ in_visible laid)
        × (laid.ty ≡ declared_type_of v)
        × LiesIn source.project 0 (entry_size source.project source.entry) laid }
    ensures brief { (source : Source) (act : Activation) (key : List ℕ) (hash : Bool) (v : VarTree)
        → first_var act.block.vars key ≡ Some v → is_const (section_of v) ≡ false
        → is_brief_in act.block (section_of v) ≡ true
        → (laid : Laid) × (word_begins source act key hash ≡ in_brief laid)
        × (laid.ty ≡ declared_type_of v) × LiesIn source.project 0 (value_number source act.block) laid }
    ensures data { (source : Source) (key : List ℕ) (block : BlockTree)
        → first_block source.project.blocks key ≡ Some block → is_db block.kind ≡ true
        → (laid : Laid) × (block_begins source block ≡ in_visible laid)
        × (laid.ty ≡ data_type block)
        × LiesIn source.project (entry_size source.project source.entry)
        (data_size source.project source.project.blocks) laid }
    ensures byte { (source : Source) (area : Area) (n : ℕ) → Contains (numbers_in source.bytes area) n
        → (entry_size source.project source.entry
        + data_size source.project source.project.blocks ≤ byte_number source area n)
        × (byte_number source area n < entry_size source.project source.entry
        + data_size source.project source.project.blocks
        + (length source.bytes.inputs + length source.bytes.outputs + length source.bytes.flags)) }
    ensures table { (project : ProjectTree) (entry : BlockTree) (patterns : List OperandTree)
        (view : View) (bound : ℕ)
        → entry_size project entry + data_size project project.blocks
        + (length (bytes_of project patterns).inputs + length (bytes_of project patterns).outputs
        + length (bytes_of project patterns).flags)
        ≤ visible_len (source_of project entry patterns view bound).cells }
{
    tables_are_laid_out();
}

/// Two names have no cell in common: two variables of an instance, two of an activation's brief
/// ones, two data blocks, two bytes of areas.
pub fn names_have_cells_of_their_own()
    ensures instance { (source : Source) (act : Activation) (key other : List ℕ) (hash : Bool)
        (v w : VarTree) (a b : Laid) → key ≢ other → is_fb act.block.kind ≡ true
        → first_var act.block.vars key ≡ Some v → is_of_instance (section_of v) ≡ true
        → first_var act.block.vars other ≡ Some w → is_of_instance (section_of w) ≡ true
        → word_begins source act key hash ≡ in_visible a
        → word_begins source act other hash ≡ in_visible b → AreApart source.project a b }
    ensures brief { (source : Source) (act : Activation) (key other : List ℕ) (hash : Bool)
        (v w : VarTree) (a b : Laid) → key ≢ other
        → first_var act.block.vars key ≡ Some v → is_const (section_of v) ≡ false
        → is_brief_in act.block (section_of v) ≡ true
        → first_var act.block.vars other ≡ Some w → is_const (section_of w) ≡ false
        → is_brief_in act.block (section_of w) ≡ true
        → word_begins source act key hash ≡ in_brief a
        → word_begins source act other hash ≡ in_brief b → AreApart source.project a b }
    ensures data { (source : Source) (key other : List ℕ) (block more : BlockTree) (a b : Laid)
        → key ≢ other
        → first_block source.project.blocks key ≡ Some block → is_db block.kind ≡ true
        → first_block source.project.blocks other ≡ Some more → is_db more.kind ≡ true
        → block_begins source block ≡ in_visible a → block_begins source more ≡ in_visible b
        → AreApart source.project a b }
    ensures byte { (source : Source) (area other : Area) (n m : ℕ)
        → Contains (numbers_in source.bytes area) n → Contains (numbers_in source.bytes other) m
        → byte_number source area n ≡ byte_number source other m → (area ≡ other) × (n ≡ m) }
{}

/// A field that a structure or an instance has by types has cells of its type among those of what it
/// is a field of, in a project that keeps the rules, whose blocks declare what they name; and so has
/// an element of an array at an index within its bounds; so what steps with such literal indexes lead
/// to has its cells among those of where they begin. The types of variables, of what data blocks hold
/// and of such fields name only types that the project's blocks name.
pub fn fields_and_elements_have_cells()
    ensures field { (scope : Scope) (laid : Laid) (key : List ℕ) (place : Place) (ty : TypeTree)
        → KeepsRules scope.project → NamesTypesOf scope.project laid.ty
        → field_of_type scope laid.ty key place ≡ part ty
        → (field : Laid) × (field_laid scope.project laid key ≡ Some field) × (field.ty ≡ ty)
        × LiesIn scope.project laid.first (size_in scope.project laid.ty) field
        × NamesTypesOf scope.project ty }
    ensures element { (project : ProjectTree) (low high : ℤ) (of : TypeTree) (place : Place)
        (first : ℕ) (i : ℤ) → int_le low i ≡ true → int_le i high ≡ true
        → (element : Laid)
        × (element_laid project (record { ty = array low high of place; first = first }) i
        ≡ Some element)
        × (element.ty ≡ of) × LiesIn project first (size_in project (array low high of place)) element }
    ensures steps { (scope : Scope) (laid : Laid) (last : Place) (more : StepTrees) (ty : TypeTree)
        → KeepsRules scope.project → NamesTypesOf scope.project laid.ty → HasLiteralIndexes more
        → are_indexed scope last (part laid.ty) more ≡ true
        → thing_behind scope last (part laid.ty) more ≡ part ty
        → (behind : Laid) × (laid_behind scope.project (Some laid) more ≡ Some behind)
        × (behind.ty ≡ ty) × LiesIn scope.project laid.first (size_in scope.project laid.ty) behind }
    ensures variable { (project : ProjectTree) (block : BlockTree) (key : List ℕ) (v : VarTree)
        → Contains project.blocks block → first_var block.vars key ≡ Some v
        → NamesTypesOf project (declared_type_of v) }
    ensures data { (project : ProjectTree) (block : BlockTree) → Contains project.blocks block
        → NamesTypesOf project (data_type block) }
{}
