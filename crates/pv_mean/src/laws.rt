//! Laws of the definitions, each the contract of a function that does nothing.
ghost use Rattle.std.specs.Prelude.{◌≡◌, ◌+◌, ◌++◌, ◌≤◌, ℕ, List, length, map, flat_map, Some, Contains};
ghost use Rattle.std.specs.List.{AllByRecursion};
ghost use Rattle.pv_word.specs.Types.{InRange};
ghost use Rattle.pv_place.specs.Ranges.{AreWithin};
ghost use Rattle.pv_tree.specs.Tree.{BlockTree};
ghost use Rattle.pv_tree.specs.Scopes.{ProjectTree};
ghost use Rattle.pv_tree.specs.Rules.{KeepsRules};
ghost use Rattle.pv_mean.specs.Layout.{entry_size, data_size};
ghost use Rattle.pv_mean.specs.AreaBytes.{Bytes};
ghost use Rattle.pv_mean.specs.declared.cell.Cell.{Cell};
ghost use Rattle.pv_mean.specs.Cells.{View, with_view, entry_cells, data_cells, area_cells, visible_part, table_of, most_calls};
ghost use Rattle.pv_mean.specs.Sources.{Source};
ghost use Rattle.pv_mean.specs.Frames.{Image, Input, Params, visible_cells, image_len, visible_len, visible_ranges, image_ranges, input_ranges, param_ranges, begin};
ghost use Rattle.pv_mean.specs.Endings.{ended};
ghost use Rattle.pv_mean.specs.Scans.{Visible, scan, scan_from, next_image};
ghost use Rattle.pv_mean.specs.Runs.{start, run_from, run_on, end_image};
ghost use Rattle.pv_mean.specs.Chains.{EndsWithin};
ghost use Rattle.pv_mean.specs.Correct.{BindsInRange};

/// A run over some inputs and more is the run over them, followed by the run over the others from
/// the image that it leaves.
pub fn runs_follow()
    ensures { (source : Source) (image : Image) (inputs more : List Input)
        → run_from source image (inputs ++ more)
        ≡ run_from source image inputs ++ run_on source (end_image source image inputs) more }
{}

/// A run whose scans are all done has a scan for each input.
pub fn done_runs_have_a_scan_for_each_input()
    ensures { (source : Source) (image : Image) (inputs : List Input) (end : Image)
        → end_image source image inputs ≡ Some end
        → length (run_from source image inputs) ≡ length inputs }
{}

/// A scan's beginning and end have a value for each visible cell, and the image that it leaves has
/// one for each stored cell, as the image has with which a run starts.
pub fn images_keep_their_length()
    ensures beginning { (source : Source) (image : Image) (input : Input)
        → length (scan source image input).beginning ≡ visible_len source.cells }
    ensures end { (source : Source) (image : Image) (input : Input) (values : Visible)
        → (scan source image input).end ≡ ended values
        → length values ≡ visible_len source.cells }
    ensures next { (source : Source) (beginning end : Visible)
        → length (next_image source beginning end) ≡ image_len source.cells }
    ensures start { (source : Source) (params : Params)
        → length (start source params) ≡ image_len source.cells }
{}

/// A scan from an image by an input, each value in its cell's range, ends with values of the cells'
/// types and leaves such an image; a run starts with one, where the start values lie in their types.
pub fn scans_keep_the_ranges()
    ensures start { (source : Source) (params : Params)
        → AllByRecursion (λ c. InRange c.ty c.start) source.cells
        → AreWithin (param_ranges source.cells) params
        → AreWithin (image_ranges source.cells) (start source params) }
    ensures end { (source : Source) (image : Image) (input : Input) (values : Visible)
        → AllByRecursion BindsInRange source.cells
        → AreWithin (image_ranges source.cells) image
        → AreWithin (input_ranges source.cells) input
        → (scan source image input).end ≡ ended values
        → AreWithin (visible_ranges source.cells) values }
    ensures image { (source : Source) (image : Image) (input : Input) (values : Visible)
        → AllByRecursion BindsInRange source.cells
        → AreWithin (image_ranges source.cells) image
        → AreWithin (input_ranges source.cells) input
        → (scan source image input).end ≡ ended values
        → AreWithin (image_ranges source.cells)
        (next_image source (scan source image input).beginning values) }
{}

/// Where no chain of more than n calls begins in the entered block, a scan that is allowed more calls
/// behind one another is the same. In a project that keeps the rules no chain has more than seven.
pub fn more_calls_change_nothing()
    ensures beyond { (source : Source) (n k : ℕ) (values : Visible) → n ≤ k
        → EndsWithin source.project n source.entry
        → scan_from source k values ≡ scan_from source n values }
    ensures rules { (project : ProjectTree) (block : BlockTree) → KeepsRules project
        → Contains project.blocks block
        → EndsWithin project most_calls block }
    ensures scan { (source : Source) (k : ℕ) (image : Image) (input : Input)
        → KeepsRules source.project → Contains source.project.blocks source.entry
        → most_calls ≤ k
        → scan_from source k (begin source.cells image input) ≡ scan source image input }
{}

/// The cell table has as many cells for each of its parts as the layout says, by which spots are
/// numbered: so data blocks begin behind the entered block, and the bytes of areas behind these. The
/// visible cells are its front, so a visible cell's number among them is that in the table.
pub fn tables_are_laid_out()
    ensures entry { (project : ProjectTree) (block : BlockTree)
        → length (entry_cells project block) ≡ entry_size project block }
    ensures data_blocks { (project : ProjectTree)
        → length (flat_map (data_cells project) project.blocks) ≡ data_size project project.blocks }
    ensures areas { (bytes : Bytes)
        → length (area_cells bytes)
        ≡ length bytes.inputs + length bytes.outputs + length bytes.flags }
    ensures visible { (project : ProjectTree) (block : BlockTree) (bytes : Bytes)
        → visible_cells (table_of project block bytes) ≡ visible_part project block bytes }
{}

/// What a case says of cells changes their roles and bindings alone: paths, types and start values
/// stay.
pub fn views_keep_paths_types_and_starts()
    ensures paths { (view : View) (cells : List Cell)
        → map (λ c. c.path) (with_view view cells) ≡ map (λ c. c.path) cells }
    ensures types { (view : View) (cells : List Cell)
        → map (λ c. c.ty) (with_view view cells) ≡ map (λ c. c.ty) cells }
    ensures starts { (view : View) (cells : List Cell)
        → map (λ c. c.start) (with_view view cells) ≡ map (λ c. c.start) cells }
{}
