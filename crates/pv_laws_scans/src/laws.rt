//! What scans begin with, keep and leave.
ghost use Rattle.std.specs.Prelude.{◌≡◌, ◌++◌, ◌∷◌, length, pos, ℕ, List, slice_index_or, true};
ghost use Rattle.pv_place.specs.declared.role.Role.TheVariants.{Kept, Param};
ghost use Rattle.pv_place.specs.Roles.{is_input, is_stored};
ghost use Rattle.pv_mean.specs.declared.cell.Cell.{Cell};
ghost use Rattle.pv_mean.specs.Sources.{Source};
ghost use Rattle.pv_mean.specs.Frames.{Image, Input, image_len, input_len, visible_len, begin, image_after};
ghost use Rattle.pv_mean.specs.Endings.{ended};
ghost use Rattle.pv_mean.specs.Scans.{Visible, next_image, scan, scan_from, entry_activation};
ghost use Rattle.pv_mean.specs.Cells.{most_calls};
ghost use Rattle.pv_laws_scans.specs.Parts.{image_of, input_of};
ghost use Rattle.pv_laws_scans.specs.Leaving.{Leaves};

use pv_mean::instruction_laws::instructions_leave_other_cells;
use pv_mean::step_laws::untouched_cells_keep_their_value;

/// At a scan's beginning the input cells have the input's values, and the stored cells those of the
/// image: after a scan that is done the values that it left. Each cell has the value of its own
/// number among its kind.
pub fn scans_begin_with_image_and_input()
    ensures input_place { (before : List Cell) (c : Cell) (after : List Cell) (image : Image)
        (input : Input)
        → is_input c.role ≡ true
        → slice_index_or (begin (before ++ c ∷ after) image input) (visible_len before) (pos 0)
        ≡ slice_index_or input (input_len before) (pos 0) }
    ensures image_place { (before : List Cell) (c : Cell) (after : List Cell) (image : Image)
        (input : Input)
        → is_stored c.role ≡ true
        → slice_index_or (begin (before ++ c ∷ after) image input) (visible_len before) (pos 0)
        ≡ slice_index_or image (image_len before) (pos 0) }
    ensures input { (cells : List Cell) (image : Image) (input : Input)
        → length input ≡ input_len cells → input_of cells (begin cells image input) ≡ input }
    ensures image { (cells : List Cell) (image : Image) (input : Input)
        → length image ≡ image_len cells → image_of cells (begin cells image input) ≡ image }
    ensures carried { (source : Source) (beginning end : Visible) (input : Input)
        → image_of source.cells (begin source.cells (next_image source beginning end) input)
        ≡ next_image source beginning end }
{}

/// The image that a scan leaves has the value of its end for a cell that is kept, and that of its
/// beginning for a parameter, whatever the block wrote to it.
pub fn scans_leave_what_is_kept()
    ensures kept { (before : List Cell) (c : Cell) (after : List Cell) (beginning end : Visible)
        → c.role ≡ Kept
        → slice_index_or (image_after (before ++ c ∷ after) beginning end) (image_len before) (pos 0)
        ≡ slice_index_or end (visible_len before) (pos 0) }
    ensures param { (before : List Cell) (c : Cell) (after : List Cell) (beginning end : Visible)
        → c.role ≡ Param
        → slice_index_or (image_after (before ++ c ∷ after) beginning end) (image_len before) (pos 0)
        ≡ slice_index_or beginning (visible_len before) (pos 0) }
{}

/// A visible cell has at a scan's end the value that it had at its beginning, where no target of the
/// entered block names it, wherever its indexes lead, and no call reaches it: neither a parameter
/// that takes an argument, nor the called block, nor an operand that an argument hands back to.
pub fn scans_keep_untouched_cells()
    ensures scan_from { (source : Source) (calls n : ℕ) (values end : Visible)
        → Leaves source n calls (entry_activation source)
        → (scan_from source calls values).end ≡ ended end
        → slice_index_or end n (pos 0) ≡ slice_index_or values n (pos 0) }
    ensures scan { (source : Source) (image : Image) (input : Input) (n : ℕ) (end : Visible)
        → Leaves source n most_calls (entry_activation source)
        → (scan source image input).end ≡ ended end
        → slice_index_or end n (pos 0)
        ≡ slice_index_or (scan source image input).beginning n (pos 0) }
{
    untouched_cells_keep_their_value();
    instructions_leave_other_cells();
}
