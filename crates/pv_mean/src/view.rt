//! What a case says of a project's cells: which are parameters.
ghost use Rattle.std.specs.Prelude.{◌≡◌, ◌<◌, length, All};
ghost use Rattle.pv_mean.specs.Cells.{changed_at, as_param, as_bound, with_view};

use crate::cell::Cell;
use pv_place::Role;

/// What a case says of a project: the number of the block that is entered, the numbers of the cells
/// that are parameters, those that are bound with their values, and the most turns of a loop.
#[derive(Drop)]
pub struct CaseView {
    pub entry: u32,
    pub params: Vec<u32>,
    pub bound: Vec<(u32, i128)>,
    pub loop_bound: u32,
}

/// Makes the cells that the case lists or binds parameters, and gives the bound ones their values. Of
/// two values for one cell the later stands.
pub fn set_params(cells: &mut [Cell], view: &CaseView)
    requires params { All (λ n. n < length cells.old) view.now.params.items }
    requires bound { All (λ b. b.0 < length cells.old) view.now.bound.items }
    ensures { cells.new ≡ with_view (record {
      params = view.now.params.items;
      bound = view.now.bound.items;
    }) cells.old }
{
    for &n in view.params.as_slice() {
        make_param(cells, n);
    }
    for &(n, v) in view.bound.as_slice() {
        bind(cells, n, v);
    }
}

fn make_param(cells: &mut [Cell], n: u32)
    requires within { n < length cells.old }
    ensures { cells.new ≡ changed_at as_param cells.old n }
{
    cells[n as usize].role = Role::Param;
}

fn bind(cells: &mut [Cell], n: u32, v: i128)
    requires within { n < length cells.old }
    ensures { cells.new ≡ changed_at (as_bound v) cells.old n }
{
    let cell = &mut cells[n as usize];
    cell.role = Role::Param;
    cell.bound = Some(v);
}
