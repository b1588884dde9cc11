//! What a case says of a project's inputs.
ghost use Rattle.std.specs.Prelude.{◌≡◌, ◌≤◌, ◌<◌, ◌==◌, Some, length, map, find, string_bytes, option_map, slice_get, All, [], false, IfOk, IfErr, IfSome, String as A_string};
ghost use Rattle.std.specs.List.{list_any};
ghost use Rattle.std.specs.declared.alloc.Global.{Global as The_heap};
ghost use Rattle.pv_types.specs.declared.layout.TheConstants.{MAX_LEAVES};
ghost use Rattle.pv_case.specs.Cases.{bound_data};
ghost use Rattle.pv_case_fit.specs.declared.fault.InputFault.TheVariants.{NotAnInput as Is_no_input, BoundRange as Is_misfit};
ghost use Rattle.pv_case_fit.specs.Inputs.{number_of_input, is_no_input, first_stray, holds, fits_at, first_misfit, numbers_of, bound_number, bounds_of, Views, IsStray, IsMisfit, listed, with_some};

use crate::fault::InputFault;
use indexmap::IndexSet;
use pv_case::{Bound, Case};
use pv_mean::{CaseView, Cell, find};
use pv_word::in_range;
use std::alloc::{AllocError, Global};

/// What the case says of the cells: the numbers of its parameters and of the inputs that it binds, with their values.
///
/// `NotAnInput` exactly where a path is none of an input, a parameter's before a bound input's; a path names the first cell that has
/// it. Else `BoundRange` exactly where a bound value is outside of its cell's type, or an earlier path of the bound ones is for the
/// same cell. Each tells the first such path.
pub fn view_of(
    alloc: Global,
    case: &Case,
    entry: u32,
    cells: &[Cell],
) -> Result<CaseView, InputFault>
    requires { length cells.now ≤ MAX_LEAVES }
    ensures found { IfOk result (λ view. Views cells.now (map string_bytes case.now.params.items) (map bound_data case.now.bind.items)
        view.params.items view.bound.items) }
    ensures rest { IfOk result (λ view. (view.entry ≡ entry) × (view.loop_bound ≡ case.now.limits.loop_bound)) }
    ensures params { IfOk result (λ view. All (λ n. n < length cells.now) view.params.items) }
    ensures bound { IfOk result (λ view. All (λ b. b.0 < length cells.now) view.bound.items) }
    ensures stray { IfErr result (λ fault. (field : A_string The_heap) → fault ≡ Is_no_input field
        → IsStray cells.now (map string_bytes case.now.params.items) (map bound_data case.now.bind.items) (string_bytes field)) }
    ensures misfit { IfErr result (λ fault. (field : A_string The_heap) → fault ≡ Is_misfit field
        → IsMisfit cells.now (map string_bytes case.now.params.items) (map bound_data case.now.bind.items) (string_bytes field)) }
{
    if let Some(path) = stray_of(case, cells) {
        return Err(not_an_input(alloc, path));
    }
    if let Some(path) = misfit_of(alloc, case.bind.as_slice(), cells)? {
        return Err(bound_range(alloc, path));
    }
    Ok(CaseView {
        entry,
        params: numbers_of(alloc, case.params.as_slice(), cells)?,
        bound: bounds_of(alloc, case.bind.as_slice(), cells)?,
        loop_bound: case.limits.loop_bound,
    })
}

fn not_an_input(alloc: Global, path: &str) -> InputFault
    ensures stray { (field : A_string The_heap) → result ≡ Is_no_input field → string_bytes field ≡ path.now }
    ensures fits { (field : A_string The_heap) → result ≡ Is_misfit field → ⊥ }
{
    match String::from_str(alloc, path) {
        Ok(field) => InputFault::NotAnInput { field },
        Err(_) => InputFault::NoMemory,
    }
}

fn bound_range(alloc: Global, path: &str) -> InputFault
    ensures misfit { (field : A_string The_heap) → result ≡ Is_misfit field → string_bytes field ≡ path.now }
    ensures inputs { (field : A_string The_heap) → result ≡ Is_no_input field → ⊥ }
{
    match String::from_str(alloc, path) {
        Ok(field) => InputFault::BoundRange { field },
        Err(_) => InputFault::NoMemory,
    }
}

/// The number of the input of this path.
fn number_of_input(cells: &[Cell], path: &str) -> Option<u32>
    requires { length cells.now ≤ MAX_LEAVES }
    ensures { result ≡ number_of_input cells.now path.now }
{
    let n = find(cells, path.as_bytes())?;
    let cell = cells.get(n as usize)?;
    if cell.role.is_input() { Some(n) } else { None }
}

fn is_no_input(cells: &[Cell], path: &str) -> bool
    requires { length cells.now ≤ MAX_LEAVES }
    ensures { result ≡ is_no_input cells.now path.now }
{
    number_of_input(cells, path).is_none()
}

/// The first parameter that is no input.
fn stray_param<'a>(params: &'a [String], cells: &[Cell]) -> Option<&'a str>
    requires { length cells.now ≤ MAX_LEAVES }
    ensures { option_map (λ t. t.now) result ≡ first_stray cells.now (map string_bytes params.now) }
{
    for param in params {
        let path = param.as_str();
        if is_no_input(cells, path) {
            return Some(path);
        }
    }
    None
}

/// The first bound path that is no input.
fn stray_bound<'a>(bind: &'a [Bound], cells: &[Cell]) -> Option<&'a str>
    requires { length cells.now ≤ MAX_LEAVES }
    ensures { option_map (λ t. t.now) result ≡ first_stray cells.now (map (λ b. string_bytes b.path) bind.now) }
{
    for bound in bind {
        let path = bound.path.as_str();
        if is_no_input(cells, path) {
            return Some(path);
        }
    }
    None
}

fn stray_of<'a>(case: &'a Case, cells: &[Cell]) -> Option<&'a str>
    requires { length cells.now ≤ MAX_LEAVES }
    ensures { option_map (λ t. t.now) result
        ≡ first_stray cells.now (listed (map string_bytes case.now.params.items) (map bound_data case.now.bind.items)) }
{
    match stray_param(case.params.as_slice(), cells) {
        Some(path) => Some(path),
        None => stray_bound(case.bind.as_slice(), cells),
    }
}

/// Whether the value is one of the type of the cell of this number.
fn holds(cells: &[Cell], n: u32, value: i128) -> bool
    ensures { result ≡ holds (slice_get cells.now n) value }
{
    match cells.get(n as usize) {
        Some(cell) => in_range(cell.ty, value),
        None => false,
    }
}

/// Whether the input of this number may have the value, behind those of these numbers.
fn fits_at(cells: &[Cell], earlier: &IndexSet<u32>, value: i128, n: Option<u32>) -> bool
    ensures { result ≡ fits_at cells.now earlier.now.keys value n }
{
    match n {
        Some(n) => holds(cells, n, value) && !earlier.contains(&n),
        None => false,
    }
}

/// One number more, where there is one.
fn note(earlier: &mut IndexSet<u32>, n: Option<u32>) -> Result<(), AllocError>
    requires { IfSome n (λ m. list_any (λ k. m == k) earlier.old.keys ≡ false) }
    ensures { IfOk result (λ done. earlier.new.keys ≡ with_some earlier.old.keys n) }
{
    if let Some(n) = n {
        earlier.insert(n)?;
    }
    Ok(())
}

/// The first bound input whose value isn't one of its type, or which an earlier one is for.
fn misfit_of<'a>(
    alloc: Global,
    bind: &'a [Bound],
    cells: &[Cell],
) -> Result<Option<&'a str>, AllocError>
    requires { length cells.now ≤ MAX_LEAVES }
    ensures { IfOk result (λ path. option_map (λ t. t.now) path ≡ first_misfit cells.now [] (map bound_data bind.now)) }
{
    let mut earlier = IndexSet::new(alloc);
    for bound in bind {
        let path = bound.path.as_str();
        let n = number_of_input(cells, path);
        if !fits_at(cells, &earlier, bound.value, n) {
            return Ok(Some(path));
        }
        note(&mut earlier, n)?;
    }
    Ok(None)
}

/// The numbers of the parameters that are inputs.
fn numbers_of(alloc: Global, params: &[String], cells: &[Cell]) -> Result<Vec<u32>, AllocError>
    requires { length cells.now ≤ MAX_LEAVES }
    ensures { IfOk result (λ numbers. numbers.items ≡ numbers_of cells.now (map string_bytes params.now)) }
{
    let mut numbers = Vec::new(alloc);
    for param in params {
        push_some(&mut numbers, number_of_input(cells, param.as_str()))?;
    }
    Ok(numbers)
}

/// The number of a bound input, with its value.
fn bound_number(cells: &[Cell], bound: &Bound) -> Option<(u32, i128)>
    requires { length cells.now ≤ MAX_LEAVES }
    ensures { result ≡ bound_number cells.now (bound_data bound.now) }
{
    let n = number_of_input(cells, bound.path.as_str())?;
    Some((n, bound.value))
}

/// The numbers of the bound inputs, with their values.
fn bounds_of(alloc: Global, bind: &[Bound], cells: &[Cell]) -> Result<Vec<(u32, i128)>, AllocError>
    requires { length cells.now ≤ MAX_LEAVES }
    ensures { IfOk result (λ bounds. bounds.items ≡ bounds_of cells.now (map bound_data bind.now)) }
{
    let mut bounds = Vec::new(alloc);
    for bound in bind {
        push_some(&mut bounds, bound_number(cells, bound))?;
    }
    Ok(bounds)
}

/// One more, where there is one.
fn push_some<T: Drop>(list: &mut Vec<T>, one: Option<T>) -> Result<(), AllocError>
    ensures { IfOk result (λ done. list.new.items ≡ with_some list.old.items one) }
{
    if let Some(x) = one {
        list.push(x)?;
    }
    Ok(())
}
