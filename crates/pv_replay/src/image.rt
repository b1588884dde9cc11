//! Images: what is stored from scan to scan, and the visible cells at a scan's beginning.
ghost use Rattle.std.specs.Prelude.{◌≡◌, length, slice_index_or, pos, All};
ghost use Rattle.pv_mean.specs.Frames.{image_len, start_image, is_free};
ghost use Rattle.pv_replay.specs.Images.{IsLong, AreLong, BeginLong, BeginsLong, stored_count, begin_by_roles, left_of, started};
ghost use Rattle.pv_replay.specs.Images as images;

use pv_mean::Cell;
use pv_place::Role;

/// The value of this number; 0 behind the last one.
fn value_at(values: &[i128], n: usize) -> i128
    ensures { result ≡ slice_index_or values.now n (pos 0) }
{
    match values.get(n) {
        Some(v) => *v,
        None => 0,
    }
}

/// The stored value of this number; 0 behind the last one.
fn stored_at(image: &[i64], n: usize) -> i64
    ensures { result ≡ slice_index_or image.now n (pos 0) }
{
    match image.get(n) {
        Some(v) => *v,
        None => 0,
    }
}

/// The value, where 64 bits hold it; else 0.
fn long(v: i128) -> i64
    ensures { IsLong v → result ≡ v }
{
    match i64::try_from(v) {
        Ok(value) => value,
        Err(_) => 0,
    }
}

/// The visible cells at a scan's beginning: stored cells take the image's values, input cells those of the scan's input.
pub(crate) fn begin(roles: &[Role], image: &[i64], input: &[i128], values: &mut [i64])
    requires { length values.old ≡ length roles.now }
    ensures { AreLong input.now → values.new ≡ begin_by_roles roles.now image.now input.now }
{
    let mut stored = 0;
    let mut given = 0;
    for (number, role) in roles.iter().enumerate() {
        if role.is_stored() {
            values[number] = stored_at(image, stored);
            stored += 1;
        } else {
            values[number] = long(value_at(input, given));
            given += 1;
        }
    }
}

/// What a kept cell leaves for the next scan is its value at the end; a parameter keeps its own.
fn left(role: Role, own: i64, end: i64) -> i64
    ensures { result ≡ images.left role own end }
{
    match role {
        Role::Kept => end,
        Role::Input | Role::Param | Role::Brief => own,
    }
}

/// The image behind a scan that is done with these visible cells.
pub(crate) fn keep(roles: &[Role], values: &[i64], image: &mut [i64])
    requires values { length values.now ≡ length roles.now }
    requires image { length image.old ≡ stored_count roles.now }
    ensures { image.new ≡ left_of roles.now image.old values.now }
{
    let mut stored = 0;
    for (number, role) in roles.iter().enumerate() {
        if role.is_stored() {
            image[stored] = left(*role, image[stored], values[number]);
            stored += 1;
        }
    }
}

/// Whether the cell is a parameter that no binding gives its value.
fn is_open(cell: &Cell) -> bool
    ensures { result ≡ is_free cell.now.role cell.now.bound }
{
    match cell.role {
        Role::Param => cell.bound.is_none(),
        Role::Input | Role::Kept | Role::Brief => false,
    }
}

/// The value of a stored cell before the first scan, where the next parameter is this one.
fn start_value(cell: &Cell, next: i128) -> i64
    ensures { BeginsLong cell.now → IsLong next
        → result ≡ started cell.now.role cell.now.bound cell.now.start next }
{
    match cell.role {
        Role::Param => match cell.bound {
            Some(v) => long(v),
            None => long(next),
        },
        Role::Input | Role::Kept | Role::Brief => long(cell.start),
    }
}

/// The image before the first scan: a kept cell has its start value, a bound parameter its bound one, and the others those of the
/// parameters, in their order.
pub(crate) fn start(cells: &[Cell], params: &[i128], image: &mut [i64])
    requires image { length image.old ≡ image_len cells.now }
    ensures { BeginLong cells.now → AreLong params.now
        → image.new ≡ start_image cells.now params.now }
{
    let mut stored = 0;
    let mut given = 0;
    for cell in cells {
        if cell.role.is_stored() {
            image[stored] = start_value(cell, value_at(params, given));
            stored += 1;
            if is_open(cell) {
                given += 1;
            }
        }
    }
}

/// As many values that 64 bits hold, one by one.
pub(crate) fn narrow(from: &[i128], to: &mut [i64])
    ensures { length to.old ≡ length from.now → AreLong from.now → to.new ≡ from.now }
{
    for number in 0..to.len() {
        to[number] = long(value_at(from, number));
    }
}

/// The same values, in 128 bits.
pub(crate) fn widen(from: &[i64], to: &mut [i128])
    requires { length to.old ≡ length from.now }
    ensures same { to.new ≡ from.now }
    ensures long { All IsLong to.new }
{
    for (number, v) in from.iter().enumerate() {
        to[number] = i128::from(*v);
    }
}
