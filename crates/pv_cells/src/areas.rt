//! The cells of the bytes of areas.
ghost use Rattle.std.specs.Prelude.{◌≡◌, ◌++◌, ◌∷◌, [], map, IfOk, OnOk, decimal};
ghost use Rattle.pv_mean.specs.Cells.{byte_path, byte_cell};

use itoa::Buffer;
use pv_edge::Text;
use pv_mean::Cell;
use pv_place::Role;
use pv_word::Ty;
use std::alloc::{AllocError, Global};

/// The path of a byte of the area of this letter.
fn byte_path(alloc: Global, letter: u8, n: u32) -> Result<Text, AllocError>
    ensures { IfOk result (λ path. path ≡ byte_path letter n) }
{
    let mut buffer = Buffer::new();
    let mut path = Vec::new(alloc);
    path.push(letter)?;
    path.extend_from_slice(b"B ".as_slice())?;
    path.extend_from_slice(buffer.format(n).as_bytes())?;
    Ok(Text::from(path))
}

/// Puts the cells of bytes behind others.
pub(crate) fn push_bytes(
    alloc: Global,
    cells: &mut Vec<Cell>,
    letter: u8,
    role: Role,
    numbers: &[u32],
) -> Result<(), AllocError>
    ensures { OnOk result (cells.new.items ≡ cells.old.items ++ map (byte_cell letter role) numbers.now) }
{
    for &n in numbers {
        let path = byte_path(alloc, letter, n)?;
        cells.push(Cell {
            path,
            ty: Ty::Byte,
            start: 0,
            role,
            bound: None,
        })?;
    }
    Ok(())
}
