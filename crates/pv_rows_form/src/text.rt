//! Texts of the rows' file, in which an `@` with what follows it means something else.
use std::alloc::{AllocError, Global};

/// The field of a row that has this number, from 0, without the blanks around it.
pub fn field(row: &str, number: u8) -> &str {
    for (i, text) in row.split('|').enumerate() {
        if i == usize::from(number) {
            return text.trim();
        }
    }
    ""
}

/// The value of a hexadecimal digit.
fn digit(byte: u8) -> u8 {
    match byte {
        b'0'..=b'9' => byte & 15,
        _ => (byte & 15).saturating_add(9),
    }
}

fn put_both(out: &mut Vec<u8>, first: &[u8], rest: &[u8]) -> Result<(), AllocError> {
    out.extend_from_slice(first)?;
    out.extend_from_slice(rest)?;
    Ok(())
}

fn put_number(
    alloc: Global,
    out: &mut Vec<u8>,
    number: u32,
    rest: &[u8],
) -> Result<(), AllocError> {
    let text = format!(in alloc; "{number}")?;
    put_both(out, text.as_bytes(), rest)
}

/// Puts what follows an `@`, with what its first byte means. An unknown one is left as it is.
fn put_code(alloc: Global, out: &mut Vec<u8>, piece: &[u8], turn: u32) -> Result<(), AllocError> {
    match piece {
        [b'a', rest @ ..] => put_both(out, b"@", rest),
        [b'n', rest @ ..] => put_both(out, b"\n", rest),
        [b'r', rest @ ..] => put_both(out, b"\r", rest),
        [b't', rest @ ..] => put_both(out, b"\t", rest),
        [b'.', rest @ ..] => put_both(out, b"", rest),
        [b'x', high, low, rest @ ..] => {
            put_both(out, &[(digit(*high) << 4) | digit(*low)], rest)
        }
        [b'#', rest @ ..] => put_number(alloc, out, turn, rest),
        [b'+', rest @ ..] => put_number(alloc, out, turn.saturating_add(1), rest),
        _ => put_both(out, b"@", piece),
    }
}

/// Puts a field of a row, which has no fields itself.
fn put_field(alloc: Global, out: &mut Vec<u8>, text: &str) -> Result<(), AllocError> {
    for (i, piece) in text.split('@').enumerate() {
        if i == 0 {
            out.extend_from_slice(piece.as_bytes())?;
        } else {
            put_code(alloc, out, piece.as_bytes(), 0)?;
        }
    }
    Ok(())
}

/// Puts what follows an `@`: a field of the row, or what else its first byte means.
fn put_piece(
    alloc: Global,
    out: &mut Vec<u8>,
    piece: &[u8],
    row: &str,
    turn: u32,
) -> Result<(), AllocError> {
    match piece {
        [first, rest @ ..] if matches!(first, b'1'..=b'9') => {
            put_field(alloc, out, field(row, digit(*first).saturating_sub(1)))?;
            out.extend_from_slice(rest)?;
            Ok(())
        }
        _ => put_code(alloc, out, piece, turn),
    }
}

/// Puts a text that repeats nothing.
fn put(
    alloc: Global,
    out: &mut Vec<u8>,
    text: &str,
    row: &str,
    turn: u32,
) -> Result<(), AllocError> {
    for (i, piece) in text.split('@').enumerate() {
        if i == 0 {
            out.extend_from_slice(piece.as_bytes())?;
        } else {
            put_piece(alloc, out, piece.as_bytes(), row, turn)?;
        }
    }
    Ok(())
}

/// Puts what follows an `@*`: how many times, in parentheses what is repeated, and the rest.
fn put_repeated(alloc: Global, out: &mut Vec<u8>, text: &str, row: &str) -> Result<(), AllocError> {
    let (times, more) = text.split_once('(').unwrap_or((text, ""));
    let (body, rest) = more.split_once("@)").unwrap_or((more, ""));
    let times = times.parse::<u32>().unwrap_or(0);
    for turn in 0..times {
        put(alloc, out, body, row, turn.saturating_add(1))?;
    }
    put(alloc, out, rest, row, 0)
}

/// What a text means for a row.
pub fn expanded(alloc: Global, text: &str, row: &str) -> Result<Vec<u8>, AllocError> {
    let mut out = Vec::new(alloc);
    for (i, piece) in text.split("@*").enumerate() {
        if i == 0 {
            put(alloc, &mut out, piece, row, 0)?;
        } else {
            put_repeated(alloc, &mut out, piece, row)?;
        }
    }
    Ok(out)
}
