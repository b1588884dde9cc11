//! Where a row's stretch begins, and the inputs of its scans.
use pv_claims::{CellValues, ScanInputs, Trace};
use pv_rows_form::{Row, Told};

/// The setting of this name as a text.
pub fn said(row: Row<'_>, name: &str, told: &mut Told) -> String {
    let alloc = told.alloc();
    String::from_utf8(row.setting(name, told)).unwrap_or(String::new(alloc))
}

/// The numbers that stand in a text between blanks.
pub fn values_of(text: &str, told: &mut Told) -> CellValues {
    let mut values = CellValues::new(told.alloc());
    for word in text.split(' ') {
        if let Ok(value) = word.parse::<i128>() {
            if values.push(value).is_err() {
                told.lose();
            }
        }
    }
    values
}

/// The inputs of scans, with `;` behind each scan.
fn scans_of(text: &str, told: &mut Told) -> ScanInputs {
    let mut scans = ScanInputs::new(told.alloc());
    if let Some((front, _)) = text.rsplit_once(';') {
        for scan in front.split(';') {
            if scans.push(values_of(scan, told)).is_err() {
                told.lose();
            }
        }
    }
    scans
}

/// The mark of this word; none of any other.
fn mark_of(word: &str) -> Option<bool> {
    match word {
        "0" => Some(false),
        "1" => Some(true),
        _ => None,
    }
}

/// What determines the stretch: it begins at the image behind the mark where the row has one, and else at the start.
fn trace_at(start: &str, inputs: ScanInputs, told: &mut Told) -> Trace {
    match start.strip_prefix("image") {
        Some(text) => {
            let (values, mark) = text.split_once(" prev ").unwrap_or((text, ""));
            Trace {
                image: Some(values_of(values, told)),
                prev: mark_of(mark),
                params: CellValues::new(told.alloc()),
                inputs,
            }
        }
        None => Trace {
            image: None,
            prev: None,
            params: values_of(start, told),
            inputs,
        },
    }
}

/// What determines the row's stretch.
pub fn trace_of(row: Row<'_>, told: &mut Told) -> Trace {
    let start = said(row, "start", told);
    let scans = said(row, "scans", told);
    let inputs = scans_of(scans.as_str(), told);
    trace_at(start.as_str(), inputs, told)
}
