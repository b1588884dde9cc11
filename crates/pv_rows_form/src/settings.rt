//! The settings of a row: the lines before it in its part, each a name with what it says; of one name the last one counts.
use crate::text::expanded;
use std::alloc::{AllocError, Global};

/// Whether a line is empty, or begins with one of these names.
pub fn is_setting(line: &str, names: &[&str]) -> bool {
    line.is_empty() || names.iter().any(|name| line.starts_with(*name))
}

/// What the last setting of this name says.
pub fn last<'a>(head: &'a str, name: &str) -> Option<&'a str> {
    let mut found = None;
    for line in head.split('\n') {
        if let Some(rest) = line.strip_prefix(name) {
            found = Some(rest.trim());
        }
    }
    found
}

/// The numbers that a setting has, with blanks between them.
pub fn numbers(alloc: Global, head: &str, name: &str, row: &str) -> Result<Vec<u64>, AllocError> {
    let bytes = expanded(alloc, last(head, name).unwrap_or(""), row)?;
    let mut list = Vec::new(alloc);
    for word in str::from_utf8(&bytes).unwrap_or("").split(' ') {
        if let Ok(number) = word.parse::<u64>() {
            list.push(number)?;
        }
    }
    Ok(list)
}
