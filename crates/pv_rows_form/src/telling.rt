//! What is told of a row, piece by piece. Where memory runs out the rest is lost, and only that is told, so that no piece needs an answer
//! of its own.
use std::alloc::Global;
use std::fmt::Debug;

/// The pieces so far.
#[derive(Drop)]
pub struct Told {
    bytes: Vec<u8>,
    alloc: Global,
    lost: bool,
}

impl Told {
    pub fn new(alloc: Global) -> Told {
        Told {
            bytes: Vec::new(alloc),
            alloc,
            lost: false,
        }
    }

    pub fn alloc(&self) -> Global {
        self.alloc
    }

    /// Says that memory has run out.
    pub fn lose(&mut self) {
        self.lost = true;
    }

    pub fn bytes(&mut self, bytes: &[u8]) {
        if self.bytes.extend_from_slice(bytes).is_err() {
            self.lost = true;
        }
    }

    pub fn text(&mut self, text: &str) {
        self.bytes(text.as_bytes());
    }

    pub fn number(&mut self, number: i128) {
        match format!(in self.alloc; "{number}") {
            Ok(text) => self.bytes(text.as_bytes()),
            Err(_) => self.lost = true,
        }
    }

    /// The words of a value of an enum, or of a struct's parts.
    pub fn words<T: Debug>(&mut self, value: &T) {
        match format!(in self.alloc; "{value:?}") {
            Ok(text) => self.bytes(text.as_bytes()),
            Err(_) => self.lost = true,
        }
    }

    pub fn is_empty(&self) -> bool {
        self.bytes.is_empty()
    }

    /// All of it as a text of one line, with a `|` for each line feed.
    pub fn line(&self) -> String {
        if self.lost {
            return no_memory(self.alloc);
        }
        match str::from_utf8(self.bytes.as_slice())
            .unwrap_or("bytes that are no UTF-8")
            .replace(self.alloc, '\n', "|")
        {
            Ok(line) => line,
            Err(_) => no_memory(self.alloc),
        }
    }
}

fn no_memory(alloc: Global) -> String {
    String::from_str(alloc, "no memory").unwrap_or(String::new(alloc))
}
