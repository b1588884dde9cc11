//! What is attached to an automaton: a requirement's pattern.

/// The variables 'has prev' and 'prev' of a pattern that looks back, and the number of the term that prev takes where a scan is done.
#[derive(Clone, Copy)]
pub struct Looking {
    pub has: u32,
    pub was: u32,
    pub now: u32,
}

/// The variable that is set once the assumption was false at a scan's beginning, and the assumption's number. From then on no scan
/// fails.
#[derive(Clone, Copy)]
pub struct Guarding {
    pub blocked: u32,
    pub assumed: u32,
}

/// A pattern, by the numbers of its terms. In `holds` a variable below the number n of variables is read where the scan ends, and n + v
/// is variable v where it begins. An attached bit has its value of the beginning there too: it is set behind what is judged.
#[derive(Clone, Copy)]
pub struct Attached {
    /// Whether `holds` is a goal, so that a scan that reaches it fails.
    pub reach: bool,
    pub holds: u32,
    pub looking: Option<Looking>,
    pub guarding: Option<Guarding>,
}
