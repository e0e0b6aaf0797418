//! What is found.

use argot_text::Out;

/// Data of the call of a source at one place reaches an argument of the call of a sink at another.
#[derive(Clone, Copy, Debug)]
pub struct Flow {
    /// The place of the source's call.
    pub source: usize,
    /// The place of the sink's call.
    pub sink: usize,
    /// The argument, counted from 0.
    pub argument: usize,
}

/// What is said of a file.
#[derive(Debug, Drop)]
pub enum Answer {
    /// The file isn't of the first form.
    Unsupported,
    /// The number of flows, and the report.
    Report { count: usize, text: Out },
}
