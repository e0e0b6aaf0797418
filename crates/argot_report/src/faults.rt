// Why there is no report.

/// What stops `report`.
#[derive(Clone, Copy, Debug, Drop, PartialEq)]
pub enum ReportFault {
    /// The report has more than 67,108,864 bytes.
    Report,
    /// There was no memory left.
    Memory,
}
