// What is reported.

/// The command whose report is wanted.
#[derive(Clone, Copy, Debug, Drop)]
pub enum Command {
    /// Flows and escapes.
    Taint,
    /// Origins.
    Backtrace,
    /// Escaping sites.
    Escape,
    /// How many flows and escapes a trial of this size has.
    Trial {
        /// The size of the trial.
        count: u32,
    },
}
