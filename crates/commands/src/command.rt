//! The commands that read a script.

/// A command that answers the requests of a script.
#[derive(Clone, Copy, Debug, PartialEq, Eq)]
pub enum ScriptCommand {
    /// Factors a job.
    Factor,
    /// Writes the input of a job.
    Expand,
}
