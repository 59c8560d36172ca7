//! What the words of the command line ask for.

/// A command of the program.
#[derive(Clone, Copy, Debug, PartialEq, Eq)]
pub enum Command {
    /// Reads a script, factors its job and answers its requests.
    Factor(Workers),
    /// Reads a script and writes the input of its job.
    Expand,
    /// Reads the header of a script and a block, and says whether the block is right.
    Check,
    /// Factors a job that is made from this number.
    Demo(u64),
}

/// Who computes the stages of a job.
#[derive(Clone, Copy, Debug, PartialEq, Eq)]
pub enum Workers {
    /// One thread.
    One,
    /// Up to this many threads in rounds, each joined at the end of the round; 1 to 64.
    Rounds(u32),
    /// This many threads, each with stages of its own; 1 to 64.
    Pipeline(u32),
}
