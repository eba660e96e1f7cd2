//! What a run by workers is asked for.

/// How a model is simulated. Whatever is chosen, the end is that of the run in order.
#[derive(Clone, Copy, Debug)]
pub struct Options {
    /// The last time whose events are run.
    pub end: u64,
    /// Over how many workers the processes are spread; 0 stands for as many as the machine has
    /// processors, if it tells. There are no more workers than processes.
    pub workers: u32,
    /// How far beyond what is certain a worker runs ahead, in ticks. Where there is none, it is chosen
    /// again and again while the model is simulated, by how much of what was run was undone.
    pub window: Option<u64>,
    /// How many events lie between two copies of a process's state; 0 counts as 1.
    pub period: u64,
}
