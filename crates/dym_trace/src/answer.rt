/// What is said of a trace.
#[derive(Clone, Copy, PartialEq, Debug)]
pub enum TraceAnswer {
    /// Each line is a step from the state that the lines before it reach.
    Good { events: u32 },
    /// This line, counted from 1, is the first that is no event or no step.
    Bad { line: u32 },
}
