// The answers of the public functions. What each means in document 01's numbers stands in specs/.
#![tactic(auto)]

// An image that the rules admit, or the refusal: document 01's number and place.
#[derive(Clone, Copy)]
pub enum Checked {
    Accepted,
    Refused(u32, usize),
}

// A broken rule: document 01's number and place. Number 0 stands for none.
#[derive(Clone, Copy)]
pub struct Fault {
    pub number: u32,
    pub place: usize,
}

// A for with constant bounds: the number of its passes, and its upper bound, which its variable stays below.
#[derive(Clone, Copy)]
pub struct ConstantLoop {
    pub passes: u32,
    pub upper: u32,
}

// The compiler's answer: the number of words it wrote, or document 01's number and place.
#[derive(Clone, Copy)]
pub enum Compiled {
    Written(usize),
    Refused(u32, usize),
}

// The machine's answer to a request.
#[derive(Clone, Copy)]
pub enum Answer {
    // carried out: the result, the steps, the number of trace words recorded
    Done(u32, u32, usize),
    // a stop: document 01's number and place, the steps, the number of trace words recorded
    Stopped(u32, usize, u32, usize),
    // a refusal: document 01's number and place
    Refused(u32, usize),
}

// A trace beside a probe's recording of the same calls.
#[derive(Clone, Copy)]
pub enum Compared {
    // they agree: the number of their entries
    Agree(usize),
    // they do not: the number of entries before they part
    Part(usize),
}
