// A fault, with the channel at which it came.
#[derive(Clone, Copy, PartialEq, Eq, Debug)]
pub struct AtChannel<F> {
    pub channel: u32,
    pub fault: F,
}
