// Why the arguments of a command are not understood.

// V names the commands, and W what one wants at a place among its arguments.
#[derive(Clone, Copy, PartialEq, Eq, Debug)]
pub enum Misread<V, W> {
    Missing(V, W),
    Wrong(V, W),
    TooMany(V),
}
