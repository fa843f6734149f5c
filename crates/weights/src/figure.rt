// A weight of a named kind as it is told: three cases at once, where an Option of two would be matched twice.
#[derive(Clone, Copy, Debug, PartialEq, Eq)]
pub enum Figure {
    Number(u32),
    Yes,
    None,
}
