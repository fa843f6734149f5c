// What is read from words.

// A value, and the words behind those that it was read from.
#[derive(Clone, Copy)]
pub(crate) struct Read<'a, T> {
    pub value: T,
    pub rest: &'a [u32],
}
