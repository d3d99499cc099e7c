/// The result of one turn at a line: the number of items taken, or how it ended.
pub enum Turn<E> {
    Took(u64),
    Ended(E),
}
