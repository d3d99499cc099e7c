use crate::row::RowList;

/// The status of the node, from which an application takes its captures: ticks, counters and
/// connections.
/// [add: counter] The length of the array `net`.
#[derive(Drop)]
pub struct Now {
    pub ticks: u32,
    /// The twenty counters of the node.
    pub net: [u32; 20],
    pub rows: RowList,
}
