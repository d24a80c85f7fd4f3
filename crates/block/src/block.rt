//! What a host lends.
use crate::records::Records;

/// The records of a monitor, once a start is accepted.
#[derive(Drop)]
pub struct Block {
    pub records: Option<Records>,
}
