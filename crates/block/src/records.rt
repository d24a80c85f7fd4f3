//! What a started monitor holds.
use crate::relations::Relations;
use crate::tables::Tables;

/// All records of a started monitor.
#[derive(Drop)]
pub struct Records {
    pub tables: Tables,
    pub relations: Relations,
}
