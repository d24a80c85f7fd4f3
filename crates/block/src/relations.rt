//! Flows between items and control between sessions, a row for each.
use sets::Relation;

#[derive(Drop)]
pub struct Relations {
    pub flows: Relation<256, 4>,
    pub control: Relation<64, 1>,
}
