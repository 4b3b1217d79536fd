use crate::growth::Growth;
use crate::increases::Inverse;

mod control;

/// Inverse increase, additive decrease: the wider the window, the more credited bytes widen it by a segment, and a loss narrows it by a segment.
#[derive(Drop)]
pub struct Iiad {
    growth: Growth<Inverse>,
}
