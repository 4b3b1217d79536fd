/// What an acknowledgement did that was not refused.
#[derive(Clone, Copy, PartialEq, Eq, Debug)]
pub enum Acknowledged {
    /// It ended beyond the proved end, which is now its end.
    Advanced,
    /// It was a duplicate, and was counted for the segment that begins at the start.
    Counted { start: u64 },
    /// It was counted likewise, as the third, so that the controller was told of a loss and a repeat is due.
    Lost { start: u64 },
}
