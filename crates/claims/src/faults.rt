/// No place of the table is free.
#[derive(Clone, Copy, PartialEq, Eq, Debug)]
pub struct TableFull;

/// Why no duplicate can be counted for an echo.
#[derive(Clone, Copy, PartialEq, Eq, Debug)]
pub enum EchoFault {
    /// No claim has it.
    Unknown,
    /// Every claim that has it is spent.
    Spent,
}
