//! How little is done by one worker.

/// Fewer rows than these, of instructions, accounts or a log, are done by one worker before another one has begun.
pub const FEW_ROWS: u32 = 1_024;
