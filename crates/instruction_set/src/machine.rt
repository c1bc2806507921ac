//! The memory that code runs on: a clash record, which it reads, and a stack.

/// Bytes of the clash record.
pub const RECORD_LEN: usize = 160;

/// Bytes of the stack.
pub const STACK_LEN: usize = 512;
