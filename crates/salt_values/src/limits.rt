//! The limits, each once: the most of each count. Numbers that no limit of its own bounds have 64 bits.

/// The bytes of a line.
pub const LINE_MOST: usize = 65_536;

/// The bytes of a script.
pub const SCRIPT_MOST: u64 = 16_777_216;

/// The number of a session; the least is 1.
pub const SESSION_MOST: u64 = 64;

/// The bytes of a name.
pub const NAME_MOST: usize = 32;

/// The bytes of a text.
pub const TEXT_MOST: usize = 255;

/// The tables.
pub const TABLES_MOST: usize = 64;

/// The columns of a table.
pub const COLUMNS_MOST: usize = 16;

/// The checks of a table.
pub const CHECKS_MOST: usize = 16;

/// The programs.
pub const PROGRAMS_MOST: usize = 256;

/// The parts of a BASE program.
pub const PARTS_MOST: usize = 32;

/// The tries of a part behind its first one; the least that is written is 1.
pub const RETRY_MOST: u64 = 9;

/// The statements of a part, or of an ACID program.
pub const STATEMENTS_MOST: usize = 64;

/// The parameters of a program.
pub const PARAMETERS_MOST: usize = 16;

/// The variables of a program.
pub const VARIABLES_MOST: usize = 16;

/// The height of an expression, and its parentheses around one token.
pub const DEPTH_MOST: u32 = 64;

/// The parentheses around one token that a text may have at all.
pub const PARENTHESES_MOST: u32 = 128;

/// The device calls until a stop; the least is 1.
pub const CRASH_MOST: u64 = 1_000_000;

/// The number of what a stop leaves.
pub const PICK_MOST: u64 = 4;

/// The stops that one line arms, and the pairs of messages.
pub const PAIRS_MOST: usize = 8;

/// The turns of messages until something befalls one; the least is 1.
pub const TURN_MOST: u64 = 1_000_000;

/// The number of what befalls a message.
pub const TWIST_MOST: u64 = 2;

/// The BASE programs in their first part, or accepted, and not released.
pub const BASES_MOST: usize = 1_024;

/// The partitions; the least is 1.
pub const PARTITIONS_MOST: u32 = 8;

/// The calls of a workload; the least is 1.
pub const CALLS_MOST: u64 = 20_000;
