// The limits and sizes of documents 01 and 02. specs/Limits has the same as definitions; include/juntreak.h with JUNTREAK_ before each.
#![tactic(auto)]

// ---- tables

pub const MAX_NODES: usize = 64;

pub const MAX_RULES: usize = 8;

pub const MAX_SIGNAL: u8 = 31;

pub const MAX_NAME: u16 = 65535;

// The largest hi of an interval, and the most parts that one is split into.
pub const MAX_INTERVAL: u16 = 4095;

pub const MAX_PARTS: usize = 12;

pub const MAX_DELAY: u16 = 4095;

// ---- books

pub const RECORD_BYTES: usize = 12;

pub const MAX_RECORDS: usize = 255;

pub const BOOK_BYTES: usize = MAX_RECORDS * RECORD_BYTES;

// The longest book that is written: the head, and a record for each node and each rule.
pub const WRITTEN_BYTES: usize = (1 + MAX_NODES + MAX_RULES) * RECORD_BYTES;

// ---- typed rules

// The most brackets that may be open at once.
pub const MAX_DEPTH: usize = 32;

// ---- traces

pub const MAX_STATE: u64 = 4294967295;

// The most states of a whole trace, of a block, and of a session from its opening on.
pub const MAX_TRACE: usize = 5120;

pub const MAX_BLOCK: usize = 1024;

pub const MAX_SEEN: usize = 18446744073709551615;

// The same of a narrow session, whose count has 32 bits.
pub const MAX_NARROW_SEEN: u32 = 4294967295;

// ---- lent buffers: the least length of each

pub const HISTORY_WORDS: usize = 4095;

pub const REGISTER_WORDS: usize = 80;

// A register for each node, and two more for U and R.
pub const SCRATCH_WORDS: usize = (MAX_NODES + 2) * REGISTER_WORDS;

// The same twice, for answers while a trace still grows.
pub const EARLY_SCRATCH_WORDS: usize = 2 * SCRATCH_WORDS;

pub const FEED_WORDS: usize = 16;

pub const CLOSE_WORDS: usize = 64;

// ---- the scheduler

// The most records of its list, and the words of waiting states for each: a block.
pub const MAX_LIST: usize = 8;

pub const WAITING_WORDS: usize = MAX_BLOCK;

// ---- the status registers

pub const STATUS_BYTES: usize = 16;

// ---- tables and sessions as bytes

pub const TABLE_BYTES: usize = 546;

pub const SESSION_BYTES: usize = 558;

pub const NARROW_BYTES: usize = 558;
