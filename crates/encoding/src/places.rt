// The places of an image's bytes (RULES 5.5), in their order. The holders' and the values' are where they begin.
use kinds::{CAPACITY, LINE, SHORT_CAPACITY};

pub const FLAG: usize = 0;

pub const STORED: usize = 1;

pub const LENGTH: usize = 2;

pub const EXC: usize = 4;

pub const EXC_BUCKET: usize = 5;

pub const VISITED: usize = 6;

pub const CLEAN: usize = 7;

pub const LOADER: usize = 8;

pub const LOADER_BUCKET: usize = 9;

pub const WRITEBACK: usize = 10;

pub const COUNTS: usize = 16;

pub const STORAGE_VALUE: usize = 32;

pub const EXC_VALUE: usize = 40;

pub const WRITEBACK_VALUE: usize = 48;

pub const ZEROS: usize = 56;

pub const READERS: usize = 64;

// How long an image is.
pub const IMAGE: usize = READERS + LINE * CAPACITY;

// How long a short one is.
pub const SHORT_IMAGE: usize = READERS + LINE * SHORT_CAPACITY;

// In an entry of the list. Its value is where a line's is (`wire::VALUE`).
pub const PHASE: usize = 0;

pub const BUCKET: usize = 1;

// A byte that says yes.
pub const YES: u8 = 1;
