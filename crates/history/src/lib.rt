// The sizes of a window for the code, each the same as the definitions' number. The definitions are in specs/.

#![tactic(auto)]

// The subject numbers that have a count, and the entries that are counted.
pub const WINDOW_NUMBERS: usize = 64;

pub const WINDOW_ENTRIES: usize = 256;

// The bytes of a window: a byte for each entry, then the counts in two bytes each, then the place of the next entry.
pub const COUNTS_PLACE: usize = WINDOW_ENTRIES;

pub const NEXT_PLACE: usize = COUNTS_PLACE + 2 * WINDOW_NUMBERS;

pub const WINDOW_BYTES: usize = NEXT_PLACE + 1;
