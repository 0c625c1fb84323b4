// The tables that the driver is lent: the classes of at most 1,024 shapes, and behind them a word of the index for each of at most 1,024 types.
pub const KNOWN_WORDS: usize = 2048;
