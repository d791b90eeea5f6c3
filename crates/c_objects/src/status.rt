//! What calls return.

/// A number that says how a call ended. It means the same in all calls.
pub type Status = u32;

/// The call succeeded.
pub const DONE: Status = 0;

/// The answer is no.
pub const NO: Status = 1;

/// The answer is yes.
pub const YES: Status = 2;

/// Memory ran out.
pub const OUT_OF_MEMORY: Status = 3;

/// The text is not a glob.
pub const REJECTED: Status = 4;

/// The text is not UTF-8.
pub const NOT_UTF8: Status = 5;

/// The options have a bit that stands for none, or a number stands for no choice.
pub const UNKNOWN_OPTION: Status = 6;

/// An object is not of the kind that the call requires.
pub const WRONG_KIND: Status = 7;

/// The ends of paths are out of order, lie beyond the bytes, or their number is not the number of answers.
pub const BAD_ENDS: Status = 8;

/// The text is longer than the room for it, or the indexes are more.
pub const TOO_SMALL: Status = 9;

/// A search has more rows than its limit.
pub const LIMIT_REACHED: Status = 10;

/// There is no answer, ignore file or line of this index.
pub const BAD_INDEX: Status = 11;

/// Each path about which a rule decides alone lies below an ignored folder.
pub const BELOW_IGNORED: Status = 12;
