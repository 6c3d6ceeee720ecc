//! The codes of the rules by which a text is refused, as messages print them: 8 is E8.

/// A word that begins no statement there, or another procedure than FACTEX.
pub const UNKNOWN_STATEMENT: u8 = 1;

/// Anything else that the grammar does not allow.
pub const UNEXPECTED_SYMBOL: u8 = 2;

/// A word in the place of an option that is none.
pub const UNKNOWN_OPTION: u8 = 3;

/// A name that is no factor's.
pub const UNKNOWN_FACTOR: u8 = 4;

/// A name that is a factor's already.
pub const REPEATED_NAME: u8 = 5;

/// A number of levels other than 2, 3, 4, 5, 7, 8 and 9.
pub const INVALID_LEVELS: u8 = 6;

/// A step without a FACTORS statement.
pub const NO_FACTORS: u8 = 7;

/// A size that is no power of the number of levels.
pub const SIZE_NOT_A_POWER: u8 = 8;

/// More than 1,024 runs.
pub const TOO_MANY_RUNS: u8 = 9;

/// More factors than a design with so many levels, in blocks or not, may have.
pub const TOO_MANY_FACTORS: u8 = 10;

/// A resolution outside of 3 to 99.
pub const INVALID_RESOLUTION: u8 = 11;

/// MINABS with ESTIMATE.
pub const MINABS_WITH_ESTIMATE: u8 = 12;

/// MINABS or the greatest resolution with BLOCKS.
pub const MAXIMUM_WITH_BLOCKS: u8 = 13;

/// The least size with a maximum or MINABS.
pub const MINIMUM_WITH_MAXIMUM: u8 = 14;

/// Blocks that are no power of the number of levels.
pub const BLOCKS_NOT_A_POWER: u8 = 15;

/// More blocks than runs.
pub const TOO_MANY_BLOCKS: u8 = 16;

/// More or fewer values than levels, or than blocks.
pub const WRONG_NUMBER_OF_VALUES: u8 = 17;

/// An OUT name that is repeated in the program.
pub const REPEATED_OUT_NAME: u8 = 18;

/// A seed of more than 64 bits.
pub const SEED_TOO_LARGE: u8 = 19;

/// A replication outside of 1 to 200,000.
pub const INVALID_REPLICATION: u8 = 20;

/// More than 200,000 rows.
pub const TOO_MANY_ROWS: u8 = 21;

/// More than 2,000,000 pairs of vectors that are to be distinguished.
pub const TOO_MANY_DEMANDS: u8 = 22;

/// More than 100,000 effects in a list, or components in a listing.
pub const TOO_MANY_EFFECTS: u8 = 23;

/// A part of the statement language that this product omits.
pub const NOT_IN_PROFILE: u8 = 24;

/// A text of more than 1,048,576 bytes.
pub const TEXT_TOO_LONG: u8 = 25;

/// A statement that its step has already.
pub const REPEATED_STATEMENT: u8 = 26;

/// A statement after a RUN of its step.
pub const STATEMENT_AFTER_RUN: u8 = 27;

/// An option that its statement has already, or a factor that it recodes or has in brackets already.
pub const REPEATED_OPTION: u8 = 28;

/// A number outside of its range.
pub const NUMBER_OUT_OF_RANGE: u8 = 29;

/// A range of names that is not regular.
pub const IRREGULAR_RANGE: u8 = 30;

/// BLOCKNAME in a step without BLOCKS.
pub const BLOCKNAME_WITHOUT_BLOCKS: u8 = 31;

/// The step after the 100th.
pub const TOO_MANY_STEPS: u8 = 32;

/// A plan that no OUTPUT statement before names.
pub const UNKNOWN_PLAN: u8 = 33;

/// A column of a file whose name another one has.
pub const REPEATED_COLUMN: u8 = 34;

/// A derived factor of fewer than two or more than four factors, or of more than 64 levels.
pub const INVALID_DERIVED_FACTOR: u8 = 35;

/// FOLDOVER in a step with blocks, or with other than two levels.
pub const FOLDOVER_NEEDS_TWO_LEVELS: u8 = 36;
