//! The limits of groups, operations, messages and files, each of them once.
//! Why: docs/DECISIONS.md, 87.

/// The most members that a group has.
pub const MEMBERS: u32 = 64;

/// The most characters that one insertion has.
pub const CHARACTERS: u64 = 1_048_576;

/// The most identifiers that one deletion or one rename has.
pub const IDENTIFIERS: u64 = 4_194_304;

/// The most bytes that one operation has.
pub const OPERATION_BYTES: u64 = 16_777_216;

/// The most bytes that a message has, or an input of a command or of a session.
pub const INPUT_BYTES: u64 = 67_108_864;

/// The most bytes that a stored file has.
pub const FILE_BYTES: u64 = 268_435_456;

/// The greatest number of an operation, of an author and of a position.
pub const GREATEST_NUMBER: u32 = 4_294_967_295;

/// The least offset of an identifier's last tuple. The tuples before it may have one less.
pub const LEAST_OFFSET: i32 = -1_073_741_824;

/// The greatest offset of a tuple.
pub const GREATEST_OFFSET: i32 = 1_073_741_823;

/// The offset after the greatest one, which no tuple has.
pub const OFFSETS_END: u32 = 1_073_741_824;
