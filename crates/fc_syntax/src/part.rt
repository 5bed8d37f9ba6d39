//! The numbers of parts, by which a fault tells its place. Parts are counted from 0 in the order of the text; where a piece has a list of parts
//! these have the numbers from that of the first one on, and what stands behind the list has the next one.

/// The head of an application.
pub const HEAD: u32 = 0;

/// What an application gives to its head.
pub const ARGUMENT: u32 = 1;

/// The binder of a lambda.
pub const BINDER: u32 = 0;

/// The body of a lambda.
pub const BODY: u32 = 1;

/// What a case scrutinises.
pub const SCRUTINEE: u32 = 0;

/// The type of what a case scrutinises.
pub const SCRUTINEE_TYPE: u32 = 1;

/// The type of what a case answers.
pub const ANSWER_TYPE: u32 = 2;

/// The first alternative of a case.
pub const FIRST_ALTERNATIVE: u32 = 3;

/// The first join point of a group, behind the type of what the group answers.
pub const FIRST_JOIN: u32 = 1;

/// The type of a binder, a bind or a definition, and that of what `join` and `fail` answer.
pub const TYPE: u32 = 0;

/// The right side of a bind or a definition.
pub const RIGHT_SIDE: u32 = 1;
