//! The limits of the program's jobs.

/// The most bytes of an input.
pub const LONGEST_INPUT: u32 = 16_777_216;

/// The most points, the reference point among them, of a network that has a certificate.
pub const MOST_CERTIFIED: u32 = 256;

/// The greatest number of a generated network.
pub const GREATEST_NUMBER: i64 = 2_147_483_645;

/// The greatest size of a generated network.
pub const GREATEST_SIZE: i64 = 32;
