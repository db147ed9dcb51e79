//! The limits of networks and schedules.

/// The most agents of a network.
pub const MOST_AGENTS: u32 = 64;

/// The most points of a network, the reference point among them.
pub const MOST_POINTS: u32 = 8192;

/// The most arcs of acts, two each, and given arcs together. The two arcs of each point with the reference point come on top.
pub const MOST_ARCS: u32 = 65_536;

/// The greatest horizon, and the greatest magnitude of a bound: 2^40.
pub const GREATEST_BOUND: i64 = 1_099_511_627_776;

/// The greatest magnitude of the weight of a walk that passes no point twice, MOST_POINTS times the greatest bound: 2^53.
pub const GREATEST_WALK: i64 = 9_007_199_254_740_992;

/// The greatest magnitude of a time: 2^100.
pub const GREATEST_TIME: i128 = 1_267_650_600_228_229_401_496_703_205_376;

/// The most bytes of a name.
pub const LONGEST_NAME: usize = 64;
