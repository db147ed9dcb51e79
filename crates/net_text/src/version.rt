//! The versions of network texts.
ghost use Rattle.std.specs.Prelude.{◌≡◌};
ghost use Rattle.stn_model.specs.Net.{point_count};
ghost use Rattle.net_text.specs.Versions.{version_of, word_in, is_full_in, least_version};

use crate::words::{Word, word_of};
use stn_model::Network;

/// The version of a network text. Each has its own words and its own limit of points.
#[derive(Clone, Copy, Debug, PartialEq, Eq)]
pub enum Version {
    /// No acts, and at most 4,096 points.
    One,
    /// Acts, and as many points as a network has.
    Two,
}

/// The most points of a text of version 1, the reference point among them.
pub const MOST_POINTS_1: u32 = 4096;

/// The version that the second field of a header names.
pub fn version_of(field: &[u8]) -> Option<Version>
    ensures { result ≡ version_of field.now }
{
    if field == b"1".as_slice() {
        return Some(Version::One);
    }
    if field == b"2".as_slice() {
        return Some(Version::Two);
    }
    None
}

/// The word of a line after the header, in a text of that version.
pub fn word_in(version: Version, field: &[u8]) -> Option<Word>
    ensures { result ≡ word_in version field.now }
{
    let word = word_of(field)?;
    match (version, word) {
        (Version::One, Word::Act) => None,
        _ => Some(word),
    }
}

/// Whether the network has as many points as a text of that version may have, where that is fewer than a network may have.
pub fn is_full_in(version: Version, net: &Network) -> bool
    ensures { result ≡ is_full_in version net.now }
{
    match version {
        Version::One => net.points() >= MOST_POINTS_1,
        Version::Two => false,
    }
}

/// The least version that the network can be written in: version 1 exactly where it has no act and at most 4,096 points.
pub fn least_version(net: &Network) -> Version
    ensures { result ≡ least_version net.now }
{
    if net.acts() == 0 && net.points() <= MOST_POINTS_1 {
        return Version::One;
    }
    Version::Two
}
