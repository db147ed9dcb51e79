//! A line that is written plainly, cut into its fields in one pass over its bytes.
ghost use Rattle.std.specs.Prelude.{◌≡◌, ◌≤◌, true, map, take, length, IfSome};
ghost use Rattle.std.specs.List.{list_all};
ghost use Rattle.std.specs.Simd.Lanes.{mask_l};
ghost use Rattle.net_text.specs.Scans.{is_plain, is_stop, IsScanned};

use std::simd::prelude::*;

/// How many bytes are looked at in one step.
const LANES: usize = 16;

/// A line that was cut: how many fields it has, and what follows its line feed.
#[derive(Clone, Copy)]
pub struct Scan<'a> {
    /// How many fields the line has, at least one.
    pub fields: usize,
    /// What follows the line.
    pub rest: &'a [u8],
}

/// Puts the fields of the first line of a text into the room, where the line is written plainly: fields of bytes from `$` to `~`, no more
/// than there is room for, with one space between them and a line feed after them. Gives None where it is not, and then says nothing of it.
pub fn scan_line<'a>(bytes: &'a [u8], room: &mut [&'a [u8]]) -> Option<Scan<'a>>
    ensures within { IfSome result (λ s. s.fields ≤ length room.new) }
    ensures scanned { IfSome result (λ s. IsScanned bytes.now s.rest.now (map (λ f. f.now) (take s.fields room.new))) }
    ensures size { length room.new ≡ length room.old }
{
    let mut rest = bytes;
    for count in 0..room.len() {
        let end = plain_front(rest);
        if end == 0 || end == rest.len() {
            return None;
        }
        let after = rest[end];
        room[count] = &rest[..end];
        rest = &rest[end + 1..];
        if after == b'\n' {
            return Some(Scan {
                fields: count + 1,
                rest,
            });
        }
        if after != b' ' {
            return None;
        }
    }
    None
}

/// How many bytes from `$` to `~` stand at the front.
fn plain_front(bytes: &[u8]) -> usize
    ensures within { result ≤ length bytes.now }
    ensures plain { list_all is_plain (take result bytes.now) ≡ true }
{
    let mut at = 0;
    while bytes.len() - at >= LANES {
        let stops = stops(u8x16::from_slice(&bytes[at..]));
        if stops != 0 {
            return at + stops.trailing_zeros() as usize;
        }
        at += LANES;
    }
    plain_end(bytes, at)
}

/// Of 16 bytes those that are not from `$` to `~`: a bit for each, the lowest for the first byte.
fn stops(lanes: u8x16) -> u64
    ensures { result ≡ mask_l (map is_stop lanes) }
{
    (lanes - u8x16::splat(b'$'))
        .simd_gt(u8x16::splat(b'~' - b'$'))
        .to_bitmask()
}

/// How many bytes from `$` to `~` stand at the front, where so many do.
fn plain_end(bytes: &[u8], from: usize) -> usize
    requires within { from ≤ length bytes.now }
    requires plain { list_all is_plain (take from bytes.now) ≡ true }
    ensures within { result ≤ length bytes.now }
    ensures plain { list_all is_plain (take result bytes.now) ≡ true }
{
    for at in from..bytes.len() {
        if !is_plain(bytes[at]) {
            return at;
        }
    }
    bytes.len()
}

/// Whether the byte is one from `$` to `~`.
fn is_plain(byte: u8) -> bool
    ensures { result ≡ is_plain byte }
{
    b'$' <= byte && byte <= b'~'
}
