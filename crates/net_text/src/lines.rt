//! Lines of a text.
ghost use Rattle.std.specs.Prelude.{◌≡◌, ◌+◌, ◌<◌, ◌≤◌, ◌^◌, [], ◌==◌, MatchOption, IfSome, map, length, take, drop};
ghost use Rattle.std.specs.List.{position};
ghost use Rattle.net_text.specs.Lines.{lines, line_of, is_text, is_skipped, IsFirstLine, IsTaken, IsWhole};
ghost use Rattle.net_text.specs.Scans.{IsCut};

use crate::scan::scan_line;

/// A line: its bytes, and how many bytes it takes with what ends it.
#[derive(Clone, Copy)]
pub struct Line<'a> {
    /// The bytes of the line, without the line feed that ends it and one carriage return before that.
    pub text: &'a [u8],
    /// How many bytes the line takes, with what ends it.
    pub size: usize,
}

/// What is left of a text, from which lines are taken one by one.
#[derive(Clone, Copy)]
pub struct Lines<'a> {
    /// The bytes that are left.
    pub rest: &'a [u8],
    /// How many bytes were taken.
    pub used: usize,
    /// How many lines were taken.
    pub count: u32,
    ghost few: { count ≤ used },
    ghost fits: { used + length rest.now < 2 ^ 32 },
}

impl<'a> Lines<'a> {
    /// A whole text. Its bytes are fewer than 2^32.
    pub fn new(bytes: &'a [u8]) -> Self
        requires { length bytes.now < 2 ^ 32 }
        ensures { IsWhole bytes.now result.rest.now result.used result.count }
    {
        Lines {
            rest: bytes,
            used: 0,
            count: 0,
        }
    }

    /// Takes the next line, or gives None where none is left.
    pub fn next_line(&mut self) -> Option<&'a [u8]>
        ensures taken { MatchOption result (lines self.old.rest.now ≡ []) (λ line. IsTaken self.old.rest.now self.old.used self.old.count line.now self.new.rest.now self.new.used self.new.count) }
        ensures left { MatchOption result (self.new ≡ self.old) (λ _. Unit {0}) }
    {
        let line = first_line(self.rest)?;
        *self = Lines {
            rest: &self.rest[line.size..],
            used: self.used + line.size,
            count: self.count + 1,
        };
        Some(line.text)
    }

    /// Takes the next line where it is written plainly, as `scan_line` says, and puts its fields into the room. Gives None where it is not,
    /// and then takes nothing.
    pub fn next_fields(&mut self, room: &mut [&'a [u8]]) -> Option<usize>
        ensures within { IfSome result (λ n. n ≤ length room.new) }
        ensures size { length room.new ≡ length room.old }
        ensures cut { MatchOption result (self.new ≡ self.old) (λ n. IsCut self.old.rest.now self.old.used self.old.count (map (λ f. f.now) (take n room.new)) self.new.rest.now self.new.used self.new.count) }
    {
        let scan = scan_line(self.rest, room)?;
        *self = Lines {
            rest: scan.rest,
            used: self.used + (self.rest.len() - scan.rest.len()),
            count: self.count + 1,
        };
        Some(scan.fields)
    }
}

/// The first line of a text, or None where it has none.
pub fn first_line(bytes: &[u8]) -> Option<Line<'_>>
    ensures { MatchOption result (lines bytes.now ≡ []) (λ l. IsFirstLine bytes.now l.text.now l.size) }
{
    let Some(end) = line_feed(bytes) else {
        let text = without_return(bytes);
        if text.is_empty() {
            return None;
        }
        return Some(Line {
            text,
            size: bytes.len(),
        });
    };
    Some(Line {
        text: without_return(&bytes[..end]),
        size: end + 1,
    })
}

/// Where the first line feed stands.
fn line_feed(bytes: &[u8]) -> Option<usize>
    ensures { result ≡ position (λ b. b == 10) bytes.now }
{
    bytes.iter().position(|byte| *byte == b'\n')
}

/// A part without the carriage return at its end.
fn without_return(part: &[u8]) -> &[u8]
    ensures { result.now ≡ line_of part.now }
{
    let length = part.len();
    if length > 0 && part[length - 1] == b'\r' {
        return &part[..length - 1];
    }
    part
}

/// Whether each byte is a tab or one from 32 to 126.
pub fn is_text(line: &[u8]) -> bool
    ensures { result ≡ is_text line.now }
{
    line.iter()
        .all(|byte| *byte == b'\t' || (32 <= *byte && *byte <= 126))
}

/// Whether the line has only spaces and tabs, or is a comment: its first byte beside these is `#`.
pub fn is_skipped(line: &[u8]) -> bool
    ensures { result ≡ is_skipped line.now }
{
    for byte in line {
        if *byte != b' ' && *byte != b'\t' {
            return *byte == b'#';
        }
    }
    true
}
