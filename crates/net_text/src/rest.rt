//! What may follow a text.
ghost use Rattle.std.specs.Prelude.{◌≡◌, ◌+◌, ◌<◌, ◌^◌, length};
ghost use Rattle.net_text.specs.Lines.{lines, first_unskipped};

use crate::lines::{Lines, is_skipped};

/// The first line that is neither blank nor a comment, counted on from `first_line`, or None where there is none.
/// The number of bytes and `first_line` are together below 2^32.
pub fn rest_is_blank(bytes: &[u8], first_line: u32) -> Option<u32>
    requires { length bytes.now + first_line < 2 ^ 32 }
    ensures { result ≡ first_unskipped first_line (lines bytes.now) }
{
    let mut lines = Lines::new(bytes);
    while let Some(line) = lines.next_line() {
        if !is_skipped(line) {
            return Some(first_line + (lines.count - 1));
        }
    }
    None
}

#[cfg(test)]
mod tests {
    use super::*;

    #[test]
    fn finds_the_first_line_of_text(rt: HostRuntime) {
        for (text, first, found) in [
            (b"".as_slice(), 20, None),
            (b"# x\n \t\r\n#\xff", 20, None),
            (b"# x\ny", 20, Some(21)),
            (b"\n\n \r\r", 7, Some(9)),
            (b"end\n", 1, Some(1)),
        ] {
            assert!(rt; text.len() < 1000);
            assert_eq!(rt; rest_is_blank(text, first), found, "from line {first}");
        }
    }
}
