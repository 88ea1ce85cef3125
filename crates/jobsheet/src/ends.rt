// Where words and lines end.
ghost use Rattle.std.specs.Prelude.{◌≡◌, ◌≤◌, length};
ghost use Rattle.std.specs.List.{prefix_len};
ghost use Rattle.jobsheet.specs.Splitting.{apart};
ghost use Rattle.jobsheet.specs.Steps.{LineAt};

use crate::line::Line;

// How many bytes stand before the first separator.
pub(crate) fn len_before(bytes: &[u8], separator: char) -> usize
    ensures count { result ≡ prefix_len (apart separator) bytes.now }
    ensures within { result ≤ length bytes.now }
{
    bytes
        .iter()
        .position(|b| *b as char == separator)
        .unwrap_or(bytes.len())
}

// The line at a place, and where the next one begins.
pub(crate) fn line_at(text: &[u8], at: usize) -> (Line<'_>, usize)
    requires { at ≤ length text.now }
    ensures { LineAt text.now at result.0 result.1 }
{
    let end = at + len_before(&text[at..], '\n');
    let line = Line {
        text,
        from: at,
        end,
    };
    (line, text.len().min(end + 1))
}
