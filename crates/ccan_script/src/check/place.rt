ghost use Rattle.std.specs.Prelude.{◌≡◌, ◌≤◌, length, take, not};
ghost use Rattle.std.specs.List.{count_by, suffix_len};
ghost use Rattle.ccan_script.specs.TextPlace.{is_line_feed, line_of, column_of};

/// Where a byte of a text is. Lines and columns count from 1, and columns count bytes.
#[derive(Clone, Copy, PartialEq, Eq, PartialOrd, Ord, Hash, Debug)]
pub struct Place {
    pub line: usize,
    pub column: usize,
}

/// The bytes before this offset.
fn bytes_before(text: &[u8], offset: usize) -> &[u8]
    ensures { result.now ≡ take offset text.now }
{
    if offset < text.len() {
        &text[..offset]
    } else {
        text
    }
}

/// How many lines these bytes end.
fn line_feeds(bytes: &[u8]) -> usize
    ensures count { result ≡ count_by is_line_feed bytes.now }
    ensures few { result ≤ length bytes.now }
{
    bytes.iter().filter(|byte| **byte == b'\n').count()
}

/// How many of these bytes come after the last line feed.
fn last_line_length(bytes: &[u8]) -> usize
    ensures count { result ≡ suffix_len (λ byte. not (is_line_feed byte)) bytes.now }
    ensures few { result ≤ length bytes.now }
{
    bytes
        .iter()
        .rev()
        .take_while(|byte| **byte != b'\n')
        .count()
}

impl Place {
    /// The place of the byte that has this many bytes before it, or of the end of the text.
    pub fn of(text: &[u8], offset: usize) -> Place
        ensures { result
            ≡ record { line = line_of text.now offset; column = column_of text.now offset } }
    {
        let before = bytes_before(text, offset);
        Place {
            line: line_feeds(before) + 1,
            column: last_line_length(before) + 1,
        }
    }
}
