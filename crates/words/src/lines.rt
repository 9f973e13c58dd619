// The lines of a text, one after the other.
ghost use Rattle.std.specs.Iterator.{item_count};
ghost use Rattle.std.specs.Prelude.{◌≡◌};
ghost use Rattle.words.specs.Lines.{lines_left, NextLine};
ghost use Rattle.words.specs.Spelling.{EndOfLine, TextIsItsLines, lines_of};

const LINE_FEED: u8 = b'\n';

// How many bytes come before the first line feed, or before the text's end.
fn line_end(text: &[u8]) -> usize
    ensures { EndOfLine text.now result }
{
    text.iter()
        .position(|byte| *byte == LINE_FEED)
        .unwrap_or(text.len())
}

// What is left to read of a text. A copy reads the same lines again.
#[derive(Clone, Copy)]
pub struct Lines<'a> {
    rest: &'a [u8],
}

impl<'a> Lines<'a> {
    // All lines of a text.
    pub fn of(text: &'a [u8]) -> Lines<'a>
        ensures { lines_left result ≡ lines_of text.now }
    {
        Lines { rest: text }
    }
}

impl<'a> Iterator for Lines<'a> {
    type Item = &'a [u8];

    ghost next_gives = { λ before line after. NextLine (lines_left before) line (lines_left after) };

    ghost remaining = { item_count lines_left };

    // The next line without its line feed, or none where all were read.
    fn next(&mut self) -> Option<&'a [u8]> {
        let rest = self.rest;
        if rest.is_empty() {
            return None;
        }
        let end = line_end(rest);
        // Nothing is left where no line feed ends the line.
        self.rest = rest.get(end + 1..).unwrap_or(&[]);
        Some(&rest[..end])
    }
}

// Whatever the text, its lines with their line feeds are the text.
pub fn text_is_its_lines()
    ensures { TextIsItsLines }
{}
