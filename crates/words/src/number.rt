// Words and numbers in a line.
ghost use Rattle.std.specs.Prelude.{◌≡◌, ◌+◌, ◌*◌, ◌<◌, ◌≤◌, ℕ, List, ◌++◌, Decides, MatchOption, SomeIff, ◌≢◌};
ghost use Rattle.std.specs.Char.{digit_value};
ghost use Rattle.words.specs.Spelling.{NumberRead, NumberedRead};

// The value of a digit, where letters of either case go on from 9; 36 for what is neither. It stays beside `digit`, since callers may take it.
pub fn digit_value(byte: u8) -> u8
    ensures { result ≡ digit_value byte }
{
    match byte {
        b'0'..=b'9' => byte - b'0',
        b'A'..=b'Z' => byte - b'A' + 10,
        b'a'..=b'z' => byte - b'a' + 10,
        _ => 36,
    }
}

// The value of a digit, if the byte is one.
pub fn digit(byte: u8) -> Option<u8>
    ensures { SomeIff result (digit_value byte < 36) (digit_value byte) }
{
    Some(digit_value(byte)).filter(|value| *value < 36)
}

// The value of a decimal number after one more digit, if the byte is one and the value is still at most `most`.
fn with_digit(value: u64, byte: u8, most: u64) -> Option<u64>
    ensures { SomeIff result ((digit_value byte < 10) × (value * 10 + digit_value byte ≤ most)) (value * 10 + digit_value byte) }
{
    let digit = digit(byte).filter(|value| *value < 10)?;
    let next = value.checked_mul(10)?.checked_add(u64::from(digit))?;
    (next <= most).then_some(next)
}

// The number that the bytes spell, if they spell one and it is at most `most`. Not inlined, so that `numbered` can be.
#[inline(never)]
pub fn number(bytes: &[u8], most: u64) -> Option<u64>
    ensures { NumberRead bytes.now most result }
{
    if bytes.is_empty() {
        return None;
    }
    let mut value = 0;
    for byte in bytes {
        value = with_digit(value, *byte, most)?;
    }
    Some(value)
}

// Whether the line is this word. It is `==`, told as a fact of the two lists and not of their elements.
pub fn is_word(line: &[u8], word: &[u8]) -> bool
    ensures { Decides result (line.now ≡ word.now) }
{
    line == word
}

// What follows the word in the line, if the line begins with it. It is `strip_prefix`, told as a fact of the whole line.
pub fn after<'a>(line: &'a [u8], word: &[u8]) -> Option<&'a [u8]>
    ensures { MatchOption result ((rest : List ℕ) → line.now ≢ word.now ++ rest) (λ rest. line.now ≡ word.now ++ rest.now) }
{
    line.strip_prefix(word)
}

// The number after the word, if that is the whole line and the number is at most `most`. Inlined, since the words are constants.
#[inline(always)]
pub fn numbered(line: &[u8], word: &[u8], most: u64) -> Option<u64>
    ensures { NumberedRead line.now word.now most result }
{
    number(after(line, word)?, most)
}
