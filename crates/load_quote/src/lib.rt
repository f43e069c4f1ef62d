// Where a quoted text ends.
#![tactic(auto)]

ghost use Rattle.std.specs.Prelude.{◌≡◌, ◌≤◌, ◌<◌, length};
ghost use Rattle.load_quote.specs.Quote.{act, QuoteRead, ReadBehind};

// What a byte inside quotes does: the text goes on, behind a backslash or not; the quote closes; a bare newline breaks it.
#[derive(Clone, Copy)]
pub enum Act {
    On(bool),
    Close,
    Break,
}

fn quote_act(escaped: bool, b: u8) -> Act
    ensures { result ≡ act escaped b }
{
    if escaped {
        return Act::On(false);
    }
    match b {
        b'"' => Act::Close,
        b'\n' => Act::Break,
        b'\\' => Act::On(true),
        _ => Act::On(false),
    }
}

// The end of a quoted text that starts at a place. Err is the place of a bare newline, which breaks it; None if it has no end.
// The caller, end_behind, has a quote that stands in the text, and asks from behind it.
pub fn quote_end(s: &[u8], from: usize) -> Result<usize, Option<usize>>
    requires { from ≤ length s.now }
    ensures { QuoteRead s.now from result }
{
    let mut escaped = false;
    for i in from..s.len() {
        match quote_act(escaped, s[i]) {
            Act::Close => return Ok(i),
            Act::Break => return Err(Some(i)),
            Act::On(behind) => escaped = behind,
        }
    }
    Err(None)
}

// The end of a quoted text whose opening quote stands at a place. Err is the place of the bad byte: a bare newline, or that quote if nothing
// closes it. The caller, load_scan, stands at the quote.
pub fn end_behind(s: &[u8], quote: usize) -> Result<usize, usize>
    requires { quote < length s.now }
    ensures { ReadBehind s.now quote result }
{
    match quote_end(s, quote + 1) {
        Ok(end) => Ok(end),
        Err(Some(newline)) => Err(newline),
        Err(None) => Err(quote),
    }
}
