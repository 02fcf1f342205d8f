//! The lines of a text.
ghost use Rattle.std.specs.Prelude.{◌≡◌, ◌<◌, ◌≤◌, ◌+◌, ◌∷◌, length, IfSome, ◌==◌};
ghost use Rattle.std.specs.List.{position};
ghost use Rattle.qs_book_script.specs.Lines.{lines_of};

/// The first line of a text that is not empty, and the text after it.
pub fn next_line(text: &[u8]) -> (&[u8], &[u8])
    requires { 0 < length text.now }
    ensures first { lines_of text.now ≡ result.0.now ∷ lines_of result.1.now }
    ensures shorter { length result.1.now < length text.now }
    // Between them stands a line feed, which only a last line may lack.
    ensures span { length text.now ≤ length result.0.now + 1 + length result.1.now }
    ensures more { 0 < length result.1.now → length text.now ≡ length result.0.now + 1 + length result.1.now }
{
    match first_line_feed(text) {
        Some(at) => {
            let (line, _) = text.split_at(at);
            let (_, rest) = text.split_at(at + 1);
            (line, rest)
        }
        None => (text, &[]),
    }
}

/// The place of the first line feed.
fn first_line_feed(text: &[u8]) -> Option<usize>
    ensures place { result ≡ position (λ byte. byte == 10) text.now }
    ensures inside { IfSome result (λ at. at < length text.now) }
{
    text.iter().position(|byte| *byte == b'\n')
}
