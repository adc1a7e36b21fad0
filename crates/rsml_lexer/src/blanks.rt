ghost use Rattle.std.specs.Prelude.{◌≡◌, ◌≤◌, length, drop};
ghost use Rattle.rsml_syntax.specs.text.Characters as spec;
ghost use Rattle.rsml_syntax.specs.helpers.Scanning as scanning;

fn is_white(byte: u8) -> bool
    ensures { result ≡ spec.is_white byte }
{
    byte == b' ' || byte == b'\t' || byte == b'\r' || byte == b'\n'
}

/// Where the line of a comment ends that goes on at `from`: at its line feed, or at the end.
fn line_end(bytes: &[u8], from: usize) -> usize
    requires { from ≤ length bytes.now }
    ensures value { scanning.after_blanks (drop result bytes.now) ≡ scanning.after_comment (drop from bytes.now) }
    ensures after { from ≤ result }
    ensures within { result ≤ length bytes.now }
{
    let mut at = from;
    while at < bytes.len() && bytes[at] != b'\n' {
        at += 1;
    }
    at
}

/// How many bytes the white space and the comments at the front take.
fn blank_len(bytes: &[u8]) -> usize
    ensures value { drop result bytes.now ≡ scanning.after_blanks bytes.now }
    ensures within { result ≤ length bytes.now }
{
    let mut at = 0;
    while at < bytes.len() {
        if bytes[at] == b'#' {
            at = line_end(bytes, at + 1);
        } else if is_white(bytes[at]) {
            at += 1;
        } else {
            break;
        }
    }
    at
}

/// What follows the white space and the comments at the front.
pub(crate) fn after_blanks(text: &str) -> &str
    ensures value { result.now ≡ scanning.after_blanks text.now }
    ensures within { length result.now ≤ length text.now }
{
    &text[blank_len(text.as_bytes())..]
}
