// The corner of the lines of a FASTA text: where they start, and which of their bytes open a sequence and which are states. The text is only
// read.

ghost use Rattle.std.specs.Prelude.{◌≡◌, ◌+◌, ◌<◌, length};
ghost use Rattle.fasta.specs.Lines.{ends_line, line_start, opens, is_state, AtByte};

// Whether a byte belongs to the end of its line.
fn ends_line(text: &[u8], i: usize) -> bool
    requires { i < length text.now }
    ensures { result ≡ ends_line text.now i }
{
    if text[i] == b'\n' {
        return true;
    }
    if text[i] != b'\r' {
        return false;
    }
    if i + 1 == text.len() {
        return false;
    }
    text[i + 1] == b'\n'
}

// Whether a byte opens a sequence. Here and below, `line` is where the line of byte i starts.
pub fn opens(text: &[u8], line: usize, i: usize) -> bool
    requires { AtByte text.now line i }
    ensures { result ≡ opens text.now i }
{
    if line != i {
        return false;
    }
    text[line] == b'>'
}

// Whether a byte is a state.
pub fn is_state(text: &[u8], line: usize, i: usize) -> bool
    requires { AtByte text.now line i }
    ensures { result ≡ is_state text.now i }
{
    if text[line] == b'>' {
        return false;
    }
    !ends_line(text, i)
}

// Where the line of the next byte starts.
pub fn next_line(text: &[u8], line: usize, i: usize) -> usize
    requires { AtByte text.now line i }
    ensures { result ≡ line_start text.now (i + 1) }
{
    if text[i] == b'\n' {
        return i + 1;
    }
    line
}
