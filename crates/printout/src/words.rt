// The words of a line, and the text that they make.
ghost use Rattle.std.specs.Prelude.{◌≡◌, ◌+◌, ◌≤◌, ◌∷◌, ◌++◌, length};
ghost use Rattle.printout.specs.Words.{shown, widest, line_of, room};

use arrayvec::ArrayString;
use itoa::Buffer;

// The bytes that every line fits into.
pub const LINE_ROOM: usize = 96;

// The text of a line.
pub(crate) type Text = ArrayString<LINE_ROOM>;

// A word as it stands, or a number in decimal.
// A byte stands beside a count, since it has at most three digits: that is what lets the longest line fit into 96 bytes.
#[derive(Clone, Copy)]
pub(crate) enum Word<'a> {
    Name(&'a str),
    Small(u8),
    Count(u64),
    Signed(i64),
}

impl Word<'_> {
    // Adds the word, after a space.
    fn add_to(self, text: &mut Text)
        requires { length text.old.bytes + 1 + widest self ≤ 96 }
        ensures bytes { text.new.bytes ≡ text.old.bytes ++ 32 ∷ shown self.entry }
        ensures length { length text.new.bytes ≤ length text.old.bytes + 1 + widest self.entry }
    {
        text.push(' ');
        match self {
            Word::Name(name) => text.push_str(name),
            Word::Small(n) => text.push_str(Buffer::new().format(n)),
            Word::Count(n) => text.push_str(Buffer::new().format(n)),
            Word::Signed(z) => text.push_str(Buffer::new().format(z)),
        }
    }
}

// The line that begins with a name and has these words after it.
pub(crate) fn joined(name: &str, words: &[Word]) -> Text
    requires { room name.now words.now ≤ 96 }
    ensures { result.bytes ≡ line_of name.now words.now }
{
    let mut text = Text::new();
    text.push_str(name);
    for word in words {
        word.add_to(&mut text);
    }
    text.push('\n');
    text
}
