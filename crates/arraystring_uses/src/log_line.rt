//! A line of a log, of bounded size.
ghost use Rattle.std.specs.Prelude.{◌≡◌, ◌≤◌, ◌<◌, ◌++◌, [], ◌∷◌, chars};
ghost use Rattle.arraystring.specs.Text.{size, cut};
ghost use Rattle.arraystring_uses.specs.Lines.{level_name, full_line};

use arraystring::ArrayString;
use arraystring::error::OutOfBounds;
use arraystring::utils::truncate_str;

/// How much a line of the log matters.
#[derive(Clone, Copy, PartialEq, Eq, Debug)]
pub enum Level {
    Info,
    Warning,
    Failure,
}

impl Level {
    /// What a line begins with.
    fn name(self) -> &'static str
        ensures { result.now ≡ level_name self }
    {
        match self {
            Level::Info => "info: ",
            Level::Warning => "warning: ",
            Level::Failure => "failure: ",
        }
    }
}

/// Returns the level and the message. A line of more than 64 bytes is cut to the longest prefix
/// of whole characters that fits into 61, and ends with `…`, which takes three.
#[tactic(auto, using(arraystring::proofs::Rules::texts))]
pub fn log_line(level: Level, message: &str) -> ArrayString<64>
    ensures whole { size (full_line level (chars message.now)) ≤ 64
        → result.text ≡ full_line level (chars message.now) }
    ensures cut { 64 < size (full_line level (chars message.now))
        → result.text ≡ cut (full_line level (chars message.now)) 61 ++ 0x2026 ∷ [] }
{
    let mut line = ArrayString::from_str_truncate(level.name());
    push_marked(&mut line, message);
    line
}

/// Adds `text` at the end of a line of at most 61 bytes, or what fits of it and `…`.
#[tactic(auto, using(arraystring::proofs::Rules::texts))]
fn push_marked(line: &mut ArrayString<64>, text: &str)
    requires { size line.old.text ≤ 61 }
    ensures whole { size (line.old.text ++ chars text.now) ≤ 64
        → line.new.text ≡ line.old.text ++ chars text.now }
    ensures cut { 64 < size (line.old.text ++ chars text.now)
        → line.new.text ≡ cut (line.old.text ++ chars text.now) 61 ++ 0x2026 ∷ [] }
{
    if let Err(OutOfBounds) = line.try_push_str(text) {
        line.push_str_unchecked(truncate_str(text, 61 - line.len()));
        line.push_unchecked('…');
    }
}
