// Lines that begin or continue with a number.
ghost use Rattle.std.specs.Prelude.{◌≡◌, ◌+◌, ◌++◌, ◌≤◌, decimal, length};

use itoa::Buffer;
use script::LineText;

/// Returns a line that begins with a number.
pub(crate) fn begin(number: u64) -> LineText
    ensures text { result ≡ decimal number }
    ensures short { length result ≤ 20 }
{
    let mut buffer = Buffer::new();
    LineText::new(buffer.format(number).as_bytes())
}

/// Appends a number, with no space before it.
pub(crate) fn push_number(line: &mut LineText, number: u64)
    requires { length line.old ≤ 300 }
    ensures text { line.new ≡ line.old ++ decimal number }
    ensures short { length line.new ≤ length line.old + 20 }
{
    let mut buffer = Buffer::new();
    line.push(buffer.format(number).as_bytes());
}
