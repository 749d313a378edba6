//! The characters of a text that a closure keeps.
ghost use Rattle.std.specs.Prelude.{◌≡◌, ◌+◌, ◌≤◌, chars, length, drop, take, IsUtf8};
ghost use Rattle.std.specs.List.Retain.{IsFiltered};
ghost use Rattle.arraystring_core.specs.Retain.{IsCallableInTurn};

use crate::ArrayString;
use arraystring_base::leaf::{byte, part_of_length};
use arraystring_base::utils::{Steps, first_char_and_width, shift};
use std::str;

impl<const N: usize> ArrayString<N> {
    /// Keeps the characters for which `f` returns true and removes all others. `f` is called once
    /// with each character, in order.
    ///
    /// # Precondition
    ///
    /// `f` must be callable with each character, in each state that its earlier calls leave.
    ///
    /// # Examples
    ///
    /// ```
    /// let mut string = ArrayString::<8>::from("a-b-c");
    /// string.retain(|ch| ch != '-');
    /// assert_eq!(string.as_str(), "abc");
    /// ```
    #[inline]
    pub fn retain<F: FnMut(char) -> bool + Drop>(&mut self, f: F)
        requires { IsCallableInTurn F.pre F.step f self.old.text }
        ensures { IsFiltered F.step f self.old.text self.new.text }
    {
        let (offset, size) = (self.start as usize, self.size as usize);
        retain_in_array(&mut self.array, &mut self.size, offset, size, f);
    }
}

/// Calls `f` once with each character of a text, in order, and closes the gaps between those for
/// which it returns true. The text is the `size` bytes of the array from `offset` on, and keeps
/// its offset. Each kept character is moved on its own, and only to the left. At each call of `f`, and at the
/// end, `kept` is the size of what was kept so far, and the `kept` bytes from `offset` on are those of the
/// characters that were kept so far. If `f` panics, the text is those bytes.
#[inline]
fn retain_in_array<const N: usize, F: FnMut(char) -> bool + Drop>(
    array: &mut [u8; N],
    kept: &mut u8,
    offset: usize,
    size: usize,
    mut f: F,
)
    requires in_array { offset + size ≤ N }
    requires small { size ≤ 255 }
    requires text { IsUtf8 (take size (drop offset array.old)) }
    requires callable { IsCallableInTurn F.pre F.step f
        (chars (take size (drop offset array.old))) }
    ensures len { length array.new ≡ N }
    ensures at_most { kept.new ≤ size }
    ensures text { IsUtf8 (take kept.new (drop offset array.new)) }
    ensures filtered { IsFiltered F.step f
        (chars (take size (drop offset array.old)))
        (chars (take kept.new (drop offset array.new))) }
{
    *kept = 0;
    let mut read = 0;
    // At the start of each turn no byte from `read` on was written over.
    while read < size {
        // An ASCII byte is a whole character; `first_char_and_width` reads any other.
        let first = byte(array, offset + read);
        if first < 0x80 {
            if f(first as char) {
                let to = offset + *kept as usize;
                shift(array, offset + read, to, 1, &mut Steps::new());
                *kept += 1;
            }
            read += 1;
        } else {
            // SAFETY: the text was UTF-8 at the start. A turn adds no more to `*kept` than to `read`, so all writes
            // ended at `read` or before it, and the bytes from `read` on are unchanged. `read` goes on by whole
            // characters, so a character begins there, whatever the closure answers.
            let text = unsafe {
                str::from_utf8_unchecked(part_of_length(array, offset + read, size - read))
            };
            let (ch, width) = first_char_and_width(text);
            if f(ch) {
                let to = offset + *kept as usize;
                shift(array, offset + read, to, width, &mut Steps::new());
                *kept += width as u8;
            }
            read += width;
        }
    }
}
