//! Strings to JSON values and back, which are cut, or are read whole or refused, worked out by hand.
use super::asserts::agree;
use arraystring::integration::{NotText, ValueError};
use arraystring::{ArrayString, CacheString};
use serde_json::Value;
use std::alloc::{AllocError, Global};
use std::env::Env;
use std::fmt::Debug;
use std::process::Abort;
use test_support::memory::{ScarceMemory, TIMES};

/// As many letters as fit.
const LETTERS: &str = "abcdefghijklmnopqrstuvwxyzABCDEFGHIJKLMNOPQRSTUVWXYZabcdefghijk";

/// The longest prefix of whole characters that takes at most `most` bytes.
fn prefix(text: &str, most: usize) -> &str {
    for size in (0..=most).rev() {
        if let Some(front) = text.get(..size) {
            return front;
        }
    }
    text
}

/// 350 bytes of letters, and 350 of characters of each width.
fn long_texts(rt: &(impl Abort + AllocGlobal)) -> (String, String) {
    let letters = "abcdefg".repeat(rt.alloc(), 50);
    let wide = "aé€🤔".repeat(rt.alloc(), 35);
    (
        letters.expect(rt, "memory for the letters"),
        wide.expect(rt, "memory for the others"),
    )
}

/// A JSON text.
fn json_string(rt: &(impl Abort + AllocGlobal), text: &str) -> Value {
    Value::String(String::from_str(rt.alloc(), text).expect(rt, "memory for the text"))
}

/// The value of a JSON text.
fn value_of_json(rt: &(impl Abort + AllocGlobal), json: &str) -> Value {
    Value::from_str(rt.alloc(), json).expect(rt, "a value of the JSON text")
}

/// Asserts that the string that is read from the JSON text `given` has the text `wanted`, is written as a JSON
/// text of `wanted`, and is read back from that.
fn is_read_back<S: Json>(rt: &(impl Abort + AllocGlobal), given: &Value, wanted: &str) {
    let value = read::<S>(rt, given, wanted).value(rt.alloc());
    let value = value.expect(rt, "memory for the value");
    agree(rt, wanted, value.as_str(), Some(wanted));
    let _ = read::<S>(rt, &value, wanted);
    is_printed(rt, &value, wanted);
}

/// The string of a JSON text, which has the text `wanted`.
fn read<S: Json>(rt: &impl Abort, given: &Value, wanted: &str) -> S {
    let string = S::read(given).expect(rt, "a string of a JSON text");
    agree(rt, wanted, string.text(), wanted);
    string
}

/// Asserts that a JSON text of `wanted`, which has no escapes, is printed in quotes.
fn is_printed(rt: &(impl Abort + AllocGlobal), value: &Value, wanted: &str) {
    let printed = value.to_string(rt.alloc()).expect(rt, "memory for it");
    let inside = printed.as_str().strip_prefix('"').unwrap_or_default();
    agree(rt, wanted, inside.strip_suffix('"'), Some(wanted));
}

/// Asserts that strings keep a text that is cut to their capacities.
fn cuts_are_kept(rt: &(impl Abort + AllocGlobal), text: &str) {
    let given = json_string(rt, text);
    is_read_back::<ArrayString<8>>(rt, &given, prefix(text, 8));
    is_read_back::<ArrayString<63>>(rt, &given, prefix(text, 63));
    is_read_back::<ArrayString<255>>(rt, &given, prefix(text, 255));
    is_read_back::<CacheString>(rt, &given, prefix(text, 63));
}

/// Texts of each size up to 300 bytes, of letters and of characters of each width.
#[test]
fn texts_of_each_size_are_read_back(rt: HostRuntime) {
    let (letters, wide) = long_texts(&rt);
    let mut count = 0u32;
    for text in [letters.as_str(), wide.as_str()] {
        for start in 0..10usize {
            for size in 0..301usize {
                if let Some(text) = text.get(start..start + size) {
                    cuts_are_kept(&rt, text);
                    count = count.wrapping_add(1);
                }
            }
        }
    }
    // Each text of letters counts. Of the others four of the ten starts are a boundary, and from each of these 121 of the
    // 301 sizes end at one.
    agree(&rt, "texts", count, 10 * 301 + 4 * 121);
}

#[test]
fn a_text_is_cut_to_63_bytes(rt: HostRuntime) {
    let json = "\"abcdefghijabcdefghijabcdefghijabcdefghijabcdefghijabcdefghijabcdefghij\"";
    let value = value_of_json(&rt, json);
    let cut = "abcdefghijabcdefghijabcdefghijabcdefghijabcdefghijabcdefghijabc";
    let string = ArrayString::<63>::from_value(&value).expect(&rt, "a string of a text");
    agree(&rt, "the text", string.as_str(), cut);
    let cached = CacheString::from_value(&value).expect(&rt, "a string of a text");
    agree(&rt, "the cached text", cached.0, string);
}

#[test]
fn escapes_are_characters(rt: HostRuntime) {
    let value = value_of_json(&rt, "\"a\\u00e9\\n\"");
    let string = ArrayString::<8>::from_value(&value).expect(&rt, "a string of a text");
    agree(&rt, "a, é and the end of a line", string.as_str(), "aé\n");
}

/// Asserts that a value is no text.
fn is_no_text<S: Json>(rt: &impl Abort, json: &str, value: &Value) {
    agree(rt, json, S::read(value).err(), Some(NotText));
}

#[test]
fn other_values_are_not_texts(rt: HostRuntime) {
    for json in "null true false 7 -7 0.5 1e300 [] [\"a\"] {}".split(' ') {
        let value = value_of_json(&rt, json);
        is_no_text::<ArrayString<8>>(&rt, json, &value);
        is_no_text::<ArrayString<23>>(&rt, json, &value);
        is_no_text::<ArrayString<63>>(&rt, json, &value);
        is_no_text::<CacheString>(&rt, json, &value);
    }
}

/// Asserts that a JSON text is read whole by a string of this capacity, and is then written as the same text, or is
/// refused if it is larger.
fn whole_or_refused<S: Json + PartialEq + Debug>(
    rt: &(impl Abort + AllocGlobal),
    given: &Value,
    text: &str,
    capacity: usize,
) {
    let read = S::read_whole(given);
    if text.len() > capacity {
        agree(rt, text, read, Err(ValueError::OutOfBounds));
        return;
    }
    let string = read.expect(rt, "a string of a text that fits");
    agree(rt, text, string.text(), text);
    let value = string.value(rt.alloc()).expect(rt, "memory for it");
    agree(rt, text, value.as_str(), Some(text));
    agree(rt, text, S::read_whole(&value), Ok(string));
}

/// Asserts the same of a JSON text at several capacities.
fn at_each_capacity(rt: &(impl Abort + AllocGlobal), text: &str) {
    let given = json_string(rt, text);
    whole_or_refused::<ArrayString<0>>(rt, &given, text, 0);
    whole_or_refused::<ArrayString<8>>(rt, &given, text, 8);
    whole_or_refused::<ArrayString<255>>(rt, &given, text, 255);
    whole_or_refused::<ArrayString<300>>(rt, &given, text, 255);
    whole_or_refused::<CacheString>(rt, &given, text, 63);
}

/// Texts of each size up to 300 bytes, of letters and of characters of each width.
#[test]
fn texts_of_each_size_are_whole_or_refused(rt: HostRuntime) {
    let (letters, wide) = long_texts(&rt);
    let mut count = 0u32;
    for text in [letters.as_str(), wide.as_str()] {
        for start in 0..10usize {
            for size in 0..301usize {
                if let Some(text) = text.get(start..start + size) {
                    at_each_capacity(&rt, text);
                    count = count.wrapping_add(1);
                }
            }
        }
    }
    // Each text of letters counts. Of the others four of the ten starts are a boundary, and from each of these 121 of the
    // 301 sizes end at one.
    agree(&rt, "texts", count, 10 * 301 + 4 * 121);
}

/// Each character below U+0100 at each index of a text, of which JSON writes some as escapes: NUL, a quote,
/// a backslash, the end of a line, DEL.
#[test]
fn each_character_is_kept(rt: HostRuntime) {
    for ch in '\0'..='\u{FF}' {
        for index in 0..7usize {
            let mut text = ArrayString::<8>::from("aaaaaa");
            agree(&rt, "a character", text.try_insert(index as u8, ch), Ok(()));
            is_kept(&rt, text.as_str());
        }
    }
}

/// Asserts that a text is kept when it is written as JSON and read.
fn is_kept(rt: &(impl Abort + AllocGlobal), text: &str) {
    let written = json_string(rt, text).to_string(rt.alloc());
    let written = written.expect(rt, "memory for what is written");
    let value = value_of_json(rt, written.as_str());
    agree(rt, text, value.as_str(), Some(text));
    whole_or_refused::<ArrayString<7>>(rt, &value, text, 7);
    whole_or_refused::<ArrayString<300>>(rt, &value, text, 255);
    whole_or_refused::<CacheString>(rt, &value, text, 63);
}

#[test]
fn escapes_take_the_room_of_their_characters(rt: HostRuntime) {
    let value = value_of_json(&rt, "\"a\\u00e9\\n\\ud83e\\udd14\"");
    whole_or_refused::<ArrayString<8>>(&rt, &value, "aé\n🤔", 8);
    whole_or_refused::<ArrayString<7>>(&rt, &value, "aé\n🤔", 7);
}

#[test]
fn what_is_no_text_has_its_own_refusal(rt: HostRuntime) {
    for json in "null true false 7 -7 0.5 1e300 [] [\"a\"] {} {\"a\":\"a\"}".split(' ') {
        let value = value_of_json(&rt, json);
        let string = ArrayString::<63>::try_from_value(&value);
        agree(&rt, json, string, Err(ValueError::NotText));
        let cached = CacheString::try_from_value(&value);
        agree(&rt, json, cached, Err(ValueError::NotText));
    }
}

/// A string that becomes a JSON value.
trait Json: Drop {
    fn value(&self, alloc: Global) -> Result<Value, AllocError>;

    fn read(value: &Value) -> Result<Self, NotText>;

    fn read_whole(value: &Value) -> Result<Self, ValueError>;

    fn text(&self) -> &str;
}

impl<const N: usize> Json for ArrayString<N> {
    fn value(&self, alloc: Global) -> Result<Value, AllocError> {
        self.to_value(alloc)
    }

    fn read(value: &Value) -> Result<Self, NotText> {
        Self::from_value(value)
    }

    fn read_whole(value: &Value) -> Result<Self, ValueError> {
        Self::try_from_value(value)
    }

    fn text(&self) -> &str {
        self.as_str()
    }
}

impl Json for CacheString {
    fn value(&self, alloc: Global) -> Result<Value, AllocError> {
        self.to_value(alloc)
    }

    fn read(value: &Value) -> Result<Self, NotText> {
        Self::from_value(value)
    }

    fn read_whole(value: &Value) -> Result<Self, ValueError> {
        Self::try_from_value(value)
    }

    fn text(&self) -> &str {
        self.0.as_str()
    }
}

/// The value of a string if ever more memory is left, from none up. A refused growth leaves the
/// string.
fn value_at_last<S: Json>(
    rt: &impl Abort,
    alloc: Global,
    mut scarce: ScarceMemory,
    string: &S,
) -> Result<Value, AllocError> {
    let mut refused = 0u32;
    let mut made = Err(AllocError);
    for _ in 0..TIMES {
        let taken_again = scarce.leave_more(alloc);
        taken_again.expect(rt, "the rest is taken again");
        made = string.value(alloc);
        if made.is_ok() {
            break;
        }
        refused = refused.saturating_add(1);
        agree(rt, "the string", string.text(), LETTERS);
    }
    drop(scarce);
    agree(rt, "refusals", refused >= 1, true);
    made
}

/// Asserts that want of memory leaves a string of `LETTERS`, of which a value is made at last. It is read back
/// from that value.
fn outlasts_want_of_memory<S: Json + PartialEq + Debug>(
    rt: &(impl Abort + Env + Eprint + AllocGlobal),
    string: S,
) {
    let scarce = ScarceMemory::take(rt).expect(rt, "all memory is taken");
    let Some(scarce) = scarce else {
        return;
    };
    let made = value_at_last(rt, rt.alloc(), scarce, &string).expect(rt, "memory at last");
    agree(rt, "at last", made.as_str(), Some(LETTERS));
    let anew = string.value(rt.alloc()).expect(rt, "memory once more");
    agree(rt, "read back", S::read(&made), Ok(string));
    agree(rt, "once more", anew, made);
}

#[test]
fn want_of_memory_leaves_the_string(rt: HostRuntime) {
    let string: ArrayString<63> = ArrayString::from_str_truncate(LETTERS);
    outlasts_want_of_memory(&rt, string);
}

#[test]
fn want_of_memory_leaves_the_cache_string(rt: HostRuntime) {
    let string = CacheString::from_str_truncate(LETTERS);
    outlasts_want_of_memory(&rt, string);
}
