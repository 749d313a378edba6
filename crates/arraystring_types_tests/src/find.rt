//! Where a character first or last stands in a text, by std's `find`, `split_once`, `rfind` and
//! `rsplit_once`: each character of one to four bytes, at each boundary, before and behind each text, and
//! not at all. The laws of it are called, and change nothing.
use super::asserts::agree;
use arraystring::ArrayString;
use arraystring::laws::{
    drain_gives_left, rfind_finds_last, rsplit_once_at_last, split_once_at_first,
    str_find_gives_first, utf8_decodes_to_text,
};
use arraystring::utils::is_char_boundary;
use std::process::Abort;

/// The characters that are looked for, of one to four bytes.
const FOUND: &str = "=é€🤔";

/// The neighbours of these characters, each twice: they differ from them in the last byte alone, as `<` is 3C and `=`
/// is 3D.
const NEIGHBOURS: &str = "<è₭🤕<è₭🤕";

/// Asserts that `c` is found behind `before`, in which it is not.
fn check_found(rt: &impl Abort, c: char, before: &str, after: &str) {
    let mut text = ArrayString::<64>::from(before);
    let at = text.len();
    agree(rt, before, text.try_push(c), Ok(()));
    agree(rt, before, text.try_push_str(after), Ok(()));
    utf8_decodes_to_text(&text);
    let whole = text.as_str();
    let place = whole.find(c);
    str_find_gives_first(whole, c, place);
    agree(rt, whole, place, Some(before.len()));
    agree(rt, whole, is_char_boundary(&text, at), Ok(()));
    let parts = whole.split_once(c);
    split_once_at_first(whole, c, parts);
    agree(rt, whole, parts, Some((before, after)));
    check_parts(rt, text, at, before, after);
}

/// Asserts that `c` is found last behind `before`, and that it is not in `after`.
fn check_last(rt: &impl Abort, c: char, before: &str, after: &str) {
    let mut text = ArrayString::<64>::from(before);
    agree(rt, before, text.try_push(c), Ok(()));
    agree(rt, before, text.try_push_str(after), Ok(()));
    let whole = text.as_str();
    let place = whole.rfind(c);
    rfind_finds_last(whole, c, place);
    agree(rt, whole, place, Some(before.len()));
    let parts = whole.rsplit_once(c);
    rsplit_once_at_last(whole, c, parts);
    agree(rt, whole, parts, Some((before, after)));
}

/// Asserts that `text` is parted at `at` into `before`, a character, and `after`.
fn check_parts(rt: &impl Abort, text: ArrayString<64>, at: u8, before: &str, after: &str) {
    let (mut front, mut removed) = (text, text);
    let back = front.split_off(at).unwrap_or_default();
    agree(rt, before, front.as_str(), before);
    let mut rest = back.as_str().chars();
    let first = rest.next();
    agree(rt, before, rest.as_str(), after);
    agree(rt, before, removed.remove(at).ok(), first);
    let behind = removed.drain(at..).unwrap_or_default();
    drain_gives_left(&behind);
    agree(
        rt,
        before,
        ArrayString::<64>::from_chars(behind).as_str(),
        after,
    );
    agree(rt, before, removed.as_str(), before);
}

/// Asserts that `c`, which is not in `text`, is not found.
fn check_not_found(rt: &impl Abort, c: char, text: &str) {
    let place = text.find(c);
    str_find_gives_first(text, c, place);
    agree(rt, text, place, None);
    let parts = text.split_once(c);
    split_once_at_first(text, c, parts);
    agree(rt, text, parts, None);
    let last = text.rfind(c);
    rfind_finds_last(text, c, last);
    agree(rt, text, last, None);
    let last_parts = text.rsplit_once(c);
    rsplit_once_at_last(text, c, last_parts);
    agree(rt, text, last_parts, None);
}

/// Looks for `c` between each two texts: before it a prefix of the neighbours, and behind it such a prefix or an end of
/// `FOUND`, which may have `c` again. Looks for the last `c` with both texts swapped. Returns the number of such pairs.
fn check_places(rt: &impl Abort, c: char) -> u32 {
    let mut count = 0u32;
    for at in 0..=NEIGHBOURS.len() {
        let Some(before) = NEIGHBOURS.get(..at) else {
            continue;
        };
        check_not_found(rt, c, before);
        for end in 0..=NEIGHBOURS.len() {
            let Some(after) = NEIGHBOURS.get(..end) else {
                continue;
            };
            check_found(rt, c, before, after);
            check_last(rt, c, after, before);
            count = count.wrapping_add(1);
        }
        for start in 0..=FOUND.len() {
            let Some(after) = FOUND.get(start..) else {
                continue;
            };
            check_found(rt, c, before, after);
            check_last(rt, c, after, before);
            count = count.wrapping_add(1);
        }
    }
    count
}

#[test]
fn each_character_at_each_place(rt: HostRuntime) {
    let mut count = 0u32;
    for c in FOUND.chars() {
        // Before `c` stand 9 texts, and behind it for each of them 9 prefixes of the neighbours and 5 ends of `FOUND`.
        agree(&rt, "places", check_places(&rt, c), 9 * (9 + 5));
        count = count.wrapping_add(1);
    }
    agree(&rt, "characters", count, 4);
}
