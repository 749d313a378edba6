//! The calls of `utils`, on values worked out by hand.
ghost use Rattle.std.specs.Prelude.{◌≤◌};

use super::table::{agree, number};
use arraystring::error::{OutOfBounds, Utf8};
use arraystring::utils::{
    Steps, encode, is_boundary, is_char_boundary, is_inside_boundary, look, shift, truncate_str,
    truncate_str_counted,
};
use arraystring::{ArrayString, MaxString};
use arraystring_base::utils::{last_char_with_start, write_over};
use std::process::Abort;
use test_support::table::{column, rows};

#[test]
fn sizes_inside_a_limit(rt: HostRuntime) {
    agree(&rt, "5 of 5", is_inside_boundary(5, 5), Ok(()));
    agree(&rt, "6 of 5", is_inside_boundary(6, 5), Err(OutOfBounds));
    let inside = is_char_boundary(&ArrayString::<5>::from("é"), 1);
    agree(&rt, "inside a character", inside, Err(Utf8));
}

/// Tests the indices 0 to 262 of texts of 0 to 260 letters. The indices up to the size are boundaries, and
/// inside the limit.
#[test]
fn each_index_of_each_size(rt: HostRuntime) {
    let letters = "a".repeat(rt.alloc(), 260).expect(&rt, "memory");
    for size in 0..=260usize {
        let text = letters.get(..size).unwrap_or("none");
        for at in 0..=262usize {
            let is_within = at <= size;
            agree(&rt, "a boundary", is_boundary(text, at), is_within);
            let inside = is_inside_boundary(at, size);
            agree(&rt, "a limit", inside.is_ok(), is_within);
        }
        let string = MaxString::from_str_truncate(text);
        for at in 0..=255u8 {
            let found = is_char_boundary(&string, at);
            agree(&rt, "of a string", found.is_ok(), at as usize <= size);
        }
    }
}

/// Tests the indices 0 to 262 of a text of 130 characters of two bytes. Each odd index below 260 is inside a
/// character.
#[test]
fn each_index_of_wide_characters(rt: HostRuntime) {
    let text = "é".repeat(rt.alloc(), 130).expect(&rt, "memory");
    for at in 0..=262usize {
        let is_even = at % 2 == 0;
        agree(
            &rt,
            "a boundary",
            is_boundary(&text, at),
            is_even && at <= 260,
        );
    }
    let string = MaxString::from_str_truncate(&text);
    for at in 0..=255u8 {
        let found = is_char_boundary(&string, at);
        agree(&rt, "of a string", found.is_ok(), at % 2 == 0);
    }
}

/// Asserts how texts are cut. The columns are a text, a size, and the text cut to it. The size is a
/// boundary if the cut has it.
fn check_cuts(rt: &impl Abort, table: &str) {
    for row in rows(table) {
        let (text, size, wanted) = (column(row, 0), number(rt, row, 1), column(row, 2));
        let is_whole = wanted.len() == size as usize;
        agree(rt, row, is_boundary(text, size as usize), is_whole);
        agree(rt, row, truncate_str(text, size), wanted);
        let mut steps = Steps::new();
        let cut = truncate_str_counted(text, size, &mut steps);
        agree(rt, row, cut, wanted);
        agree(rt, row, (steps.looked() <= 4, steps.moved()), (true, 0));
    }
}

#[test]
fn texts_are_cut_at_boundaries(rt: HostRuntime) {
    check_cuts(
        &rt,
        "
        # player: cuts
        A🤔    | 0  |
        A🤔    | 1  | A
        A🤔    | 2  | A
        A🤔    | 4  | A
        A🤔    | 5  | A🤔
        A🤔    | 6  | A🤔
        i      | 10 | i
        iiiiii | 3  | iii
        🤔🤔🤔 | 5  | 🤔
        🤔🤔🤔 | 3  |
        🤔🤔   | 7  | 🤔
        aé     | 2  | a
        aé     | 3  | aé
        a€b    | 3  | a
        a€b    | 4  | a€
        256 x  | 0   |
        256 x  | 254 | 254 x
        256 x  | 255 | 255 x
        ",
    );
}

/// The columns are a text, if its last character begins, and that character.
#[test]
fn the_last_character(rt: HostRuntime) {
    let table = "
        # player: last_characters
                     | 0 |
        \u{7F}       | 0 | \u{7F}
        a\u{80}      | 1 | \u{80}
        a\u{7FF}     | 1 | \u{7FF}
        \u{800}      | 0 | \u{800}
        ab\u{FFFF}   | 2 | \u{FFFF}
        \u{10000}    | 0 | \u{10000}
        é\u{10FFFF}  | 2 | \u{10FFFF}
        ";
    for row in rows(table) {
        let wanted = Some(number(&rt, row, 1) as usize).zip(column(row, 2).chars().next());
        let mut steps = Steps::new();
        agree(
            &rt,
            row,
            last_char_with_start(column(row, 0), &mut steps),
            wanted,
        );
        agree(&rt, row, (steps.looked() <= 4, steps.moved()), (true, 0));
    }
}

#[test]
#[tactic(auto, unfolding(arraystring_base::specs::Text::width))]
fn characters_are_encoded_in_place(rt: HostRuntime) {
    let mut array = [b'.'; 6];
    agree(&rt, "one byte", encode('a', &mut array, 0), 1);
    agree(&rt, "four bytes", encode('🤔', &mut array, 1), 4);
    agree(&rt, "both", array, *b"a\xF0\x9F\xA4\x94.");
    let chars = "\u{7F}\u{80}\u{7FF}\u{800}\u{FFFF}\u{10000}\u{10FFFF}";
    let bytes = b"\x7F...\
        \xC2\x80..\
        \xDF\xBF..\
        \xE0\xA0\x80.\
        \xEF\xBF\xBF.\
        \xF0\x90\x80\x80\
        \xF4\x8F\xBF\xBF";
    for (ch, wanted) in chars.chars().zip(bytes.chunks(4)) {
        let mut array = [b'.'; 4];
        encode(ch, &mut array, 0);
        agree(&rt, "encoded", array.as_slice(), wanted);
    }
}

#[test]
fn bytes_are_shifted(rt: HostRuntime) {
    let mut array = *b"abcdefg.....";
    let mut steps = Steps::new();
    agree(&rt, "a look", look(&array, 1, &mut steps), b'b');
    shift(&mut array, 0, 4, 7, &mut steps);
    agree(&rt, "up", array, *b"abcdabcdefg.");
    agree(&rt, "7 moves", (steps.looked(), steps.moved()), (1, 7));
    let mut array = *b"abcdefg.....";
    shift(&mut array, 1, 0, 6, &mut steps);
    agree(&rt, "down", array, *b"bcdefgg.....");
    agree(&rt, "6 more", steps.moved(), 13);
    shift(&mut array, 0, 0, 7, &mut steps);
    agree(&rt, "nowhere", array, *b"bcdefgg.....");
    agree(&rt, "no more", (steps.looked(), steps.moved()), (1, 13));
}

/// Each row is an array of dots after letters were written over the dots from the second on.
#[test]
fn bytes_are_written_over(rt: HostRuntime) {
    let table = "
        ..................
        .a................
        .abc..............
        .abcdefg..........
        .abcdefghijklmno..
        .abcdefghijklmnop.
        .abcdefghijklmnopq
        ";
    for row in rows(table) {
        let row = row.trim_matches(' ');
        let given = row.trim_matches('.').as_bytes();
        let mut array = [b'.'; 18];
        if given.len() <= 17 {
            write_over(&mut array, 1, given);
        }
        agree(&rt, row, array.as_slice(), row.as_bytes());
    }
}

/// Writes letters of each size over dots, from offset 1 on, and then moves them to offset 0.
fn write_and_move_each_size<const N: usize>(rt: &impl Abort)
    requires { N ≤ 300 }
{
    let mut alphabet = [b'a'; N];
    for (at, letter) in alphabet.iter_mut().enumerate() {
        *letter = b'a' + (at % 26) as u8;
    }
    let letters = &alphabet[..];
    for len in 0..N {
        let given = &letters[..len];
        let mut array = [b'.'; N];
        write_over(&mut array, 1, given);
        let all = &array[..];
        agree(rt, "before", all[0], b'.');
        agree(rt, "written", &all[1..1 + len], given);
        agree(rt, "after", are_dots(&all[1 + len..]), true);
        shift(&mut array, 1, 0, len, &mut Steps::new());
        let all = &array[..];
        agree(rt, "moved", &all[..len], given);
        agree(rt, "still after", are_dots(&all[1 + len..]), true);
    }
}

fn are_dots(bytes: &[u8]) -> bool {
    bytes.iter().all(|byte| *byte == b'.')
}

#[test]
fn each_size_is_written_and_moved(rt: HostRuntime) {
    write_and_move_each_size::<24>(&rt);
    write_and_move_each_size::<64>(&rt);
    write_and_move_each_size::<65>(&rt);
    write_and_move_each_size::<256>(&rt);
    write_and_move_each_size::<300>(&rt);
}
