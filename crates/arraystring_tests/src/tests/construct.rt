//! Each constructor, on values worked out by hand. How many items are taken past those that fit is also
//! tested of the calls that add items.
ghost use Rattle.std.specs.Prelude.{◌≡◌, ◌≤◌, IfSome, chars};
ghost use Rattle.arraystring.specs.Text.{cap, cut};
ghost use Rattle.arraystring.specs.Taken.{joined_pieces};

use super::table::{agree, string, text_or_error};
use arraystring::ArrayString;
use arraystring::error::{Error, OutOfBounds, Utf8};
use arraystring::prelude::MaxString;
use std::process::Abort;
use test_support::table::{LETTERS, column, rows};

const ZEROS_23: &str = "00000000000000000000000";

/// Asserts what constructors make at one capacity. The columns of a row are
///
///     text | the same in pieces | made whole | cut | next character | next piece
///
/// with `,` between pieces. Each `try_..` and `parse` make the third, the text or the name of the
/// refusal, and the others make the cut. The unchecked are called if the text fits. What is next in
/// an iterator that is borrowed comes after the first item that does not fit, which is taken too:
/// no character if the column is empty, no piece if it is `None`.
pub(super) fn check_constructors<const N: usize>(rt: &impl Abort, table: &str)
    requires { N ≤ 300 }
{
    for row in rows(table) {
        check_row::<N>(rt, row);
    }
}

/// Asserts what each constructor makes of a row.
fn check_row<const N: usize>(rt: &impl Abort, row: &str)
    requires { N ≤ 300 }
{
    let (text, pieces) = (column(row, 0), column(row, 1));
    let whole = ArrayString::<N>::try_from_utf8(text.as_bytes());
    agree(rt, row, text_or_error(&whole).as_str(), column(row, 2));
    let (mut chars, mut rest) = (text.chars(), pieces.split(','));
    let others = [
        ArrayString::try_from_str(text),
        text.parse(),
        ArrayString::try_from_chars(&mut chars),
        ArrayString::try_from_iterator(rest.by_ref()),
    ];
    agree(rt, row, others, [whole.ok().ok_or(OutOfBounds); 4]);
    next(rt, row, chars.next(), rest.next());
    let cut = ArrayString::<N>::from_str_truncate(text);
    agree(rt, row, cut.as_str(), column(row, 3));
    let (mut chars, mut rest) = (text.chars(), pieces.split(','));
    let others = [
        Ok(text.into()),
        Ok(ArrayString::from_chars(&mut chars)),
        Ok(ArrayString::from_iterator(rest.by_ref())),
        ArrayString::from_utf8(text.as_bytes()),
    ];
    agree(rt, row, others, [Ok(cut); 4]);
    next(rt, row, chars.next(), rest.next());
    agree(rt, row, of_text(text), (cut, [whole.ok(); 3]));
    agree(rt, row, of_pieces(&[text]), (cut, whole.ok()));
}

/// Asserts which item the iterator that was borrowed gives next.
pub(super) fn next<'a>(rt: &impl Abort, row: &'a str, ch: Option<char>, piece: Option<&'a str>) {
    agree(rt, row, ch, column(row, 4).chars().next());
    agree(rt, row, piece.unwrap_or("None"), column(row, 5));
}

/// Creates a string of a text by the constructor that cuts, and, if all fits, by each unchecked one. The
/// contract says that a caller knows the text of the first.
fn of_text<const N: usize>(text: &str) -> (ArrayString<N>, [Option<ArrayString<N>>; 3])
    ensures { result.0.text ≡ cut (chars text.now) (cap N) }
{
    let cut = ArrayString::from_chars(text.chars());
    match ArrayString::<N>::try_from_str(text) {
        Ok(_) => {
            let made = [
                Some(ArrayString::from_str_unchecked(text)),
                Some(ArrayString::from_chars_unchecked(text.chars())),
                Some(ArrayString::from_utf8_unchecked(text.as_bytes())),
            ];
            (cut, made)
        }
        Err(OutOfBounds) => (cut, [None; 3]),
    }
}

/// Creates a string of pieces by the constructor that cuts, and, if all fit, by the unchecked one. The
/// contract says that a caller knows both texts.
fn of_pieces<const N: usize>(pieces: &[&str]) -> (ArrayString<N>, Option<ArrayString<N>>)
    ensures cut { result.0.text ≡ cut (joined_pieces pieces.now) (cap N) }
    ensures unchecked { IfSome result.1 (λ made. made.text ≡ joined_pieces pieces.now) }
{
    let cut = ArrayString::from_iterator(pieces.iter().copied());
    match ArrayString::<N>::try_from_iterator(pieces.iter().copied()) {
        Ok(_) => {
            let made = ArrayString::from_iterator_unchecked(pieces.iter().copied());
            (cut, Some(made))
        }
        Err(OutOfBounds) => (cut, None),
    }
}

#[test]
fn what_is_made(rt: HostRuntime) {
    check_constructors::<23>(
        &rt,
        "
        # player: constructors 23
        My String                | My, String               | My String               | My String               |      | None
                                 |                          |                         |                         |      | None
        🤔🤔🤔🤔🤔               | 🤔🤔🤔,🤔🤔              | 🤔🤔🤔🤔🤔              | 🤔🤔🤔🤔🤔              |      | None
        00000000000000000000000  | 00000000000000000000000  | 00000000000000000000000 | 00000000000000000000000 |      | None
        000000000000000000000000 | 000000000000000000000000 | OutOfBounds             | 00000000000000000000000 |      | None
        abcde                    | a,bcd,e                  | abcde                   | abcde                   |      | None
        abc🤔de                  | ab,c🤔,d,e               | abc🤔de                 | abc🤔de                 |      | None
        ",
    );
    check_constructors::<0>(
        &rt,
        "
        # player: constructors 0
          |   |             | |      | None
        x | x | OutOfBounds | |      | None
        ",
    );
    check_constructors::<1>(
        &rt,
        "
        # player: constructors 1
        ab  | a,b  | OutOfBounds | a |      | None
        🤔x | 🤔,x | OutOfBounds |   | x    | x
        éa  | é,a  | OutOfBounds |   | a    | a
        ",
    );
    check_constructors::<2>(
        &rt,
        "
        # player: constructors 2
        abcd | a,b,c,d | OutOfBounds | ab | d | d
        ",
    );
    check_constructors::<3>(
        &rt,
        "
        # player: constructors 3
        abcdef | ab,cd,ef | OutOfBounds | abc | e | ef
        ",
    );
    check_constructors::<4>(
        &rt,
        "
        # player: constructors 4
        a🤔b | a,🤔b | OutOfBounds | a | b | None
        ",
    );
    check_constructors::<5>(
        &rt,
        "
        # player: constructors 5
        a🤔b     | a,🤔b      | OutOfBounds | a🤔   |      | None
        abc🤔d   | ab,c🤔,d   | OutOfBounds | abc   | d    | d
        ab🤔cd   | a,b🤔,c,d  | OutOfBounds | ab    | c    | c
        abcdexyz | ab,cdex,yz | OutOfBounds | abcde | y    | yz
        abc🤔de  | ab,c🤔,d,e | OutOfBounds | abc   | d    | d
        ",
    );
    check_constructors::<255>(
        &rt,
        "
        # player: constructors 255
        255 x | 255 x | 255 x | 255 x |      | None
        ",
    );
    check_constructors::<300>(
        &rt,
        "
        # player: constructors 300
        255 x | 255 x | 255 x       | 255 x |      | None
        256 x | 256 x | OutOfBounds | 255 x |      | None
        ",
    );
}

/// Asserts that bytes are refused.
fn faulty<const N: usize>(rt: &impl Abort, bytes: &[u8])
    requires { N ≤ 300 }
{
    let made = ArrayString::<N>::try_from_utf8(bytes);
    agree(rt, "whole", made, Err(Error::Utf8));
    agree(rt, "cut", ArrayString::<N>::from_utf8(bytes), Err(Utf8));
}

/// Asserts what is made of the pieces of a slice, which are too large.
fn cut_pieces<const N: usize>(rt: &impl Abort, pieces: &[&str], wanted: &str)
    requires { N ≤ 300 }
{
    agree(rt, wanted, of_pieces::<N>(pieces), (string(wanted), None));
}

#[test]
fn what_is_made_of_bytes_and_of_slices(rt: HostRuntime) {
    // A lone continuation byte, an overlong form, a surrogate, what is past the last scalar value, a character cut
    // short, and a fault behind the first byte. All bytes are judged, also those that do not fit.
    let faults = b"\x00\x9F\x92\x96\
        \x61\x61\xC0\x80\
        \xC1\xBF\x61\x61\
        \xE0\x9F\xBF\x61\
        \xF0\x8F\xBF\xBF\
        \x61\xED\xA0\x80\
        \xED\xA0\x80\x61\
        \xED\xBF\xBF\x61\
        \xF4\x90\x80\x80\
        \xF5\x80\x80\x80\
        \xDF\x61\x61\x61\
        \xE2\x82\x61\x61\
        \xF0\x9F\xA4\x61\
        \x61\x61\x61\xC3\
        \x61\x61\xE2\x82\
        \x61\xF0\x9F\xA4\
        \x61\x62\xFF";
    for fault in faults.chunks(4) {
        faulty::<23>(&rt, fault);
        faulty::<1>(&rt, fault);
    }
    let whole = ArrayString::<23>::try_from_utf8(&[b'0'; 1600]);
    agree(&rt, "1600 bytes", whole, Err(Error::OutOfBounds));
    let cut = ArrayString::<23>::from_utf8(&[b'0'; 300]);
    agree(&rt, "300 bytes", cut, Ok(string(ZEROS_23)));
    cut_pieces::<5>(&rt, &["ab", "c🤔", "d"], "abc");
    cut_pieces::<23>(&rt, &["000"; 400], ZEROS_23);
    cut_pieces::<23>(&rt, &["000"; 100], ZEROS_23);
    cut_pieces::<23>(&rt, &[ZEROS_23, "0"], ZEROS_23);
    let letters = column("255 x", 0);
    cut_pieces::<300>(&rt, &[letters, "x"], letters);
    let joined = string("My String My other String");
    let made = of_pieces::<255>(&["My String", " My other String"]);
    agree(&rt, "two pieces", made, (joined, Some(joined)));
}

/// Asserts how many characters are taken from iterators that are borrowed, if not all of a run fit
/// behind the letters `before`: one more than fit, and then none.
fn takes_chars<const N: usize>(
    rt: &(impl Abort + AllocGlobal),
    before: &str,
    run: &str,
    wanted: &str,
    left: &str,
)
    requires { N ≤ 300 }
{
    let text = format!(in rt.alloc(); "{before}{run}").expect(rt, "memory for the text");
    let (mut cut, mut whole, mut added) = (text.chars(), text.chars(), run.chars());
    let made = ArrayString::<N>::from_chars(&mut cut);
    agree(rt, wanted, made.as_str(), wanted);
    let refused = ArrayString::<N>::try_from_chars(&mut whole);
    agree(rt, wanted, refused, Err(OutOfBounds));
    let mut string: ArrayString<N> = string(before);
    string.extend_chars(&mut added);
    agree(rt, wanted, string, made);
    agree(rt, wanted, cut.as_str(), left);
    agree(rt, wanted, whole.as_str(), left);
    agree(rt, wanted, added.as_str(), left);
}

/// Asserts how many pieces are taken from iterators that are borrowed, if not all of 14 fit behind `before`:
/// one more than fit, and then none.
fn takes_pieces<'a, const N: usize>(
    rt: &impl Abort,
    before: &'a str,
    piece: &'a str,
    fit: usize,
    wanted: &str,
)
    requires { N ≤ 300 }
{
    let added = [piece; 14];
    let mut pieces = [piece; 15];
    pieces[0] = before;
    let (mut cut, mut whole, mut added) = (pieces.iter(), pieces.iter(), added.iter());
    let made = ArrayString::<N>::from_iterator(cut.by_ref().copied());
    agree(rt, wanted, made.as_str(), wanted);
    let refused = ArrayString::<N>::try_from_iterator(whole.by_ref().copied());
    agree(rt, wanted, refused, Err(OutOfBounds));
    let mut string: ArrayString<N> = string(before);
    string.extend_strs(added.by_ref().copied());
    agree(rt, wanted, string, made);
    let left = [cut.len(), whole.len(), added.len()];
    agree(rt, wanted, left, [13usize.wrapping_sub(fit); 3]);
}

/// Asserts how many items are taken of characters of each width, and of pieces of 1 to 12 bytes of
/// them, if there is room for 0 to 12 bytes.
fn takes<const N: usize>(rt: &(impl Abort + AllocGlobal))
    requires { N ≤ 300 }
{
    let runs = "xxxxxxxxxxxxxx éééééééééééééé €€€€€€€€€€€€€€ 🤔🤔🤔🤔🤔🤔🤔🤔🤔🤔🤔🤔🤔🤔";
    for run in runs.split(' ') {
        let width = run.chars().next().unwrap_or_default().len_utf8();
        for room in 0..13usize {
            let before = LETTERS.get(..N.saturating_sub(room)).unwrap_or_default();
            let mut pieces = 0usize;
            let fit = room / width;
            let end = run.get(..fit.wrapping_mul(width)).unwrap_or_default();
            let wanted = format!(in rt.alloc(); "{before}{end}").expect(rt, "memory for it");
            let left = run.get(fit.wrapping_add(1).wrapping_mul(width)..);
            takes_chars::<N>(rt, before, run, &wanted, left.unwrap_or("none"));
            for size in 1..13usize {
                if let Some(piece) = run.get(..size) {
                    takes_pieces::<N>(rt, before, piece, room / size, &wanted);
                    pieces = pieces.wrapping_add(1);
                }
            }
            agree(rt, run, pieces, 12 / width);
        }
    }
}

#[test]
fn one_item_is_taken_past_those_that_fit(rt: HostRuntime) {
    takes::<12>(&rt);
    takes::<23>(&rt);
    takes::<255>(&rt);
}

type Username = ArrayString<20>;

type Role = ArrayString<5>;

#[test]
fn names_and_roles_fit(rt: HostRuntime) {
    let username = Username::try_from_str("user").unwrap_or_default();
    agree(&rt, "a name", username.as_str(), "user");
    let role = Role::try_from_str("admin").unwrap_or_default();
    agree(&rt, "a role", role.as_str(), "admin");
}

#[test]
fn pieces_are_joined(rt: HostRuntime) {
    let pieces = ["My String", " My other String"];
    let joined = MaxString::try_from_iterator(pieces.iter().copied()).unwrap_or_default();
    let whole = "My String My other String";
    agree(&rt, "joined", joined.as_str(), whole);
    let cut = MaxString::from_iterator(pieces.iter().copied());
    agree(&rt, "joined and cut", cut, joined);
    let mut added = MaxString::try_from_str("My String").unwrap_or_default();
    let result = added.try_push_str(" My other String");
    agree(&rt, "added", (result, added), (Ok(()), joined));
    let mut pushed = MaxString::try_from_str("My String").unwrap_or_default();
    pushed.push_str(" My other String");
    agree(&rt, "pushed", pushed, joined);
}
