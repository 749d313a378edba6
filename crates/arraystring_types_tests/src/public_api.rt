//! The paths by which callers reach the crate, and the traits of the types at those paths.
use super::asserts::agree;
use arraystring::drain::Drain;
use arraystring::error::{OutOfBounds, Utf8, Utf16};
use arraystring::integration::{NotText, ValueError};
use arraystring::utf16::{Unit16, Units};
use arraystring::utils::Steps;
use arraystring::{
    ArrayString, CacheString, Error, MaxString, SmallString, drain, error, laws, prelude,
};
use std::collections::BTreeMap;
use std::error::Error as StdError;
use std::fmt::{Debug, Display, Write};
use std::hash::Hash;
use std::iter::FusedIterator;
use std::ops::Add;
use std::str::{FromStr, Utf8Error};

fn is_plain<T: Copy + Clone + PartialEq + Eq + Debug>() {}

fn has_default<T: Default>() {}

fn is_refusal<T: Display + StdError>() {}

fn is_ordered<T: PartialOrd + Ord + Hash>() {}

fn becomes_an_error<T>()
where
    Error: From<T>,
{}

fn is_a_string<'a, T: Display + FromStr<Err = OutOfBounds> + Write + Add<&'a str, Output = T>>() {}

fn is_iterator_of_both_ends<T: DoubleEndedIterator<Item = char> + FusedIterator>() {}

fn is_iterator<T: Iterator<Item = Unit16> + FusedIterator>() {}

#[test]
fn each_type_has_its_traits(rt: HostRuntime) {
    is_plain::<Error>();
    is_plain::<Utf8>();
    is_plain::<Utf16>();
    is_plain::<OutOfBounds>();
    is_plain::<NotText>();
    is_plain::<ValueError>();
    is_plain::<Unit16>();
    is_plain::<ArrayString<5>>();
    is_plain::<Drain<5>>();
    is_plain::<CacheString>();

    has_default::<Utf8>();
    has_default::<Utf16>();
    has_default::<OutOfBounds>();
    has_default::<ArrayString<5>>();
    has_default::<Drain<5>>();
    has_default::<CacheString>();

    is_refusal::<Error>();
    is_refusal::<Utf8>();
    is_refusal::<Utf16>();
    is_refusal::<OutOfBounds>();
    is_refusal::<NotText>();
    is_refusal::<ValueError>();

    becomes_an_error::<Utf8>();
    becomes_an_error::<Utf16>();
    becomes_an_error::<OutOfBounds>();
    becomes_an_error::<Utf8Error>();

    is_ordered::<ArrayString<5>>();
    is_ordered::<Drain<5>>();
    is_ordered::<CacheString>();

    is_a_string::<ArrayString<5>>();
    is_a_string::<CacheString>();

    is_iterator_of_both_ends::<Drain<5>>();
    is_iterator::<Units<'static>>();

    // the default of each type: an error of the only case, and nothing that is left
    agree(&rt, "a drain", Drain::<5>::default().next(), None);
    let string = ArrayString::<5>::default();
    agree(&rt, "a string", string.as_str(), "");
}

/// Compiles only if both values have one type.
#[test]
fn each_path_names_the_same(rt: HostRuntime) {
    let small = ArrayString::<23>::new();
    agree(&rt, "small", small, SmallString::new());
    agree(&rt, "small, taken", small, prelude::SmallString::new());
    let most = ArrayString::<255>::new();
    agree(&rt, "most", most, MaxString::new());
    agree(&rt, "most, taken", most, prelude::MaxString::new());
    let cached = prelude::CacheString::new();
    agree(&rt, "cached", CacheString::new(), cached);
    let mut text = prelude::ArrayString::<5>::from("abc");
    let removed: Result<prelude::Drain<5>, Error> = text.drain(1..);
    let left: drain::Drain<5> = removed.unwrap_or_default();
    agree(&rt, "drained", left.as_str(), "bc");
    agree(&rt, "UTF-8", error::Utf8, prelude::Utf8);
    agree(&rt, "UTF-16", error::Utf16, prelude::Utf16);
    agree(&rt, "bounds", error::OutOfBounds, prelude::OutOfBounds);
    agree(&rt, "an error", error::Error::Utf8, Error::from(Utf8));
}

/// Each law is called by its path; it does nothing.
#[test]
fn the_laws_are_at_hand(rt: HostRuntime) {
    laws::boundaries_are_sizes();
    laws::cut_of_cut();
    laws::equal_texts();
    laws::json_reads_back();
    laws::json_whole_and_cut();
    let mut text = ArrayString::<5>::from("é");
    laws::text_fits(&text);
    laws::utf8_decodes_to_text(&text);
    if let Ok(drained) = text.drain(..) {
        laws::drain_text_fits(&drained);
        laws::drain_gives_left(&drained);
    }
    laws::keys_ascend::<5, u8>(&BTreeMap::new(rt.alloc()));
    laws::chars_next_is_first("a", "a".chars().next());
    laws::chars_next_back_is_last("a", "a".chars().next_back());
    laws::utf8_validity_is_decidable(&[0xFF]);
    laws::str_is_text("a");
    laws::str_find_gives_first("a", 'a', "a".find('a'));
    laws::split_once_at_first("a", 'a', "a".split_once('a'));
    laws::rfind_finds_last("a", 'a', "a".rfind('a'));
    laws::rsplit_once_at_last("a", 'a', "a".rsplit_once('a'));
    laws::longest_cut();
    laws::only_first_stop();
    laws::equal_bytes_are_one_text();
    laws::only_reading(&[0xD800]);
    laws::order_of_bytes();
    laws::texts_are_totally_ordered();
    laws::split_and_join_invert();
    laws::chars_of_joined_pieces("a");
    laws::pop_takes_last();
    laws::replacement_turns_back();
    laws::size_is_length();
    laws::split_off_parts_join();
    laws::text_units_read_as_text();
    laws::trim_drops_both_ends();
    laws::from_utf16_reads_back();
    laws::ends_give_each_once();
    laws::cut_ignores_excess();
    laws::white_space_is_that_of_std();
}

/// The old name of each law that has a new one is at hand until the next release.
#[test]
fn the_old_names_of_laws_are_at_hand() {
    laws::boundaries();
    let mut text = ArrayString::<5>::from("é");
    laws::text_spelled(&text);
    laws::text_reads_back(&text);
    if let Ok(drained) = text.drain(..) {
        laws::left_fits(&drained);
        laws::drain_left_fits(&drained);
        laws::left_given(&drained);
    }
    laws::first_given("a", "a".chars().next());
    laws::last_given("a", "a".chars().next_back());
    laws::borrowed_text("a");
    laws::found_first("a", 'a', "a".find('a'));
    laws::find_finds_first("a", 'a', "a".find('a'));
    laws::split_first("a", 'a', "a".split_once('a'));
    laws::found_last("a", 'a', "a".rfind('a'));
    laws::split_last("a", 'a', "a".rsplit_once('a'));
    laws::one_stop();
    laws::one_text();
    laws::order_of_texts();
    laws::parts();
    laws::parts_join();
    laws::pieces_make_one_text("a");
    laws::popped();
    laws::json_reads_whole();
    laws::replaced_back();
    laws::split_back();
    laws::split_parts_join();
    laws::text_reading();
    laws::trimmed();
    laws::units_read_back();
    laws::walk_gives_each_once();
    laws::walks();
    laws::well_formed_or_not(&[0xFF]);
    laws::what_comes_past_the_room();
    laws::white_space();
}

/// Each call that is `const` and reads a value: a constant function can make no other.
const fn in_a_constant(text: &ArrayString<5>, steps: &Steps) -> ([u8; 4], bool, [u64; 2]) {
    let numbers = [
        text.len(),
        ArrayString::<5>::capacity(),
        ArrayString::<300>::capacity(),
        CacheString::capacity(),
    ];
    (numbers, text.is_empty(), [steps.looked(), steps.moved()])
}

/// Each call that is `const` and takes nothing.
const fn made_in_a_constant() -> (ArrayString<5>, CacheString, Steps) {
    (ArrayString::new(), CacheString::new(), Steps::new())
}

#[test]
fn constants_are_made(rt: HostRuntime) {
    let (text, cached, steps) = made_in_a_constant();
    let wanted = ([0, 5, 255, 63], true, [0, 0]);
    agree(&rt, "numbers", in_a_constant(&text, &steps), wanted);
    agree(&rt, "texts", (text.as_str(), cached.0.as_str()), ("", ""));
}

#[test]
fn the_aliases_have_their_capacities(rt: HostRuntime) {
    agree(&rt, "small", SmallString::capacity(), 23);
    agree(&rt, "greatest", MaxString::capacity(), 255);
}
