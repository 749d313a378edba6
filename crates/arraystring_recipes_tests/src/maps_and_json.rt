//! Strings as keys of maps and as JSON. No clause says that there is memory.
use crate::checks::agree;
use arraystring::ArrayString;
use arraystring_recipes::json::sent_and_read;
use arraystring_recipes::keyed::{
    Name, count_hashed, count_ordered, put_hashed, put_ordered, read_hashed, read_ordered,
    take_hashed, take_ordered,
};
use arraystring_recipes::scores::{first_of, look_up, record};
use std::collections::{BTreeMap, HashMap};

#[test]
fn names_are_found(rt: HostRuntime) {
    let mut scores = BTreeMap::new(rt.alloc());
    let anne: Name = ArrayString::from_str_truncate("anne");
    let jose: Name = ArrayString::from_str_truncate("josé");
    agree(&rt, record(&mut scores, jose, 3), Ok(None));
    agree(&rt, record(&mut scores, jose, 4), Ok(Some(3)));
    agree(&rt, look_up(&scores, &jose), Some(4));
    agree(&rt, first_of(jose, anne), anne);
}

#[test]
fn names_have_numbers(rt: HostRuntime) {
    let ann: Name = ArrayString::from_str_truncate("ann");
    let mut ordered = BTreeMap::new(rt.alloc());
    put_ordered(&mut ordered, ann, 7).expect(&rt, "memory");
    agree(&rt, read_ordered(&ordered, &ann), Some(7));
    count_ordered(&mut ordered, ann).expect(&rt, "memory");
    agree(&rt, take_ordered(&mut ordered, &ann), Some(8));
    let mut hashed = HashMap::new(rt.alloc());
    put_hashed(&mut hashed, ann, 2).expect(&rt, "memory");
    agree(&rt, read_hashed(&hashed, &ann), Some(2));
    count_hashed(&mut hashed, ann).expect(&rt, "memory");
    agree(&rt, take_hashed(&mut hashed, &ann), Some(3));
}

#[test]
fn a_name_is_read_back(rt: HostRuntime) {
    let name = ArrayString::from_str_truncate("josé \"🤔\"");
    let read = sent_and_read(&name, rt.alloc());
    agree(&rt, read.expect(&rt, "it is read"), name);
}
