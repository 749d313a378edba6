//! Tests how tables are read, which values are told apart, how values are printed for debugging, and
//! that `ScarceMemory` takes all memory except what it leaves.
use crate::equality::first_mistaken;
use crate::memory::ScarceMemory;
use crate::printing::{Unquoted, first_debug_difference, forms};
use crate::table::{LETTERS, column, rows};
use std::alloc::Global;
use std::fmt;
use std::fmt::{Alignment, Debug, Write};
use std::process::Abort;

/// Asserts that two values are equal. An `assert_eq!` costs the proof of a test three times as much as
/// a call.
fn agree<T: PartialEq + Debug + Drop>(rt: &impl Abort, gave: T, wanted: T) {
    assert_eq!(rt; gave, wanted);
}

/// Prints the format by which it is printed, so that a test sees which formats are tried.
#[derive(Drop)]
struct Written;

impl Debug for Written {
    fn fmt<W: fmt::Write>(&self, f: &mut fmt::Formatter<W>) -> fmt::Result {
        if f.fill() != ' ' {
            f.write_char(f.fill())?;
        }
        f.write_str(match f.align() {
            Some(Alignment::Left) => "<",
            Some(Alignment::Right) => ">",
            Some(Alignment::Center) => "^",
            None => "",
        })?;
        f.write_str(if f.sign_plus() { "+" } else { "" })?;
        f.write_str(if f.alternate() { "#" } else { "" })?;
        f.write_str(if f.sign_aware_zero_pad() { "0" } else { "" })?;
        if let Some(width) = f.width() {
            write!(f, "{width}")?;
        }
        if let Some(precision) = f.precision() {
            write!(f, ".{precision}")?;
        }
        Ok(())
    }
}

#[test]
fn each_form_is_printed(rt: HostRuntime) {
    let alloc = rt.alloc();
    for w in 1..30usize {
        let printed = forms(alloc, &Written, w).expect(&rt, "memory for the forms");
        let wanted = format!(in alloc;
            "|#|{w}|<{w}|>{w}|*^{w}|0{w}|#{w}|.{w}|>{w}.1|*^#{w}.1|+|+#|+{w}|+.{w}|+#0{w}"
        );
        agree(&rt, Ok(printed), wanted);
    }
}

/// Is printed as `b` at one width, and as `a` at each other.
#[derive(Drop)]
struct At(usize);

impl Debug for At {
    fn fmt<W: fmt::Write>(&self, f: &mut fmt::Formatter<W>) -> fmt::Result {
        f.write_str(if f.width() == Some(self.0) { "b" } else { "a" })
    }
}

/// What is printed of two values at the first width at which they differ.
fn apart<T: Debug>(
    rt: &(impl Abort + AllocGlobal),
    value: &At,
    other: &T,
) -> Option<(String, String)> {
    first_debug_difference(rt.alloc(), value, other).expect(rt, "memory for what is printed")
}

/// Asserts that a text is the forms of a value at a width.
fn are_forms<T: Debug>(rt: &(impl Abort + AllocGlobal), printed: String, value: &T, width: usize) {
    agree(rt, Ok(printed), forms(rt.alloc(), value, width));
}

#[test]
fn two_values_that_are_printed_differently_at_a_width(rt: HostRuntime) {
    for at in 1..40usize {
        let both = apart(&rt, &At(at), &Unquoted("a"));
        agree(&rt, both.is_some(), at < 30);
        if let Some((printed, other)) = both {
            are_forms(&rt, printed, &At(at), at);
            are_forms(&rt, other, &Unquoted("a"), at);
        }
        agree(&rt, apart(&rt, &At(at), &At(at)).is_some(), false);
    }
}

#[test]
fn rows_and_columns_are_read(rt: HostRuntime) {
    let table = "
        a | ' b ' | 3 x
         || x x
        ";
    let mut lines = rows(table);
    let first = lines.next().unwrap_or_default();
    let columns = [0, 1, 2, 3].map(|at| column(first, at));
    agree(&rt, columns, ["a", " b ", "xxx", "no column"]);
    let second = lines.next().unwrap_or_default();
    let columns = [0, 1, 2].map(|at| column(second, at));
    agree(&rt, columns, ["", "", "x x"]);
    agree(&rt, lines.next(), None);
    agree(
        &rt,
        rows("\n # player: cuts\n a | b").next(),
        Some(" a | b"),
    );
    agree(&rt, rows("# player: cuts").next(), None);
    agree(&rt, LETTERS.len(), 256);
    agree(&rt, LETTERS.trim_matches('x'), "");
}

#[test]
fn the_first_two_that_are_not_told_apart(rt: HostRuntime) {
    agree(&rt, first_mistaken(&[1u8, 2, 3]), None);
    agree(&rt, first_mistaken(&[1u8, 2, 3, 2]), Some((1, 3)));
    // NaN is equal to no number, and so not to itself
    agree(&rt, first_mistaken(&[0.0, f64::NAN]), Some((1, 1)));
}

/// Whether there are so many bytes of memory in one piece.
fn can_be_had(alloc: Global, size: usize) -> bool {
    Vec::<u8>::with_capacity(alloc, size).is_ok()
}

#[test]
fn what_is_left_can_be_had(rt: HostRuntime) {
    let scarce = ScarceMemory::take(&rt).expect(&rt, "all memory is taken");
    let Some(mut scarce) = scarce else {
        return;
    };
    let taken_again = scarce.leave_more(rt.alloc());
    taken_again.expect(&rt, "the rest is taken again");
    let none = can_be_had(rt.alloc(), 1000);
    let taken_again = scarce.leave(rt.alloc(), 10000);
    taken_again.expect(&rt, "the rest is taken again");
    let little = can_be_had(rt.alloc(), 1000);
    let much = can_be_had(rt.alloc(), 20000);
    drop(scarce);
    agree(&rt, (none, little, much), (false, true, false));
}
