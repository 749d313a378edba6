//! Counting what a call does to bytes.
ghost use Rattle.std.specs.Prelude.{◌≡◌, ◌+◌, ◌-◌, ◌^◌, ◌<◌, ◌==◌, if◌then◌else◌};

use std::marker::Model;

/// Most programs need no counter. A `Steps` counts the looks and the moves of the calls that are given it, such
/// as `look`, `shift` and those whose names end in `_counted`. A look is one call of `look`. A move is one byte
/// that `shift` takes to another offset. Bytes that a call reads without `look` are not counted.
///
/// # Examples
///
/// ```
/// let mut string = ArrayString::<8>::from("abcd");
/// let mut steps = Steps::new();
/// string.remove_counted(1, &mut steps).unwrap();
/// assert_eq!((string.as_str(), steps.moved()), ("acd", 2));
/// ```
#[derive(Clone, Copy)]
pub struct Steps {
    looked: u64,
    moved: u64,
}

impl Model for Steps {
    ghost use Rattle.std.specs.Prelude.{ℕ};
    ghost use Rattle.arraystring_base.specs.Counts.{StepsView};

    ghost Value = { StepsView };

    ghost view = { λ s. record { looked = s.looked; moved = s.moved } };

    ghost inverse = { λ s. record { looked = s.looked; moved = s.moved } };
}

impl Steps {
    /// Returns a fresh counter: no looks and no moves.
    ///
    /// # Examples
    ///
    /// ```
    /// let steps = Steps::new();
    /// assert_eq!((steps.looked(), steps.moved()), (0, 0));
    /// ```
    pub const fn new() -> Self
        ensures looked { result.looked ≡ 0 }
        ensures moved { result.moved ≡ 0 }
    {
        Steps {
            looked: 0,
            moved: 0,
        }
    }

    /// Returns how many looks were counted. A look is one call of `look`.
    ///
    /// # Examples
    ///
    /// ```
    /// let mut steps = Steps::new();
    /// utils::look(b"ab", 0, &mut steps);
    /// utils::look(b"ab", 1, &mut steps);
    /// assert_eq!((steps.looked(), steps.moved()), (2, 0));
    /// ```
    pub const fn looked(&self) -> u64
        ensures { result ≡ self.now.looked }
    {
        self.looked
    }

    /// Returns how many moves were counted. A move is one byte that `shift` takes to another offset.
    ///
    /// # Examples
    ///
    /// ```
    /// let (mut string, mut steps) = (ArrayString::<8>::from("ab"), Steps::new());
    /// string.replace_range_counted(..1, "cd", &mut steps).unwrap();
    /// assert_eq!((string.as_str(), steps.moved()), ("cdb", 1));
    /// ```
    pub const fn moved(&self) -> u64
        ensures { result ≡ self.now.moved }
    {
        self.moved
    }

    /// Counts one look.
    pub(crate) fn count_look(&mut self)
        requires { self.old.looked < 2 ^ 64 - 1 }
        ensures looked { self.new.looked ≡ self.old.looked + 1 }
        ensures moved { self.new.moved ≡ self.old.moved }
    {
        self.looked += 1;
    }

    /// Counts `len` moves.
    pub(crate) fn count_moves(&mut self, len: usize)
        requires { self.old.moved + len < 2 ^ 64 }
        ensures moved { self.new.moved ≡ self.old.moved + len }
        ensures looked { self.new.looked ≡ self.old.looked }
    {
        self.moved += len as u64;
    }

    /// Counts the moves of `len` bytes from one offset to another: none if they stay.
    pub(crate) fn count_shift(&mut self, from: usize, to: usize, len: usize)
        requires { self.old.moved + len < 2 ^ 64 }
        ensures moved { self.new.moved ≡ self.old.moved + (if from == to then 0 else len) }
        ensures looked { self.new.looked ≡ self.old.looked }
    {
        if from != to {
            self.count_moves(len);
        }
    }
}
