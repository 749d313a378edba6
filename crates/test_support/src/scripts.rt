//! Scripts for a string of 23 bytes, and what is printed of them.

/// A script of five commands.
pub const SCRIPT: &str = "try_push_str ABCD\ntry_push 🤔\nlen\npop\nas_str\n";

/// What is printed of `SCRIPT`.
pub const OUTPUT: &str = "done\ndone\nnumber 8\nchar 🤔\ntext ABCD\nfinal ABCD\n";

/// A script in which one command borrows nothing and one is refused.
pub const EXAMPLE: &str = "push_str ABCD🤔\ntry_insert 1 A\ntry_insert_str 2 B\ndrain_back 4 10\n\
    get 0 9\nremove 9\nas_str\n";

/// What is printed of `EXAMPLE`.
pub const EXAMPLE_OUTPUT: &str =
    "done\ndone\ndone\ntext 🤔DC\nno text\nrefused OutOfBounds\ntext AABB\n\
    final AABB\n";
