//! Tables of cases: a line of a text is a case, and `|` is between its columns. However many lines a
//! table has, the test that iterates over it is proved once. The first line may name the player, after `#`.
use std::str::Lines;

/// 256 letters, one more than fit into any string.
pub const LETTERS: &str = "xxxxxxxxxxxxxxxxxxxxxxxxxxxxxxxxxxxxxxxxxxxxxxxxxxxxxxxxxxxxxxxx\
    xxxxxxxxxxxxxxxxxxxxxxxxxxxxxxxxxxxxxxxxxxxxxxxxxxxxxxxxxxxxxxxx\
    xxxxxxxxxxxxxxxxxxxxxxxxxxxxxxxxxxxxxxxxxxxxxxxxxxxxxxxxxxxxxxxx\
    xxxxxxxxxxxxxxxxxxxxxxxxxxxxxxxxxxxxxxxxxxxxxxxxxxxxxxxxxxxxxxxx";

/// 255 letters that are not all the same.
pub const MANY_LETTERS: &str =
    "abcdeabcdeabcdeabcdeabcdeabcdeabcdeabcdeabcdeabcdeabcdeabcdeabcdeabcdeabcdeabcdeabcde\
    abcdeabcdeabcdeabcdeabcdeabcdeabcdeabcdeabcdeabcdeabcdeabcdeabcdeabcdeabcdeabcdeabcde\
    abcdeabcdeabcdeabcdeabcdeabcdeabcdeabcdeabcdeabcdeabcdeabcdeabcdeabcdeabcdeabcdeabcde";

/// Returns the rows of a table, without the line that names its player.
pub fn rows(table: &str) -> Lines {
    let table = table.trim();
    if !table.starts_with('#') {
        return table.lines();
    }
    let (_, rows) = table.split_once('\n').unwrap_or_default();
    rows.lines()
}

/// Returns a column of a row, without the spaces round it and without the quotes in which a text
/// may be. `255 x` means 255 letters.
pub fn column(row: &str, at: usize) -> &str {
    let column = row
        .split('|')
        .nth(at)
        .unwrap_or("no column")
        .trim_matches(' ');
    if let Some(rest) = column.strip_prefix('\'') {
        return rest.strip_suffix('\'').unwrap_or(column);
    }
    let Some(count) = column.strip_suffix(" x") else {
        return column;
    };
    LETTERS
        .get(..count.parse().unwrap_or(usize::MAX))
        .unwrap_or(column)
}
