//! What is taken out of a string, on values worked out by hand.
use super::calls::check_blocks;

#[test]
fn removals(rt: HostRuntime) {
    check_blocks(
        &rt,
        "
        # player: calls 23 | characters are removed
        ABCD🤔 | remove | 8  | | OutOfBounds | ABCD🤔
               | remove | 10 | | OutOfBounds | ABCD🤔
               | remove | 6  | | Utf8        | ABCD🤔
               | remove | 0  | | A           | BCD🤔
               | remove | 2  | | D           | BC🤔
               | remove | 2  | | 🤔          | BC
        # player: calls 4 | characters are removed
        abcd | remove | 4 | | OutOfBounds | abcd
             | remove | 0 | | a           | bcd
        abcd | remove | 3 | | d           | abc
        # player: calls 23 | a text is truncated
        My String | truncate | 5 | | ok | My St
                  | truncate | 6 | | ok | My St
                  | truncate | 5 | | ok | My St
        🤔        | truncate | 1 | | Utf8 | 🤔
                  | truncate | 3 | | Utf8 | 🤔
                  | truncate | 4 | | ok   | 🤔
                  | truncate | 0 | | ok   |
        # player: calls 4 | a text is truncated
        🤔 | truncate | 1 | | Utf8 | 🤔
           | truncate | 3 | | Utf8 | 🤔
           | truncate | 4 | | ok   | 🤔
           | truncate | 0 | | ok   |
        # player: calls 23 | moves of removals
        ABCD🤔 | remove_counted | 0  | | A           | BCD🤔  | 0
        ABCD🤔 | remove_counted | 3  | | D           | ABC🤔  | 4
        ABCD🤔 | remove_counted | 1  | | B           | ACD🤔  | 6
        ABCD🤔 | remove_counted | 4  | | 🤔          | ABCD   | 0
        ABCD🤔 | remove_counted | 5  | | Utf8        | ABCD🤔 | 0
        ABCD🤔 | remove_counted | 20 | | OutOfBounds | ABCD🤔 | 0
        # player: calls 23 | characters are retained
        ABCD🤔 | retain_without | | 🤔      | ok     | ABCD
        ABCD🤔 | retain_without | | ABCD🤔  | ok     |
        a🤔bc  | retain_in_turn | | +-+-    | a🤔bc  | ab
        ABCD🤔 | retain_in_turn | | -++++   | ABCD🤔 | BCD🤔
        abcd   | retain_in_turn | | ++++    | abcd   | abcd
        # player: calls 4 | characters are retained
        abcd | retain_in_turn | | ++++ | abcd | abcd
        # player: calls 23 | a text is split and cleared
        AB🤔CD | split_off | 6  | | CD          | AB🤔
               | split_off | 20 | | OutOfBounds | AB🤔
               | split_off | 7  | | OutOfBounds | AB🤔
               | split_off | 4  | | Utf8        | AB🤔
               | split_off | 6  | |             | AB🤔
        # player: calls 4 | a text is split and cleared
        abcd | split_off | 4 | |    | abcd
             | split_off | 2 | | cd | ab
             | split_off | 0 | | ab |
        abcd | clear     |   | | ok |
        # player: calls 0 | capacities
        new | remove         | 0 | | OutOfBounds |
            | truncate       | 0 | | ok          |
            | truncate       | 1 | | ok          |
            | split_off      | 0 | |             |
            | split_off      | 1 | | OutOfBounds |
            | trim           |   | | ok          |
            | clear          |   | | ok          |
            | retain_without |   | | ok          |
        # player: calls 1 | capacities
        a | remove | 1 | | OutOfBounds | a
          | remove | 0 | | a           |
        # player: calls 300 | a string of the most letters
        255 x | remove         | 255 | | OutOfBounds | 255 x
              | truncate       | 255 | | ok          | 255 x
              | split_off      | 255 | |             | 255 x
              | trim           |     | | ok          | 255 x
              | retain_in_turn |     | | 255 x       | 255 x
              | remove         | 254 | | x           | 254 x
              | remove         | 0   | | x           | 253 x
              | len            |     | | ok          | 253 x | 253
        ",
    );
}
