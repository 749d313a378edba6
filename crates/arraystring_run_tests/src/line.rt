//! Good and bad lines of scripts.
use super::player::plays;
use super::table::output_of_run;
use arraystring_run::PlayFault;
use std::process::Abort;
use test_support::table::{column, rows};

/// Plays each line of a table between two lines `len`. The columns of a row are
///
///     line | printed replies | last text
fn check_table(rt: &(impl Abort + AllocGlobal), table: &str) {
    for row in rows(table) {
        let script = second_line(rt, column(row, 0));
        let wanted = output_of_run(rt, column(row, 1), column(row, 2));
        plays(rt, rt.alloc(), script.as_bytes(), Ok(()), wanted.as_bytes());
    }
}

/// A script with a line `len`, a line, and a line `len` again.
fn second_line(rt: &(impl Abort + AllocGlobal), line: &str) -> String {
    format!(in rt.alloc(); "len\n{line}\nlen\n").expect(rt, "memory for a script")
}

/// Good and bad lines, each as the second line of a script.
#[test]
fn bad_lines_are_reported(rt: HostRuntime) {
    let bad = "| | len|len |pop |pop x|len\r|capacity 1|as_str |clear |trim x|Pop|Push_str x|push|\
        push_str|push_str\tx|try_push_str|try_push|try_push |try_push ab|try_push  a|\
        retain_not|retain_not |retain_not ab|truncate|truncate |truncate 256|truncate 999|\
        truncate 1000|truncate 0001|truncate +1|truncate -1|truncate x|truncate 1 |truncate  1|\
        truncate 1 2|remove 1a|split_off 0x1|try_insert 1|try_insert 1 |try_insert 1  a|\
        try_insert  1 a|try_insert a 1|try_insert_str 1|try_insert_str  x|insert_str x|\
        insert_str 256 x|drain 1|drain 1 |drain 1 2 |drain 1 2 3|drain_through 1 256|\
        drain_back 1,2|replace_range 1|replace_range 1 2|replace_range 1  x|get 1  2|get 300 1|\
        get 1 \u{B2}";
    for line in bad.split('|') {
        let script = second_line(&rt, line);
        plays(
            &rt,
            rt.alloc(),
            script.as_bytes(),
            Err(PlayFault::BadLine(2)),
            b"",
        );
    }
    // no UTF-8: a byte that is never in it, a surrogate, and a character that is cut short
    for script in [
        b"len\npush_str \xFF\nlen\n".as_slice(),
        b"len\npush_str \xED\xA0\x80\nlen\n".as_slice(),
        b"len\ntry_push \xF0\x9F\xA4\nlen\n".as_slice(),
    ] {
        plays(&rt, rt.alloc(), script, Err(PlayFault::BadLine(2)), b"");
    }
}

#[test]
fn good_lines_are_read(rt: HostRuntime) {
    check_table(
        &rt,
        "
        'push_str '           | number 0, done, number 0                |
        'try_push_str '       | number 0, done, number 0                |
        'push_str  x '        | number 0, done, number 3                | ' x '
        'try_push  '          | number 0, done, number 1                | ' '
        push_str a\r          | number 0, done, number 2                | 'a\r'
        push_str pop 1        | number 0, done, number 5                | pop 1
        insert_str 0  x       | number 0, done, number 2                | ' x'
        'insert_str 0 '       | number 0, done, number 0                |
        'try_insert 0  '      | number 0, done, number 1                | ' '
        try_insert_str 00 1   | number 0, done, number 1                | 1
        truncate 007          | number 0, done, number 0                |
        truncate 255          | number 0, done, number 0                |
        remove 000            | number 0, refused OutOfBounds, number 0 |
        drain 00 000          | number 0, text , number 0               |
        'replace_range 0 0 '  | number 0, done, number 0                |
        get 01 1              | number 0, no text, number 0             |
        ",
    )
}

#[test]
fn each_word_is_played(rt: HostRuntime) {
    let script = "try_push a\ntry_push_str bc\npush_str  🤔d\nlen\ncapacity\nas_str\npop\n\
        truncate 4\ntrim\nremove 001\ntry_insert 1 é\ntry_insert_str 0 xy\ninsert_str 2  z\n\
        retain_not y\nget 1 3\nsplit_off 4\ndrain 1 2\npush_str bcd\ndrain_through 0 1\n\
        drain_back 1 3\nreplace_range 0 1 héllo\nupper\nlower\nget 2 1\nclear\npop\n";
    let wanted = "done\ndone\ndone\nnumber 9\nnumber 23\ntext abc 🤔d\nchar d\n\
        done\ndone\nchar b\ndone\ndone\ndone\n\
        done\ntext  z\ntext éc\ntext  \ndone\ntext xz\n\
        text cb\ndone\ndone\ndone\nno text\ndone\nno char\nfinal \n";
    plays(
        &rt,
        rt.alloc(),
        script.as_bytes(),
        Ok(()),
        wanted.as_bytes(),
    );
}
