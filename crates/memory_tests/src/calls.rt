//! The calls, each with one line or more that say what it returned.
use crate::device::{SlowReader, TextWriter};
use arraystring::{ArrayString, MaxString};
use arraystring_run::{Command, play, run, run_both, serve};
use bounded_records::{Directory, User};
use serde_json::Value;
use std::io;
use std::io::ErrorKind;

/// A script of 31 bytes and five lines, which leaves a text and writes more than one line.
const SCRIPT: &str = "push_str ab\nlen\npop\nas_str\nlen\n";

/// Makes a call and prints what came back.
pub fn make(rt: &(impl Print + AllocGlobal), name: &str) -> io::Result<()> {
    let commands = [Command::TryPush('c'); 3];
    match name {
        "run" => make_run(rt, &commands),
        "run_nothing" => make_run(rt, &[]),
        "run_both" => make_run_both(rt, &commands),
        "run_both_nothing" => make_run_both(rt, &[]),
        "to_value" => make_value(rt, "né"),
        "to_value_nothing" => make_value(rt, ""),
        "insert" => make_directory(rt),
        "play" => make_play(rt),
        "serve" => make_serve(rt),
        _ => Err(ErrorKind::InvalidInput.into()),
    }
}

fn make_run(rt: &(impl Print + AllocGlobal), commands: &[Command<'_>]) -> io::Result<()> {
    let mut text: ArrayString<23> = ArrayString::from_str_truncate("ab");
    match run(rt.alloc(), &mut text, commands) {
        Ok(outcome) => print!(rt; "run: {} replies", outcome.replies.len())?,
        Err(_) => print!(rt; "run: refused")?,
    }
    println!(rt; ", the text is {text}")
}

fn make_run_both(rt: &(impl Print + AllocGlobal), commands: &[Command<'_>]) -> io::Result<()> {
    let mut first: ArrayString<23> = ArrayString::from_str_truncate("ab");
    let mut second: ArrayString<4> = ArrayString::from_str_truncate("ab");
    match run_both(rt.alloc(), &mut first, &mut second, commands) {
        Ok((one, other)) => {
            print!(rt;
                "run_both: {} and {} replies",
                one.replies.len(),
                other.replies.len()
            )?;
        }
        Err(_) => print!(rt; "run_both: refused")?,
    }
    println!(rt; ", the texts are {first} and {second}")
}

fn make_value(rt: &(impl Print + AllocGlobal), text: &str) -> io::Result<()> {
    let text: ArrayString<23> = ArrayString::from_str_truncate(text);
    match text.to_value(rt.alloc()) {
        Ok(Value::String(made)) => println!(rt; "to_value: {:?}", made.as_str()),
        Ok(_) => println!(rt; "to_value: no text"),
        Err(_) => println!(rt; "to_value: refused"),
    }
}

/// Puts 24 users into a directory, one by one in ascending order. One that is refused is put in again.
fn make_directory(rt: &(impl Print + AllocGlobal)) -> io::Result<()> {
    let mut users = Directory::new(rt.alloc());
    for letter in "a b c d e f g h i j k l m n o p q r s t u v w x".split(' ') {
        if !is_inserted(&mut users, letter) {
            println!(rt;
                "insert: {letter} is refused, the users are {}",
                list_of(&users)
            )?;
            if !is_inserted(&mut users, letter) {
                println!(rt; "insert: {letter} is refused again")?;
            }
        }
    }
    println!(rt; "insert: the users are {}", list_of(&users))
}

/// Puts in the user whose username is a letter and whose role is the same in upper case, and returns
/// whether there was memory for it.
fn is_inserted(users: &mut Directory, letter: &str) -> bool {
    let mut role: ArrayString<5> = ArrayString::from_str_truncate(letter);
    role.make_ascii_uppercase();
    match User::new(letter, role.as_str()) {
        Ok(user) => users.insert(user).is_ok(),
        Err(_) => false,
    }
}

/// The usernames and roles, one behind the other.
fn list_of(users: &Directory) -> MaxString {
    let mut list = MaxString::new();
    for user in users.users() {
        list.push_str(user.username.as_str());
        list.push_str(user.role.as_str());
    }
    list
}

fn make_play(rt: &(impl Print + AllocGlobal)) -> io::Result<()> {
    let mut input = SlowReader {
        bytes: SCRIPT.as_bytes(),
    };
    let mut output = TextWriter::new();
    let played = play::<23, SlowReader, TextWriter>(rt.alloc(), &mut input, &mut output);
    println!(rt;
        "play: {played:?}, the output is {:?}",
        output.text.as_str()
    )
}

fn make_serve(rt: &(impl Print + AllocGlobal)) -> io::Result<()> {
    let mut input = SlowReader {
        bytes: SCRIPT.as_bytes(),
    };
    let (mut output, mut errors) = (TextWriter::new(), TextWriter::new());
    let status = serve(
        rt.alloc(),
        Some("small"),
        &mut input,
        &mut output,
        &mut errors,
    );
    let writes = match output.writes {
        0 => "no write",
        1 => "one write",
        _ => "several writes",
    };
    print!(rt; "serve: {status}, the output is {:?}", output.text.as_str())?;
    println!(rt; " in {writes}, the errors are {:?}", errors.text.as_str())
}
