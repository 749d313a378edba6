//! Runs of commands, over one string and over two.
ghost use Rattle.std.specs.Prelude.{◌≡◌, ◌+◌, ◌<◌, ◌≤◌, [], ◌∷◌, ◌++◌, length, map, vec_len, vec_capacity, if◌then◌else◌, IfOk, IsOk, OnOk, OnErr, MatchOption, Some, None};
ghost use Rattle.std.specs.Vec.{vec_ptr};
ghost use Rattle.arraystring.specs.Text.{cap, size};
ghost use Rattle.arraystring_run.specs.Effects.{view_of_reply, effect, is_tight, run_result, first_tight_from, first_some, NoneTight, IsFirstTight};
ghost use Rattle.arraystring_run.specs.ReplyAgreement.{commands_before, AllRepliesAgree, IsNoLater};

use crate::execute::execute;
use crate::tight::is_tight;
use crate::{Command, Reply};
use arraystring::ArrayString;
use arraystring::laws::text_fits;
use std::alloc::{AllocError, Global};

/// What a run of commands returns.
#[derive(Drop)]
pub struct Outcome<const N: usize> {
    /// One reply for each command, in order.
    pub replies: Vec<Reply<N>>,
    /// The position of the first tight command, counted from 0. A command is tight if it was refused because
    /// its result did not fit, or if it added less than all of its text.
    pub first_tight: Option<usize>,
}

/// Executes the commands in order, each on the text that the one before left.
///
/// Before the first command it allocates the list of replies, and after that nothing. For an empty list of
/// commands it allocates nothing.
///
/// # Errors
///
/// Returns `Err(AllocError)` if memory runs out. The text is then unchanged.
pub fn run<const N: usize>(
    alloc: Global,
    text: &mut ArrayString<N>,
    commands: &[Command<'_>],
) -> Result<Outcome<N>, AllocError>
    ensures replies { IfOk result
        (λ o. map view_of_reply o.replies.items
        ≡ (run_result commands.now text.old.text (cap N)).replies) }
    ensures one_each { IfOk result (λ o. vec_len o.replies ≡ length commands.now) }
    ensures text { OnOk result
        (text.new.text ≡ (run_result commands.now text.old.text (cap N)).text) }
    ensures first_tight { IfOk result (λ o. MatchOption o.first_tight
        (NoneTight commands.now text.old.text (cap N))
        (IsFirstTight commands.now text.old.text (cap N))) }
    ensures fits { size text.new.text ≤ cap N }
    ensures unchanged { OnErr result (text.new.text ≡ text.old.text) }
    ensures empty { commands.now ≡ [] → IsOk result }
{
    text_fits(text);
    let mut replies = Vec::with_capacity(alloc, commands.len())?;
    let mut first_tight = None;
    // If a call takes a `&mut Vec<Reply<N>>`, the checker asks for a bound on the bytes of memory that a reply takes.
    // It finds the bound if the list has room for a reply. For no commands the list has no room, so the call is left
    // out.
    if !commands.is_empty() {
        first_tight = execute_all_and_find_tight(text, commands, &mut replies);
    }
    text_fits(text);
    Ok(Outcome {
        replies,
        first_tight,
    })
}

/// Executes the commands in order, and adds each reply to a list that has room for all of them and
/// is not moved.
fn execute_all_and_find_tight<const N: usize>(
    text: &mut ArrayString<N>,
    commands: &[Command<'_>],
    replies: &mut Vec<Reply<N>>,
) -> Option<usize>
    requires empty { vec_len replies.old ≡ 0 }
    requires room { length commands.now ≤ vec_capacity replies.old }
    ensures replies { map view_of_reply replies.new.items
        ≡ (run_result commands.now text.old.text (cap N)).replies }
    ensures one_each { vec_len replies.new ≡ length commands.now }
    ensures in_place { vec_ptr replies.new ≡ vec_ptr replies.old }
    ensures text { text.new.text ≡ (run_result commands.now text.old.text (cap N)).text }
    ensures first_tight { result ≡ first_tight_from 0 commands.now text.old.text (cap N) }
{
    let mut first_tight = None;
    for (position, command) in commands.iter().enumerate() {
        let is_tight = execute_and_add_reply(text, command, replies);
        first_tight = first_tight_so_far(first_tight, is_tight, position);
    }
    first_tight
}

/// Executes a command, and adds the reply to a list that has room for it and is not moved. Returns
/// whether the command is tight, as `Outcome` explains it.
fn execute_and_add_reply<const N: usize>(
    text: &mut ArrayString<N>,
    command: &Command<'_>,
    replies: &mut Vec<Reply<N>>,
) -> bool
    requires { vec_len replies.old < vec_capacity replies.old }
    ensures reply { map view_of_reply replies.new.items
        ≡ map view_of_reply replies.old.items
        ++ (effect command.now text.old.text (cap N)).reply ∷ [] }
    ensures one_more { vec_len replies.new ≡ vec_len replies.old + 1 }
    ensures room { vec_capacity replies.new ≡ vec_capacity replies.old }
    ensures in_place { vec_ptr replies.new ≡ vec_ptr replies.old }
    ensures text { text.new.text ≡ (effect command.now text.old.text (cap N)).text }
    ensures tight { result ≡ is_tight command.now text.old.text (cap N) }
{
    let is_tight = is_tight(text, *command);
    replies.push_reserved(execute(text, *command));
    is_tight
}

/// Executes the same commands on two strings, as `run` does on each.
///
/// Before the first command it allocates both lists of replies, and after that nothing. For an empty list
/// of commands it allocates nothing.
///
/// Suppose that both texts are equal at first, and that the capacity of `first` is at most that of `second`.
/// Look at the commands before the first one that is tight on `first`. None of them is tight on `second`, and
/// both strings give the same replies to them, except to `Capacity`. If no command is tight on `first`, none is
/// tight on `second`, and the texts are equal at the end.
///
/// # Errors
///
/// Returns `Err(AllocError)` if memory runs out. Both texts are then unchanged.
pub fn run_both<const N: usize, const M: usize>(
    alloc: Global,
    first: &mut ArrayString<N>,
    second: &mut ArrayString<M>,
    commands: &[Command<'_>],
) -> Result<(Outcome<N>, Outcome<M>), AllocError>
    ensures first_replies { IfOk result
        (λ o. map view_of_reply o.0.replies.items
        ≡ (run_result commands.now first.old.text (cap N)).replies) }
    ensures first_text { OnOk result
        (first.new.text ≡ (run_result commands.now first.old.text (cap N)).text) }
    ensures first_tight { IfOk result (λ o. MatchOption o.0.first_tight
        (NoneTight commands.now first.old.text (cap N))
        (IsFirstTight commands.now first.old.text (cap N))) }
    ensures second_replies { IfOk result (λ o. map view_of_reply o.1.replies.items
        ≡ (run_result commands.now second.old.text (cap M)).replies) }
    ensures second_text { OnOk result
        (second.new.text ≡ (run_result commands.now second.old.text (cap M)).text) }
    ensures second_tight { IfOk result (λ o. MatchOption o.1.first_tight
        (NoneTight commands.now second.old.text (cap M))
        (IsFirstTight commands.now second.old.text (cap M))) }
    ensures one_each { IfOk result (λ o. (vec_len o.0.replies ≡ length commands.now)
        × (vec_len o.1.replies ≡ length commands.now)) }
    ensures fits { (size first.new.text ≤ cap N) × (size second.new.text ≤ cap M) }
    ensures agree { first.old.text ≡ second.old.text → cap N ≤ cap M
        → IfOk result (λ o. AllRepliesAgree (commands_before commands.now o.0.first_tight)
        (map view_of_reply o.0.replies.items) (map view_of_reply o.1.replies.items)) }
    ensures no_sooner { first.old.text ≡ second.old.text → cap N ≤ cap M
        → IfOk result (λ o. IsNoLater o.0.first_tight o.1.first_tight) }
    ensures same_text { first.old.text ≡ second.old.text → cap N ≤ cap M
        → IfOk result (λ o. o.0.first_tight ≡ None → first.new.text ≡ second.new.text) }
    ensures unchanged { OnErr result
        ((first.new.text ≡ first.old.text) × (second.new.text ≡ second.old.text)) }
    ensures empty { commands.now ≡ [] → IsOk result }
{
    text_fits(first);
    text_fits(second);
    let mut second_replies = Vec::with_capacity(alloc, commands.len())?;
    let first_outcome = run(alloc, first, commands)?;
    let mut first_tight = None;
    // If a call takes a `&mut Vec` of replies, the checker asks for a bound on the bytes of memory that a reply
    // takes. It finds the bound if the list has room for a reply. For no commands the list has no room, so the call
    // is left out.
    if !commands.is_empty() {
        first_tight = execute_all_and_find_tight(second, commands, &mut second_replies);
    }
    text_fits(second);
    Ok((
        first_outcome,
        Outcome {
            replies: second_replies,
            first_tight,
        },
    ))
}

/// The first tight position up to `position`. `first` is the one before `position`, if there is one, and
/// `is_tight` says whether the command at `position` is tight.
fn first_tight_so_far(first: Option<usize>, is_tight: bool, position: usize) -> Option<usize>
    ensures { result ≡ first_some first (if is_tight then Some position else None) }
{
    match first {
        Some(_) => first,
        None => { if is_tight { Some(position) } else { None } }
    }
}
