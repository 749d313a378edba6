//! Laws of runs and of scripts, which callers may rely on. Each does nothing when it is called and
//! carries its fact in its contract.
ghost use Rattle.std.specs.Prelude.{◌≡◌, ◌<◌, ◌⊎◌, ◌++◌, ◌∷◌, [], ℕ, List, Option, MatchOption, length};
ghost use Rattle.arraystring_run.specs.Effects.{run_result, first_tight_from, NoneTight, IsFirstTight};
ghost use Rattle.arraystring_run.specs.CommandLines.{arguments, line_of, EachArgumentIsValid, IsLineOf};
ghost use Rattle.arraystring_run.specs.LinesOfScripts.{lines, with_newline, joined_terminated_lines, HasNoLineFeed, HaveNoLineFeeds, AreLinesOfCommands, IsBadAt};
ghost use Rattle.arraystring_run.specs.declared.commands.Command.{Command};

// These are the old names of laws, which stay until the next release.
pub use crate::laws::{
    first_bad_line_is_unique as one_bad_line, first_tight_is_found as first_tight_position,
    first_tight_is_unique as one_first_tight, lines_rejoin_to_input as lines_of_input,
    script_has_one_result as one_reading, script_has_one_result as script_has_one_meaning,
};

/// A command is tight if it is refused because its result does not fit, or if it adds less than all of what it
/// is given. `first_tight_from 0` finds the position, counted from 0, of the first tight command of a run. If
/// it finds one, then the command there is tight on the text that the commands before it leave, and no command
/// before it is tight. If it finds none, no command of the run is tight.
pub fn first_tight_is_found()
    ensures { (cs : List Command) (t : List ℕ) (n : ℕ)
        → MatchOption (first_tight_from 0 cs t n) (NoneTight cs t n) (IsFirstTight cs t n) }
{}

/// What `run` says of `first_tight` holds of one answer alone, a position or `None`: that of `first_tight_from
/// 0`.
pub fn first_tight_is_unique()
    ensures { (cs : List Command) (t : List ℕ) (n : ℕ) (first : Option ℕ)
        → MatchOption first (NoneTight cs t n) (IsFirstTight cs t n)
        → first ≡ first_tight_from 0 cs t n }
{}

/// If an input is made of lines that are each followed by a line feed, it has exactly these lines. The lines
/// are the same if a last line that is not empty lacks its line feed. Each input has one of these two forms.
pub fn lines_rejoin_to_input()
    ensures all_ended { (all : List (List ℕ))
        → HaveNoLineFeeds all → lines (joined_terminated_lines all) ≡ all }
    ensures last_open { (all : List (List ℕ)) (last : List ℕ)
        → HaveNoLineFeeds all → HasNoLineFeed last → 0 < length last
        → lines (joined_terminated_lines all ++ last) ≡ all ++ last ∷ [] }
    ensures no_ends { (input : List ℕ) → HaveNoLineFeeds (lines input) }
    ensures input { (input : List ℕ)
        → (joined_terminated_lines (lines input) ≡ input)
        ⊎ (joined_terminated_lines (lines input) ≡ with_newline input) }
{}

/// Each command has a line: its word and its arguments, with numbers as they are printed. (It can stand in a
/// script unless a character or a text of the command has a line feed, the byte 0A, which would end the line.)
pub fn each_command_has_a_line()
    ensures { (c : Command) → EachArgumentIsValid (arguments c) → IsLineOf (line_of c) c }
{}

/// A script has one meaning: if its lines are the lines of two lists of commands, both lists get the
/// same replies and leave the same text.
pub fn script_has_one_result()
    ensures { (all : List (List ℕ)) (cs ds : List Command) (t : List ℕ) (n : ℕ)
        → AreLinesOfCommands all cs → AreLinesOfCommands all ds
        → run_result cs t n ≡ run_result ds t n }
{}

/// If a script has a bad line, its lines are not those of any list of commands. Only one of them is its first
/// bad line.
pub fn first_bad_line_is_unique()
    ensures refused { (all : List (List ℕ)) (cs : List Command) (k : ℕ)
        → IsBadAt all k → AreLinesOfCommands all cs → ⊥ }
    ensures first { (all : List (List ℕ)) (j k : ℕ) → IsBadAt all j → IsBadAt all k → j ≡ k }
{}
