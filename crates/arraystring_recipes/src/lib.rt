//! Short callers of `arraystring`, one for each kind of work, which RECIPES.md quotes. No wrong body of them is
//! tried. The others that pages quote are in `arraystring_uses`. The tests are in `arraystring_recipes_tests`.
#![tactic(auto)]

pub mod borrowed;
pub mod chains;
pub mod columns;
pub mod commas;
pub mod compared;
pub mod counts;
pub mod endings;
pub mod escapes;
pub mod fields;
pub mod fills;
pub mod headings;
pub mod json;
pub mod keyed;
pub mod letters;
pub mod marks;
pub mod markup;
pub mod member;
pub mod numbers;
pub mod packet;
pub mod parts;
pub mod paths;
pub mod read_back;
pub mod reversal;
pub mod row;
pub mod scores;
pub mod titles;
pub mod walks;
pub mod words;
