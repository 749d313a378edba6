//! Users as records of fixed width, and a directory of users by their usernames. The crate shows how a caller
//! of `arraystring` is written and proved: it uses only public calls, contracts and laws. The tests are in
//! the crate `bounded_records_tests`.
#![tactic(auto)]

mod directory;
mod record;
mod user;
mod walks;

pub use directory::Directory;
pub use record::{RECORD_SIZE, RecordFault, decode, encode};
pub use user::{User, UserFault};
pub use walks::{Names, Users};
