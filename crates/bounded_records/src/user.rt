//! `User`: a username and a role.
ghost use Rattle.std.specs.Prelude.{◌≡◌, ◌≤◌, Some, IfOk, IfErr, OnOk, chars};
ghost use Rattle.arraystring.specs.Text.{size};
ghost use Rattle.bounded_records.specs.Names.{user_fault_name};
ghost use Rattle.bounded_records.specs.UserTexts.{texts};
ghost use Rattle.bounded_records.specs.UserFaults.{IsFirstTooLarge};

use arraystring::ArrayString;
use std::error::Error;
use std::fmt;

/// A user: a username of at most 20 bytes of UTF-8 and a role of at most 5.
///
/// Two users are equal if both texts are equal. Users are ordered by their usernames, and then by their
/// roles. In contracts a user is these two texts.
#[derive(Clone, Copy, PartialEq, Eq, PartialOrd, Ord, Hash, Debug)]
pub struct User {
    /// The text under which a `Directory` keeps the user.
    pub username: ArrayString<20>,
    /// What the user may do, in the caller's words.
    pub role: ArrayString<5>,
}

impl User {
    /// Returns a user with these texts. It allocates nothing.
    ///
    /// # Errors
    ///
    /// The first of these whose condition holds is returned:
    ///
    /// - `Err(UserFault::Username)` if the username is larger than 20 bytes;
    /// - `Err(UserFault::Role)` if the role is larger than 5 bytes.
    pub fn new(username: &str, role: &str) -> Result<Self, UserFault>
        ensures user { IfOk result (λ user. texts user ≡ (chars username.now, chars role.now)) }
        ensures fits { OnOk result
            ((size (chars username.now) ≤ 20) × (size (chars role.now) ≤ 5)) }
        ensures fault { IfErr result
            (λ fault. IsFirstTooLarge (chars username.now) (chars role.now) fault) }
    {
        let username = ArrayString::try_from_str(username).map_err(|_| UserFault::Username)?;
        let role = ArrayString::try_from_str(role).map_err(|_| UserFault::Role)?;
        Ok(User { username, role })
    }
}

/// Why `User::new` refused two texts: which of them is too large, the first if both are.
#[derive(Clone, Copy, PartialEq, Eq, Hash, Debug)]
pub enum UserFault {
    /// The username is larger than 20 bytes.
    Username,
    /// The role is larger than 5 bytes.
    Role,
}

impl UserFault {
    /// The name of the case.
    fn case_name(&self) -> &'static str
        ensures { result.now ≡ user_fault_name self.now }
    {
        match self {
            UserFault::Username => "Username",
            UserFault::Role => "Role",
        }
    }
}

/// Prints the name of the case. A width in the format does not pad it.
impl fmt::Display for UserFault {
    ghost output = { λ fault. Some (user_fault_name fault) };

    ghost styled_output = { λ fault _. Some (user_fault_name fault) };

    fn fmt<W: fmt::Write>(&self, f: &mut fmt::Formatter<W>) -> fmt::Result {
        f.write_str(self.case_name())
    }
}

impl Error for UserFault {}
