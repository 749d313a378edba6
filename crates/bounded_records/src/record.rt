//! A user as a record of 27 bytes, and back.
//!
//! - Byte 0: how many bytes the username has, 0 to 20.
//! - Bytes 1 to 20: the UTF-8 of the username, and then zero bytes as padding.
//! - Byte 21: how many bytes the role has, 0 to 5.
//! - Bytes 22 to 26: the UTF-8 of the role, and then zero bytes as padding.
//!
//! For example the user `ann` with the role `admin` has the bytes 3, `ann`, 17 zero bytes, 5, `admin`. A zero
//! byte among the counted ones is the character U+0000, and no padding.
ghost use Rattle.std.specs.Prelude.{◌≡◌, ◌<◌, ◌+◌, ◌≤◌, ◌↔◌, Some, ℕ, List, suc, length, replicate, IsTrue, IfOk, IfErr, OnErr, IsOkAnd};
ghost use Rattle.std.specs.List.{All};
ghost use Rattle.std.specs.Result.{IsErrAnd};
ghost use Rattle.arraystring.specs.Text.{IsText, IsWellFormed, bytes, size};
ghost use Rattle.bounded_records.specs.declared.record.RecordFault.{RecordFault};
ghost use Rattle.bounded_records.specs.declared.record.RecordFault.TheVariants.{Utf8};
ghost use Rattle.bounded_records.specs.Names.{fault_name};
ghost use Rattle.bounded_records.specs.RecordBytes.{IsRecord, field_of, count, counted_bytes, uncounted_bytes, HasRecordSize, IsFirstFault};
ghost use Rattle.bounded_records.specs.UserTexts.{texts};

use crate::User;
use arraystring::ArrayString;
use std::error::Error;
use std::fmt;

/// How many bytes a record has.
pub const RECORD_SIZE: usize = 27;

/// The offset of the role's field, which is behind the username's.
const ROLE_OFFSET: usize = 21;

/// How many bytes a username has at most.
const USERNAME_CAPACITY: u8 = 20;

/// How many bytes a role has at most.
const ROLE_CAPACITY: u8 = 5;

/// Why bytes are no record. `decode` makes the tests in the order of these cases. Each test looks at the
/// whole record.
#[derive(Clone, Copy, PartialEq, Eq, Hash, Debug)]
pub enum RecordFault {
    /// The number of bytes is not 27.
    Length,
    /// A count is above the capacity of its text.
    Count,
    /// The counted bytes of a text are not well-formed UTF-8 (the Unicode Standard, section 3.9).
    Utf8,
    /// A byte after the counted ones of a text is not zero.
    Padding,
}

impl RecordFault {
    /// The name of the case.
    fn case_name(&self) -> &'static str
        ensures { result.now ≡ fault_name self.now }
    {
        match self {
            RecordFault::Length => "Length",
            RecordFault::Count => "Count",
            RecordFault::Utf8 => "Utf8",
            RecordFault::Padding => "Padding",
        }
    }
}

/// Prints the name of the case. A width in the format does not pad it.
impl fmt::Display for RecordFault {
    ghost output = { λ fault. Some (fault_name fault) };

    ghost styled_output = { λ fault _. Some (fault_name fault) };

    fn fmt<W: fmt::Write>(&self, f: &mut fmt::Formatter<W>) -> fmt::Result {
        f.write_str(self.case_name())
    }
}

impl Error for RecordFault {}

/// Returns the record of a user. No other user has this record. It allocates nothing.
pub fn encode(user: &User) -> [u8; RECORD_SIZE]
    ensures record { IsRecord result user.now.username.text user.now.role.text }
    ensures only { (username role : List ℕ)
        → IsRecord result username role → texts user.now ≡ (username, role) }
{
    let mut record = [0; RECORD_SIZE];
    let (username, role) = record.split_at_mut(ROLE_OFFSET);
    fill_zeroed_field(username, &user.username);
    fill_zeroed_field(role, &user.role);
    record
}

/// Returns the user that has the record `given`. At most one user has it. It allocates nothing.
///
/// # Errors
///
/// The first of these whose condition holds is returned:
///
/// - `Err(RecordFault::Length)` if the number of bytes is not 27;
/// - `Err(RecordFault::Count)` if a count is above the capacity of its text;
/// - `Err(RecordFault::Utf8)` if counted bytes are not well-formed UTF-8;
/// - `Err(RecordFault::Padding)` if a byte after them is not zero.
pub fn decode(given: &[u8]) -> Result<User, RecordFault>
    ensures user { (username role : List ℕ)
        → IsOkAnd result (λ user. texts user ≡ (username, role))
        ↔ IsRecord given.now username role }
    ensures own { IfOk result
        (λ user. IsRecord given.now user.username.text user.role.text) }
    ensures only { (username role other_username other_role : List ℕ)
        → IsRecord given.now username role → IsRecord given.now other_username other_role
        → (username ≡ other_username) × (role ≡ other_role) }
    ensures fault { (fault : RecordFault)
        → IsErrAnd result (λ e. e ≡ fault) ↔ IsFirstFault given.now fault }
{
    if !has_record_size(given) {
        return Err(RecordFault::Length);
    }
    let (username, role) = given.split_at(ROLE_OFFSET);
    if !counts_fit(username, role) {
        return Err(RecordFault::Count);
    }
    let user = User {
        username: text_of_field(username)?,
        role: text_of_field(role)?,
    };
    if !are_padded(username, role) {
        return Err(RecordFault::Padding);
    }
    Ok(user)
}

/// Writes a text into a field whose bytes are all 0.
#[tactic(auto, using(crate::proofs::RecordLemmas::written))]
fn fill_zeroed_field<const N: usize>(field: &mut [u8], text: &ArrayString<N>)
    requires { field.old ≡ replicate (suc N) 0 }
    ensures field { field.new ≡ field_of N text.now.text }
    ensures text { IsText text.now.text }
    ensures fits { size text.now.text ≤ N }
{
    let end = 1 + text.len() as usize;
    field[0] = text.len();
    field[1..end].copy_from_slice(text.as_bytes());
}

/// Whether there are as many bytes as a record has.
fn has_record_size(given: &[u8]) -> bool
    ensures { IsTrue result ↔ HasRecordSize given.now }
{
    given.len() == RECORD_SIZE
}

/// Whether both fields count no more bytes than they have room for.
fn counts_fit(username: &[u8], role: &[u8]) -> bool
    requires username { 0 < length username.now }
    requires role { 0 < length role.now }
    ensures { IsTrue result
        ↔ ((count username.now ≤ USERNAME_CAPACITY) × (count role.now ≤ ROLE_CAPACITY)) }
{
    username[0] <= USERNAME_CAPACITY && role[0] <= ROLE_CAPACITY
}

/// The text of a field whose count fits, or `Err(RecordFault::Utf8)` if its counted bytes are not
/// well-formed UTF-8.
fn text_of_field<const N: usize>(field: &[u8]) -> Result<ArrayString<N>, RecordFault>
    requires long { length field.now ≡ 1 + N }
    requires fits { count field.now ≤ N }
    ensures ok { IfOk result
        (λ made. IsText made.text × (bytes made.text ≡ counted_bytes field.now)) }
    ensures fault { IfErr result (λ fault. fault ≡ Utf8) }
    ensures malformed { OnErr result (¬ (IsWellFormed (counted_bytes field.now))) }
{
    let end = 1 + field[0] as usize;
    match ArrayString::try_from_utf8(&field[1..end]) {
        Ok(text) => Ok(text),
        Err(arraystring::Error::Utf8) => Err(RecordFault::Utf8),
        // The caller has tested that the counted bytes fit, and a constructor from UTF-8 returns no `Utf16`.
        Err(arraystring::Error::OutOfBounds | arraystring::Error::Utf16) => unreachable!(),
    }
}

/// Whether all bytes after the counted ones are zero, in both fields.
fn are_padded(username: &[u8], role: &[u8]) -> bool
    requires username { count username.now < length username.now }
    requires role { count role.now < length role.now }
    ensures { IsTrue result
        ↔ (All (λ b. b ≡ 0) (uncounted_bytes username.now)
        × All (λ b. b ≡ 0) (uncounted_bytes role.now)) }
{
    is_padded(username) && is_padded(role)
}

/// Whether all bytes after the counted ones are zero.
fn is_padded(field: &[u8]) -> bool
    requires { count field.now < length field.now }
    ensures { IsTrue result ↔ All (λ b. b ≡ 0) (uncounted_bytes field.now) }
{
    field[1 + field[0] as usize..].iter().all(|&b| b == 0)
}
