//! The authorised representatives of an account, by rising user number.

ghost use Rattle.std.specs.Prelude.{◌≡◌, All};
ghost use Rattle.reg_base.specs.Rising.{IsRising};
ghost use Rattle.reg_account.specs.Users.{user_numbers, right_in, UserIsInRange};

use reg_base::{Right, UserNo};

/// An authorised representative of an account.
#[derive(Clone, Copy, Debug, PartialEq, Eq)]
pub struct Representative {
    /// The user.
    pub user: UserNo,
    /// What the user may do for the account.
    pub right: Right,
}

impl Default for Representative {
    ghost use Rattle.reg_base.specs.declared.kinds.Right.TheVariants.{Propose};

    ghost is_default = { λ u. u ≡ record { user = 1; right = Propose } };

    /// The lowest user number. It fills the unused rest of a short list.
    fn default() -> Self {
        Representative {
            user: UserNo::new(1).unwrap(),
            right: Right::Propose,
        }
    }
}

/// The right of this user, if the user is a representative.
pub(crate) fn find_right(users: &[Representative], user: UserNo) -> Option<Right>
    requires { IsRising (user_numbers users.now) }
    ensures { result ≡ right_in users.now user }
{
    match users.binary_search_by_key(&user, |representative| representative.user) {
        Ok(index) => Some(users[index].right),
        Err(_) => None,
    }
}

// Reads each number in these representatives, so that a proof knows its range.
pub(crate) fn know_users(users: &[Representative])
    ensures { All UserIsInRange users.now }
{
    for representative in users {
        representative.user.get();
    }
}
