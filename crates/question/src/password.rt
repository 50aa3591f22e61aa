// Whether a password is needed.
ghost use Rattle.std.specs.Prelude.{◌≡◌};
ghost use Rattle.question.specs.Password.{fresh, password_needed};

use super::Age;

// Whether the timeout is above zero and the age is from 0 to it.
#[tactic(auto, unfolding(crate::specs::Password::fresh))]
fn is_fresh(timeout: i32, last: Option<Age>) -> bool
    ensures { result ≡ fresh timeout last }
{
    last.is_some_and(|age| 0 < timeout && 0 <= age.0 && age.0 <= timeout)
}

// Whether a password is needed: auth is set, and the last authentication is not fresh.
#[tactic(auto, unfolding(crate::specs::Password::password_needed))]
pub fn password_needed(auth: bool, timeout: i32, last: Option<Age>) -> bool
    ensures { result ≡ password_needed auth timeout last }
{
    auth && !is_fresh(timeout, last)
}
