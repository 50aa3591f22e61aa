// Which numbers are known, and what is kept of what the writer is given.
ghost use Rattle.std.specs.Prelude.{◌≡◌, cond, ◌&&◌};
ghost use Rattle.record.specs.Stored.{known, keeps_auth, keeps_line};

// 0 to 5 and 11 to 23.
#[tactic(auto, using(std::proofs::lemmas::Bool::Decides::nat_tests), unfolding(crate::specs::Stored::known))]
pub fn is_known(number: u8) -> bool
    ensures { result ≡ known number }
{
    number <= 5 || (11..=23).contains(&number)
}

// The auth of the answers 0 and 1, else none.
#[tactic(auto, using(std::proofs::lemmas::Bool::Decides::nat_tests), unfolding(crate::specs::Stored::keeps_auth))]
pub fn kept_auth(number: u8, auth: bool) -> bool
    ensures { result ≡ keeps_auth number && auth }
{
    number <= 1 && auth
}

// The line of the answers that a line decides, else 0.
#[tactic(auto, using(std::proofs::lemmas::Bool::Decides::nat_tests), unfolding(crate::specs::Stored::keeps_line))]
pub fn kept_line(number: u8, line: u16) -> u16
    ensures { result ≡ cond (keeps_line number) line 0 }
{
    if number == 2 || number > 5 { 0 } else { line }
}
