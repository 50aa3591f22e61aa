// The physical line in which a place of a table stands.
ghost use Rattle.std.specs.Prelude.{◌≤◌, ◌≡◌, length, MatchOption};
ghost use Rattle.explain.specs.Place.{line_number, line_start, NoNewline, LastNewline};

// The number of the line, from 1.
#[tactic(auto, unfolding(crate::specs::Place::line_number))]
pub fn line_number(table: &[u8], place: usize) -> usize
    requires { place ≤ length table.now }
    ensures { result ≡ line_number table.now place }
{
    1 + table[..place].iter().filter(|b| **b == b'\n').count()
}

// Where the last newline stands.
fn last_newline(front: &[u8]) -> Option<usize>
    ensures { MatchOption result (NoNewline front.now) (LastNewline front.now) }
{
    front.iter().rposition(|b| *b == b'\n')
}

// Where the line begins.
#[tactic(auto, using(crate::proofs::PlaceLaws::start_none, crate::proofs::PlaceLaws::start_some))]
pub fn line_start(table: &[u8], place: usize) -> usize
    requires { place ≤ length table.now }
    ensures { (result ≡ line_start table.now place) × (result ≤ place) }
{
    match last_newline(&table[..place]) {
        None => 0,
        Some(i) => i + 1,
    }
}
