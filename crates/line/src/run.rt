// Bytes of a control line that need no step of their own.
ghost use Rattle.std.specs.Prelude.{◌+◌, ◌≤◌, ◌≡◌, length, drop};
ghost use Rattle.line.specs.Joined.{leading};
ghost use Rattle.line.specs.Contract.{in_run};

use text::class::is_blank;

#[derive(Clone, Copy)]
pub enum Run {
    Blanks,
    // Bytes of a field outside quotes: above the quotes, and no backslash.
    Plain,
}

#[tactic(auto, unfolding(crate::specs::Contract::in_run))]
fn is_in(run: Run, b: u8) -> bool
    ensures { result ≡ in_run run b }
{
    match run {
        Run::Blanks => is_blank(b),
        Run::Plain => b > b'\'' && b != b'\\',
    }
}

// Where the run from a place on ends.
pub fn run_end(line: &[u8], from: usize, run: Run) -> usize
    requires { from ≤ length line.now }
    ensures { (result ≡ from + leading (in_run run) (drop from line.now)) × (from ≤ result) × (result ≤ length line.now) }
{
    let rest = &line[from..];
    from + rest
        .iter()
        .position(|b| !is_in(run, *b))
        .unwrap_or(rest.len())
}
