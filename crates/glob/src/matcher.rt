// What a brace-free pattern matches. The search goes back to the last star only, and each test of a byte of the name
// uses one of a budget (02 (iii)).
ghost use Rattle.std.specs.Prelude.{◌≡◌, ◌-◌, ◌≤◌, ◌<◌, length, get_or};
ghost use Rattle.glob.specs.Match.{matches};
ghost use Rattle.glob.specs.Contract.{Usable, Spends, Covers, IsProduct, Tests, Tries};

use super::set;

// The tests that are left: so many rows, each as long as the pattern, less those used of the first. The product of two
// lengths need not fit a number.
#[derive(Drop)]
pub struct Budget {
    pub rows: usize,
    pub used: usize,
}

// One test less, where a row has so many.
fn spend(budget: Budget, row: usize) -> Option<Budget>
    requires { (0 < row) × Usable row budget }
    ensures { Spends row budget result }
{
    if budget.rows == 0 {
        return None;
    }
    if budget.used < row {
        return Some(Budget {
            used: budget.used + 1,
            ..budget
        });
    }
    if budget.rows == 1 {
        return None;
    }
    Some(Budget {
        rows: budget.rows - 1,
        used: 1,
    })
}

// Where the next token begins, where the token that begins at `i`, which is no star, takes the byte.
fn past_token(p: &[u8], i: usize, b: u8) -> Option<usize>
    requires { (i < length p.now) × (get_or p.now i 0 ≡ 42 → ⊥) }
    ensures { Tests p.now i b result }
{
    let k = i + 1;
    match p[i] {
        b'?' => Some(k),
        b'\\' => (k < p.len() && p[k] == b).then_some(k + 1),
        b'[' => {
            let end = set::close(p, k);
            (end < p.len() && set::in_set(set::NEGATES, &p[k..end], b)).then_some(end + 1)
        }
        c => (c == b).then_some(k),
    }
}

// What trying the pattern at a place of the name comes to.
#[derive(Drop)]
pub enum Tried {
    // It matches the whole rest of the name.
    Whole,
    // It matches up to its next star: the places behind the star and behind the bytes taken, and what is left.
    Star(usize, usize, Budget),
    // It does not match here, and there is a byte more to begin behind.
    Off(Budget),
    // The name ends before the pattern does: it matches neither here nor at a later byte.
    Short,
}

// Tries the pattern from `i` on at the name's byte `j`, up to the next star and without going back. Each test of a byte uses
// one of the budget; none where it is spent, which the contract excludes.
fn try_at(p: &[u8], i: usize, name: &[u8], j: usize, budget: Budget) -> Option<Tried>
    requires { (i ≤ length p.now) × (j ≤ length name.now) × Covers (length p.now) (length name.now - j) (length name.now) budget }
    ensures { Tries p.now i name.now j budget result }
{
    let mut at = i;
    let mut to = j;
    let mut left = budget;
    // Stays a while: the step is the length of a token.
    while at < p.len() {
        if p[at] == b'*' {
            return Some(Tried::Star(at + 1, to, left));
        }
        if name.len() <= to {
            return Some(Tried::Short);
        }
        left = spend(left, p.len())?;
        let Some(next) = past_token(p, at, name[to]) else {
            return Some(Tried::Off(left));
        };
        at = next;
        to += 1;
    }
    if name.len() <= to {
        return Some(Tried::Whole);
    }
    Some(Tried::Off(left))
}

// Whether the pattern matches the whole name, with a budget that is the product of their lengths. What follows the last star
// is tried at one byte after the other; at the next star the one before it is done with, and a star at the end takes
// whatever is left.
fn search(p: &[u8], name: &[u8], budget: Budget) -> bool
    requires { IsProduct (length p.now) (length name.now) budget }
    ensures { result ≡ matches p.now name.now }
{
    // Behind the last star.
    let mut star = None;
    let mut from = 0;
    let mut left = budget;
    // Stays a loop: the place and the star move by what the try tells.
    loop {
        match try_at(p, star.unwrap_or(0), name, from, left) {
            Some(Tried::Whole) => {
                return true;
            }
            Some(Tried::Star(next, to, less)) => {
                if next == p.len() {
                    return true;
                }
                star = Some(next);
                from = to;
                left = less;
            }
            Some(Tried::Off(less)) => {
                if star.is_none() {
                    return false;
                }
                from += 1;
                left = less;
            }
            Some(Tried::Short) | None => {
                return false;
            }
        }
    }
}

// Whether a brace-free pattern matches the whole name: a row of tests for each byte of the name.
pub fn matches_expansion(p: &[u8], name: &[u8]) -> bool
    ensures { result ≡ matches p.now name.now }
{
    search(
        p,
        name,
        Budget {
            rows: name.len(),
            used: 0,
        },
    )
}
