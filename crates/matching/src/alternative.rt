// One alternative of a user or group condition, parted at its first free `@`.
ghost use Rattle.std.specs.List.{list_all};
ghost use Rattle.std.specs.Prelude.{◌≡◌, ◌≤◌, length};
ghost use Rattle.matching.specs.Alternative.{context_after, parts_at, good_part};
ghost use Rattle.matching.specs.Contract.{PartsFrom, is_simple, TellsAlternative};

// Whether the next byte is free, behind a backslash, or in a set.
#[derive(Clone, Copy, PartialEq, Eq)]
pub enum ByteContext {
    Free,
    Escaped,
    InSet,
}

#[derive(Clone, Copy, PartialEq, Eq)]
pub enum Parted {
    // The whole of it is the name's pattern.
    Name,
    // The name's pattern ends at the `@` that stands here; the host's follows it.
    NameAtHost(usize),
}

// The context behind a byte.
#[tactic(auto, unfolding(crate::specs::Alternative::context_after))]
fn context_after(context: ByteContext, b: u8) -> ByteContext
    ensures { result ≡ context_after context b }
{
    match context {
        ByteContext::Free if b == b'\\' => ByteContext::Escaped,
        ByteContext::Free if b == b'[' => ByteContext::InSet,
        ByteContext::InSet if b != b']' => ByteContext::InSet,
        _ => ByteContext::Free,
    }
}

// Whether the byte is an `@` that parts.
#[tactic(auto, unfolding(crate::specs::Alternative::parts_at))]
fn parts_at(context: ByteContext, b: u8) -> bool
    ensures { result ≡ parts_at context b }
{
    context == ByteContext::Free && b == b'@'
}

// Where the first free `@` at or after `from` stands, or the length.
fn part_end(a: &[u8], from: usize) -> usize
    requires { from ≤ length a.now }
    ensures { PartsFrom ByteContext.Free a.now from result }
{
    let mut context = ByteContext::Free;
    for i in from..a.len() {
        if parts_at(context, a[i]) {
            return i;
        }
        context = context_after(context, a[i]);
    }
    a.len()
}

// Whether a part is not empty and does not begin with `!`.
#[tactic(auto, unfolding(crate::specs::Alternative::good_part))]
fn good_part(a: &[u8]) -> bool
    ensures { result ≡ good_part a.now }
{
    !a.is_empty() && a[0] != b'!'
}

// Whether a byte is no colon and no `~`, parts nothing, and begins neither an escape nor a set; most bytes are such, and
// this tells it soonest.
fn is_simple(b: u8) -> bool
    ensures { result ≡ is_simple b }
{
    // With returns: as one expression all tests are made for each byte.
    if b > b'\\' {
        return b < b'~';
    }
    if b > b'@' {
        return b < b'[';
    }
    b < b':'
}

// Whether all bytes are such.
fn all_simple(a: &[u8]) -> bool
    ensures { result ≡ list_all is_simple a.now }
{
    a.iter().all(|b| is_simple(*b))
}

// The name and the host of any bytes, parted in their context.
fn part_in_context(a: &[u8]) -> Option<Parted>
    ensures { TellsAlternative a.now result }
{
    if a.contains(&b':') || a.contains(&b'~') {
        return None;
    }
    let at = part_end(a, 0);
    if !good_part(&a[..at]) {
        return None;
    }
    if a.len() <= at {
        return Some(Parted::Name);
    }
    let host = at + 1;
    if part_end(a, host) < a.len() {
        return None;
    }
    if good_part(&a[host..]) {
        return Some(Parted::NameAtHost(at));
    }
    None
}

// The name and the host of one brace-free expansion of a condition.
pub fn part(a: &[u8]) -> Option<Parted>
    ensures { TellsAlternative a.now result }
{
    if !all_simple(a) {
        return part_in_context(a);
    }
    if good_part(a) {
        return Some(Parted::Name);
    }
    None
}
