// What is told beside a permit, and the five strings that are written into the buffer.
ghost use Rattle.std.specs.Prelude.{ℕ, ◌+◌, ◌≤◌, ◌<◌, List, length};
ghost use Rattle.std.specs.Option.{IfSome};
ghost use Rattle.text.specs.Contract.{Wrote};
ghost use Rattle.options.specs.Options.{id_or};
ghost use Rattle.entry.specs.Path.{path_limit};
ghost use Rattle.options.specs.Contract.{id_at, options_in};
ghost use Rattle.answer.specs.Answer.{least_buffer};
ghost use Rattle.answer.specs.Contract.{Puts, PutsAll, Grants};

use super::Granted;
use options::set::{OptionSet, or_no};
use options::{Id, ids};
use text::buffer::{put, put_all};

// Where each string ends in the buffer, just after its zero byte.
#[derive(Clone, Copy)]
struct StringEnds {
    path: usize,
    uid: usize,
    euid: usize,
    gid: usize,
    egid: usize,
}

// A zero byte behind what was put, and the place behind it.
fn put_end(out: &mut [u8], filled: Option<usize>) -> Option<usize>
    ensures { (old : List ℕ) (n : ℕ) (xs : List ℕ) → Wrote old out.old n xs filled → n + length xs < length old → Puts old out.new n xs result }
{
    put(out, filled?, 0)
}

// A path ended by a zero byte, at the beginning, and the place behind it.
fn put_path(out: &mut [u8], path: &[u8]) -> Option<usize>
    ensures { length path.now + 1 ≤ length out.old → Puts out.old out.new 0 path.now result }
{
    let filled = put_all(out, 0, path);
    put_end(out, filled)
}

// The name of an option ended by a zero byte, from a place on, and the place behind it.
fn put_id(out: &mut [u8], n: usize, options: OptionSet, id: Id) -> Option<usize>
    ensures { n + 65 ≤ length out.old → Puts out.old out.new n (id_or (id_at (options_in options) id)) result × IfSome result (λ k. k ≤ n + 65) }
{
    let filled = ids::put_id(options.id(id), out, n);
    put_end(out, filled)
}

// The path and the four names, each ended by a zero byte, at the buffer's beginning, and where each of them ends.
fn put_strings(path: &[u8], options: OptionSet, out: &mut [u8]) -> Option<StringEnds>
    ensures { 2048 ≤ length out.old → length path.now ≤ 1024 → PutsAll out.old out.new path.now (options_in options) result }
{
    let end = put_path(out, path)?;
    let uid = put_id(out, end, options, Id::Uid)?;
    let euid = put_id(out, uid, options, Id::Euid)?;
    let gid = put_id(out, euid, options, Id::Gid)?;
    let egid = put_id(out, gid, options, Id::Egid)?;
    Some(StringEnds {
        path: end,
        uid,
        euid,
        gid,
        egid,
    })
}

// The strings written into the buffer, and what is told of them; none where they don't fit.
pub fn grant(line: usize, path: &[u8], options: OptionSet, out: &mut [u8]) -> Option<Granted>
    ensures { least_buffer ≤ length out.old → length path.now ≤ path_limit → Grants line path.now (options_in options) out.old out.new result }
{
    let ends = put_strings(path, options, out)?;
    Some(Granted {
        line,
        path: ends.path,
        uid: ends.uid,
        euid: ends.euid,
        gid: ends.gid,
        egid: ends.egid,
        auth: or_no(options.auth()),
        timeout: options.timeout(),
        nargs: options.nargs(),
    })
}
