// A report and its buffer.
ghost use Rattle.std.specs.Prelude.{◌≡◌, ℕ, ◌≤◌, length};
ghost use Rattle.checker.specs.Contract.{PrintsFilled};

use std::io::Stderr;
use streams::buffers::zeros;
use streams::message;
use streams::standard_output::Output;

// The longest report: a name, words, and a line of 32,768 bytes with a caret below its end.
pub const REPORT: usize = 81920;

// Room for the report.
pub fn report_buffer() -> [u8; REPORT]
    ensures { 81920 ≡ length result }
{
    zeros::<REPORT>()
}

// Hands on what was put into the buffer.
pub fn print_filled(errors: Stderr, output: Output, filled: Option<usize>, out: &[u8]) -> Output
    requires { (n : ℕ) → filled ≡ Some n → n ≤ length out.now }
    ensures { PrintsFilled filled out.now output result }
{
    match filled {
        Some(n) => output.print(&out[..n]),
        None => {
            message::tell(errors, b"the report is too long");
            output
        }
    }
}
