// The printed lines of a whole log, block by block.
ghost use Rattle.std.specs.Prelude.{◌≡◌, true, false, ◌≤◌, length, take, drop};
ghost use Rattle.streams.specs.Contract.{LoadedIn, Prints};
ghost use Rattle.log_text.specs.LogText.{record_lines, last_text};
ghost use Rattle.log_text.specs.Contract.{HandsOn, Follows, LoadedBehind, Serves, PrintsLog};

use super::block::{move_front, show_block, show_last};
use record::Record;
use streams::buffers::zeros;
use streams::input::{Input, read_some};
use streams::standard::Streams;
use streams::standard_output::Output;

// How far a log has been read and printed.
#[derive(Clone, Copy)]
pub struct Run {
    // The bytes of a record that has only begun, at the front of the block.
    pub begun: usize,
    pub output: Output,
    // Whether the run goes on.
    pub going: bool,
    // Whether the log was read and printed to its end.
    pub ended: bool,
}

impl Run {
    // Nothing was read.
    fn start(streams: Streams) -> Run
        ensures { (result.begun ≡ 0) × (result.output.handed ≡ 0) × (result.ended ≡ false) }
    {
        Run {
            begun: 0,
            output: Output::new(streams),
            going: true,
            ended: false,
        }
    }

    // The same after a read that failed.
    fn stopped(self) -> Run
        ensures { (result.begun ≡ 0) × (result.output ≡ self.output) × (result.going ≡ false) × (result.ended ≡ false) }
    {
        Run {
            begun: 0,
            going: false,
            ended: false,
            ..self
        }
    }
}

// Hands on the lines that wait: the part is these, as its caller shows.
fn write_waiting(output: Output, out: &[u8], waiting: usize, part: &[u8]) -> Output
    requires { part.now ≡ take waiting out.now }
    ensures { Prints (take waiting out.now) output result }
{
    output.print(part)
}

// Prints the line of each whole record of a block.
fn print_records(block: &[u8], out: &mut [u8], start: Output) -> Output
    requires { 32 ≤ length out.old }
    ensures { HandsOn (record_lines block.now) start result }
{
    let mut output = start;
    let mut at = 0;
    // Stays a while: the step differs from turn to turn.
    while block.len() - at >= Record::BYTES && output.is_whole() {
        let shown = show_block(&block[at..], out, 0);
        let waiting = shown.waiting;
        let lines = &out[..];
        output = write_waiting(output, lines, waiting, &lines[..waiting]);
        at += shown.bytes;
    }
    output
}

// Prints the line of what is left at the end of a log, if anything is.
fn print_last(left: &[u8], out: &mut [u8], output: Output) -> Output
    requires { 32 ≤ length out.old }
    ensures { HandsOn (last_text left.now) output result }
{
    let waiting = show_last(left, out, 0);
    let lines = &out[..];
    write_waiting(output, lines, waiting, &lines[..waiting])
}

// Prints the lines of the whole records among the block's first bytes, and keeps what is left at its front.
fn take_block(block: &mut [u8], end: usize, out: &mut [u8], start: Output) -> Run
    requires { (end ≤ length block.old) × (32 ≤ length out.old) }
    ensures begun_in_bounds { result.begun ≤ length block.new }
    ensures follows { Follows (take end block.old) start (take result.begun block.new) result }
{
    let output = print_records(&block[..end], out, start);
    let begun = end % Record::BYTES;
    move_front(block, end - begun, end);
    Run {
        begun,
        output,
        going: output.is_whole(),
        ended: false,
    }
}

// What a read told is taken: the bytes behind those of a record that has begun, or the log's end. A failure was told.
fn take_loaded(loaded: Option<usize>, block: &mut [u8], out: &mut [u8], run: Run) -> Run
    requires { LoadedIn (drop run.begun block.old) loaded × (run.begun ≤ length block.old) × (32 ≤ length out.old) }
    ensures begun_in_bounds { result.begun ≤ length block.new }
    ensures serves { Serves loaded (take run.begun block.old) (drop run.begun block.old) run (take result.begun block.new) result }
{
    let begun = run.begun;
    let output = run.output;
    match loaded {
        None => run.stopped(),
        Some(n) => {
            if n == 0 {
                let last = print_last(&block[..begun], out, output);
                return Run {
                    begun: 0,
                    output: last,
                    going: false,
                    ended: true,
                };
            }
            take_block(block, begun + n, out, output)
        }
    }
}

// Reads once, behind the bytes of a record that has begun, which stay.
fn read_behind(input: Input<'_>, block: &mut [u8], begun: usize) -> Option<usize>
    requires { begun ≤ length block.old }
    ensures { LoadedBehind begun block.old block.new result }
{
    read_some(input, &mut block[begun..])
}

// Nothing says that the log ends, so the turns are counted up to a number that no run comes to.
fn read_blocks(streams: Streams, input: Input<'_>, block: &mut [u8], out: &mut [u8]) -> Run
    requires { 32 ≤ length out.old }
    ensures { PrintsLog result }
{
    let mut run = Run::start(streams);
    for _ in 0..u64::MAX {
        if !run.going {
            break;
        }
        let loaded = read_behind(input, block, run.begun);
        run = take_loaded(loaded, block, out, run);
    }
    run
}

// Prints a line for each record of an open log, and one for what is left at its end.
pub fn show(streams: Streams, input: Input<'_>) -> Run
    ensures { PrintsLog result }
{
    let mut block = zeros::<65536>();
    let mut out = zeros::<65536>();
    read_blocks(streams, input, &mut block, &mut out)
}
