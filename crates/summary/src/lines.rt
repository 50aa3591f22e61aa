// The printed lines of figures.
ghost use Rattle.std.specs.Prelude.{◌*◌, ◌≤◌, ◌≡◌, length};
ghost use Rattle.text.specs.Contract.{Wrote};
ghost use Rattle.output.specs.Contract.{WroteAfter};
ghost use Rattle.summary.specs.Summary.{counts_text, largest_shown, row_text, below_text, mean_text, answers_text, days_text, hours_text, ages_text, records_text, summary_text};

use super::bar::{largest, then_bar};
use figures::Figures;
use output::behind::{then_all, then_decimal};
use text::buffer::put_all;

// What was found in a log.
#[derive(Clone, Copy)]
pub struct Summary {
    pub figures: Figures,
    // How many records lie past the limit.
    pub past: u64,
    // How many bytes are left behind the last whole record.
    pub left: usize,
}

impl Summary {
    // The columns of a name.
    const NAME: usize = 20;
}

// A line for each count: its name, which has twenty columns, the count, and its bar where there is a largest count.
fn then_counts(
    filled: Option<usize>,
    names: &[u8],
    counts: &[u32],
    most: u32,
    out: &mut [u8],
) -> Option<usize>
    requires { length counts.now * 20 ≤ length names.now }
    ensures { WroteAfter filled out.old out.new (counts_text names.now counts.now most) result }
{
    let mut last = filled;
    for i in 0..counts.len() {
        let n = counts[i];
        let at = i * Summary::NAME;
        let end = at + Summary::NAME;
        let name = then_all(last, &names[at..end], out);
        let count = then_decimal(name, n as usize, out);
        let bar = then_bar(count, n, most, out);
        last = then_all(bar, b"\n", out);
    }
    last
}

// The largest count where bars are drawn, else 0.
#[tactic(auto, unfolding(crate::specs::Summary::largest_shown))]
fn largest_shown(bars: bool, counts: &[u32]) -> u32
    ensures { result ≡ largest_shown bars counts.now }
{
    if bars { largest(counts) } else { 0 }
}

// A line of a name and a figure.
fn then_row(filled: Option<usize>, name: &[u8], figure: usize, out: &mut [u8]) -> Option<usize>
    ensures { WroteAfter filled out.old out.new (row_text name.now figure) result }
{
    let named = then_all(filled, name, out);
    then_all(then_decimal(named, figure, out), b"\n", out)
}

// How many records have each known answer number, 0 to 5 and 11 to 23.
fn then_answers(filled: Option<usize>, figures: Figures, out: &mut [u8]) -> Option<usize>
    ensures { WroteAfter filled out.old out.new (answers_text figures) result }
{
    let answers = figures.answers;
    let decisions = then_counts(
        filled,
        b"permit              password            none                stopped-nargs       stopped-arg         stopped-path        ",
        &answers[0..6],
        0,
        out,
    );
    then_counts(
        decisions,
        b"refused-11          refused-12          refused-13          refused-14          refused-15          refused-16          \
        refused-17          refused-18          refused-19          refused-20          refused-21          refused-22          \
        refused-23          ",
        &answers[11..24],
        0,
        out,
    )
}

// How many are of each weekday.
fn then_days(filled: Option<usize>, figures: Figures, bars: bool, out: &mut [u8]) -> Option<usize>
    ensures { WroteAfter filled out.old out.new (days_text figures bars) result }
{
    let weekdays = figures.weekdays;
    let most = largest_shown(bars, &weekdays);
    then_counts(
        filled,
        b"Monday              Tuesday             Wednesday           Thursday            Friday              Saturday            \
        Sunday              ",
        &weekdays,
        most,
        out,
    )
}

// How many are of each hour of the day.
fn then_hours(filled: Option<usize>, figures: Figures, bars: bool, out: &mut [u8]) -> Option<usize>
    ensures { WroteAfter filled out.old out.new (hours_text figures bars) result }
{
    let hours = figures.hours;
    let most = largest_shown(bars, &hours);
    then_counts(
        filled,
        b"hour-0              hour-1              hour-2              hour-3              hour-4              hour-5              \
        hour-6              hour-7              hour-8              hour-9              hour-10             hour-11             \
        hour-12             hour-13             hour-14             hour-15             hour-16             hour-17             \
        hour-18             hour-19             hour-20             hour-21             hour-22             hour-23             ",
        &hours,
        most,
        out,
    )
}

// The sum of the ages below zero, with its sign.
fn then_below(filled: Option<usize>, below: u64, out: &mut [u8]) -> Option<usize>
    ensures { WroteAfter filled out.old out.new (below_text below) result }
{
    if below == 0 {
        return then_row(filled, b"below-zero-sum      ", 0, out);
    }
    then_row(filled, b"below-zero-sum      -", below as usize, out)
}

// The mean rounded down to a tenth, `-` where there is none.
fn then_mean(filled: Option<usize>, sum: u64, count: u32, out: &mut [u8]) -> Option<usize>
    ensures { WroteAfter filled out.old out.new (mean_text sum count) result }
{
    if count == 0 {
        return then_all(filled, b"age-mean            -\n", out);
    }
    let wide = count as u64;
    let named = then_all(filled, b"age-mean            ", out);
    let whole = then_decimal(named, (sum / wide) as usize, out);
    let point = then_all(whole, b".", out);
    let tenth = then_decimal(point, (sum % wide * 10 / wide) as usize, out);
    then_all(tenth, b"\n", out)
}

// The sums of the ages, and the mean.
fn then_ages(filled: Option<usize>, figures: Figures, out: &mut [u8]) -> Option<usize>
    ensures { WroteAfter filled out.old out.new (ages_text figures) result }
{
    let below = then_below(filled, figures.below, out);
    let sum = then_row(below, b"age-sum             ", figures.sum as usize, out);
    let ages = then_row(sum, b"age-count           ", figures.ages as usize, out);
    then_mean(ages, figures.sum, figures.ages, out)
}

// How many records were refused and given, and what was left out.
fn then_records(filled: Option<usize>, summary: Summary, out: &mut [u8]) -> Option<usize>
    ensures { WroteAfter filled out.old out.new (records_text summary) result }
{
    let figures = summary.figures;
    let refused = then_row(
        filled,
        b"records-refused     ",
        figures.refused as usize,
        out,
    );
    let given = then_row(
        refused,
        b"records-given       ",
        figures.given as usize,
        out,
    );
    let past = then_row(given, b"records-past-limit  ", summary.past as usize, out);
    then_row(past, b"bytes-left          ", summary.left, out)
}

// All lines, at the front of a buffer; bars where they are wanted.
pub fn put_summary(summary: Summary, bars: bool, out: &mut [u8]) -> Option<usize>
    ensures { Wrote out.old out.new 0 (summary_text summary bars) result }
{
    let figures = summary.figures;
    let start = put_all(out, 0, b"");
    let answers = then_answers(start, figures, out);
    let days = then_days(answers, figures, bars, out);
    let hours = then_hours(days, figures, bars, out);
    let ages = then_ages(hours, figures, out);
    then_records(ages, summary, out)
}
