// The figures one by one.
ghost use Rattle.std.specs.Prelude.{◌≡◌, get_or};
ghost use Rattle.figures.specs.Figures.{mean_of, below_sum};

use super::Figures;

// The ages that the mean is of: their sum, and how many they are.
#[derive(Drop)]
pub struct Mean {
    pub sum: u64,
    pub count: u32,
}

// What stands at a place of counts; 0 past their end.
fn count_at(counts: &[u32], at: usize) -> u32
    ensures { result ≡ get_or counts.now at 0 }
{
    counts.get(at).copied().unwrap_or(0)
}

impl Figures {
    // How many records have an answer number; 0 for a number past the known ones.
    pub fn answered(self, number: usize) -> u32
        ensures { result ≡ get_or self.answers number 0 }
    {
        count_at(&self.answers, number)
    }

    // How many are of a weekday, from Monday, 0, on.
    pub fn on_weekday(self, day: usize) -> u32
        ensures { result ≡ get_or self.weekdays day 0 }
    {
        count_at(&self.weekdays, day)
    }

    // How many are of an hour of the day.
    pub fn in_hour(self, hour: usize) -> u32
        ensures { result ≡ get_or self.hours hour 0 }
    {
        count_at(&self.hours, hour)
    }

    // The sum of the ages below zero, which is 0 or below; as far as the sum's limit.
    pub fn below_zero_sum(self) -> i64
        ensures { result ≡ below_sum self }
    {
        -(self.below.min(Figures::SUM) as i64)
    }

    // The mean of the other ages as sum and count.
    pub fn mean(self) -> Mean
        ensures { result ≡ mean_of self }
    {
        Mean {
            sum: self.sum,
            count: self.ages,
        }
    }
}
