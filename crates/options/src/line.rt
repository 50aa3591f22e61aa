// Which options stand on a line.
ghost use Rattle.std.specs.Prelude.{ℕ, ◌≡◌, false, List, [], get_or};
ghost use Rattle.options.specs.Contract.{setting_in, line_of, noted};

use super::setting::OptionSetting;

// The options of a line, by their numbers, and whether one of them stands twice; argument patterns may.
#[derive(Clone, Copy)]
pub struct LineOptions {
    stands: [bool; LineOptions::OPTIONS],
    twice: bool,
}

impl LineOptions {
    // How many options may not stand twice.
    pub const OPTIONS: usize = 8;

    // The number of `patterns`.
    pub const PATTERNS: usize = 7;

    #[tactic(auto, unfolding(crate::specs::Contract::line_of, crate::specs::Contract::standing, crate::specs::Read::twice))]
    pub fn new() -> Self
        ensures { result ≡ line_of [] }
    {
        LineOptions {
            stands: [false; LineOptions::OPTIONS],
            twice: false,
        }
    }

    // With one more option of the line.
    #[tactic(auto, unfolding(crate::specs::Contract::noted))]
    pub fn add(self, setting: OptionSetting) -> Self
        ensures { (v : List ℕ) → result ≡ noted self (setting_in v setting) }
    {
        let Some(number) = setting.number() else {
            return self;
        };
        let mut stands = self.stands;
        let twice = self.twice || stands[number];
        stands[number] = true;
        LineOptions { stands, twice }
    }

    // Whether `patterns=shell` stands on the line.
    pub fn shell(self) -> bool
        ensures { result ≡ get_or self.stands 7 false }
    {
        self.stands[LineOptions::PATTERNS]
    }

    // Whether the same option stands twice, argument patterns excepted.
    pub fn twice(self) -> bool
        ensures { result ≡ self.twice }
    {
        self.twice
    }
}
