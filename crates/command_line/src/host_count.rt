ghost use Rattle.std.specs.Prelude.{◌≡◌, ◌≤◌};
ghost use Rattle.std.specs.Option.{option_map};
ghost use Rattle.farm_model.specs.Numbers.{at_most};

/// How many hosts judge a contest: at most 16.
#[derive(Clone, Copy, Debug, PartialEq, Eq)]
pub struct HostCount {
    count: u16,
    ghost few: { count ≤ 16 },
}

impl HostCount {
    /// As many hosts as `count`. None where that is more than 16.
    pub fn new(count: u32) -> Option<HostCount>
        ensures { option_map (λ hosts. hosts.count) result ≡ at_most 16 count }
    {
        if count > 16 {
            return None;
        }
        Some(HostCount {
            count: count as u16,
        })
    }

    /// The number.
    pub fn get(self) -> u16
        ensures value { result ≡ self.count }
        ensures few { result ≤ 16 }
    {
        self.count
    }
}
