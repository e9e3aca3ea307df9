ghost use Rattle.std.specs.Prelude.{◌≡◌, ◌≢◌, ◌≤◌};
ghost use Rattle.std.specs.Option.{option_map};
ghost use Rattle.command_line.specs.Ranges.{from_1_to, unlimited};

/// How many lanes a server has, from 1 to 16: at most as many of the connections that came are being served. That it
/// serves them at the same time is promised by no contract.
#[derive(Clone, Copy, Debug, PartialEq, Eq)]
pub struct Lanes {
    count: u16,
    ghost some: { 1 ≤ count },
    ghost few: { count ≤ 16 },
}

impl Lanes {
    /// As many lanes as `count`. None where that is not from 1 to 16.
    pub fn new(count: u32) -> Option<Lanes>
        ensures { option_map (λ lanes. lanes.count) result ≡ from_1_to 16 count }
    {
        if count < 1 || count > 16 {
            return None;
        }
        Some(Lanes {
            count: count as u16,
        })
    }

    /// The number.
    pub fn get(self) -> u16
        ensures value { result ≡ self.count }
        ensures some { 1 ≤ result }
        ensures few { result ≤ 16 }
    {
        self.count
    }
}

/// How many connections a server answers in all: from 1 to 100,000, or as many as come.
#[derive(Clone, Copy, Debug, PartialEq, Eq)]
pub struct Connections {
    count: u32,
    ghost some: { 1 ≤ count },
    ghost few: { count ≢ unlimited → count ≤ 100000 },
}

impl Connections {
    /// As many connections as `count`. None where that is not from 1 to 100,000.
    pub fn new(count: u32) -> Option<Connections>
        ensures { option_map (λ connections. connections.count) result ≡ from_1_to 100000 count }
    {
        if count < 1 || count > 100_000 {
            return None;
        }
        Some(Connections { count })
    }

    /// As many as come, up to the greatest number of its type: fifty days of a thousand connections a second.
    pub fn unlimited() -> Connections
        ensures { result.count ≡ unlimited }
    {
        Connections { count: u32::MAX }
    }

    /// The number.
    pub fn get(self) -> u32
        ensures value { result ≡ self.count }
        ensures some { 1 ≤ result }
        ensures few { result ≢ unlimited → result ≤ 100000 }
    {
        self.count
    }
}

/// For how many seconds a server waits for what a client is to say or to take: from 1 to 3,600.
#[derive(Clone, Copy, Debug, PartialEq, Eq)]
pub struct Patience {
    seconds: u16,
    ghost some: { 1 ≤ seconds },
    ghost few: { seconds ≤ 3600 },
}

impl Patience {
    /// A patience of `seconds`. None where that is not from 1 to 3,600.
    pub fn new(seconds: u32) -> Option<Patience>
        ensures { option_map (λ patience. patience.seconds) result ≡ from_1_to 3600 seconds }
    {
        if seconds < 1 || seconds > 3600 {
            return None;
        }
        Some(Patience {
            seconds: seconds as u16,
        })
    }

    /// The number.
    pub fn get(self) -> u16
        ensures value { result ≡ self.seconds }
        ensures some { 1 ≤ result }
        ensures few { result ≤ 3600 }
    {
        self.seconds
    }
}
