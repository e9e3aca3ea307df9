ghost use Rattle.std.specs.Prelude.{◌≡◌};
ghost use Rattle.work_maker.specs.Draws.{next, drawn};

/// Draws: numbers below 65,536 of a linear congruential generator.
#[derive(Clone, Copy)]
pub struct Draws {
    state: u32,
}

impl Draws {
    /// The draws that begin with this state.
    pub fn new(state: u32) -> Draws
        ensures { result.state ≡ state }
    {
        Draws { state }
    }

    /// The next draw.
    pub fn draw(&mut self) -> u32
        ensures state { self.new.state ≡ next self.old.state }
        ensures drawn { result ≡ drawn self.new.state }
    {
        let state = u64::from(self.state) * 1_664_525 + 1_013_904_223;
        self.state = (state % 0x1_0000_0000) as u32;
        self.state / 65_536
    }
}
