ghost use Rattle.std.specs.Prelude.{ℕ, ◌≡◌};
ghost use Rattle.std.specs.Option.{option_copied};

/// What a program reads: its standard input at descriptor 0 and, for a validator, three more.
#[derive(Clone, Copy)]
pub struct Files<'a> {
    pub stdin: &'a [u8],
    pub extra: Option<Extra<'a>>,
}

/// What only a validator reads, at descriptors 3, 4 and 5: the input and the answer of the test, and the flags.
#[derive(Clone, Copy)]
pub struct Extra<'a> {
    pub input: &'a [u8],
    pub answer: &'a [u8],
    pub flags: &'a [u8],
}

impl<'a> Files<'a> {
    ghost use Rattle.rv_machine.specs.Inputs.{inputs_of, left_at, with_left};

    /// What is left to read at a descriptor, if it can be read.
    pub(crate) fn left(&self, descriptor: u32) -> Option<&'a [u8]>
        ensures { option_copied result ≡ left_at (inputs_of self.now) descriptor }
    {
        if descriptor == 0 {
            return Some(self.stdin);
        }
        let extra = self.extra?;
        match descriptor {
            3 => Some(extra.input),
            4 => Some(extra.answer),
            5 => Some(extra.flags),
            _ => None,
        }
    }

    /// Sets what is left to read at a descriptor.
    pub(crate) fn set_left(&mut self, descriptor: u32, rest: &'a [u8])
        ensures { inputs_of self.new ≡ with_left (inputs_of self.old) descriptor rest.now }
    {
        if descriptor == 0 {
            self.stdin = rest;
            return;
        }
        if let Some(extra) = &mut self.extra {
            match descriptor {
                3 => extra.input = rest,
                4 => extra.answer = rest,
                5 => extra.flags = rest,
                _ => {}
            }
        }
    }
}
