ghost use Rattle.std.specs.Prelude.{◌≡◌, ◌++◌, ◌∷◌, [], ◌<◌, ◌≤◌, length};

use std::marker::Model;

/// 1 to 16 tests of one judging, by their ranks, in the order in which they were put in.
///
/// They are kept in place, so they are copied without taking memory. Contracts see the list.
#[derive(Clone, Copy, Debug)]
pub struct Few {
    tests: [u16; 16],
    len: u8,
}

impl Model for Few {
    ghost use Rattle.std.specs.Prelude.{ℕ, List};

    ghost Value = { List ℕ };

    ghost use Rattle.farm_kinds.specs.FewShape.{few_tests, IsFewShape, few_fields, few_fields_back};

    ghost view = { few_tests };

    ghost invariant = { IsFewShape };

    ghost inverse = { few_fields };

    ghost inverse_ok = { few_fields_back };
}

impl Few {
    /// One test.
    pub fn of(test: u16) -> Few
        ensures { result ≡ test ∷ [] }
    {
        let mut tests = [0u16; 16];
        tests[0] = test;
        Few { tests, len: 1 }
    }

    /// Adds a test at the end, where there are fewer than 16.
    pub fn push(&mut self, test: u16)
        requires { length self.old < 16 }
        ensures { self.new ≡ self.old ++ test ∷ [] }
    {
        self.tests[self.len as usize] = test;
        self.len += 1;
    }

    /// The tests in order.
    pub fn as_slice(&self) -> &[u16]
        ensures tests { result.now ≡ self.now }
        ensures some { 1 ≤ length result.now }
        ensures few { length result.now ≤ 16 }
    {
        &self.tests[..self.len as usize]
    }
}
