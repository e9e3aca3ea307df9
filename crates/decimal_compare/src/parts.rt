ghost use Rattle.std.specs.Prelude.{◌≡◌, ◌≤◌, true};
ghost use Rattle.std.specs.List.{list_all};
ghost use Rattle.decimal_compare.specs.Digits.{is_digit};

/// A power of ten, by its sign and size.
#[derive(Clone, Copy)]
pub struct Exponent {
    pub negative: bool,
    pub size: u32,
}

/// A word that is a decimal, taken apart.
#[derive(Clone, Copy)]
pub struct Parts<'a> {
    pub negative: bool,
    pub floating: bool,
    pub whole: &'a [u8],
    pub fraction: &'a [u8],
    pub exponent: Exponent,
    ghost whole_digits: { list_all is_digit whole.now ≡ true },
    ghost fraction_digits: { list_all is_digit fraction.now ≡ true },
    ghost four_digits: { exponent.size ≤ 9999 },
}
