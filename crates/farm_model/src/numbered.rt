ghost use Rattle.std.specs.Prelude.{◌≡◌, ◌≤◌, OnSome, length, option_copied};
ghost use Rattle.farm_model.specs.Numbered.{item_of};

/// The item of this number, where items are numbered from 1.
pub fn item_of<T>(items: &[T], number: u32) -> Option<&T>
    ensures item { option_copied result ≡ item_of items.now number }
    ensures low { OnSome result (1 ≤ number) }
    ensures high { OnSome result (number ≤ length items.now) }
{
    if number == 0 {
        return None;
    }
    items.get(number as usize - 1)
}
