ghost use Rattle.std.specs.Prelude.{◌≡◌, ◌∷◌, [], ◌<◌, ◌≤◌, List, ℕ, length, IfOk, IfSome, OnErr, vec_capacity};
ghost use Rattle.std.specs.Option.{option_map, option_map_or};
ghost use Rattle.farm_model.specs.Numbers.{comma_parts, list_of};
ghost use Rattle.command_text.specs.Parts.{parts_behind};

use crate::numbers::read_number;
use farm_kinds::{NoMemory, Numbers};
use std::alloc::Global;

/// The part before the first comma, and what stands behind the comma, where there is one.
#[tactic(auto, using(crate::proofs::PartLemmas::part_more, crate::proofs::PartLemmas::cut_at, crate::proofs::PartLemmas::uncut))]
fn cut_part(text: &[u8]) -> (&[u8], Option<&[u8]>)
    ensures parts { comma_parts text.now ≡ result.0.now ∷ parts_behind result.1 }
    ensures shorter { IfSome result.1 (λ rest. length rest.now < length text.now) }
{
    for (i, b) in text.iter().enumerate() {
        if *b == b',' {
            return (&text[..i], Some(&text[i + 1..]));
        }
    }
    (text, None)
}

/// How many numbers the list has. None where one of its parts is no number.
#[tactic(auto, using(crate::proofs::PartLemmas::count_none_yet, crate::proofs::PartLemmas::none_counted, crate::proofs::PartLemmas::one_counted))]
fn count_of(list: &[u8]) -> Option<usize>
    ensures { result ≡ option_map length (list_of list.now) }
{
    let mut count = 0;
    let mut left = Some(list);
    while let Some(text) = left {
        let (part, behind) = cut_part(text);
        if read_number(part).is_none() {
            return None;
        }
        count += 1;
        left = behind;
    }
    Some(count)
}

/// The numbers of the list, in the room that was made for them.
#[tactic(auto, using(crate::proofs::PartLemmas::none_yet, crate::proofs::PartLemmas::none_appended, crate::proofs::PartLemmas::one_appended))]
fn numbers_in(mut room: Vec<u32>, list: &[u8]) -> Option<Numbers>
    requires blank { room.items ≡ [] }
    requires enough { length (comma_parts list.now) ≤ vec_capacity room }
    ensures { result ≡ list_of list.now }
{
    let mut left = Some(list);
    while let Some(text) = left {
        let (part, behind) = cut_part(text);
        room.push_reserved(read_number(part)?);
        left = behind;
    }
    Some(Numbers::from_vec(room))
}

/// The numbers of the list. None where one of its parts is no number, and no memory is taken then.
pub fn read_list(alloc: Global, list: &[u8]) -> Result<Option<Numbers>, NoMemory>
    ensures read { IfOk result (λ read. read ≡ list_of list.now) }
    ensures wanted { OnErr result (0 < option_map_or length (list_of list.now) 0) }
{
    let Some(count) = count_of(list) else {
        return Ok(None);
    };
    let room = Vec::with_capacity(alloc, count)?;
    Ok(numbers_in(room, list))
}
