ghost use Rattle.std.specs.Prelude.{◌≡◌, ◌+◌, ◌<◌, ◌≤◌, ◌^◌, [], length, vec_capacity, vec_len};
ghost use Rattle.std.specs.List.{All};
ghost use Rattle.farm_model.specs.Rejudgings.{first_twice, members_from};
ghost use Rattle.rejudge_book.specs.Refusals.{AreKnown, IsKnown};
ghost use Rattle.rejudge_book.specs.Marks.{marked_refusal, submissions_of, with_marks};

use crate::faults::BookFault;
use farm_model::Member;

/// The first submission of the list that stood earlier in it.
///
/// Where a submission stood last is written at its place. What is there before does not matter, since it
/// counts only where the list has the submission there, so that nothing has to be cleared.
pub fn first_twice(places: &mut Vec<usize>, list: &[u32]) -> Option<u32>
    requires known { AreKnown (vec_len places.old) list.now }
    ensures first { result ≡ first_twice list.now }
    ensures len { vec_len places.new ≡ vec_len places.old }
    ensures capacity { vec_capacity places.new ≡ vec_capacity places.old }
{
    for (at, submission) in list.iter().enumerate() {
        let own = *submission as usize - 1;
        let earlier = places[own];
        if earlier < at && list[earlier] == *submission {
            return Some(*submission);
        }
        places[own] = at;
    }
    None
}

/// That the first submission of the list that has a mark is in the rejudging of this number.
pub fn first_marked(marks: &[u32], list: &[u32]) -> Option<BookFault>
    requires known { AreKnown (length marks.now) list.now }
    ensures { result ≡ marked_refusal marks.now list.now }
{
    for submission in list {
        let rejudging = marks[*submission as usize - 1];
        if rejudging != 0 {
            return Some(BookFault::Busy {
                submission: *submission,
                rejudging,
            });
        }
    }
    None
}

/// Gives the submissions of the members this mark.
pub fn mark(marks: &mut Vec<u32>, members: &[Member], number: u32)
    requires known { All (λ member. IsKnown (vec_len marks.old) member.submission) members.now }
    ensures marks { marks.new.items ≡ with_marks marks.old.items (submissions_of members.now) number }
    ensures len { vec_len marks.new ≡ vec_len marks.old }
    ensures capacity { vec_capacity marks.new ≡ vec_capacity marks.old }
{
    for member in members {
        marks[member.submission as usize - 1] = number;
    }
}

/// Writes the members, whose new judgings are numbered from `first`, into the room that was made for them.
pub fn write_members(room: &mut Vec<Member>, list: &[u32], olds: &[u32], first: u32)
    requires blank { room.old.items ≡ [] }
    requires enough { length list.now ≤ vec_capacity room.old }
    requires paired { length list.now ≡ length olds.now }
    requires numbered { first + length list.now < 2 ^ 32 }
    ensures { room.new.items ≡ members_from first list.now olds.now }
{
    for (at, submission) in list.iter().enumerate() {
        room.push_reserved(Member {
            submission: *submission,
            old: olds[at],
            new: first + at as u32,
        });
    }
}
