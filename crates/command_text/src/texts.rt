ghost use Rattle.std.specs.Prelude.{◌≡◌, ◌++◌, ◌∷◌, [], ◌≤◌, ℕ, List, length, take, OnOk, OnErr};
ghost use Rattle.std.specs.Fmt.{decimal};
ghost use Rattle.std.specs.List.{join_with_byte};
ghost use Rattle.farm_model.specs.Texts.{line_of};
ghost use Rattle.command_text.specs.WordList.{word_bytes, spaced};

use farm_kinds::NoMemory;
use itoa::Buffer;

/// Puts the bytes behind what is there. At `NoMemory` nothing changes.
pub fn push(out: &mut Vec<u8>, bytes: &[u8]) -> Result<(), NoMemory>
    ensures ok { OnOk result (out.new.items ≡ out.old.items ++ bytes.now) }
    ensures err { OnErr result (out.new.items ≡ out.old.items) }
{
    out.extend_from_slice(bytes).map_err(|_| NoMemory)
}

/// Puts a number behind what is there. At `NoMemory` nothing changes.
pub fn push_decimal(out: &mut Vec<u8>, n: u32) -> Result<(), NoMemory>
    ensures ok { OnOk result (out.new.items ≡ out.old.items ++ decimal n) }
    ensures err { OnErr result (out.new.items ≡ out.old.items) }
{
    push(out, Buffer::new().format(n).as_bytes())
}

/// Puts a comma and a number behind what is there. At `NoMemory` the comma may be there.
#[tactic(auto, using(crate::proofs::Joining::front_stays))]
pub fn push_behind_comma(out: &mut Vec<u8>, n: u32) -> Result<(), NoMemory>
    ensures ok { OnOk result (out.new.items ≡ out.old.items ++ 44 ∷ decimal n) }
    ensures err { OnErr result (take (length out.old.items) out.new.items ≡ out.old.items) }
{
    push(out, b",")?;
    push_decimal(out, n)
}

/// Puts a space and a word behind what is there. At `NoMemory` the space may be there.
#[tactic(auto, using(crate::proofs::Joining::front_stays))]
fn push_behind_space(out: &mut Vec<u8>, word: &[u8]) -> Result<(), NoMemory>
    ensures ok { OnOk result (out.new.items ≡ out.old.items ++ 32 ∷ word.now) }
    ensures err { OnErr result (take (length out.old.items) out.new.items ≡ out.old.items) }
{
    push(out, b" ")?;
    push(out, word)
}

/// Puts each word, with a space before it, behind what is there.
/// At `NoMemory` a part of them may be there.
#[tactic(auto, using(crate::proofs::Joining::spaced_more, crate::proofs::Joining::kept_behind))]
pub fn push_spaced(out: &mut Vec<u8>, words: &[&[u8]]) -> Result<(), NoMemory>
    ensures ok { OnOk result (out.new.items ≡ out.old.items ++ spaced (word_bytes words.now)) }
    ensures err { OnErr result (take (length out.old.items) out.new.items ≡ out.old.items) }
{
    for word in words {
        push_behind_space(out, word)?;
    }
    Ok(())
}

/// Puts the words, joined by single spaces, behind what is there.
/// At `NoMemory` a part of them may be there.
#[tactic(auto, using(crate::proofs::Joining::joined, crate::proofs::Joining::front_stays))]
fn push_joined(out: &mut Vec<u8>, words: &[&[u8]]) -> Result<(), NoMemory>
    ensures ok { OnOk result (out.new.items ≡ out.old.items
        ++ join_with_byte 32 (word_bytes words.now)) }
    ensures err { OnErr result (take (length out.old.items) out.new.items ≡ out.old.items) }
{
    let Some((first, rest)) = words.split_first() else {
        return Ok(());
    };
    push(out, first)?;
    push_spaced(out, rest)
}

/// Puts the words, joined by single spaces, behind what is there. At `NoMemory` nothing changes.
pub fn push_words(out: &mut Vec<u8>, words: &[&[u8]]) -> Result<(), NoMemory>
    ensures ok { OnOk result (out.new.items ≡ out.old.items
        ++ join_with_byte 32 (word_bytes words.now)) }
    ensures err { OnErr result (out.new.items ≡ out.old.items) }
{
    let kept = out.len();
    let pushed = push_joined(out, words);
    if pushed.is_err() {
        out.truncate(kept);
    }
    pushed
}

/// Puts the words, joined by single spaces, and a line feed behind what is there.
/// At `NoMemory` a part of them may be there.
#[tactic(auto, using(crate::proofs::Joining::front_stays))]
pub fn push_line(out: &mut Vec<u8>, words: &[&[u8]]) -> Result<(), NoMemory>
    ensures ok { OnOk result (out.new.items ≡ out.old.items ++ line_of (word_bytes words.now)) }
    ensures err { OnErr result (take (length out.old.items) out.new.items ≡ out.old.items) }
{
    push_joined(out, words)?;
    push(out, b"\n")
}

/// Puts a word, a space and a number behind what is there. At `NoMemory` nothing changes.
pub fn push_number(out: &mut Vec<u8>, word: &[u8], n: u64) -> Result<(), NoMemory>
    ensures ok { OnOk result (out.new.items ≡ out.old.items
        ++ join_with_byte 32 (word.now ∷ decimal n ∷ [])) }
    ensures err { OnErr result (out.new.items ≡ out.old.items) }
{
    let mut digits = Buffer::new();
    push_words(out, &[word, digits.format(n).as_bytes()])
}

/// Ends the line whose words begin behind the first `start` bytes. At `NoMemory` only these stay.
pub fn end_line(out: &mut Vec<u8>, start: usize) -> Result<(), NoMemory>
    ensures ok { OnOk result (out.new.items ≡ out.old.items ++ 10 ∷ []) }
    ensures err { OnErr result (out.new.items ≡ take start out.old.items) }
{
    let pushed = push(out, b"\n");
    if pushed.is_err() {
        out.truncate(start);
    }
    pushed
}
