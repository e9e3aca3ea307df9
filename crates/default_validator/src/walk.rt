ghost use Rattle.std.specs.Prelude.{◌≡◌, ◌||◌, not, None};
ghost use Rattle.std.specs.Str.{bytes_eq};
ghost use Rattle.default_validator.specs.Accepts.{accepts_of, wide_token_of};
ghost use Rattle.default_validator.specs.Turns.{IsTurn};

use crate::agreement::{agrees, has_tolerance, is_wide_token};
use crate::cuts::{common_len, cut_gap, cut_token, ends_at, next_token};
use crate::flags::Flags;

/// What is left to compare once the tokens in front were.
#[derive(Clone, Copy)]
enum Turn<'a> {
    Ended(bool),
    Rest(&'a [u8], &'a [u8]),
}

/// Whether white space takes white space: it does where it does not count.
fn gap_agrees(space: bool, answer: &[u8], output: &[u8]) -> bool
    ensures { result ≡ (not space || bytes_eq answer.now output.now) }
{
    !space || answer == output
}

/// Compares the white space and the token in front of both texts.
fn compare_front<'a>(flags: &Flags, answer: &'a [u8], output: &'a [u8]) -> Turn<'a>
    ensures { IsTurn flags.now answer.now output.now result }
{
    let (answer_gap, answer) = cut_gap(answer);
    let (output_gap, output) = cut_gap(output);
    if !gap_agrees(flags.space, answer_gap, output_gap) {
        return Turn::Ended(false);
    }
    if answer.is_empty() {
        return Turn::Ended(output.is_empty());
    }
    if output.is_empty() {
        return Turn::Ended(false);
    }
    let len = common_len(answer, output);
    if ends_at(answer, len) && ends_at(output, len) {
        return Turn::Rest(&answer[len..], &output[len..]);
    }
    let (answer_token, answer_rest) = cut_token(answer, len);
    let (output_token, output_rest) = cut_token(output, len);
    if agrees(flags, answer_token, output_token) {
        Turn::Rest(answer_rest, output_rest)
    } else {
        Turn::Ended(false)
    }
}

/// Whether the output is accepted for the answer: it has as many tokens, and each pair of tokens
/// agrees, as equal words, or as numbers within the tolerance where one is set. With `space` the
/// white space is equal too.
pub fn accepts(flags: &Flags, answer: &[u8], output: &[u8]) -> bool
    requires { wide_token_of flags.now answer.now ≡ None }
    ensures { result ≡ accepts_of flags.now answer.now output.now }
{
    let mut answer = answer;
    let mut output = output;
    loop {
        match compare_front(flags, answer, output) {
            Turn::Ended(accepted) => return accepted,
            Turn::Rest(answer_rest, output_rest) => {
                answer = answer_rest;
                output = output_rest;
            }
        }
    }
}

/// The place, from 0, of the answer's first token that is a floating point decimal at or past
/// 10^12 in size. There is none where no tolerance is set.
pub fn wide_token(flags: &Flags, answer: &[u8]) -> Option<usize>
    ensures { result ≡ wide_token_of flags.now answer.now }
{
    if !has_tolerance(&flags.tolerance) {
        return None;
    }
    let mut place = 0;
    let mut rest = answer;
    while let Some((token, after)) = next_token(rest) {
        if is_wide_token(token) {
            return Some(place);
        }
        place += 1;
        rest = after;
    }
    None
}
