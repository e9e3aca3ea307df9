ghost use Rattle.std.specs.Prelude.{◌≡◌, ◌++◌, ◌∷◌, [], ℕ, List, length, take, OnOk, OnErr, IfOk, codes};
ghost use Rattle.std.specs.Fmt.{decimal};
ghost use Rattle.std.specs.List.{join_with_byte};
ghost use Rattle.hex.specs.Hex.{encode_lower};
ghost use Rattle.farm_kinds.specs.declared.outcomes.Answer.TheVariants as answers;
ghost use Rattle.farm_kinds.specs.declared.outcomes.Verdict.TheVariants as verdicts;
ghost use Rattle.farm_model.specs.Texts.{shown_words, list_words, how_text, reply_words, rows_text, reply_text, line_of, bad_line_words, too_long_words};
ghost use Rattle.command_text.specs.WordGroups.{host_words, refusal_words};
ghost use Rattle.command_text.specs.WordList.{spaced, commas};

use crate::rows::push_rows;
use crate::texts::{
    end_line, push, push_behind_comma, push_decimal, push_number, push_spaced, push_words,
};
use farm_kinds::{Answer, How, Kind, Name, NoMemory, Reply, Task, Text, Verdict};
use itoa::Buffer;
use std::alloc::Global;

/// The line that says what is reported of a judging. The most frequent lines of a contest are among these, so each stands
/// here in one piece.
fn shown_line(answer: Answer) -> &'static [u8]
    ensures { result.now ≡ line_of (shown_words answer) }
{
    match answer {
        Answer::Pending => b"pending\n",
        Answer::Final(Verdict::CompilerError) => b"final compiler-error\n",
        Answer::Final(Verdict::Tests(kind)) => final_line(kind),
    }
}

/// The line that says that a judging is final with the kind.
fn final_line(kind: Kind) -> &'static [u8]
    ensures { result.now ≡ line_of (shown_words (answers.Final (verdicts.Tests kind))) }
{
    match kind {
        Kind::Correct => b"final correct\n",
        Kind::WrongAnswer => b"final wrong-answer\n",
        Kind::RunError => b"final run-error\n",
        Kind::TimeLimit => b"final timelimit\n",
        Kind::NoOutput => b"final no-output\n",
        Kind::OutputLimit => b"final output-limit\n",
        Kind::MemoryLimit => b"final memory-limit\n",
        Kind::JudgingError => b"final judging-error\n",
    }
}

/// Puts what is reported of a judging, without the line feed. At `NoMemory` nothing changes.
fn push_shown(out: &mut Vec<u8>, answer: Answer) -> Result<(), NoMemory>
    ensures ok { OnOk result (out.new.items ≡ out.old.items
        ++ join_with_byte 32 (shown_words answer)) }
    ensures err { OnErr result (out.new.items ≡ out.old.items) }
{
    let line = shown_line(answer);
    push(out, &line[..line.len() - 1])
}

/// Puts a problem's name and version.
fn push_problem(out: &mut Vec<u8>, name: &Name, version: u32) -> Result<(), NoMemory>
    ensures ok { OnOk result (out.new.items ≡ out.old.items
        ++ join_with_byte 32 (codes "problem" ∷ name.now ∷ codes "version" ∷ decimal version ∷ [])) }
    ensures err { OnErr result (out.new.items ≡ out.old.items) }
{
    let mut digits = Buffer::new();
    push_words(
        out,
        &[
            b"problem",
            name.as_bytes(),
            b"version",
            digits.format(version).as_bytes(),
        ],
    )
}

/// Puts a submission's number and its judging's. At `NoMemory` a part of it may be there.
#[tactic(auto, using(crate::proofs::Joining::front_stays))]
fn push_submitted(out: &mut Vec<u8>, submission: u32, judging: u32) -> Result<(), NoMemory>
    ensures ok { OnOk result (out.new.items ≡ out.old.items
        ++ join_with_byte 32 (codes "submission" ∷ decimal submission ∷ codes "judging" ∷ decimal judging ∷ [])) }
    ensures err { OnErr result (take (length out.old.items) out.new.items ≡ out.old.items) }
{
    push(out, b"submission ")?;
    push_decimal(out, submission)?;
    push(out, b" judging ")?;
    push_decimal(out, judging)
}

/// Puts a task that was handed out, and until when. At `NoMemory` a part of it may be there.
#[tactic(auto, using(crate::proofs::Joining::front_stays))]
fn push_handed(out: &mut Vec<u8>, task: Task, until: u64) -> Result<(), NoMemory>
    ensures ok { OnOk result (out.new.items ≡ out.old.items
        ++ join_with_byte 32 (codes "task" ∷ decimal task.judging ∷ decimal task.test ∷ codes "until" ∷ decimal until ∷ [])) }
    ensures err { OnErr result (take (length out.old.items) out.new.items ≡ out.old.items) }
{
    push(out, b"task ")?;
    push_decimal(out, task.judging)?;
    push(out, b" ")?;
    push_decimal(out, u32::from(task.test))?;
    push(out, b" until ")?;
    push(out, Buffer::new().format(until).as_bytes())
}

/// Puts each rank, with a comma before it. At `NoMemory` a part of them may be there.
#[tactic(auto, using(crate::proofs::Joining::commas_more, crate::proofs::Joining::kept_behind))]
fn push_comma_ranks(out: &mut Vec<u8>, ranks: &[u16]) -> Result<(), NoMemory>
    ensures ok { OnOk result (out.new.items ≡ out.old.items ++ commas ranks.now) }
    ensures err { OnErr result (take (length out.old.items) out.new.items ≡ out.old.items) }
{
    for rank in ranks {
        push_behind_comma(out, u32::from(*rank))?;
    }
    Ok(())
}

/// Puts a space and the ranks of tests joined by single commas, where there are any.
/// At `NoMemory` a part of them may be there.
#[tactic(auto, using(crate::proofs::Joining::front_stays))]
fn push_ranks(out: &mut Vec<u8>, ranks: &[u16]) -> Result<(), NoMemory>
    ensures ok { OnOk result (out.new.items ≡ out.old.items ++ spaced (list_words ranks.now)) }
    ensures err { OnErr result (take (length out.old.items) out.new.items ≡ out.old.items) }
{
    let Some((first, rest)) = ranks.split_first() else {
        return Ok(());
    };
    push(out, b" ")?;
    push_decimal(out, *first as u32)?;
    push_comma_ranks(out, rest)
}

/// Puts a space, a word, a space and a number.
fn push_behind(out: &mut Vec<u8>, word: &[u8], n: u64) -> Result<(), NoMemory>
    ensures ok { OnOk result (out.new.items ≡ out.old.items ++ spaced (word.now ∷ decimal n ∷ [])) }
    ensures err { OnErr result (take (length out.old.items) out.new.items ≡ out.old.items) }
{
    let mut digits = Buffer::new();
    push_spaced(out, &[word, digits.format(n).as_bytes()])
}

/// Puts tests of a judging that were handed out, and until when. At `NoMemory` a part of them may be there.
#[tactic(auto, using(crate::proofs::Joining::front_stays, crate::proofs::Joining::joined_more, crate::proofs::Joining::joined_list))]
fn push_batch(out: &mut Vec<u8>, judging: u32, tests: &[u16], until: u64) -> Result<(), NoMemory>
    ensures ok { OnOk result (out.new.items ≡ out.old.items
        ++ join_with_byte 32 (codes "batch" ∷ decimal judging ∷ list_words tests.now ++ codes "until" ∷ decimal until ∷ [])) }
    ensures err { OnErr result (take (length out.old.items) out.new.items ≡ out.old.items) }
{
    push_number(out, b"batch", u64::from(judging))?;
    push_ranks(out, tests)?;
    push_behind(out, b"until", until)
}

/// Puts the numbers of a rejudging and of its first and last judgings.
fn push_rejudging(out: &mut Vec<u8>, number: u32, first: u32, last: u32) -> Result<(), NoMemory>
    ensures ok { OnOk result (out.new.items ≡ out.old.items
        ++ join_with_byte 32 (codes "rejudging" ∷ decimal number ∷ codes "judgings" ∷ decimal first ∷ codes "to" ∷ decimal last ∷ [])) }
    ensures err { OnErr result (out.new.items ≡ out.old.items) }
{
    let mut own = Buffer::new();
    let mut from = Buffer::new();
    let mut to = Buffer::new();
    push_words(
        out,
        &[
            b"rejudging",
            own.format(number).as_bytes(),
            b"judgings",
            from.format(first).as_bytes(),
            b"to",
            to.format(last).as_bytes(),
        ],
    )
}

/// The hexadecimal digits of a digest.
fn hex_of(digest: &[u8; 32]) -> [u8; 64]
    ensures { result ≡ encode_lower digest.now }
{
    let mut digits = [0u8; 64];
    let _written = hex::encode_to_slice(digest, &mut digits);
    digits
}

/// Puts how many entries the audit log has, and its last digest.
fn push_audit(out: &mut Vec<u8>, count: u32, head: &[u8; 32]) -> Result<(), NoMemory>
    ensures ok { OnOk result (out.new.items ≡ out.old.items
        ++ join_with_byte 32 (codes "audit" ∷ decimal count ∷ encode_lower head.now ∷ [])) }
    ensures err { OnErr result (out.new.items ≡ out.old.items) }
{
    let mut digits = Buffer::new();
    push_words(
        out,
        &[
            b"audit",
            digits.format(count).as_bytes(),
            hex_of(head).as_slice(),
        ],
    )
}

/// Puts a submission, and the rejudging that it is in.
fn push_busy(out: &mut Vec<u8>, submission: u32, rejudging: u32) -> Result<(), NoMemory>
    ensures ok { OnOk result (out.new.items ≡ out.old.items
        ++ join_with_byte 32 (codes "busy" ∷ decimal submission ∷ decimal rejudging ∷ [])) }
    ensures err { OnErr result (out.new.items ≡ out.old.items) }
{
    let mut first = Buffer::new();
    let mut second = Buffer::new();
    push_words(
        out,
        &[
            b"busy",
            first.format(submission).as_bytes(),
            second.format(rejudging).as_bytes(),
        ],
    )
}

/// The word for how a rejudging was closed.
fn how_text(how: How) -> &'static str
    ensures { result.now ≡ how_text how }
{
    match how {
        How::Applied => "applied",
        How::Cancelled => "cancelled",
    }
}

/// Puts the words of a reply that refuses. At `NoMemory` nothing changes.
fn push_refusal_words(out: &mut Vec<u8>, reply: &Reply) -> Result<(), NoMemory>
    ensures ok { OnOk result (out.new.items ≡ out.old.items
        ++ join_with_byte 32 (refusal_words reply.now)) }
    ensures err { OnErr result (out.new.items ≡ out.old.items) }
{
    match reply {
        Reply::BadTests { tests } => push_number(out, b"bad-tests", u64::from(*tests)),
        Reply::Known { name } => push_words(out, &[b"known", name.as_bytes()]),
        Reply::NoProblem { name } => push_words(out, &[b"no-problem", name.as_bytes()]),
        Reply::NoHost { name } => push_words(out, &[b"no-host", name.as_bytes()]),
        Reply::Full { limit } => push_number(out, b"full", u64::from(*limit)),
        Reply::Holding { limit } => push_number(out, b"holding", u64::from(*limit)),
        Reply::NoJudging { judging } => push_number(out, b"no-judging", u64::from(*judging)),
        Reply::NoTest { test } => push_number(out, b"no-test", u64::from(*test)),
        Reply::NotHanded => push(out, b"not-handed"),
        Reply::NoLease => push(out, b"no-lease"),
        Reply::EmptySet => push(out, b"empty-set"),
        Reply::NoSubmission { submission } => {
            push_number(out, b"no-submission", u64::from(*submission))
        }
        Reply::Twice { submission } => push_number(out, b"twice", u64::from(*submission)),
        Reply::NotFinal { number } => push_number(out, b"not-final", u64::from(*number)),
        Reply::Busy {
            submission,
            rejudging,
        } => push_busy(out, *submission, *rejudging),
        Reply::NoRejudging { rejudging } => {
            push_number(out, b"no-rejudging", u64::from(*rejudging))
        }
        Reply::Closed { how } => push_words(out, &[b"closed", how_text(*how).as_bytes()]),
        Reply::Unfinished { judging } => push_number(out, b"unfinished", u64::from(*judging)),
        Reply::Already { judging } => push_number(out, b"already", u64::from(*judging)),
        _ => Ok(()),
    }
}

/// Puts the words of a reply to a host, or of one that refuses. At `NoMemory` a part of them may be there.
fn push_host_words(out: &mut Vec<u8>, reply: &Reply) -> Result<(), NoMemory>
    ensures ok { OnOk result (out.new.items ≡ out.old.items
        ++ join_with_byte 32 (host_words reply.now)) }
    ensures err { OnErr result (take (length out.old.items) out.new.items ≡ out.old.items) }
{
    match reply {
        Reply::Handed { task, until } => push_handed(out, *task, *until),
        Reply::Batch {
            judging,
            tests,
            until,
        } => push_batch(out, *judging, tests.as_slice(), *until),
        Reply::Nothing => push(out, b"nothing"),
        Reply::Counted => push(out, b"counted"),
        Reply::Repeat { kept } => push_words(out, &[b"repeat", kept.name().as_bytes()]),
        Reply::Differs { kept, given } => {
            push_words(
                out,
                &[b"differs", kept.name().as_bytes(), given.name().as_bytes()],
            )
        }
        Reply::Dropped => push(out, b"dropped"),
        Reply::Until { until } => push_number(out, b"until", *until),
        Reply::Ended { count } => push_number(out, b"ended", u64::from(*count)),
        _ => push_refusal_words(out, reply),
    }
}

/// Puts the words of a reply, of the last line where it has several.
/// At `NoMemory` a part of them may be there.
fn push_reply_words(out: &mut Vec<u8>, reply: &Reply) -> Result<(), NoMemory>
    ensures ok { OnOk result (out.new.items ≡ out.old.items
        ++ join_with_byte 32 (reply_words reply.now)) }
    ensures err { OnErr result (take (length out.old.items) out.new.items ≡ out.old.items) }
{
    match reply {
        Reply::Problem { name, version } => push_problem(out, name, *version),
        Reply::Host { name } => push_words(out, &[b"host", name.as_bytes()]),
        Reply::Submitted {
            submission,
            judging,
        } => push_submitted(out, *submission, *judging),
        Reply::Shown(answer) => push_shown(out, *answer),
        Reply::Owned { submission } => push_number(out, b"owner", u64::from(*submission)),
        Reply::Board { rows } => push_number(out, b"board", rows.as_slice().len() as u64),
        Reply::Rejudging {
            number,
            first,
            last,
        } => push_rejudging(out, *number, *first, *last),
        Reply::Matrix { members, .. } => push_number(out, b"matrix", u64::from(*members)),
        Reply::Applied { members } => push_number(out, b"applied", u64::from(*members)),
        Reply::Cancelled { members } => push_number(out, b"cancelled", u64::from(*members)),
        Reply::Verified { judging } => push_number(out, b"verified", u64::from(*judging)),
        Reply::Audit { count, head } => push_audit(out, *count, head),
        _ => push_host_words(out, reply),
    }
}

/// Puts the lines of a reply, the last one without its line feed.
/// At `NoMemory` a part of them may be there.
#[tactic(auto, using(crate::proofs::Joining::front_stays))]
fn push_text(out: &mut Vec<u8>, reply: &Reply) -> Result<(), NoMemory>
    ensures ok { OnOk result (out.new.items ≡ out.old.items
        ++ rows_text reply.now ++ join_with_byte 32 (reply_words reply.now)) }
    ensures err { OnErr result (take (length out.old.items) out.new.items ≡ out.old.items) }
{
    push_rows(out, reply)?;
    push_reply_words(out, reply)
}

/// Puts the lines of a reply. At `NoMemory` a part of them may be there.
#[tactic(auto, using(crate::proofs::Joining::front_stays))]
fn push_lines(out: &mut Vec<u8>, reply: &Reply) -> Result<(), NoMemory>
    ensures ok { OnOk result (out.new.items ≡ out.old.items ++ reply_text reply.now) }
    ensures err { OnErr result (take (length out.old.items) out.new.items ≡ out.old.items) }
{
    match reply {
        Reply::Shown(answer) => push(out, shown_line(*answer)),
        Reply::Counted => push(out, b"counted\n"),
        _ => {
            push_text(out, reply)?;
            push(out, b"\n")
        }
    }
}

/// Puts the lines of a reply behind what is there. At `NoMemory` nothing changes.
pub fn push_reply(out: &mut Vec<u8>, reply: &Reply) -> Result<(), NoMemory>
    ensures ok { OnOk result (out.new.items ≡ out.old.items ++ reply_text reply.now) }
    ensures err { OnErr result (out.new.items ≡ out.old.items) }
{
    let kept = out.len();
    let pushed = push_lines(out, reply);
    if pushed.is_err() {
        out.truncate(kept);
    }
    pushed
}

/// The lines of a reply, the last one without its line feed.
pub fn write_reply(alloc: Global, reply: &Reply) -> Result<Text, NoMemory>
    ensures { IfOk result (λ text. text ≡ rows_text reply.now ++ join_with_byte 32 (reply_words reply.now)) }
{
    let mut text = Vec::new(alloc);
    push_text(&mut text, reply)?;
    Ok(Text::from_vec(text))
}

/// Puts the line that a bad line is answered.
pub fn push_bad_line(out: &mut Vec<u8>) -> Result<(), NoMemory>
    ensures ok { OnOk result (out.new.items ≡ out.old.items ++ line_of bad_line_words) }
    ensures err { OnErr result (out.new.items ≡ out.old.items) }
{
    let start = out.len();
    push_words(out, &[b"bad-line"])?;
    end_line(out, start)
}

/// Puts the line that a line of this many bytes is answered, where it is too long.
pub fn push_too_long(out: &mut Vec<u8>, len: u64) -> Result<(), NoMemory>
    ensures ok { OnOk result (out.new.items ≡ out.old.items ++ line_of (too_long_words len)) }
    ensures err { OnErr result (out.new.items ≡ out.old.items) }
{
    let start = out.len();
    push_number(out, b"too-long", len)?;
    end_line(out, start)
}
