//! A session over lines: each is read and answered by the farm, its event is kept, and its reply is put.
ghost use Rattle.std.specs.Prelude.{◌≡◌, ◌≢◌, ◌≤◌, ◌<◌, ◌^◌, ◌++◌, ◌∷◌, [], List, Option, ℕ, length, IfOk, IfNone, IfSome, IsNone, IsSome, OnOk, OnErr, IsErrOf, Some, None, take, ◌⊎◌};
ghost use Rattle.std.specs.Io.KnownBytes.{Appends};
ghost use Rattle.farm_io.specs.Lines.{Whole, HasFeed, line_limit};
ghost use Rattle.farm_io.specs.Streams.{Rose, HasCausePut};
ghost use Rattle.farm_io.specs.ReaderValue.{ReaderValue, budget};
ghost use Rattle.farm_io.specs.Reading.{MayGoOn};
ghost use Rattle.farm_kinds.specs.declared.events.Event.{Event};
ghost use Rattle.farm_model.specs.State.{State};
ghost use Rattle.farm_model.specs.Replay.{state_after, reply_to};
ghost use Rattle.farm_model.specs.Script.{after_line, events_of_line};
ghost use Rattle.farm_model.specs.Texts.{event_text, reply_text};
ghost use Rattle.script_session.specs.Session.{SessionState, IsUnderWay, PutsPending};
ghost use Rattle.script_session.specs.Firsts.{CameFirst};
ghost use Rattle.script_session.specs.Keeping.{IsKeeping, KeepsOn, SettlesAs, FinishesAs, Turned, StoredEndsAs, WroteOf, EndsKeeping};

use crate::end::StoredEnd;
use crate::keeper::{KeepFault, Keeper};
use command_text::{push_bad_line, push_reply, push_too_long, read_line};
use farm_core::Farm;
use farm_io::{Line, LineReader, PutEnd, Sink, Source};
use farm_kinds::{Event, LineFault, NoMemory, Reply};
use std::alloc::Global;

/// Keeps an event behind its step, with the reply to it behind those that are pending. At a fault these stay as they were.
fn keep_answered<D, E: Keeper<D>>(
    keeper: &mut E,
    device: &mut D,
    event: &Event,
    reply: &Reply,
    pending: &mut Vec<u8>,
) -> Result<(), KeepFault>
    requires short { length (event_text event.now) < 2 ^ 16 }
    requires ready { E.ready keeper.old device.old }
    ensures text { OnOk result (pending.new.items ≡ pending.old.items ++ reply_text reply.now) }
    ensures kept { OnErr result (pending.new.items ≡ pending.old.items) }
    ensures ready { ¬ (IsErrOf result KeepFault.Disk) → E.ready keeper.new device.new }
    ensures keeps { (first : E) (mark : D) (s : State) (least es : List Event) → reply.now ≡ reply_to (state_after s es) event.now
        → E.kept first mark keeper.old device.old s least es
        → KeepsOn (E.kept first mark keeper.new device.new s) (E.lost first mark keeper.new device.new s) (E.full first mark s) least es
        (event.now ∷ []) result }
{
    let kept = pending.len();
    push_reply(pending, reply)?;
    let result = keeper.keep(device, event, reply);
    if result.is_err() {
        pending.truncate(kept);
    }
    result
}

/// Answers a line, behind the replies that are pending. At a fault these stay as they were, and the farm may have answered.
fn answer_line<D, E: Keeper<D>>(
    alloc: Global,
    farm: &mut Farm,
    keeper: &mut E,
    device: &mut D,
    line: &[u8],
    pending: &mut Vec<u8>,
) -> Result<(), KeepFault>
    requires short { length line.now ≤ line_limit }
    requires ready { E.ready keeper.old device.old }
    ensures farm { OnOk result (farm.new ≡ (after_line farm.old (Whole line.now)).0) }
    ensures text { OnOk result (pending.new.items ≡ pending.old.items ++ (after_line farm.old (Whole line.now)).1) }
    ensures kept { OnErr result (pending.new.items ≡ pending.old.items) }
    ensures stands { OnErr result ((farm.new ≡ farm.old) ⊎ (farm.new ≡ (after_line farm.old (Whole line.now)).0)) }
    ensures ready { ¬ (IsErrOf result KeepFault.Disk) → E.ready keeper.new device.new }
    ensures keeps { (first : E) (mark : D) (s : State) (least es : List Event) → farm.old ≡ state_after s es
        → E.kept first mark keeper.old device.old s least es
        → KeepsOn (E.kept first mark keeper.new device.new s) (E.lost first mark keeper.new device.new s) (E.full first mark s) least es
        (events_of_line (Whole line.now)) result }
{
    match read_line(alloc, line) {
        Ok(None) => Ok(()),
        Ok(Some(ref event)) => {
            let reply = farm.step(event);
            match &reply {
                Reply::NoMemory => Err(KeepFault::NoMemory),
                _ => keep_answered(keeper, device, event, &reply, pending),
            }
        }
        Err(LineFault::BadLine) => Ok(push_bad_line(pending)?),
        Err(LineFault::NoMemory) => Err(KeepFault::NoMemory),
    }
}

/// Puts the replies that are pending.
fn put_pending<K: Sink>(pending: &mut Vec<u8>, out: &mut K) -> PutEnd
    ensures bytes { PutsPending (K.held out.old) (K.held out.new) pending.old.items pending.new.items result }
    ensures none { result ≡ PutEnd.Done → pending.new.items ≡ [] }
    ensures cause { HasCausePut (K.faults out.old) (K.faults out.new) result }
{
    if pending.is_empty() {
        return PutEnd::Done;
    }
    let end = out.put(pending.as_slice());
    pending.clear();
    end
}

/// Settles what was kept, and puts the replies that are pending; or says how the session ends.
fn settle_and_put<D, E: Keeper<D>, K: Sink>(
    keeper: &mut E,
    device: &mut D,
    pending: &mut Vec<u8>,
    out: &mut K,
) -> Option<StoredEnd>
    requires ready { E.ready keeper.old device.old }
    ensures ready { result ≢ Some StoredEnd.StoreFault → E.ready keeper.new device.new }
    ensures settles { (first : E) (mark : D) (s : State) (least es : List Event) → E.kept first mark keeper.old device.old s least es
        → SettlesAs (E.kept first mark keeper.new device.new s) (E.lost first mark keeper.new device.new s) least es
        (K.held out.old) (K.held out.new) pending.old.items pending.new.items result }
    ensures none { IsNone result → pending.new.items ≡ [] }
    ensures put { result ≡ Some StoredEnd.WriteFault → (n : ℕ) × Appends (K.held out.old) (K.held out.new) (take n pending.old.items) }
    ensures later { K.faults out.old ≤ K.faults out.new }
    ensures only { (result ≡ None) ⊎ ((result ≡ Some StoredEnd.StoreFault) ⊎ (result ≡ Some StoredEnd.WriteFault)) }
    ensures cause { result ≡ Some StoredEnd.WriteFault → Rose (K.faults out.old) (K.faults out.new) }
{
    if keeper.settle(device).is_err() {
        return Some(StoredEnd::StoreFault);
    }
    match put_pending(pending, out) {
        PutEnd::Done => None,
        PutEnd::Failed => Some(StoredEnd::WriteFault),
    }
}

/// Settles and puts what is pending, unless the next line is held already.
fn settle_before_asking<D, E: Keeper<D>, K: Sink>(
    keeper: &mut E,
    device: &mut D,
    reader: &LineReader,
    pending: &mut Vec<u8>,
    out: &mut K,
) -> Option<StoredEnd>
    requires ready { E.ready keeper.old device.old }
    ensures ready { IsNone result → E.ready keeper.new device.new }
    ensures turned { (first : E) (mark : D) (farm : State) (left : Option (List ℕ)) → Turned
        (E.kept first mark keeper.old device.old) (E.kept first mark keeper.new device.new) (E.lost first mark keeper.new device.new) (E.full first mark)
        (record { farm = farm; left = left; held = K.held out.old; reader = reader.now; pending = pending.old.items })
        (record { farm = farm; left = left; held = K.held out.new; reader = reader.now; pending = pending.new.items })
        result }
    ensures first { (b : SessionState) (farm : State) (left : Option (List ℕ))
        → IsUnderWay b (record { farm = farm; left = left; held = K.held out.old; reader = reader.now; pending = pending.old.items })
        → IfSome result (λ e. CameFirst e b (record { farm = farm; left = left; held = K.held out.new })) }
    ensures none { ¬ HasFeed reader.now.ahead → IsNone result → pending.new.items ≡ [] }
    ensures later { K.faults out.old ≤ K.faults out.new }
    ensures only { (result ≡ None) ⊎ ((result ≡ Some StoredEnd.StoreFault) ⊎ (result ≡ Some StoredEnd.WriteFault)) }
    ensures cause { result ≡ Some StoredEnd.WriteFault → Rose (K.faults out.old) (K.faults out.new) }
{
    if reader.has_line() {
        return None;
    }
    settle_and_put(keeper, device, pending, out)
}

/// Settles and puts what is pending behind what ends the session. That came first, so it stays the end where the output fails
/// now.
fn finish<D, E: Keeper<D>, K: Sink>(
    keeper: &mut E,
    device: &mut D,
    pending: &mut Vec<u8>,
    out: &mut K,
    end: StoredEnd,
) -> StoredEnd
    requires ready { E.ready keeper.old device.old }
    ensures finishes { (first : E) (mark : D) (s : State) (least es : List Event) → E.kept first mark keeper.old device.old s least es
        → FinishesAs (E.kept first mark keeper.new device.new s) (E.lost first mark keeper.new device.new s) least es
        (K.held out.old) (K.held out.new) pending.old.items end result }
    ensures put { (n : ℕ) × Appends (K.held out.old) (K.held out.new) (take n pending.old.items) }
    ensures later { K.faults out.old ≤ K.faults out.new }
    ensures only { (result ≡ end) ⊎ (result ≡ StoredEnd.StoreFault) }
{
    if keeper.settle(device).is_err() {
        return StoredEnd::StoreFault;
    }
    let _put = put_pending(pending, out);
    end
}

/// Reads one line and answers it, or says how the session ends. Nothing is pending where the source has to
/// be asked.
fn answer_next<D, E: Keeper<D>, S: Source, K: Sink>(
    alloc: Global,
    farm: &mut Farm,
    keeper: &mut E,
    device: &mut D,
    reader: &mut LineReader,
    pending: &mut Vec<u8>,
    input: &mut S,
    out: &mut K,
) -> Option<StoredEnd>
    requires ready { E.ready keeper.old device.old }
    requires none { ¬ HasFeed reader.old.ahead → pending.old.items ≡ [] }
    ensures ready { IsNone result → E.ready keeper.new device.new }
    ensures turned { (first : E) (mark : D) → Turned
        (E.kept first mark keeper.old device.old) (E.kept first mark keeper.new device.new) (E.lost first mark keeper.new device.new) (E.full first mark)
        (record { farm = farm.old; left = S.left input.old; held = K.held out.old; reader = reader.old; pending = pending.old.items })
        (record { farm = farm.new; left = S.left input.new; held = K.held out.new; reader = reader.new; pending = pending.new.items })
        result }
    ensures first { (b : SessionState)
        → IsUnderWay b (record { farm = farm.old; left = S.left input.old; held = K.held out.old; reader = reader.old; pending = pending.old.items })
        → IfSome result (λ e. CameFirst e b (record { farm = farm.new; left = S.left input.new; held = K.held out.new })) }
    ensures falls { IsNone result → budget reader.new < budget reader.old }
    ensures read_later { S.faults input.old ≤ S.faults input.new }
    ensures write_later { K.faults out.old ≤ K.faults out.new }
    ensures read { MayGoOn reader.old.stop → result ≡ Some StoredEnd.ReadFault → Rose (S.faults input.old) (S.faults input.new) }
    ensures write { result ≡ Some StoredEnd.WriteFault → Rose (K.faults out.old) (K.faults out.new) }
{
    match reader.next_line(input) {
        Line::Text => match answer_line(alloc, farm, keeper, device, reader.text(), pending) {
            Ok(()) => None,
            Err(KeepFault::Disk) => Some(StoredEnd::StoreFault),
            Err(KeepFault::Full { end }) => Some(finish(
                keeper,
                device,
                pending,
                out,
                StoredEnd::StoreFull { end },
            )),
            Err(KeepFault::NoMemory) => Some(finish(
                keeper,
                device,
                pending,
                out,
                StoredEnd::NoMemory,
            )),
        },
        Line::TooLong { len } => match push_too_long(pending, len) {
            Ok(()) => None,
            Err(NoMemory) => Some(finish(keeper, device, pending, out, StoredEnd::NoMemory)),
        },
        Line::End => Some(StoredEnd::Done),
        Line::ReadFault => Some(StoredEnd::ReadFault),
        Line::InputLimit => Some(StoredEnd::InputLimit),
    }
}

/// Puts what is pending before the source is asked, and answers the next line.
fn read_and_answer<D, E: Keeper<D>, S: Source, K: Sink>(
    alloc: Global,
    farm: &mut Farm,
    keeper: &mut E,
    device: &mut D,
    reader: &mut LineReader,
    pending: &mut Vec<u8>,
    input: &mut S,
    out: &mut K,
) -> Option<StoredEnd>
    requires ready { E.ready keeper.old device.old }
    ensures ready { IsNone result → E.ready keeper.new device.new }
    ensures turned { (first : E) (mark : D) → Turned
        (E.kept first mark keeper.old device.old) (E.kept first mark keeper.new device.new) (E.lost first mark keeper.new device.new) (E.full first mark)
        (record { farm = farm.old; left = S.left input.old; held = K.held out.old; reader = reader.old; pending = pending.old.items })
        (record { farm = farm.new; left = S.left input.new; held = K.held out.new; reader = reader.new; pending = pending.new.items })
        result }
    ensures first { (first : E) (mark : D) (b : SessionState)
        → IsKeeping (E.kept first mark keeper.old device.old b.farm) b
        (record { farm = farm.old; left = S.left input.old; held = K.held out.old; reader = reader.old; pending = pending.old.items })
        → IfSome result (λ e. CameFirst e b (record { farm = farm.new; left = S.left input.new; held = K.held out.new })) }
    ensures falls { IsNone result → budget reader.new < budget reader.old }
    ensures read_later { S.faults input.old ≤ S.faults input.new }
    ensures write_later { K.faults out.old ≤ K.faults out.new }
    ensures read { MayGoOn reader.old.stop → result ≡ Some StoredEnd.ReadFault → Rose (S.faults input.old) (S.faults input.new) }
    ensures write { result ≡ Some StoredEnd.WriteFault → Rose (K.faults out.old) (K.faults out.new) }
{
    match settle_before_asking(keeper, device, reader, pending, out) {
        None => answer_next(alloc, farm, keeper, device, reader, pending, input, out),
        Some(end) => Some(end),
    }
}

/// Reads lines to the input's end, answers each, keeps its event, and writes the replies. The replies to the lines that one
/// take of the input brought are written together, once the events are settled.
pub(crate) fn run_session<D, E: Keeper<D>, S: Source, K: Sink>(
    alloc: Global,
    farm: &mut Farm,
    keeper: &mut E,
    device: &mut D,
    input: &mut S,
    out: &mut K,
) -> StoredEnd
    requires ready { E.ready keeper.old device.old }
    requires begins { E.kept keeper.old device.old keeper.old device.old farm.old [] [] }
    ensures ends { StoredEndsAs result
        (record { farm = farm.old; left = S.left input.old; held = K.held out.old })
        (record { farm = farm.new; left = S.left input.new; held = K.held out.new }) }
    ensures keeps { WroteOf
        (EndsKeeping (E.kept keeper.old device.old keeper.new device.new farm.old) (E.lost keeper.old device.old keeper.new device.new farm.old)
        (E.full keeper.old device.old farm.old) result)
        (record { farm = farm.old; left = S.left input.old; held = K.held out.old })
        (record { farm = farm.new; left = S.left input.new; held = K.held out.new }) }
    ensures first { CameFirst result
        (record { farm = farm.old; left = S.left input.old; held = K.held out.old })
        (record { farm = farm.new; left = S.left input.new; held = K.held out.new }) }
    ensures read_fault { result ≡ StoredEnd.ReadFault → Rose (S.faults input.old) (S.faults input.new) }
    ensures write_fault { result ≡ StoredEnd.WriteFault → Rose (K.faults out.old) (K.faults out.new) }
{
    let mut reader = LineReader::new();
    let mut pending = Vec::new(alloc);
    'lines: loop {
        if let Some(end) = read_and_answer(
            alloc,
            farm,
            keeper,
            device,
            &mut reader,
            &mut pending,
            input,
            out,
        ) {
            return end;
        }
    }
}
