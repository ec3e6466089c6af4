// The calls: a record opened, a message or a packet taken.
#![tactic(auto)]

ghost use Rattle.std.specs.Prelude.{◌≡◌, ◌+◌, ◌*◌, Ok};
ghost use Rattle.policy.specs.Proper.{Proper};
ghost use Rattle.message.specs.Format.{messages_of};
ghost use Rattle.message.specs.Fixes.{Fits};
ghost use Rattle.knowledge.specs.Knowledge.{Sound, Sized as Long};
ghost use Rattle.knowledge.specs.Laws.{Limits};
ghost use Rattle.knowledge.specs.Run.{held};
ghost use Rattle.origin.specs.Origin.{Origin};
ghost use Rattle.monitor.specs.State.{lent, given, outcome, ended, ended_packet, SizedSheets, opened, rewritten, take_message, open_state, receive, packet_outcome, receive_packet};
ghost use Rattle.monitor.specs.Storing.{Ranged, stored_as, store_message, store_read, stored_packet, store_each, take_packet};

use knowledge_store::{clear_facts, clear_numbers};
use message::Message;
use monitor::{Buffers, PacketAnswer, Stopped};
use monitor_checks::{check_record, check_sizes};
use policy::{Policy, Sizes};
use refusal::Refusal;

// Rewrites both sheets whole from the record; answers how many verdicts stand. The buffers come here and below one by one: `Buffers` that is handed
// on whole leaves its caller without what became of them.
fn rewrite_sheets(
    policy: Policy,
    numbers: &[u16],
    facts: &[u32],
    valuation: &mut [u8],
    verdicts: &mut [u8],
) -> usize
    requires { (Proper policy)
        × SizedSheets policy (held numbers.now facts.now) valuation.old verdicts.old
        × Sound policy.sizes (held numbers.now facts.now) }
    ensures { (o : Origin) → outcome (Ok result) numbers.now facts.now valuation.new verdicts.new o
        ≡ rewritten policy o (held numbers.now facts.now) }
{
    let sizes = policy.sizes;
    let points = knowledge_store::point_row(sizes, numbers);
    evaluation::evaluate(policy, &points, facts, valuation);
    evaluation::conclude(policy, &points, valuation, verdicts)
}

// Makes the fresh record and rewrites both sheets from it: the verdict sheet is then blank.
fn refresh(
    policy: Policy,
    numbers: &mut [u16],
    facts: &mut [u32],
    valuation: &mut [u8],
    verdicts: &mut [u8],
)
    requires { (Proper policy) × SizedSheets policy (held numbers.old facts.old) valuation.old verdicts.old }
    ensures { (o : Origin) → lent numbers.new facts.new valuation.new verdicts.new o
        ≡ opened policy o }
{
    let sizes = policy.sizes;
    clear_numbers(numbers, sizes.minutes);
    clear_facts(facts);
    rewrite_sheets(policy, numbers, facts, valuation, verdicts);
}

// Opens the lent state under a policy (01: an opening), whatever the buffers held.
pub fn open(policy: &[u8], buffers: Buffers) -> Result<(), Refusal>
    ensures { ended result buffers.exit ≡ open_state policy.now (given buffers.entry) }
{
    let p = check_sizes(policy, buffers.lengths())?;
    let Buffers {
        numbers,
        facts,
        valuation,
        verdicts,
        origin,
        extent,
    } = buffers;
    refresh(p, numbers, facts, valuation, verdicts);
    origin::stamp(policy, origin, extent);
    Ok(())
}

// Stores a message that goes with what is known, or says why it is turned away.
fn store_message(
    sizes: Sizes,
    message: Message,
    numbers: &mut [u16],
    facts: &mut [u32],
) -> Result<(), Refusal>
    requires { Limits sizes
        × Long sizes (held numbers.old facts.old)
        × Sound sizes (held numbers.old facts.old)
        × Fits sizes message }
    ensures { stored_as result numbers.new facts.new
        ≡ store_message sizes (held numbers.old facts.old) message }
{
    if !knowledge_store::admits_message(sizes, numbers, facts, message) {
        return Err(Refusal::Conflict);
    }
    knowledge_store::store(sizes, numbers, facts, message);
    Ok(())
}

// Takes a message that stands alone: between the reader's 7 and its 8 it is tested that nothing follows it.
fn take_message(
    policy: Policy,
    message: &[u8],
    numbers: &mut [u16],
    facts: &mut [u32],
    valuation: &mut [u8],
    verdicts: &mut [u8],
) -> Result<usize, Refusal>
    requires { (Proper policy)
        × SizedSheets policy (held numbers.old facts.old) valuation.old verdicts.old
        × Sound policy.sizes (held numbers.old facts.old) }
    ensures { (o : Origin) → outcome result numbers.new facts.new valuation.new verdicts.new o
        ≡ take_message policy
        (lent numbers.old facts.old valuation.old verdicts.old o) message.now }
{
    let sizes = policy.sizes;
    let first = message_codec::first_step(message, sizes);
    if first.left != 0 {
        return Err(Refusal::TruncatedMessage(message.len() - first.left));
    }
    let read = first.decoded?;
    store_message(sizes, read, numbers, facts)?;
    Ok(rewrite_sheets(policy, numbers, facts, valuation, verdicts))
}

// Takes a message of any bytes into the lent state under a policy (01: a take).
pub fn receive(policy: &[u8], message: &[u8], buffers: Buffers) -> Result<usize, Refusal>
    ensures { ended result buffers.exit ≡ receive policy.now (given buffers.entry) message.now }
{
    let Buffers {
        numbers,
        facts,
        valuation,
        verdicts,
        origin,
        extent,
    } = buffers;
    // A match, since through `?` the policy would be copied once more on the stack.
    let p = match check_record(policy, numbers, facts, valuation, verdicts, origin, *extent) {
        Ok(p) => p,
        Err(refusal) => return Err(refusal),
    };
    take_message(p, message, numbers, facts, valuation, verdicts)
}

// Stores what was read as a message, or says why it was turned away.
fn store_read(
    sizes: Sizes,
    read: Result<Message, Refusal>,
    numbers: &mut [u16],
    facts: &mut [u32],
) -> Result<(), Refusal>
    requires { Limits sizes
        × Long sizes (held numbers.old facts.old)
        × Sound sizes (held numbers.old facts.old)
        × Ranged sizes read }
    ensures { stored_as result numbers.new facts.new
        ≡ store_read sizes (held numbers.old facts.old) read }
{
    store_message(sizes, read?, numbers, facts)
}

// Stores the messages of a packet until it ends or one is refused; the sheets are not worked. A while: how far a turn goes is its message's length.
fn store_messages(
    sizes: Sizes,
    packet: &[u8],
    numbers: &mut [u16],
    facts: &mut [u32],
) -> PacketAnswer
    requires { Limits sizes
        × Long sizes (held numbers.old facts.old)
        × Sound sizes (held numbers.old facts.old) }
    ensures { stored_packet result numbers.new facts.new
        ≡ store_each sizes (held numbers.old facts.old) 0 0 (messages_of packet.now) }
{
    let mut taken = 0;
    let mut at = 0;
    while at < packet.len() {
        let first = message_codec::first_step(&packet[at..], sizes);
        if let Err(refusal) = store_read(sizes, first.decoded, numbers, facts) {
            let place = refusal.place_in_packet(at);
            return PacketAnswer {
                taken,
                stop: Some(Stopped { refusal, place }),
            };
        }
        at = packet.len() - first.left;
        taken += 1;
    }
    PacketAnswer { taken, stop: None }
}

// Stores the messages of a packet and works both sheets once, at the end, if at least one was taken.
fn take_packet(
    policy: Policy,
    packet: &[u8],
    numbers: &mut [u16],
    facts: &mut [u32],
    valuation: &mut [u8],
    verdicts: &mut [u8],
) -> PacketAnswer
    requires { (Proper policy)
        × SizedSheets policy (held numbers.old facts.old) valuation.old verdicts.old
        × Sound policy.sizes (held numbers.old facts.old) }
    ensures { (o : Origin) → packet_outcome result numbers.new facts.new valuation.new verdicts.new o
        ≡ take_packet policy
        (lent numbers.old facts.old valuation.old verdicts.old o) packet.now }
{
    let sizes = policy.sizes;
    let answer = store_messages(sizes, packet, numbers, facts);
    if answer.taken == 0 {
        return answer;
    }
    rewrite_sheets(policy, numbers, facts, valuation, verdicts);
    answer
}

// Takes the messages of a packet, which stand in it end to end, until it ends or one is refused (02, request 1).
pub fn receive_packet(policy: &[u8], packet: &[u8], buffers: Buffers) -> PacketAnswer
    ensures { ended_packet result buffers.exit ≡ receive_packet policy.now (given buffers.entry) packet.now }
{
    let Buffers {
        numbers,
        facts,
        valuation,
        verdicts,
        origin,
        extent,
    } = buffers;
    let p = match check_record(policy, numbers, facts, valuation, verdicts, origin, *extent) {
        Ok(p) => p,
        Err(refusal) => {
            let place = refusal.place();
            return PacketAnswer {
                taken: 0,
                stop: Some(Stopped { refusal, place }),
            };
        }
    };
    take_packet(p, packet, numbers, facts, valuation, verdicts)
}
