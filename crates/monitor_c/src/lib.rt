// The calls of monitor, the two writers, the reader of rules and the reaches of rules for C and Rust, on numbers and slices. Each gives a number, 0 where
// the call is not refused and else the refusal's, and writes a detail: a refusal's place, how many verdicts stand after a take, the code of the verdict
// that a look shows, the length of a text that is written, how many reaches are written. A packet writes two: how many messages were taken, and the
// refusal's place.
#![tactic(auto)]

ghost use Rattle.std.specs.Prelude.{◌≡◌};
ghost use Rattle.origin.specs.Origin.{stamped};
ghost use Rattle.monitor.specs.State.{lent, open_state, receive, receive_packet};
ghost use Rattle.monitor.specs.Lookup.{lookup_of};
ghost use Rattle.policy.specs.Text.{encode_of as encode_policy};
ghost use Rattle.message.specs.Text.{encode_of as encode_message};
ghost use Rattle.rule_text.specs.Compiled.{compile_of};
ghost use Rattle.reach.specs.Reaches.{rule_reaches};
ghost use Rattle.c_answers.specs.Returned.{Returned, returned_opening, returned, ReturnedPacket, returned_packet, number_of, detail_of, look_detail, ReturnedText, returned_text, policy_numbers, message_numbers};

use line_table::{NUMBERS, lines_from};
use message::MessageNumbers;
use monitor::Buffers;
use policy::PolicyNumbers;
use refusal::Refusal;

// Tells the answer of a call that gives a number: its detail is written, and its number given.
fn told(answer: Result<usize, Refusal>, detail: &mut usize) -> u8
    ensures number { result ≡ number_of answer }
    ensures detail { detail.new ≡ detail_of (λ n. n) answer }
{
    *detail = c_answers::detail(answer);
    c_answers::number(answer)
}

// The buffers and sizes come one by one, as C lends them.

// 01: an opening.
#[unsafe(no_mangle)]
pub extern "C" fn zankezurt_open(
    policy: &[u8],
    numbers: &mut [u16],
    facts: &mut [u32],
    valuation: &mut [u8],
    verdicts: &mut [u8],
    origin: &mut [u8],
    extent: &mut u16,
    detail: &mut usize,
) -> u8
    ensures { ◌≡◌ {A = Returned}
        (record { number = result; detail = detail.new; state = lent numbers.new facts.new valuation.new verdicts.new (stamped origin.new extent.new) })
        (returned_opening (open_state policy.now (lent numbers.old facts.old valuation.old verdicts.old (stamped origin.old extent.old)))) }
{
    let buffers = Buffers {
        numbers,
        facts,
        valuation,
        verdicts,
        origin,
        extent,
    };
    let answer = monitor_calls::open(policy, buffers);
    *detail = c_answers::detail(answer.map(|()| 0));
    c_answers::number(answer)
}

// 01: a take.
#[unsafe(no_mangle)]
pub extern "C" fn zankezurt_receive(
    policy: &[u8],
    message: &[u8],
    numbers: &mut [u16],
    facts: &mut [u32],
    valuation: &mut [u8],
    verdicts: &mut [u8],
    origin: &mut [u8],
    extent: &mut u16,
    detail: &mut usize,
) -> u8
    ensures { ◌≡◌ {A = Returned}
        (record { number = result; detail = detail.new; state = lent numbers.new facts.new valuation.new verdicts.new (stamped origin.new extent.new) })
        (returned (receive policy.now (lent numbers.old facts.old valuation.old verdicts.old (stamped origin.old extent.old)) message.now)) }
{
    let buffers = Buffers {
        numbers,
        facts,
        valuation,
        verdicts,
        origin,
        extent,
    };
    let answer = monitor_calls::receive(policy, message, buffers);
    told(answer, detail)
}

// 02, request 1: a packet.
#[unsafe(no_mangle)]
pub extern "C" fn zankezurt_receive_packet(
    policy: &[u8],
    packet: &[u8],
    numbers: &mut [u16],
    facts: &mut [u32],
    valuation: &mut [u8],
    verdicts: &mut [u8],
    origin: &mut [u8],
    extent: &mut u16,
    taken: &mut usize,
    place: &mut usize,
) -> u8
    ensures { ◌≡◌ {A = ReturnedPacket}
        (record { number = result; taken = taken.new; place = place.new; state = lent numbers.new facts.new valuation.new verdicts.new (stamped origin.new extent.new) })
        (returned_packet (receive_packet policy.now (lent numbers.old facts.old valuation.old verdicts.old (stamped origin.old extent.old)) packet.now)) }
{
    let buffers = Buffers {
        numbers,
        facts,
        valuation,
        verdicts,
        origin,
        extent,
    };
    let answer = monitor_calls::receive_packet(policy, packet, buffers);
    let stop = answer.stop;
    *taken = answer.taken;
    *place = c_answers::stop_place(stop);
    c_answers::stop_number(stop)
}

// 01: a look.
#[unsafe(no_mangle)]
pub extern "C" fn zankezurt_lookup(
    policy: &[u8],
    verdicts: &[u8],
    rule: usize,
    minute: usize,
    detail: &mut usize,
) -> u8
    ensures value { result ≡ number_of (lookup_of policy.now verdicts.now rule minute) }
    ensures detail_after { detail.new ≡ look_detail (lookup_of policy.now verdicts.now rule minute) }
{
    let look = monitor_lookup::lookup(policy, verdicts, rule, minute);
    *detail = c_answers::detail(look.map(usize::from));
    c_answers::number(look)
}

// 02, request 3: writes a policy.
#[unsafe(no_mangle)]
pub extern "C" fn zankezurt_encode_policy(
    propositions: usize,
    components: usize,
    minutes: usize,
    count: usize,
    fields: &[u16; NUMBERS],
    out: &mut [u8],
    detail: &mut usize,
) -> u8
    ensures { ◌≡◌ {A = ReturnedText}
        (record { number = result; detail = detail.new; out = out.new })
        (returned_text (encode_policy (policy_numbers propositions components minutes count fields.now) out.old)) }
{
    let lines = lines_from(fields);
    let numbers = PolicyNumbers {
        propositions,
        components,
        minutes,
        count,
        lines,
    };
    let written = policy_codec::encode(numbers, out);
    told(written, detail)
}

// 02, request 3: writes a message under a policy.
#[unsafe(no_mangle)]
pub extern "C" fn zankezurt_encode_message(
    policy: &[u8],
    component: usize,
    alive: u8,
    minute: usize,
    number: usize,
    named: u32,
    values: u32,
    out: &mut [u8],
    detail: &mut usize,
) -> u8
    ensures { ◌≡◌ {A = ReturnedText}
        (record { number = result; detail = detail.new; out = out.new })
        (returned_text (encode_message policy.now (message_numbers component alive minute number named values) out.old)) }
{
    let numbers = MessageNumbers {
        component: component,
        alive: alive != 0,
        minute: minute,
        number: number,
        named: named,
        values: values,
    };
    let written = message_codec::encode_numbers(policy, numbers, out);
    told(written, detail)
}

// 02, request 7: writes the policy of a rule typed as text.
#[unsafe(no_mangle)]
pub extern "C" fn zankezurt_compile_rule(
    text: &[u8],
    propositions: usize,
    components: usize,
    minutes: usize,
    out: &mut [u8],
    detail: &mut usize,
) -> u8
    ensures { ◌≡◌ {A = ReturnedText}
        (record { number = result; detail = detail.new; out = out.new })
        (returned_text (compile_of propositions components minutes text.now out.old)) }
{
    let written = rule_parser::compile(text, propositions, components, minutes, out);
    told(written, detail)
}

// 02, request 8: writes the reach of each rule of a policy.
#[unsafe(no_mangle)]
pub extern "C" fn zankezurt_rule_reaches(policy: &[u8], out: &mut [u16], detail: &mut usize) -> u8
    ensures { ◌≡◌ {A = ReturnedText}
        (record { number = result; detail = detail.new; out = out.new })
        (returned_text (rule_reaches policy.now out.old)) }
{
    let written = reach::rule_reaches(policy, out);
    told(written, detail)
}

// The version of the library, 0.2.0: 10,000 times the major number, 100 times the minor, and the patch.
#[unsafe(no_mangle)]
pub extern "C" fn zankezurt_version() -> u32
    ensures { result ≡ 200 }
{
    200
}
