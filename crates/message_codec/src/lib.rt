// The message (01: the slip): how long it is, what it says, and how it is written.
#![tactic(auto)]

ghost use Rattle.std.specs.Prelude.{◌≡◌, ◌+◌, ◌^◌, ◌≤◌, ◌<◌, ◌++◌, ltb, length, drop};
ghost use Rattle.std.proofs.lemmas.List.Edits.{sets};
ghost use Rattle.bits.specs.Digits.{below, expanded};
ghost use Rattle.message.specs.Format.{minute_at, number_at, named_at, values_at, value_bytes, packed_at, fields_of, length_of, measured, good_alive, good_observation, good_event, all_written, good_fields, event_in, first_of, used_of, rest_of};
ghost use Rattle.message.specs.Packet.{step_of};
ghost use Rattle.message_codec.specs.Packet.{Part};
ghost use Rattle.refusal.specs.Writes.{Output};
ghost use Rattle.message.specs.Text.{numbers_of, alive_good, observation_good, kind_good, numbers_good, text_map, fields_part, text_of, encode_under, encode_of};

use encoding::{
    field_length, flag, flag_if, gather, has, is_written, put, put_bytes, put_field, read8, read16,
    read32, size_of,
};
use message::{Event, Fields, Message, MessageNumbers, Step};
use policy::Sizes;
use refusal::Refusal;

// The bits of the map: which fields follow it, in their order, and whether it is an alive slip.
const COMPONENT: u8 = 1;

const MINUTE: u8 = 2;

const NUMBER: u8 = 4;

const NAMED: u8 = 8;

const ALIVE: u8 = 16;

// The lowest of the bits that a map has no use for (01: bits 5 to 7 are 0).
const SPARE: u8 = 32;

// How many propositions a map can name, a bit each.
const NAMES: usize = 32;

// The most value bytes.
const VALUE_BYTES: usize = 4;

// The largest sequence number, of two bytes.
const MOST_NUMBER: usize = 65535;

// Where the minute starts; the others follow.
fn minute_at(map: u8) -> usize
    ensures { (result ≡ minute_at map) × (result ≤ 2) }
{
    1 + size_of(has(map, COMPONENT), 1)
}

fn number_at(map: u8) -> usize
    ensures { (result ≡ number_at map) × (result ≤ 4) }
{
    minute_at(map) + size_of(has(map, MINUTE), 2)
}

fn named_at(map: u8) -> usize
    ensures { (result ≡ named_at map) × (result ≤ 6) }
{
    number_at(map) + size_of(has(map, NUMBER), 2)
}

fn values_at(map: u8) -> usize
    ensures { (result ≡ values_at map) × (result ≤ 10) }
{
    named_at(map) + size_of(has(map, NAMED), 4)
}

// How many propositions a map names.
fn count(named: u32) -> usize
    ensures { (result ≡ below 32 named) × (result ≤ 32) }
{
    u32::count_ones(named) as usize
}

// How many bytes their values take, a bit each.
fn value_bytes(named: u32) -> usize
    ensures { (result ≡ value_bytes named) × (result ≤ 4) }
{
    (count(named) + 7) / 8
}

// The value bytes as one number, the first byte lowest: at most four.
fn packed_at(s: &[u8], n: usize, at: usize) -> u32
    requires { at + n ≤ length s.now }
    ensures { result ≡ packed_at s.now n at }
{
    let count = n.min(VALUE_BYTES);
    let mut bytes = [0; VALUE_BYTES];
    bytes[..count].copy_from_slice(&s[at..at + count]);
    u32::from_le_bytes(bytes)
}

// The fields of a message that has all its bytes.
fn fields_of(s: &[u8]) -> Fields
    requires { length_of s.now ≤ length s.now }
    ensures { result ≡ fields_of s.now }
{
    let map = s[0];
    let component = read8(s, has(map, COMPONENT), 1);
    let minute = read16(s, has(map, MINUTE), minute_at(map));
    let number = read16(s, has(map, NUMBER), number_at(map));
    let named = read32(s, has(map, NAMED), named_at(map));
    let packed = packed_at(s, value_bytes(named), values_at(map));
    Fields {
        map,
        component,
        minute,
        number,
        named,
        packed,
    }
}

// How long the message is, from its bit map and its mark map alone; none where it ends early.
pub fn measure(s: &[u8]) -> Option<usize>
    ensures { result ≡ measured s.now }
{
    if s.is_empty() {
        return None;
    }
    let map = s[0];
    let values = values_at(map);
    if s.len() < values {
        return None;
    }
    let named = read32(s, has(map, NAMED), named_at(map));
    let whole = values + value_bytes(named);
    if s.len() < whole {
        return None;
    }
    Some(whole)
}

// The values' bits at the places of their propositions, lowest first. A walk by trailing zeros is a form that the project names.
fn expand(named: u32, packed: u32) -> u32
    ensures { result ≡ expanded 32 named packed }
{
    let mut rest = named;
    let mut left = packed;
    let mut out: u32 = 0;
    while rest != 0 {
        let k = u32::trailing_zeros(rest);
        let weight = 1u32 << k;
        out = out + (left % 2) * weight;
        left = left / 2;
        rest = rest - weight;
    }
    out
}

// Has the word bits below place k only.
fn fits_below(word: u32, k: usize) -> bool
    ensures { result ≡ ltb word (2 ^ k) }
{
    if NAMES <= k {
        return true;
    }
    word < 1u32 << k
}

// The rules of an alive slip.
fn good_alive(f: Fields, sizes: Sizes) -> bool
    ensures { result ≡ good_alive sizes f }
{
    (f.named == 0) & (f.minute as usize <= sizes.minutes)
}

// The rules of an observation.
fn good_observation(f: Fields, sizes: Sizes) -> bool
    ensures { result ≡ good_observation sizes f }
{
    let named = fits_below(f.named, sizes.propositions);
    let packed = fits_below(f.packed, count(f.named));
    ((f.minute as usize) < sizes.minutes) & ((1 <= f.number) & (named & packed))
}

// The rules of its kind.
fn good_event(f: Fields, sizes: Sizes) -> bool
    ensures { result ≡ good_event sizes f }
{
    if has(f.map, ALIVE) {
        return good_alive(f, sizes);
    }
    good_observation(f, sizes)
}

// No written field is 0.
fn all_written(f: Fields) -> bool
    ensures { result ≡ all_written f }
{
    let component = is_written(has(f.map, COMPONENT), f.component as u32);
    let minute = is_written(has(f.map, MINUTE), f.minute as u32);
    let number = is_written(has(f.map, NUMBER), f.number as u32);
    let named = is_written(has(f.map, NAMED), f.named);
    component & (minute & (number & named))
}

// The rules of a message.
fn good_fields(f: Fields, sizes: Sizes) -> bool
    ensures { result ≡ good_fields sizes f }
{
    let written = all_written(f);
    let event = good_event(f, sizes);
    (f.map < SPARE) & (written & (((f.component as usize) < sizes.components) & event))
}

// What the fields say.
fn event_in(f: Fields) -> Event
    ensures { result ≡ event_in f }
{
    if has(f.map, ALIVE) {
        return Event::Alive {
            minute: f.minute,
            number: f.number,
        };
    }
    let values = expand(f.named, f.packed);
    Event::Observation {
        minute: f.minute,
        number: f.number,
        named: f.named,
        values,
    }
}

// What the first message says, or why it is turned away: 7 where it ends early, then 8. What follows it is not looked at.
pub fn decode(packet: &[u8], sizes: Sizes) -> Result<Message, Refusal>
    ensures { result ≡ first_of sizes packet.now }
{
    if measure(packet).is_none() {
        return Err(Refusal::TruncatedMessage(packet.len()));
    }
    let f = fields_of(packet);
    if !good_fields(f, sizes) {
        return Err(Refusal::BadMessage);
    }
    Ok(Message {
        component: f.component as usize,
        event: event_in(f),
    })
}

// What follows it, a part of the caller's slice; nothing where it ends early.
fn rest_of(packet: &[u8]) -> &[u8]
    ensures { Part packet.entry (used_of packet.now) result }
{
    let used = measure(packet).unwrap_or(packet.len());
    &packet[used..]
}

// What the first message says, and what follows it.
#[derive(Clone, Copy)]
pub struct First<'a> {
    pub decoded: Result<Message, Refusal>,
    pub rest: &'a [u8],
}

// Reads the first message of a packet and hands back the rest (02, request 1).
pub fn read_first<'a>(packet: &'a [u8], sizes: Sizes) -> First<'a>
    ensures { (result.decoded ≡ first_of sizes packet.now)
        × Part packet.entry (used_of packet.now) result.rest }
{
    let decoded = decode(packet, sizes);
    let rest = rest_of(packet);
    First { decoded, rest }
}

// Reads the first message of a packet and counts the rest.
pub fn first_step(packet: &[u8], sizes: Sizes) -> Step
    ensures { result ≡ step_of (first_of sizes packet.now) (rest_of packet.now) }
{
    let first = read_first(packet, sizes);
    Step {
        decoded: first.decoded,
        left: first.rest.len(),
    }
}

// ---- what is written (02, request 3)

// Are the numbers of an alive slip in range.
fn alive_good(sizes: Sizes, n: MessageNumbers) -> bool
    ensures { result ≡ alive_good sizes n }
{
    (n.minute <= sizes.minutes) & ((n.named == 0) & (n.values == 0))
}

// Are the numbers of an observation in range.
fn observation_good(sizes: Sizes, n: MessageNumbers) -> bool
    ensures { result ≡ observation_good sizes n }
{
    let named = fits_below(n.named, sizes.propositions);
    let valued = n.named | n.values == n.named;
    (n.minute < sizes.minutes) & ((1 <= n.number) & (named & valued))
}

// Are the numbers those of a message of its kind.
fn kind_good(sizes: Sizes, n: MessageNumbers) -> bool
    ensures { result ≡ kind_good sizes n }
{
    if n.alive {
        return alive_good(sizes, n);
    }
    observation_good(sizes, n)
}

// Are the numbers in range.
fn numbers_good(sizes: Sizes, n: MessageNumbers) -> bool
    ensures { result ≡ numbers_good sizes n }
{
    let kind = kind_good(sizes, n);
    (n.component < sizes.components) & ((n.number <= MOST_NUMBER) & kind)
}

// How many bytes the message takes.
fn text_size(n: MessageNumbers) -> usize
    ensures { (result ≡ length (text_of n)) × (result ≤ 14) }
{
    let component = field_length(n.component, 1);
    let minute = field_length(n.minute, 2);
    let number = field_length(n.number, 2);
    let named = field_length(n.named as usize, 4);
    1 + component + minute + number + named + value_bytes(n.named)
}

// Its map: the fields that are written, and whether it is an alive slip.
fn text_map(n: MessageNumbers) -> u8
    ensures { result ≡ text_map n }
{
    let component = flag(n.component, COMPONENT);
    let minute = flag(n.minute, MINUTE);
    let number = flag(n.number, NUMBER);
    let named = flag(n.named as usize, NAMED);
    let alive = flag_if(n.alive, ALIVE);
    component + minute + number + named + alive
}

// Writes the map and the fields, and says where the values go.
fn put_fields(out: &mut [u8], n: MessageNumbers) -> usize
    requires { length (text_of n) ≤ length out.old }
    ensures { (result ≡ length (fields_part n)) × (out.new ≡ sets out.old 0 (fields_part n)) }
{
    let component = put(out, 0, text_map(n));
    let minute = put_field(out, component, 1, n.component);
    let number = put_field(out, minute, 2, n.minute);
    let named = put_field(out, number, 2, n.number);
    put_field(out, named, 4, n.named as usize)
}

// Writes the message.
fn put_text(out: &mut [u8], n: MessageNumbers)
    requires { length (text_of n) ≤ length out.old }
    ensures { out.new ≡ text_of n ++ drop (length (text_of n)) out.old }
{
    let values = put_fields(out, n);
    let packed = gather(n.named, n.values);
    put_bytes(out, values, value_bytes(n.named), packed as usize);
}

// Writes the message under a policy of these sizes.
fn encode_under(sizes: Sizes, n: MessageNumbers, out: &mut [u8]) -> Result<usize, Refusal>
    ensures { ◌≡◌ {A = Output} (record { answer = result; out = out.new }) (encode_under sizes n out.old) }
{
    if !numbers_good(sizes, n) {
        return Err(Refusal::BadMessage);
    }
    let size = text_size(n);
    if out.len() < size {
        return Err(Refusal::ShortBuffer);
    }
    put_text(out, n);
    Ok(size)
}

// Writes the message with these numbers under an encoded policy, or says why it is refused; then nothing is written.
pub fn encode_numbers(policy: &[u8], n: MessageNumbers, out: &mut [u8]) -> Result<usize, Refusal>
    ensures { ◌≡◌ {A = Output} (record { answer = result; out = out.new }) (encode_of policy.now n out.old) }
{
    let p = policy_codec::decode(policy)?;
    encode_under(p.sizes, n, out)
}

// The same of what the reader gives.
pub fn encode(policy: &[u8], message: Message, out: &mut [u8]) -> Result<usize, Refusal>
    ensures { ◌≡◌ {A = Output} (record { answer = result; out = out.new }) (encode_of policy.now (numbers_of message) out.old) }
{
    encode_numbers(policy, MessageNumbers::from(message), out)
}
