// The message (01: the slip): what it says, its fields, and the numbers from which it is written. `message_codec` reads and writes it.
#![tactic(auto)]

ghost use Rattle.std.specs.Prelude.{◌≡◌};
ghost use Rattle.message.specs.Text.{numbers_of};

use refusal::Refusal;

// What a component reports (01: an observation, or an alive slip), with its minute and its sequence number (01: count).
#[derive(Clone, Copy)]
pub enum Event {
    // the propositions (01: marks) that it names, and their values at the same bits
    Observation {
        minute: u16,
        number: u16,
        named: u32,
        values: u32,
    },
    Alive {
        minute: u16,
        number: u16,
    },
}

// What a message says: its component (01: station) and its event.
#[derive(Clone, Copy)]
pub struct Message {
    pub component: usize,
    pub event: Event,
}

// The numbers of a message as its maker has them, of any size (02, request 3).
#[derive(Clone, Copy)]
pub struct MessageNumbers {
    pub component: usize,
    // an alive slip, which names nothing, or else an observation: a flag and no enum, since the writer is asked of one that names, and refuses it
    pub alive: bool,
    pub minute: usize,
    pub number: usize,
    pub named: u32,
    pub values: u32,
}

// The numbers of what the reader gives.
impl From<Message> for MessageNumbers {
    ghost from_gives = { λ message numbers. numbers ≡ numbers_of message };

    fn from(message: Message) -> MessageNumbers {
        match message.event {
            Event::Observation {
                minute,
                number,
                named,
                values,
            } => MessageNumbers {
                component: message.component,
                alive: false,
                minute: minute as usize,
                number: number as usize,
                named,
                values,
            },
            Event::Alive { minute, number } => MessageNumbers {
                component: message.component,
                alive: true,
                minute: minute as usize,
                number: number as usize,
                named: 0,
                values: 0,
            },
        }
    }
}

// The message's bit map and its fields, absent ones as 0, and its value bytes as one number.
// No Option for an absent one: the definition `fields_of` has 0 there.
#[derive(Clone, Copy)]
pub struct Fields {
    pub map: u8,
    pub component: u8,
    pub minute: u16,
    pub number: u16,
    pub named: u32,
    pub packed: u32,
}

// What the first message says, and how many bytes follow it, as plain data for callers that hold no reference.
#[derive(Clone, Copy)]
pub struct Step {
    pub decoded: Result<Message, Refusal>,
    pub left: usize,
}
