// The answers of the calls as C and Rust are given them: a number, 0 where the call is not refused and else the refusal's, and a detail.
#![tactic(auto)]

ghost use Rattle.std.specs.Prelude.{◌≡◌};
ghost use Rattle.c_answers.specs.Returned.{number_of, detail_of, stop_number, stop_place};

use monitor::Stopped;
use refusal::Refusal;

// The number of an answer, whatever it gives.
pub fn number<T: Copy>(answer: Result<T, Refusal>) -> u8
    ensures { result ≡ number_of answer }
{
    match answer {
        Ok(_) => 0,
        Err(refusal) => refusal.number(),
    }
}

// Its detail: the number that it gives, or the refusal's place.
pub fn detail(answer: Result<usize, Refusal>) -> usize
    ensures { result ≡ detail_of (λ n. n) answer }
{
    match answer {
        Ok(given) => given,
        Err(refusal) => refusal.place(),
    }
}

pub fn stop_number(stop: Option<Stopped>) -> u8
    ensures { result ≡ stop_number stop }
{
    match stop {
        None => 0,
        Some(stopped) => stopped.refusal.number(),
    }
}

pub fn stop_place(stop: Option<Stopped>) -> usize
    ensures { result ≡ stop_place stop }
{
    match stop {
        None => 0,
        Some(stopped) => stopped.place,
    }
}
