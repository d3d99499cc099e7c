//! The numbers and addresses of a line.

ghost use Rattle.std.specs.Prelude.{◌≡◌, ◌<◌, ◌≤◌, IfOk};
ghost use Rattle.link_schedule.specs.Numbers.{address, named as client_named, within as number_within};

use crate::why::Why;
use uip_wire::{Addr, is_numeral, numeral};

/// Returns the number of a client that an earlier line has made.
pub fn named(clients: usize, word: &[u8]) -> Result<u8, Why>
    requires { clients < 256 }
    ensures { result ≡ client_named clients word.now }
{
    if !is_numeral(word) {
        return Err(Why::Form);
    }
    match numeral(word) {
        Some(number) if number >= 1 && number <= clients as u64 => Ok(number as u8),
        _ => Err(Why::NoClient),
    }
}

/// Returns a number of a range.
pub fn within(low: u32, high: u32, word: &[u8]) -> Result<u32, Why>
    ensures value { result ≡ number_within low high word.now }
    ensures range { IfOk result (λ n. n ≤ high) }
{
    match numeral(word) {
        Some(number) if number >= u64::from(low) && number <= u64::from(high) => Ok(number as u32),
        _ => Err(Why::Form),
    }
}

/// Returns an address in dotted-quad form.
pub fn addressed(word: &[u8]) -> Result<Addr, Why>
    ensures { result ≡ address word.now }
{
    match Addr::parse(word) {
        Some(addr) => Ok(addr),
        None => Err(Why::Form),
    }
}
