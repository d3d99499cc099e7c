//! The calls that read a number, a query or a connection of a device, and the call that sets a value which scripts show.

ghost use Rattle.std.specs.Prelude.{◌≡◌, ◌==◌, ◌||◌, ◌-◌, ◌⊎◌, Some as IsThere, length, nat_le, nat_lt, slice_get};
ghost use Rattle.file_tree.specs.Prelude.{files_of};
ghost use Rattle.uip_node.specs.Prelude.{counters, ticks_of};
ghost use Rattle.uip_device.specs.Prelude.{ReadsQuery, connection_row, is_node_idle, query_of};
ghost use Rattle.web_pages.specs.Prelude.{hits_of};
ghost use Rattle.c_calls.specs.Prelude.{flag_of};
ghost use Rattle.c_pages.specs.Prelude.{IsNoRow, ReportsRow};
ghost use Rattle.uip_c.specs.Prelude.{HandleGives, HasAbstractNode, HasNode, NoDevice};

use crate::handle::{UipDevice, give, node_of, put_in, take_out};
use c_calls::{BAD_ARGUMENT, NO_DEVICE, OK, UipNumber, flag, read_device};
use c_pages::{UipQuery, UipRow};
use device_values::{LONGEST_VALUE, MOST_VALUES};
use std::alloc::Global;
use uip_device::{
    LONGEST_QUERY, is_node_idle, node_counter, node_hits, node_query, node_row, node_ticks,
};

/// Returns the number of ticks, modulo 2^32. A tick begins with the periodic call of slot 0.
#[unsafe(no_mangle)]
pub extern "C" fn uip_ticks(alloc: Global, device: &mut UipDevice) -> UipNumber
    ensures known { (result.status ≡ OK) ⊎ (result.status ≡ NO_DEVICE) }
    ensures fine { result.status ≡ OK → HasAbstractNode (λ files n. result.number ≡ ticks_of n.history) device.old.held.device }
    ensures no_device { result.status ≡ NO_DEVICE → device.old.held.device ≡ NoDevice }
    ensures unread { (result.status ≡ OK → ⊥) → result.number ≡ 0 }
    ensures same { device.new.held.device ≡ device.old.held.device }
{
    read_device!(UipNumber, alloc, device, opened => node_ticks(node_of(&opened)))
}

/// Returns counter `number`, from 1 to 20, modulo 2^32 (docs/FORMATS.md has the list).
/// [add: counter] The bound of the number.
#[unsafe(no_mangle)]
pub extern "C" fn uip_counter(alloc: Global, device: &mut UipDevice, number: usize) -> UipNumber
    ensures known { (result.status ≡ OK) ⊎ (result.status ≡ NO_DEVICE) ⊎ (result.status ≡ BAD_ARGUMENT) }
    ensures fine { result.status ≡ OK → HasAbstractNode (λ files n. slice_get (counters n.history) (number - 1) ≡ IsThere result.number)
        device.old.held.device }
    ensures no_device { result.status ≡ NO_DEVICE → device.old.held.device ≡ NoDevice }
    ensures unread { (result.status ≡ OK → ⊥) → result.number ≡ 0 }
    ensures bad_call { (result.status == BAD_ARGUMENT) ≡ ((number == 0) || nat_lt 20 number) }
    ensures same { device.new.held.device ≡ device.old.held.device }
{
    if number == 0 || number > 20 {
        return UipNumber::unread(BAD_ARGUMENT);
    }
    read_device!(UipNumber, alloc, device, opened => node_counter(node_of(&opened), number - 1))
}

/// Returns 1 if no connection is open, else 0. A tick of an idle node only counts.
#[unsafe(no_mangle)]
pub extern "C" fn uip_is_idle(alloc: Global, device: &mut UipDevice) -> UipNumber
    ensures known { (result.status ≡ OK) ⊎ (result.status ≡ NO_DEVICE) }
    ensures fine { result.status ≡ OK → HasAbstractNode (λ files n. result.number ≡ flag_of (is_node_idle n))
        device.old.held.device }
    ensures no_device { result.status ≡ NO_DEVICE → device.old.held.device ≡ NoDevice }
    ensures unread { (result.status ≡ OK → ⊥) → result.number ≡ 0 }
    ensures same { device.new.held.device ≡ device.old.held.device }
{
    read_device!(UipNumber, alloc, device, opened => flag(is_node_idle(node_of(&opened))))
}

/// Returns how often the file of that name was requested, modulo 2^32; 0 if no file has the name.
#[unsafe(no_mangle)]
pub extern "C" fn uip_hits(alloc: Global, device: &mut UipDevice, name: &[u8]) -> UipNumber
    ensures known { (result.status ≡ OK) ⊎ (result.status ≡ NO_DEVICE) }
    ensures fine { result.status ≡ OK → HasAbstractNode (λ files n. result.number ≡ hits_of files n.numbers name.now)
        device.old.held.device }
    ensures no_device { result.status ≡ NO_DEVICE → device.old.held.device ≡ NoDevice }
    ensures unread { (result.status ≡ OK → ⊥) → result.number ≡ 0 }
    ensures same { device.new.held.device ≡ device.old.held.device }
{
    read_device!(UipNumber, alloc, device, opened => node_hits(node_of(&opened), name))
}

/// Copies the query that the device keeps for the file of that name to the start of `out`, which has room for 64 bytes. Returns its length
/// and the count of the file's hits after the request that brought it, modulo 2^32; both are 0 if none is kept for that file.
#[unsafe(no_mangle)]
pub extern "C" fn uip_query(
    alloc: Global,
    device: &mut UipDevice,
    name: &[u8],
    out: &mut [u8],
) -> UipQuery
    ensures known { (result.status ≡ OK) ⊎ (result.status ≡ NO_DEVICE) ⊎ (result.status ≡ BAD_ARGUMENT) }
    ensures fine { result.status ≡ OK → HasNode (λ node. let web = node.shared.web in
        ReadsQuery (query_of (files_of web.site) node.shared.query name.now) result.hit result.len out.old out.new)
        device.old.held.device }
    ensures no_device { result.status ≡ NO_DEVICE → device.old.held.device ≡ NoDevice }
    ensures unread { (result.status ≡ OK → ⊥) → (result.hit ≡ 0) × (result.len ≡ 0) × (out.new ≡ out.old) }
    ensures bad_call { (result.status == BAD_ARGUMENT) ≡ nat_lt (length out.old) 64 }
    ensures same { device.new.held.device ≡ device.old.held.device }
{
    if out.len() < LONGEST_QUERY {
        return UipQuery::unread(BAD_ARGUMENT);
    }
    read_device!(UipQuery, alloc, device, opened => node_query(node_of(&opened), name, out))
}

/// Returns the connection in a slot from 0 to 9, as `tcp-connections` shows it. For a CLOSED slot all fields except the status are 0.
#[unsafe(no_mangle)]
pub extern "C" fn uip_connection(alloc: Global, device: &mut UipDevice, slot: usize) -> UipRow
    ensures known { (result.status ≡ OK) ⊎ (result.status ≡ NO_DEVICE) ⊎ (result.status ≡ BAD_ARGUMENT) }
    ensures fine { result.status ≡ OK → HasAbstractNode (λ files n. ReportsRow (connection_row slot n) result) device.old.held.device }
    ensures no_device { result.status ≡ NO_DEVICE → device.old.held.device ≡ NoDevice }
    ensures bad_call { (result.status == BAD_ARGUMENT) ≡ nat_le 10 slot }
    ensures unread { (result.status ≡ OK → ⊥) → IsNoRow result }
    ensures same { device.new.held.device ≡ device.old.held.device }
{
    if slot >= 10 {
        return UipRow::unread(BAD_ARGUMENT);
    }
    read_device!(UipRow, alloc, device, opened => node_row(node_of(&opened), slot))
}

/// Sets value `number`, from 0 to 15, to a copy of `text`, at most 32 bytes. Pending output is unchanged.
#[unsafe(no_mangle)]
pub extern "C" fn uip_set_value(
    alloc: Global,
    device: &mut UipDevice,
    number: usize,
    text: &[u8],
) -> u32
    ensures known { (result ≡ OK) ⊎ (result ≡ NO_DEVICE) ⊎ (result ≡ BAD_ARGUMENT) }
    ensures fine { result ≡ OK → HandleGives number text.now device.old.held.device device.new.held.device }
    ensures no_device { result ≡ NO_DEVICE → device.old.held.device ≡ NoDevice }
    ensures bad_call { (result == BAD_ARGUMENT) ≡ (nat_lt 15 number || nat_lt 32 (length text.now)) }
    ensures refused { (result ≡ OK → ⊥) → device.new.held.device ≡ device.old.held.device }
{
    if number >= MOST_VALUES || text.len() > LONGEST_VALUE {
        return BAD_ARGUMENT;
    }
    let Some(mut opened) = take_out(alloc, device) else {
        return NO_DEVICE;
    };
    give(&mut opened, number, text);
    put_in(device, opened);
    OK
}
