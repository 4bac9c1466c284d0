//! The data of PERSISTENT RESERVE IN (SPC-4, section 6.15).

ghost use Rattle.std.specs.Prelude.{◌≡◌, ◌++◌, length, IfOk, OnOk};
ghost use Rattle.scsi_reservations.specs.Data.{capabilities_data, id_filling, full_status_data, holding_data, key_of, keys_data, keys_of, length16, length32, padded_text, report_data, reservation_data, status_of, statuses_of, transport_id};

use crate::port::Port;
use crate::report::Report;
use crate::reservations::{Holding, Registration, Reservations, is_holder};
use std::alloc::{AllocError, Global};

// A length in four bytes: the highest number if it is longer.
fn length32(n: usize) -> [u8; 4]
    ensures { result ≡ length32 n }
{
    u32::try_from(n).unwrap_or(u32::MAX).to_be_bytes()
}

// A length in two bytes: the highest number if it is longer.
fn length16(n: usize) -> [u8; 2]
    ensures { result ≡ length16 n }
{
    u16::try_from(n).unwrap_or(u16::MAX).to_be_bytes()
}

// What is lacking to a multiple of four bytes, and to 20.
fn id_filling(n: usize) -> usize
    ensures { result ≡ id_filling n }
{
    if n < 20 { 20 - n } else { (4 - n % 4) % 4 }
}

// Appends the keys.
fn append_keys(list: &[Registration], out: &mut Vec<u8>) -> Result<(), AllocError>
    ensures ok { OnOk result (out.new.items ≡ out.old.items ++ keys_of list.now) }
{
    let Some((first, rest)) = list.split_first() else {
        return Ok(());
    };
    out.extend_from_slice(&first.key.to_be_bytes())?;
    append_keys(rest, out)
}

// The key of a port, or 0 if it has none.
fn key_of(list: &[Registration], port: &Port) -> u64
    ensures { result ≡ key_of list.now port.now }
{
    let Some((first, rest)) = list.split_first() else {
        return 0;
    };
    if first.port.is(port) {
        first.key
    } else {
        key_of(rest, port)
    }
}

// The name and the ISID of a port as text, filled with zero bytes.
fn padded_text(alloc: Global, port: &Port) -> Result<Vec<u8>, AllocError>
    ensures ok { IfOk result (λ text. text.items ≡ padded_text port.now) }
{
    let mut text = port.text(alloc)?;
    let length = text.len();
    text.resize(length + id_filling(length), 0)?;
    Ok(text)
}

// The TransportID of a port.
fn transport_id(alloc: Global, port: &Port) -> Result<Vec<u8>, AllocError>
    ensures ok { IfOk result (λ id. id.items ≡ transport_id port.now) }
{
    let text = padded_text(alloc, port)?;
    let mut id = Vec::new(alloc);
    id.extend_from_slice(&[0x45, 0x00])?;
    id.extend_from_slice(&length16(text.len()))?;
    id.extend_from_slice(text.as_slice())?;
    Ok(id)
}

// Whether a port holds the reservation, and its type.
fn holding_data(list: &[Registration], held: &Option<Holding>, port: &Port) -> [u8; 2]
    ensures { result ≡ holding_data list.now held.now port.now }
{
    match held {
        Some(held) if is_holder(list, held, port) => [0x01, held.kind.code()],
        _ => [0x00, 0x00],
    }
}

// A registration: its key, what its port holds, the one port of the target, and its own port.
fn status_of(
    alloc: Global,
    list: &[Registration],
    held: &Option<Holding>,
    registration: &Registration,
) -> Result<Vec<u8>, AllocError>
    ensures ok { IfOk result (λ status. status.items ≡ status_of list.now held.now registration.now) }
{
    let id = transport_id(alloc, &registration.port)?;
    let mut status = Vec::new(alloc);
    status.extend_from_slice(&registration.key.to_be_bytes())?;
    status.extend_from_slice(&[0; 4])?;
    status.extend_from_slice(&holding_data(list, held, &registration.port))?;
    status.extend_from_slice(&[0, 0, 0, 0, 0, 1])?;
    status.extend_from_slice(&length32(id.len()))?;
    status.extend_from_slice(id.as_slice())?;
    Ok(status)
}

// Appends these registrations, with what is held among all of them.
fn append_statuses(
    alloc: Global,
    all: &[Registration],
    held: &Option<Holding>,
    list: &[Registration],
    out: &mut Vec<u8>,
) -> Result<(), AllocError>
    ensures ok { OnOk result (out.new.items ≡ out.old.items ++ statuses_of all.now held.now list.now) }
{
    let Some((first, rest)) = list.split_first() else {
        return Ok(());
    };
    let status = status_of(alloc, all, held, first)?;
    out.extend_from_slice(status.as_slice())?;
    append_statuses(alloc, all, held, rest, out)
}

impl Reservations {
    /// The data of PERSISTENT RESERVE IN, whole: the allocation length may cut it. `can_last` says
    /// whether registrations can last when the power is lost. It fails only if memory runs out.
    pub fn data(&self, alloc: Global, report: Report, can_last: bool) -> Result<Vec<u8>, AllocError>
        ensures ok { IfOk result (λ bytes. bytes.items ≡ report_data self.now can_last report) }
    {
        match report {
            Report::Keys => self.keys(alloc),
            Report::Reservation => self.reservation(alloc),
            Report::Capabilities => self.capabilities(alloc, can_last),
            Report::FullStatus => self.full_status(alloc),
        }
    }

    // The keys of all who are registered.
    fn keys(&self, alloc: Global) -> Result<Vec<u8>, AllocError>
        ensures ok { IfOk result (λ bytes. bytes.items ≡ keys_data self.now) }
    {
        let list = self.registrations.as_slice();
        let mut data = Vec::new(alloc);
        data.extend_from_slice(&self.generation.to_be_bytes())?;
        data.extend_from_slice(&length32(8 * list.len()))?;
        append_keys(list, &mut data)?;
        Ok(data)
    }

    // The reservation: its holder's key, and its type.
    fn reservation(&self, alloc: Global) -> Result<Vec<u8>, AllocError>
        ensures ok { IfOk result (λ bytes. bytes.items ≡ reservation_data self.now) }
    {
        let mut data = Vec::new(alloc);
        data.extend_from_slice(&self.generation.to_be_bytes())?;
        match &self.held {
            None => data.extend_from_slice(&[0; 4])?,
            Some(held) => {
                let key = if held.kind.is_of_all() {
                    0
                } else {
                    key_of(self.registrations.as_slice(), &held.holder)
                };
                data.extend_from_slice(&[0, 0, 0, 0x10])?;
                data.extend_from_slice(&key.to_be_bytes())?;
                data.extend_from_slice(&[0, 0, 0, 0, 0, held.kind.code(), 0, 0])?;
            }
        }
        Ok(data)
    }

    // What can be reserved, and what lasts.
    fn capabilities(&self, alloc: Global, can_last: bool) -> Result<Vec<u8>, AllocError>
        ensures ok { IfOk result (λ bytes. bytes.items ≡ capabilities_data can_last self.now.lasts) }
    {
        let can = if can_last { 0x05 } else { 0x04 };
        let does = if self.lasts { 0x81 } else { 0x80 };
        Vec::from_slice(alloc, &[0x00, 0x08, can, does, 0xea, 0x01, 0x00, 0x00])
    }

    // Who is registered with which key, and who holds the reservation.
    fn full_status(&self, alloc: Global) -> Result<Vec<u8>, AllocError>
        ensures ok { IfOk result (λ bytes. bytes.items ≡ full_status_data self.now) }
    {
        let list = self.registrations.as_slice();
        let mut statuses = Vec::new(alloc);
        append_statuses(alloc, list, &self.held, list, &mut statuses)?;
        let mut data = Vec::new(alloc);
        data.extend_from_slice(&self.generation.to_be_bytes())?;
        data.extend_from_slice(&length32(statuses.len()))?;
        data.extend_from_slice(statuses.as_slice())?;
        Ok(data)
    }
}
