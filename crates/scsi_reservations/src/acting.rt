//! The actions of PERSISTENT RESERVE OUT (SPC-4, section 5.13).

ghost use Rattle.std.specs.Prelude.{◌≡◌, ◌≤◌, IfOk, OnErr};
ghost use Rattle.std.specs.Vec.{vec_capacity, vec_len};
ghost use Rattle.scsi_reservations.specs.Reservations.{Reservations, is_registered_key, is_listed_with, may_ask_for, reserve, keyed, only, reserving, releasing, removing, preempting, with_registrations, taking, without_port, without_key, without_others};

use crate::ask::{Action, Ask, Verdict};
use crate::kind::Kind;
use crate::port::Port;
use crate::refusal::Refusal;
use crate::reservations::{Holding, Registration, Reservations, is_holder, is_listed};
use std::alloc::AllocError;

/// The most ports that are registered.
const MOST_REGISTRATIONS: usize = 64;

// Whether the port is registered with this key.
fn is_listed_with(list: &[Registration], port: &Port, key: u64) -> bool
    ensures { result ≡ is_listed_with list.now port.now key }
{
    list.iter().any(|registration| registration.port.is(port) && registration.key == key)
}

// Whether somebody is registered with this key.
fn is_registered_key(list: &[Registration], key: u64) -> bool
    ensures { result ≡ is_registered_key list.now key }
{
    list.iter().any(|registration| registration.key == key)
}

// Takes the port off. The room of the list stays.
fn take_off(list: &mut Vec<Registration>, port: &Port)
    ensures items { list.new.items ≡ without_port port.now list.old.items }
    ensures len { vec_len list.new ≤ vec_len list.old }
    ensures capacity { vec_capacity list.new ≡ vec_capacity list.old }
{
    list.retain(|registration| !registration.port.is(port));
}

// Takes all ports of a key off.
fn take_key_off(list: &mut Vec<Registration>, key: u64)
    ensures { list.new.items ≡ without_key key list.old.items }
{
    list.retain(|registration| registration.key != key);
}

// Takes all ports of a key off but this one.
fn take_others_off(list: &mut Vec<Registration>, key: u64, port: &Port)
    ensures { list.new.items ≡ without_others key port.now list.old.items }
{
    list.retain(|registration| registration.port.is(port) || registration.key != key);
}

// Takes all ports off but this one.
fn take_all_others_off(list: &mut Vec<Registration>, port: &Port)
    ensures { list.new.items ≡ only port.now list.old.items }
{
    list.retain(|registration| registration.port.is(port));
}

impl Reservations {
    /// Does what PERSISTENT RESERVE OUT of a port asks. If memory runs out, nothing has changed.
    pub fn reserve(&mut self, port: Port, ask: &Ask) -> Result<Verdict, AllocError>
        ensures ok { IfOk result (λ verdict.
            reserve self.old port ask.now ≡ record { reservations = self.new; verdict = verdict }) }
        ensures err { OnErr result (self.new ≡ self.old) }
    {
        if !self.may_ask_for(&port, ask) {
            return Ok(Verdict::Conflict);
        }
        match ask.action {
            Action::Register | Action::RegisterAndIgnore => {
                self.register(port, ask.service_key, ask.lasts)
            }
            Action::Reserve(kind) => Ok(self.hold(port, kind)),
            Action::Release(kind) => Ok(self.release(&port, kind)),
            Action::Clear => {
                self.registrations.clear();
                self.settle();
                Ok(Verdict::Good)
            }
            Action::Preempt(kind) | Action::PreemptAndAbort(kind) => {
                Ok(self.preempt(port, kind, ask.service_key))
            }
        }
    }

    // Whether the port may ask that.
    fn may_ask_for(&self, port: &Port, ask: &Ask) -> bool
        ensures { result ≡ may_ask_for self.now.registrations port.now ask.now.key ask.now.action }
    {
        let list = self.registrations.as_slice();
        match ask.action {
            Action::RegisterAndIgnore => true,
            Action::Register => {
                if is_listed(list, port) {
                    is_listed_with(list, port, ask.key)
                } else {
                    ask.key == 0
                }
            }
            _ => is_listed_with(list, port, ask.key),
        }
    }

    // Counts a change of registrations, and ends a reservation whose holder is off.
    fn settle(&mut self)
        ensures { self.new ≡ with_registrations self.old self.old.registrations self.old.held }
    {
        self.generation = self.generation.wrapping_add(1);
        let list = self.registrations.as_slice();
        let stays = match &self.held {
            Some(held) if held.kind.is_of_all() => !list.is_empty(),
            Some(held) => is_listed(list, &held.holder),
            None => true,
        };
        if !stays {
            self.held = None;
        }
    }

    // The port gets this key, or with a key of 0 goes off.
    fn register(&mut self, port: Port, key: u64, lasts: bool) -> Result<Verdict, AllocError>
        ensures ok { IfOk result (λ verdict.
            keyed self.old port key lasts ≡ record { reservations = self.new; verdict = verdict }) }
        ensures err { OnErr result (self.new ≡ self.old) }
    {
        let list = self.registrations.as_slice();
        if key != 0 && !is_listed(list, &port) && list.len() >= MOST_REGISTRATIONS {
            return Ok(Verdict::Refused(Refusal::NoRoom));
        }
        if key != 0 {
            self.registrations.reserve(1)?;
        }
        take_off(&mut self.registrations, &port);
        if key != 0 {
            self.registrations.push(Registration { port, key })?;
        }
        self.lasts = lasts;
        self.settle();
        Ok(Verdict::Good)
    }

    // The port holds a reservation of this type, if nothing else is reserved.
    fn hold(&mut self, port: Port, kind: Kind) -> Verdict
        ensures { reserving self.old port kind self.old.held
            ≡ record { reservations = self.new; verdict = result } }
    {
        let list = self.registrations.as_slice();
        match &self.held {
            Some(held) if is_holder(list, held, &port) && held.kind == kind => Verdict::Good,
            Some(_) => Verdict::Conflict,
            None => {
                if kind.is_of_all() && list.is_empty()
                    || !kind.is_of_all() && !is_listed(list, &port)
                {
                    return Verdict::Good;
                }
                self.held = Some(Holding { kind, holder: port });
                Verdict::Good
            }
        }
    }

    // The port gives up the reservation of this type.
    fn release(&mut self, port: &Port, kind: Kind) -> Verdict
        ensures { releasing self.old port.now kind self.old.held
            ≡ record { reservations = self.new; verdict = result } }
    {
        let list = self.registrations.as_slice();
        match &self.held {
            Some(held) if is_holder(list, held, port) => {
                if held.kind != kind {
                    return Verdict::Refused(Refusal::InvalidRelease);
                }
                self.held = None;
                Verdict::Good
            }
            _ => Verdict::Good,
        }
    }

    // The ports of a key go off.
    fn remove(&mut self, key: u64) -> Verdict
        ensures { removing self.old key ≡ record { reservations = self.new; verdict = result } }
    {
        if key == 0 {
            return Verdict::Refused(Refusal::InvalidParameter);
        }
        if !is_registered_key(self.registrations.as_slice(), key) {
            return Verdict::Conflict;
        }
        take_key_off(&mut self.registrations, key);
        self.settle();
        Verdict::Good
    }

    // The port takes the reservation of a key, or of all with a key of 0; else the ports of the key go
    // off.
    fn preempt(&mut self, port: Port, kind: Kind, key: u64) -> Verdict
        ensures { preempting self.old port kind key self.old.held
            ≡ record { reservations = self.new; verdict = result } }
    {
        let list = self.registrations.as_slice();
        match &self.held {
            Some(held) if held.kind.is_of_all() => {
                if key != 0 {
                    return self.remove(key);
                }
                take_all_others_off(&mut self.registrations, &port);
                self.take(port, kind)
            }
            Some(held) if is_listed_with(list, &held.holder, key) => {
                take_others_off(&mut self.registrations, key, &port);
                self.take(port, kind)
            }
            _ => self.remove(key),
        }
    }

    // The port holds a reservation of this type, whatever was reserved.
    fn take(&mut self, port: Port, kind: Kind) -> Verdict
        ensures { taking self.old port kind self.old.registrations
            ≡ record { reservations = self.new; verdict = result } }
    {
        self.held = Some(Holding { kind, holder: port });
        self.settle();
        Verdict::Good
    }
}
