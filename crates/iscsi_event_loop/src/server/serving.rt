//! A turn of each slot, and what follows of it.

ghost use Rattle.std.specs.Prelude.{◌≡◌, ◌≤◌, length};
ghost use Rattle.iscsi_target.specs.Advances.{store_of};
ghost use Rattle.iscsi_event_loop.specs.Running.{RunsFew, RunsIdle, RunsInTurns, TurnOf, most_pdus};

use super::Server;
use crate::budget::Budget;
use iscsi_login::Phase;
use iscsi_options::Stop;
use iscsi_serving::SessionEnd;
use scsi_disk::BlockStore;
use std::time::Instant;

impl<'a> Server<'a> {
    // A turn for each peer.
    #[tactic(auto, using(crate::proofs::RunningLemmas::none_in_turns, crate::proofs::RunningLemmas::all_turns, crate::proofs::RunningLemmas::all_few))]
    pub(super) fn serve_peers<S: BlockStore>(
        &mut self,
        rt: &HostRuntime,
        store: &mut S,
        now: Instant,
    )
        // Each slot has a turn, in which it takes a few PDUs at most.
        ensures turns { RunsInTurns S.protected
            self.old.room (store_of (S.disk store.old) (S.failures store.old))
            self.new.room (store_of (S.disk store.new) (S.failures store.new)) }
        ensures few { RunsFew S.protected (λ k. most_pdus)
            self.old.room (store_of (S.disk store.old) (S.failures store.old))
            self.new.room (store_of (S.disk store.new) (S.failures store.new)) }
        ensures slots { length self.new.room.table.slots ≡ length self.old.room.table.slots }
        ensures most { self.new.most ≡ self.old.most }
        ensures counted { self.old.counted ≤ self.new.counted }
    {
        let taken = self.peers.iter().filter(|peer| peer.is_some()).count();
        let budget = Budget::of(taken);
        for slot in 0..self.peers.len() {
            self.serve_peer(rt, store, slot, now, budget);
        }
    }

    // A turn for the peer of a slot, if there is one.
    #[tactic(auto, using(crate::proofs::RunningLemmas::none_turn, crate::proofs::RunningLemmas::idle_turn))]
    fn serve_peer<S: BlockStore>(
        &mut self,
        rt: &HostRuntime,
        store: &mut S,
        slot: usize,
        now: Instant,
        budget: Budget,
    )
        ensures turn { TurnOf S.protected slot budget
            self.old.room (store_of (S.disk store.old) (S.failures store.old))
            self.new.room (store_of (S.disk store.new) (S.failures store.new)) }
        ensures slots { length self.new.room.table.slots ≡ length self.old.room.table.slots }
        ensures most { self.new.most ≡ self.old.most }
        ensures counted { self.old.counted ≤ self.new.counted }
    {
        let Some(Some(peer)) = self.peers.get_mut(slot) else {
            return;
        };
        let was = self.table.phase(slot);
        let is_over = peer.turn(&mut self.table, store, slot, now, budget)
            || peer.is_late(
                &self.manner,
                &self.options.limits,
                self.table.phase(slot),
                now,
            );
        let end = peer.end;
        let phase = self.table.phase(slot);
        self.settle(
            rt,
            slot,
            was != phase && phase == Some(Phase::Full),
            is_over,
            end,
        );
    }

    // What follows of a slot's turn: a login that was completed is counted, and a session that is over
    // leaves.
    #[tactic(auto, using(crate::proofs::RunningLemmas::none_idle, crate::proofs::RunningLemmas::then_idle))]
    fn settle(
        &mut self,
        rt: &HostRuntime,
        slot: usize,
        is_login: bool,
        is_over: bool,
        end: Option<SessionEnd>,
    )
        ensures runs { RunsIdle self.old.room self.new.room }
        ensures slots { length self.new.room.table.slots ≡ length self.old.room.table.slots }
        ensures most { self.new.most ≡ self.old.most }
        ensures counted { self.old.counted ≤ self.new.counted }
    {
        if is_login {
            self.tell_login(rt, slot);
            self.tell_growth(rt, slot);
            self.end_older(rt, slot);
            self.tell_other(rt, slot);
            self.count_login(rt);
        }
        if is_over {
            self.close(rt, slot, end);
        }
    }

    // A login was completed, and is counted, if logins end the service. With the last one that is to be,
    // connections that have not logged in are ended.
    #[tactic(auto, using(crate::proofs::RunningLemmas::none_idle))]
    fn count_login(&mut self, rt: &HostRuntime)
        ensures runs { RunsIdle self.old.room self.new.room }
        ensures slots { length self.new.room.table.slots ≡ length self.old.room.table.slots }
        ensures most { self.new.most ≡ self.old.most }
        ensures counted { self.old.counted ≤ self.new.counted }
    {
        if let Some(Stop::Logins(_)) = self.options.stop {
            self.count();
            if self.listener.is_none() {
                self.dismiss_guests(rt);
            }
        }
    }
}
