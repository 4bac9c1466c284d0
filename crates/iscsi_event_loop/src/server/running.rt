//! Turn after turn, until a run of the service ends.

ghost use Rattle.std.specs.Prelude.{◌≡◌, ◌⊎◌, IfErr, Ok, length, true};
ghost use Rattle.iscsi_target.specs.Advances.{store_of};
ghost use Rattle.iscsi_serving.specs.Executed.{HasExecuted};
ghost use Rattle.iscsi_serving.specs.Faults.{EndsService};
ghost use Rattle.iscsi_serving.specs.declared.fault.ServeFault.TheVariants as serve;
ghost use Rattle.iscsi_event_loop.specs.declared.server.running.RunEnd.TheVariants as ends;
ghost use Rattle.iscsi_event_loop.specs.Running.{IsSameRoom, RunsWithin, Served};
ghost use Rattle.iscsi_event_loop.specs.Serving.{IsEmpty};

use super::{Server, is_empty};
use crate::growth::Watched;
use crate::system::now;
use iscsi_serving::ServeFault;
use scsi_disk::BlockStore;
use scsi_file::OpenImage;
use std::net::SocketAddr;

/// Why a run of a service ended.
#[derive(Clone, Copy, Debug, PartialEq, Eq)]
pub enum RunEnd {
    /// All sessions were served that are to be.
    Done,
    /// Nobody is connected, and the image has grown: a new store is to be served.
    Grown,
}

impl Server<'_> {
    /// Looks from now on whether this image grows, of which so many blocks are served.
    pub fn watch(&mut self, image: OpenImage, blocks: u64)
        ensures same { self.new ≡ self.old }
    {
        self.watched = Some(Watched::new(image, blocks));
    }

    /// Serves turn after turn, until all sessions were served, or nobody is connected and the image that is
    /// watched has grown. So each connection has the blocks that the image has when it comes, if nobody else is
    /// there. While somebody is, a line at each login says that the image has grown. Faults are those of `turn`.
    #[tactic(auto, using(crate::proofs::RunningLemmas::empty_served, crate::proofs::RunningLemmas::runs_same, crate::proofs::RunningLemmas::runs_executed))]
    pub fn run<S: BlockStore>(
        &mut self,
        rt: &HostRuntime,
        store: &mut S,
    ) -> Result<RunEnd, ServeFault>
        ensures runs { RunsWithin S.protected
            self.old.room (store_of (S.disk store.old) (S.failures store.old))
            self.new.room (store_of (S.disk store.new) (S.failures store.new)) }
        // From free slots on it was a run of a service, of which the laws of `iscsi_sessions` speak.
        ensures served { IsEmpty self.old.room.table
            → Served S.protected (length self.old.room.table.slots) self.old.room.door
            (store_of (S.disk store.old) (S.failures store.old))
            (store_of (S.disk store.new) (S.failures store.new)) }
        // The blocks are those that commands left.
        ensures blocks { HasExecuted S.protected (S.disk store.old) (S.disk store.new) }
        // Behind it the slots are free again, for those who were let in before.
        ensures empty { result ≡ Ok ends.Grown → IsEmpty self.new.room.table }
        ensures same { IsSameRoom self.old.room self.new.room }
        ensures ends { IfErr result EndsService }
    {
        self.run_on(rt, store)
    }

    // Turn after turn.
    #[tactic(auto, using(crate::proofs::RunningLemmas::none_runs, crate::proofs::RunningLemmas::then_runs))]
    fn run_on<S: BlockStore>(
        &mut self,
        rt: &HostRuntime,
        store: &mut S,
    ) -> Result<RunEnd, ServeFault>
        ensures runs { RunsWithin S.protected
            self.old.room (store_of (S.disk store.old) (S.failures store.old))
            self.new.room (store_of (S.disk store.new) (S.failures store.new)) }
        ensures empty { result ≡ Ok ends.Grown → IsEmpty self.new.room.table }
        ensures ends { IfErr result EndsService }
    {
        for _ in 0..u64::MAX {
            if self.is_done() {
                self.tell_rest(rt);
                return Ok(RunEnd::Done);
            }
            self.wait(now(rt)?)?;
            if self.begins_anew() {
                return Ok(RunEnd::Grown);
            }
            self.act(rt, store)?;
        }
        Ok(RunEnd::Done)
    }

    // Whether nobody is connected, and the image has grown. Then its blocks count as served.
    fn begins_anew(&mut self) -> bool
        ensures same { self.new ≡ self.old }
        ensures empty { result ≡ true → IsEmpty self.new.room.table }
    {
        if !is_empty(&self.table) {
            return false;
        }
        match &mut self.watched {
            Some(watched) => watched.take_growth(),
            None => false,
        }
    }

    /// Prints `listening` and, if asked, the port on a line of its own. If other machines can reach the disk
    /// without a secret, a line on standard error says that they may read it, or write it unless it is protected.
    pub fn announce(&self, rt: &HostRuntime, is_protected: bool) -> Result<(), ServeFault>
        ensures fault { IfErr result (λ fault. (fault ≡ serve.Network) ⊎ (fault ≡ serve.Write)) }
    {
        self.warn(rt, is_protected)?;
        if println!(rt; "listening").is_err() {
            return Err(ServeFault::Write);
        }
        if self.options.print_port {
            let port = self.port()?;
            if println!(rt; "{port}").is_err() {
                return Err(ServeFault::Write);
            }
        }
        Ok(())
    }

    // Tells that whoever reaches the port may read the disk, or write it, if other machines can reach it and
    // have to show no secret.
    fn warn(&self, rt: &HostRuntime, is_protected: bool) -> Result<(), ServeFault>
        ensures fault { IfErr result (λ fault. fault ≡ serve.Network) }
    {
        let listen = self.options.listen;
        if listen.is_loopback() || self.access.secrets.is_some() {
            return Ok(());
        }
        let portal = SocketAddr::new(listen, self.port()?);
        let may = if is_protected {
            "read"
        } else {
            "read and write"
        };
        let _ = eprintln!(rt; "whoever reaches {portal} may {may} this disk");
        Ok(())
    }
}
