//! A disk, served over what it is kept in.

ghost use Rattle.std.specs.Prelude.{◌≡◌, ◌<◌, ◌≤◌, IfOk, Ok, false, map, option_map, true};
ghost use Rattle.scsi_disk.specs.Disk.{most_blocks};
ghost use Rattle.iscsi_serve_words.specs.Said.{SaysJob};
ghost use Rattle.iscsi_serve_words.specs.Services.{IsServeJob};
ghost use Rattle.iscsi_disk_service.specs.Disks.{EndsDisk, EndsStorage, disk_status};
ghost use Rattle.iscsi_target.specs.Advances.{store_of};
ghost use Rattle.iscsi_disk_service.specs.Doors.{ServesAsked, some_names};
ghost use Rattle.iscsi_disk_service.specs.inner.Asked.{IsAsked};
ghost use Rattle.iscsi_serving.specs.Access.{door_of};
ghost use Rattle.iscsi_event_loop.specs.Serving.{IsEmpty};
ghost use Rattle.iscsi_event_loop.specs.declared.server.running.RunEnd.TheVariants as ends;

use crate::serial::own_serial;
use iscsi_event_loop::{RunEnd, Server, memory_store, serve_at_once, serve_in_turn};
use iscsi_secrets::{Secrets, SecretsFault};
use iscsi_serve_words::{
    Image, ImageFault, NbdExport, NbdFault, NbdUse, ServeJob, Service, Storage, read_initiators,
};
use iscsi_serving::{Access, ServeFault};
use scsi_disk::{BlockStore, ReadOnly, SparseStore};
use scsi_file::{FileStore, HostFile, Medium, OpenImage};
use std::convert::AsStr;
use std::io::{self, Write};

/// Why the service of a disk stopped.
#[derive(Debug, Drop)]
pub enum DiskFault<'a> {
    /// The service stopped.
    Session(ServeFault),
    /// The image could not be served.
    Image(Image<'a>, ImageFault),
    /// The export could not be served.
    Nbd(NbdExport<'a>, NbdFault),
    /// The file of secrets of this name is not taken.
    Secrets(&'a str, SecretsFault),
}

impl DiskFault<'_> {
    /// The exit status of the fault: that of the service, 3 for memory, or else 4.
    pub fn status(&self) -> u8
        ensures status { result ≡ disk_status self.now }
    {
        match self {
            DiskFault::Session(fault) => fault.status(),
            DiskFault::Image(_, fault) => fault.status(),
            DiskFault::Nbd(_, fault) => fault.status(),
            DiskFault::Secrets(_, SecretsFault::NoMemory) => 3,
            DiskFault::Secrets(_, _) => 4,
        }
    }

    /// Writes the fault's line, which names the image or the export. The line of an export is left out
    /// if it was written before.
    pub fn tell<E: Write>(&self, w: &mut E) -> io::Result<()> {
        match self {
            DiskFault::Session(fault) => writeln!(w, "{fault}"),
            DiskFault::Image(image, fault) => {
                let name = image.path;
                writeln!(w, "{name}: {fault}")
            }
            DiskFault::Nbd(export, fault) => {
                if fault.is_told() {
                    return Ok(());
                }
                let word = export.word;
                writeln!(w, "{word}: {fault}")
            }
            DiskFault::Secrets(path, fault) => writeln!(w, "{path}: {fault}"),
        }
    }
}

/// Does what a job of `serve` asks for: serves its disk, over what it is kept in, until its service ends.
/// If it is to be read alone, each write is refused. The job comes from these words, the first of which is
/// `serve`. If the words list initiators, no other one may log in; if there is a file of secrets, a login
/// has to show one. Without a serial number the disk has one of its own. `Secrets`, `Image` and `Nbd` come if
/// the file, the image or the export is not opened, `Session` as the service gives it, if there is no
/// memory for the list, and if the system gives no random bytes for a serial number.
#[tactic(auto, using(crate::proofs::OpenLemmas::lists_them))]
pub fn serve_storage<'a, S: AsStr>(
    rt: &HostRuntime,
    words: &[S],
    job: ServeJob<'a>,
) -> Result<(), DiskFault<'a>>
    requires job { IsServeJob job }
    requires says { SaysJob (map S.text words.now) job }
    // What is blamed is what was asked for.
    ensures ends { EndsDisk job.entry result }
{
    // The words were read before, so that nothing but memory is wanting.
    let Ok(initiators) = read_initiators(rt.alloc(), words) else {
        return Err(DiskFault::Session(ServeFault::NoMemory));
    };
    let secrets = match job.secrets {
        Some(path) => match Secrets::open(rt, path) {
            Ok(secrets) => {
                tell_of_secrets(rt, path, &secrets);
                Some(secrets)
            }
            Err(fault) => return Err(DiskFault::Secrets(path, fault)),
        },
        None => None,
    };
    let access = Access {
        initiators: listed(initiators.as_slice()),
        secrets: secrets.as_ref(),
    };
    let own = match serial_of(rt, &job) {
        Ok(own) => own,
        Err(fault) => return Err(DiskFault::Session(fault)),
    };
    let served = Serving {
        serial: job.serial.unwrap_or(&own),
        access,
    };
    if job.read_only {
        serve_read_only(rt, words, job, served)
    } else {
        serve_written(rt, words, job, served)
    }
}

/// What a job does not say of its service: the serial number, and who may log in.
#[derive(Clone, Copy)]
struct Serving<'a> {
    serial: &'a [u8],
    access: Access<'a>,
}

// Tells what may be a mistake in a file of secrets that is taken. A line that standard error doesn't take
// is lost.
fn tell_of_secrets(rt: &HostRuntime, path: &str, secrets: &Secrets) {
    if !secrets.has_users() {
        let _ = eprintln!(rt; "{path}: there is no user, so nobody may log in");
    }
    for remark in secrets.remarks() {
        let _ = eprintln!(rt; "{path}: {remark}");
    }
}

// A serial number of the disk's own, if it tells one and none is said.
fn serial_of(rt: &HostRuntime, job: &ServeJob<'_>) -> Result<[u8; 16], ServeFault> {
    match (&job.service, job.serial) {
        (Service::AtOnce(options), None) if options.unit.is_some() => {
            own_serial(rt, options.name, &job.storage)
        }
        _ => Ok([b'0'; 16]),
    }
}

// The names that are listed, if there is one.
fn listed<'a>(initiators: &'a [&'a [u8]]) -> Option<&'a [&'a [u8]]>
    ensures names { option_map (λ names. map (λ name. name.now) names.now) result
        ≡ some_names (map (λ name. name.now) initiators.now) }
{
    if initiators.is_empty() {
        None
    } else {
        Some(initiators)
    }
}

// Serves a disk that may be written.
#[tactic(auto, using(crate::proofs::OpenLemmas::can_be_opened))]
fn serve_written<'a, S: AsStr>(
    rt: &HostRuntime,
    words: &[S],
    job: ServeJob<'a>,
    served: Serving<'_>,
) -> Result<(), DiskFault<'a>>
    requires job { IsServeJob job }
    requires asked { IsAsked (map S.text words.now) job served.access false }
    ensures ends { EndsStorage job.entry.storage result }
{
    match job.storage {
        Storage::Memory { blocks } => ended(
            job.storage,
            serve_memory(rt, words, job, served, blocks),
        ),
        Storage::Image(image) => match image.open(rt) {
            Ok(store) => ended(job.storage, serve_image(rt, words, job, served, store)),
            Err(fault) => Err(DiskFault::Image(image, fault)),
        },
        Storage::Nbd(export) => match export.open(rt, use_of(&job.service)) {
            Ok(store) => ended(job.storage, serve_medium(rt, words, job, served, store)),
            Err(fault) => Err(DiskFault::Nbd(export, fault)),
        },
    }
}

// Serves a disk in the same way, of which no block changes.
fn serve_read_only<'a, S: AsStr>(
    rt: &HostRuntime,
    words: &[S],
    job: ServeJob<'a>,
    served: Serving<'_>,
) -> Result<(), DiskFault<'a>>
    requires job { IsServeJob job }
    requires asked { IsAsked (map S.text words.now) job served.access true }
    ensures ends { EndsStorage job.entry.storage result }
{
    match job.storage {
        Storage::Memory { blocks } => {
            let mut store = ReadOnly::new(SparseStore::new(rt.alloc(), blocks));
            ended(job.storage, serve_store(rt, words, job, served, &mut store))
        }
        Storage::Image(image) => match image.open_read_only(rt) {
            Ok(store) => ended(job.storage, serve_read_image(rt, words, job, served, store)),
            Err(fault) => Err(DiskFault::Image(image, fault)),
        },
        Storage::Nbd(export) => match export.open(rt, NbdUse::ReadAlone) {
            Ok(store) => {
                let mut store = ReadOnly::new(store);
                ended(job.storage, serve_store(rt, words, job, served, &mut store))
            }
            Err(fault) => Err(DiskFault::Nbd(export, fault)),
        },
    }
}

// How a service ended: by itself, or by a fault of its own.
fn ended<'a>(storage: Storage<'a>, said: Result<(), ServeFault>) -> Result<(), DiskFault<'a>>
    ensures ends { EndsStorage storage.entry result }
{
    match said {
        Ok(()) => Ok(()),
        Err(fault) => Err(DiskFault::Session(fault)),
    }
}

// Serves a disk in memory.
fn serve_memory<S: AsStr>(
    rt: &HostRuntime,
    words: &[S],
    job: ServeJob<'_>,
    served: Serving<'_>,
    blocks: u64,
) -> Result<(), ServeFault>
    requires job { IsServeJob job }
    requires asked { IsAsked (map S.text words.now) job served.access false }
    requires some { 0 < blocks }
    requires few { blocks ≤ most_blocks }
{
    match job.service {
        Service::InTurn(_) => {
            let mut store = SparseStore::new(rt.alloc(), blocks);
            serve_store(rt, words, job, served, &mut store)
        }
        Service::AtOnce(_) => {
            let mut store = memory_store(rt, blocks, job.memory);
            serve_store(rt, words, job, served, &mut store)
        }
    }
}

// Serves a store on a medium, with a write cache if one is asked for.
fn serve_medium<S: AsStr, M: Medium + Drop>(
    rt: &HostRuntime,
    words: &[S],
    job: ServeJob<'_>,
    served: Serving<'_>,
    store: FileStore<M>,
) -> Result<(), ServeFault>
    requires job { IsServeJob job }
    requires asked { IsAsked (map S.text words.now) job served.access false }
{
    let mut store = cached(&job.service, store);
    serve_store(rt, words, job, served, &mut store)
}

// A store on a medium, with a write cache if one is asked for.
fn cached<M: Medium + Drop>(service: &Service<'_>, store: FileStore<M>) -> FileStore<M> {
    if has_cache(service) {
        store.with_write_back()
    } else {
        store
    }
}

// Serves an image. Whenever nobody is connected and it has grown, a new store has all its blocks.
fn serve_image<'a, S: AsStr>(
    rt: &HostRuntime,
    words: &[S],
    job: ServeJob<'a>,
    served: Serving<'a>,
    store: FileStore<HostFile>,
) -> Result<(), ServeFault>
    requires job { IsServeJob job }
    requires asked { IsAsked (map S.text words.now) job served.access false }
{
    let image = OpenImage::of(store.medium());
    let mut server = opened(rt, job, served)?;
    watch(&mut server, store.medium(), store.blocks());
    let mut store = cached(&job.service, store);
    server.announce(rt, false)?;
    for _ in 0..u64::MAX {
        match serve_run(rt, words, job, served, &mut server, &mut store)? {
            RunEnd::Done => return Ok(()),
            RunEnd::Grown => {
                if let Some(grown) = grown(&image)? {
                    store = cached(&job.service, grown);
                }
            }
        }
    }
    Ok(())
}

// Serves an image in the same way, of which no block changes.
fn serve_read_image<'a, S: AsStr>(
    rt: &HostRuntime,
    words: &[S],
    job: ServeJob<'a>,
    served: Serving<'a>,
    store: FileStore<HostFile>,
) -> Result<(), ServeFault>
    requires job { IsServeJob job }
    requires asked { IsAsked (map S.text words.now) job served.access true }
{
    let image = OpenImage::of(store.medium());
    let mut server = opened(rt, job, served)?;
    watch(&mut server, store.medium(), store.blocks());
    let mut store = ReadOnly::new(store);
    server.announce(rt, true)?;
    for _ in 0..u64::MAX {
        match serve_run(rt, words, job, served, &mut server, &mut store)? {
            RunEnd::Done => return Ok(()),
            RunEnd::Grown => {
                if let Some(grown) = grown(&image)? {
                    store = ReadOnly::new(grown);
                }
            }
        }
    }
    Ok(())
}

// Looks whether the image of a medium grows, of which so many blocks are served.
fn watch(server: &mut Server<'_>, medium: &HostFile, blocks: u64)
    ensures same { server.new ≡ server.old }
{
    if let Some(image) = OpenImage::of(medium) {
        server.watch(image, blocks);
    }
}

// A new store over the open file of an image, all of which lasts; none where its size can't be read, so that the
// old store goes on.
fn grown(image: &Option<OpenImage>) -> Result<Option<FileStore<HostFile>>, ServeFault> {
    let Some(medium) = image.as_ref().and_then(|image| image.medium()) else {
        return Ok(None);
    };
    match FileStore::new(medium) {
        Ok(store) => Ok(Some(store)),
        Err(_) => Err(ServeFault::Sync),
    }
}

// A server that listens, and has no session, for those who may log in.
fn opened<'a>(
    rt: &HostRuntime,
    job: ServeJob<'a>,
    served: Serving<'a>,
) -> Result<Server<'a>, ServeFault>
    ensures empty { IfOk result (λ server. IsEmpty server.room.table) }
    ensures door { IfOk result (λ server. server.room.door ≡ door_of served.entry.access) }
{
    match job.service {
        Service::InTurn(options) => Server::open_in_turn(rt, options, served.access),
        Service::AtOnce(options) => Server::open(rt, options, served.serial, served.access),
    }
}

// A run of a server over a store, as the words and their job ask: who calls this has to have the access and the
// store that they ask for.
#[tactic(auto, using(crate::proofs::OpenLemmas::run_asked))]
fn serve_run<S: AsStr, B: BlockStore>(
    rt: &HostRuntime,
    words: &[S],
    job: ServeJob<'_>,
    served: Serving<'_>,
    server: &mut Server<'_>,
    store: &mut B,
) -> Result<RunEnd, ServeFault>
    requires job { IsServeJob job }
    requires asked { IsAsked (map S.text words.now) job served.access B.protected }
    requires empty { IsEmpty server.old.room.table }
    requires door { server.old.room.door ≡ door_of served.access }
    // Whatever comes of it, it was a run of such a service.
    ensures serves { ServesAsked (map S.text words.now) job.entry B.protected
        (store_of (B.disk store.old) (B.failures store.old))
        (store_of (B.disk store.new) (B.failures store.new)) }
    ensures empty { result ≡ Ok ends.Grown → IsEmpty server.new.room.table }
    ensures door { server.new.room.door ≡ door_of served.entry.access }
{
    server.run(rt, store)
}

// How an export is used that is written: a thin disk has it give room back.
fn use_of(service: &Service<'_>) -> NbdUse {
    match service {
        Service::AtOnce(options) => match &options.unit {
            Some(unit) if unit.thin => NbdUse::Thin,
            _ => NbdUse::Written,
        },
        Service::InTurn(_) => NbdUse::Written,
    }
}

// Whether a disk with a write cache is asked for.
fn has_cache(service: &Service<'_>) -> bool {
    match service {
        Service::InTurn(_) => false,
        Service::AtOnce(options) => match &options.unit {
            Some(unit) => unit.write_back,
            None => false,
        },
    }
}

// Serves a store, as the words and their job ask: who calls this has to have the access and the store that
// they ask for.
#[tactic(auto, using(crate::proofs::OpenLemmas::serves_asked))]
fn serve_store<S: AsStr, B: BlockStore>(
    rt: &HostRuntime,
    words: &[S],
    job: ServeJob<'_>,
    served: Serving<'_>,
    store: &mut B,
) -> Result<(), ServeFault>
    requires job { IsServeJob job }
    requires asked { IsAsked (map S.text words.now) job served.access B.protected }
    // Whatever comes of it, it was a run of such a service.
    ensures serves { ServesAsked (map S.text words.now) job.entry B.protected
        (store_of (B.disk store.old) (B.failures store.old))
        (store_of (B.disk store.new) (B.failures store.new)) }
{
    match job.service {
        Service::InTurn(options) => serve_in_turn(rt, options, served.access, store),
        Service::AtOnce(options) => {
            serve_at_once(rt, options, served.serial, served.access, store)
        }
    }
}
