//! Both directions of a connection of a capture, in one pass over it.

use capture_connections::{Connection, Connections, Half, Heard, Start, Stop, heard_of};
use iscsi_captures::{CaptureFile, CapturesFault, DigestFilter, End, Numbered, Stood, WrongDigest};
use iscsi_job::{JobFault, Recorder, Which};
use std::alloc::{AllocError, Global};
use std::io::Read;

/// The first byte of a login response (RFC 7143, section 11.13).
const LOGIN_RESPONSE: u8 = 0x23;

/// A connection of a capture that is read packet by packet, and why each of its ends is not followed.
#[derive(Drop)]
pub(crate) struct Tap {
    file: CaptureFile,
    connections: Connections,
    wanted: usize,
    // why the first packet was passed over, if one was
    passed: Option<CapturesFault>,
    known: Vec<u8>,
    // what is known without digests
    plain: Vec<u8>,
    from_initiator: DigestFilter,
    from_target: DigestFilter,
    initiator: Option<CapturesFault>,
    target: Option<CapturesFault>,
}

impl Tap {
    /// A connection of which nothing was read. It takes the memory of a file's buffer.
    pub(crate) fn new(alloc: Global, files: usize, connection: usize) -> Result<Tap, AllocError> {
        Ok(Tap {
            file: CaptureFile::of_files(alloc, files)?,
            connections: Connections::new(alloc),
            wanted: connection,
            passed: None,
            known: Vec::new(alloc),
            plain: Vec::new(alloc),
            from_initiator: DigestFilter::new(alloc),
            from_target: DigestFilter::new(alloc),
            initiator: None,
            target: None,
        })
    }

    /// Why an end was not followed to the end of the capture.
    pub(crate) fn fault(&self, which: Which) -> Option<CapturesFault> {
        match which {
            Which::Initiator => self.initiator,
            Which::Target => self.target,
        }
    }

    /// The number of the file, from 0, that the fault of an end is told of.
    pub(crate) fn file_of(&self, which: Which) -> usize {
        match self.fault(which) {
            Some(fault) => self.file.file_of(&fault),
            None => self.file.file_of(&CapturesFault::Read),
        }
    }

    /// Reads on, has a recorder hear what that adds, and says whether the capture goes on. Returns
    /// `NoMemory` alone.
    pub(crate) fn step<R: Read>(
        &mut self,
        source: &mut R,
        recorder: &mut Recorder,
    ) -> Result<bool, JobFault> {
        match self.file.step(source) {
            Ok(Stood::Other) => Ok(true),
            Ok(Stood::Packet(packet)) => {
                let now = nanoseconds_of(&packet);
                let heard = hear(
                    &mut self.connections,
                    &packet,
                    self.wanted,
                    &mut self.passed,
                    &mut self.known,
                );
                match heard {
                    Err(_) => Err(JobFault::NoMemory),
                    Ok(None) => Ok(true),
                    Ok(Some((which, fault))) => self.pass_on(which, now, fault, recorder),
                }
            }
            Ok(Stood::End) => {
                self.stop(Which::Initiator, self.at_end(Which::Initiator), recorder)?;
                self.stop(Which::Target, self.at_end(Which::Target), recorder)?;
                Ok(false)
            }
            Err(CapturesFault::NoMemory) => Err(JobFault::NoMemory),
            Err(fault) => {
                self.stop(Which::Initiator, Some(fault), recorder)?;
                self.stop(Which::Target, Some(fault), recorder)?;
                Ok(false)
            }
        }
    }

    // Has the recorder hear what is known, and follows the end no further behind a fault.
    fn pass_on(
        &mut self,
        which: Which,
        now: u64,
        fault: Option<CapturesFault>,
        recorder: &mut Recorder,
    ) -> Result<bool, JobFault> {
        if self.fault(which).is_some() {
            return Ok(true);
        }
        let mut fault = fault;
        if matches!(fault, None | Some(CapturesFault::Cut { .. })) {
            self.plain.clear();
            if let Some(wrong) = self.filter(which)? {
                fault = Some(self.digest(which, wrong));
            }
            recorder.hear(which, now, &self.plain)?;
        }
        if fault.is_some() {
            self.stop(which, fault, recorder)?;
        }
        Ok(true)
    }

    // Leaves in `plain` what is known without digests, up to one that is wrong.
    fn filter(&mut self, which: Which) -> Result<Option<WrongDigest>, JobFault> {
        let said = match which {
            Which::Initiator => {
                self.from_initiator.hears(&self.from_target);
                self.from_initiator.take(&self.known, &mut self.plain)
            }
            Which::Target => {
                self.from_target.hears(&self.from_initiator);
                self.from_target.take(&self.known, &mut self.plain)
            }
        };
        match said {
            Ok(wrong) => Ok(wrong),
            Err(_) => Err(JobFault::NoMemory),
        }
    }

    // That a digest is wrong, which ends in the last packet that was read.
    fn digest(&self, which: Which, wrong: WrongDigest) -> CapturesFault {
        CapturesFault::Digest {
            connection: self.wanted,
            end: match which {
                Which::Initiator => End::Initiator,
                Which::Target => End::Target,
            },
            part: wrong.part,
            offset: wrong.offset,
            packet: self.file.packets(),
        }
    }

    // Follows an end no further.
    fn stop(
        &mut self,
        which: Which,
        fault: Option<CapturesFault>,
        recorder: &mut Recorder,
    ) -> Result<(), JobFault> {
        if self.fault(which).is_some() {
            return Ok(());
        }
        match which {
            Which::Initiator => self.initiator = fault,
            Which::Target => self.target = fault,
        }
        let fault = match fault {
            Some(_) => Some(JobFault::Read(which)),
            None => None,
        };
        recorder.end(which, fault)
    }

    // What is wrong with an end where the capture ends.
    fn at_end(&self, which: Which) -> Option<CapturesFault> {
        let number = self.wanted;
        let Some(connection) = self.connections.list().get(number) else {
            let missing = CapturesFault::NoConnection { connection: number };
            return Some(self.passed.unwrap_or(missing));
        };
        let half = half_of(connection, which);
        match half.stopped() {
            Some(stop) => Some(stop_fault(number, stop)),
            None if half.known == 0 => self.passed,
            None => None,
        }
    }
}

// What an end of a connection sent.
fn half_of(connection: &Connection, which: Which) -> &Half {
    let initiator = connection.initiator();
    match which {
        Which::Initiator => connection.half(initiator),
        Which::Target => connection.half(initiator.other()),
    }
}

// Takes a packet. If it is of the connection that is wanted, says which end sent it and why that is not
// followed further, and leaves in `known` what it adds to that end's stream.
fn hear(
    connections: &mut Connections,
    packet: &Numbered<'_>,
    wanted: usize,
    passed: &mut Option<CapturesFault>,
    known: &mut Vec<u8>,
) -> Result<Option<(Which, Option<CapturesFault>)>, AllocError> {
    known.clear();
    let segment = match packet.segment() {
        Ok(Some(segment)) => segment,
        Ok(None) => return Ok(None),
        Err(reason) => {
            *passed = passed.or(Some(reason));
            return Ok(None);
        }
    };
    let heard = heard_of(&segment, packet.number);
    let Ok(number) = connections.take(heard, known) else {
        return Err(AllocError);
    };
    connections.keep_within();
    match connections.list().get(number) {
        Some(connection) if number == wanted => {
            let which = if heard.said.side == connection.initiator() {
                Which::Initiator
            } else {
                Which::Target
            };
            let fault = fault_of(connection, which, number, &heard, packet.at);
            Ok(Some((which, fault)))
        }
        _ => Ok(None),
    }
}

// Why an end is not followed behind one of its segments.
fn fault_of(
    connection: &Connection,
    which: Which,
    number: usize,
    heard: &Heard<'_>,
    at: u64,
) -> Option<CapturesFault> {
    let half = half_of(connection, which);
    let is_headless = connection.opener.is_none()
        && !half_of(connection, Which::Initiator).is_login();
    if heard.said.some && is_headless || is_before(half, which) {
        return Some(CapturesFault::Begun { connection: number });
    }
    if let Some(stop) = half.stop {
        return Some(stop_fault(number, stop));
    }
    if heard.is_cut {
        let packet = heard.packet;
        return Some(CapturesFault::Cut { at, packet });
    }
    None
}

// Whether bytes of an end came before the capture: its SYN is missing, and its first byte is not that of
// a login (own rule).
fn is_before(half: &Half, which: Which) -> bool {
    let Some(first) = half.first_byte else {
        return false;
    };
    let is_login = match which {
        Which::Initiator => half.is_login(),
        Which::Target => first == LOGIN_RESPONSE,
    };
    matches!(half.start, Start::Bytes(_)) && !is_login
}

// The fault of a direction that is not followed further.
fn stop_fault(connection: usize, stop: Stop) -> CapturesFault {
    match stop {
        Stop::Gap(offset, packet) => CapturesFault::Gap {
            connection,
            offset,
            packet,
        },
        Stop::Conflict(offset, packet) => CapturesFault::Conflict {
            connection,
            offset,
            packet,
        },
        Stop::Long => CapturesFault::Long { connection },
    }
}

// When a packet was captured, in nanoseconds from 1970 on; 0 where the capture says no time.
fn nanoseconds_of(packet: &Numbered<'_>) -> u64 {
    let (time, second) = (packet.packet.time, packet.packet.second);
    if second == 0 {
        return 0;
    }
    let part = u128::from(time % second) * 1_000_000_000 / u128::from(second);
    let all = u128::from(time / second) * 1_000_000_000 + part;
    u64::try_from(all).unwrap_or(u64::MAX)
}
