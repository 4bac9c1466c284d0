//! The handshake: a greeting, the option GO, and its answers.

ghost use Rattle.std.specs.Prelude.{◌≡◌, ◌<◌, ◌≤◌, length, Ok, IfErr, IfOk, OnOk};
ghost use Rattle.scsi_disk.specs.Disk.{most_blocks};
ghost use Rattle.std.specs.Io.KnownBytes.{Appends};
ghost use Rattle.nbd_client.specs.Sizes.{AreSizes};
ghost use Rattle.nbd_client.specs.Handshaking.{asked_first};
ghost use Rattle.nbd_client.specs.Heard.{IsUnjudged, HandshakeJudges, HandshakeRefuses, export_after, sizes_after};
ghost use Rattle.nbd_client.specs.inner.Heard.{GoAnswersSay, GoAnswerSays};

use crate::export::{ExportFault, Opened, judge};
use crate::fault::Lost;
use crate::medium::LONGEST_REQUEST;
use nbd_wire::{
    BlockSizes, CLIENT_FLAGS, Export, GreetingFault, Info, InfoFault, OptionMagic, read_greeting,
    read_info, read_option_head, write_go,
};
use std::alloc::{AllocError, Global};
use std::io::{self, Read, Write};
use thiserror::Error;

/// Why an export is not opened.
#[derive(Clone, Copy, Debug, PartialEq, Eq, Error)]
pub enum HandshakeFault {
    /// GO cannot be asked of the server.
    #[error("{0}")]
    Greeting(GreetingFault),
    /// The server has no such export.
    #[error("is no export there")]
    NoExport,
    /// It is given over TLS alone.
    #[error("wants TLS")]
    WantsTls,
    /// The server does not know GO.
    #[error("does not know the option GO")]
    NoGo,
    /// The server refuses GO for another reason, 2^31 + n.
    #[error("is refused: option error {0}")]
    Refused(u32),
    /// An answer does not begin as one.
    #[error("protocol: {0}")]
    Magic(OptionMagic),
    /// An answer is to another option.
    #[error("protocol: answer to option {0}")]
    Option(u32),
    /// An answer is none of those to GO.
    #[error("protocol: answer {0} to the option GO")]
    Answer(u32),
    /// An answer has more than 8,192 bytes (own rule).
    #[error("protocol: answer of {0} bytes")]
    Long(u32),
    /// An answer INFO says nothing.
    #[error("protocol: {0}")]
    Info(InfoFault),
    /// The last answer, or the 64th (own rule), comes before the export's size.
    #[error("protocol: no size")]
    NoSize,
    /// No blocks are kept on such an export.
    #[error("{0}")]
    Export(ExportFault),
    /// The connection does not come about, or is lost.
    #[error("{0}")]
    Lost(Lost),
    /// Memory ran out.
    #[error("memory")]
    NoMemory,
}

impl From<AllocError> for HandshakeFault {
    ghost use Rattle.nbd_client.specs.Heard.{IsUnjudged};

    ghost from_gives = { λ _ fault. IsUnjudged fault };

    fn from(_: AllocError) -> HandshakeFault {
        HandshakeFault::NoMemory
    }
}

impl From<io::Error> for HandshakeFault {
    ghost use Rattle.nbd_client.specs.Heard.{IsUnjudged};

    ghost from_gives = { λ _ fault. IsUnjudged fault };

    fn from(error: io::Error) -> HandshakeFault {
        HandshakeFault::Lost(Lost::from(error))
    }
}

/// The option GO.
const GO: u32 = 7;

const MOST_ANSWERS: u32 = 64;

const LONGEST_ANSWER: u32 = 8192;

/// Opens the export of this name, to be written or to be read alone: reads the greeting, asks for GO, and reads
/// its answers. Returns what is known of the export. After an error the connection is of no use.
pub fn negotiate<R: Read, W: Write>(
    alloc: Global,
    reader: &mut R,
    writer: &mut W,
    name: &[u8],
    written: bool,
) -> Result<Opened, HandshakeFault>
    requires short { length name.now ≤ 4096 }
    ensures asks { OnOk result
        (Appends (W.contents writer.old) (W.contents writer.new) (asked_first name.now)) }
    ensures some { IfOk result (λ opened. 0 < opened.blocks) }
    ensures few { IfOk result (λ opened. opened.blocks ≤ most_blocks) }
    ensures sizes { IfOk result (λ opened. AreSizes opened.sizes opened.blocks) }
    // The export is the one that the server's answers say, with the sizes that they say.
    ensures opened { IfOk result (λ opened.
        HandshakeJudges written (R.remaining reader.old) (R.remaining reader.new) (Ok opened)) }
    ensures refused { IfErr result
        (HandshakeRefuses written (R.remaining reader.old) (R.remaining reader.new)) }
{
    let mut greeting = [0; 18];
    reader.read_exact(&mut greeting)?;
    if let Err(fault) = read_greeting(&greeting) {
        return Err(HandshakeFault::Greeting(fault));
    }
    let mut asked = Vec::from_slice(alloc, &CLIENT_FLAGS)?;
    write_go(name, &mut asked)?;
    writer.write_all(&asked)?;
    let (export, sizes) = answers(alloc, reader)?;
    match judge(written, export, sizes) {
        Ok(opened) => Ok(opened),
        Err(fault) => Err(HandshakeFault::Export(fault)),
    }
}

// What the answers to GO say, up to the last one. A server that says no sizes takes requests of 1 byte
// to 32 MiB.
fn answers<R: Read>(alloc: Global, reader: &mut R) -> Result<(Export, BlockSizes), HandshakeFault>
    ensures said { IfOk result (λ said.
        GoAnswersSay (R.remaining reader.old) (R.remaining reader.new) said.0 said.1) }
    ensures unjudged { IfErr result IsUnjudged }
{
    let mut export = None;
    let mut sizes = BlockSizes {
        minimum: 1,
        preferred: 4096,
        maximum: LONGEST_REQUEST,
    };
    for _ in 0..MOST_ANSWERS {
        match answer(alloc, reader)? {
            None => {
                return match export {
                    Some(export) => Ok((export, sizes)),
                    None => Err(HandshakeFault::NoSize),
                };
            }
            Some(said) => {
                export = export_after(said, export);
                sizes = sizes_after(said, sizes);
            }
        }
    }
    Err(HandshakeFault::NoSize)
}

// The export that was said last.
fn export_after(said: Info, before: Option<Export>) -> Option<Export>
    ensures { result ≡ export_after said before }
{
    match said {
        Info::Export(export) => Some(export),
        Info::BlockSizes(_) | Info::Other(_) => before,
    }
}

// The sizes that were said last.
fn sizes_after(said: Info, before: BlockSizes) -> BlockSizes
    ensures { result ≡ sizes_after said before }
{
    match said {
        Info::BlockSizes(sizes) => sizes,
        Info::Export(_) | Info::Other(_) => before,
    }
}

// What an answer to GO says; nothing, if it is the last.
fn answer<R: Read>(alloc: Global, reader: &mut R) -> Result<Option<Info>, HandshakeFault>
    ensures said { IfOk result (GoAnswerSays (R.remaining reader.old) (R.remaining reader.new)) }
    ensures unjudged { IfErr result IsUnjudged }
{
    let mut head = [0; 20];
    reader.read_exact(&mut head)?;
    let head = match read_option_head(&head) {
        Ok(head) => head,
        Err(fault) => return Err(HandshakeFault::Magic(fault)),
    };
    if head.option != GO {
        return Err(HandshakeFault::Option(head.option));
    }
    if head.length > LONGEST_ANSWER {
        return Err(HandshakeFault::Long(head.length));
    }
    let mut bytes = Vec::new(alloc);
    bytes.resize(head.length as usize, 0)?;
    reader.read_exact(&mut bytes)?;
    match head.answer {
        1 => Ok(None),
        3 => match read_info(&bytes) {
            Ok(info) => Ok(Some(info)),
            Err(fault) => Err(HandshakeFault::Info(fault)),
        },
        answer => Err(refusal(answer)),
    }
}

// Why an answer that is neither ACK nor INFO is none to go on with ("Option reply types").
fn refusal(answer: u32) -> HandshakeFault
    ensures { IsUnjudged result }
{
    match answer {
        0x8000_0001 => HandshakeFault::NoGo,
        0x8000_0005 => HandshakeFault::WantsTls,
        0x8000_0006 => HandshakeFault::NoExport,
        0x8000_0000.. => HandshakeFault::Refused(answer - 0x8000_0000),
        _ => HandshakeFault::Answer(answer),
    }
}
