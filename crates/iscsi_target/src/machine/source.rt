//! Where the data of a command come from (RFC 7143, section 11.7).

ghost use Rattle.std.specs.Prelude.{◌≡◌, ◌<◌, ◌^◌, OnOk};
ghost use Rattle.iscsi_pdu.specs.Meaning.{HeadFits};
ghost use Rattle.iscsi_target.specs.Advances.{store_of};
ghost use Rattle.iscsi_target.specs.inner.Reads.{HasPart, ReadsOnto, SendsPart, given_by_source, source_len};

use iscsi_pdu::{Head, write_head};
use iscsi_stream::write_pdu;
use scsi_disk::{BlockRange, BlockStore, StoreFault};

// What a command returns.
#[derive(Clone, Copy)]
pub(super) enum Source<'a> {
    // These bytes.
    Bytes(&'a [u8]),
    // These blocks of the store, which are read as they are sent.
    Blocks(BlockRange),
}

impl Source<'_> {
    // How many bytes it has.
    pub(super) fn len(&self) -> u32
        requires { source_len self.now < 2 ^ 32 }
        ensures { result ≡ source_len self.now }
    {
        match self {
            Source::Bytes(bytes) => bytes.len() as u32,
            Source::Blocks(range) => 512 * range.count,
        }
    }

    // Appends a Data-In with `len` bytes from an offset on. A front of it may stand where the read
    // failed or memory ran out.
    pub(super) fn append_part<S: BlockStore>(
        &self,
        head: &Head,
        offset: u32,
        len: u32,
        store: &mut S,
        out: &mut Vec<u8>,
    ) -> Result<(), StoreFault>
        requires fits { HeadFits head.now }
        requires short { len < 2 ^ 24 }
        requires has { HasPart self.now (S.disk store.old).count offset len }
        ensures ok { OnOk result (SendsPart head.now (given_by_source self.now (S.disk store.old)
            (S.failures store.old) (S.failures store.new)) offset len out.old.items out.new.items) }
        ensures reads { ReadsOnto (store_of (S.disk store.old) (S.failures store.old))
            (store_of (S.disk store.new) (S.failures store.new))
            (S.kept store.old) (S.kept store.new) out.old.items out.new.items result }
    {
        match self {
            Source::Bytes(bytes) => {
                write_pdu(head, &bytes[offset as usize..][..len as usize], out)?;
                Ok(())
            }
            Source::Blocks(range) => {
                out.extend_from_slice(&write_head(head, len))?;
                store.read_onto(range.first + u64::from(offset / 512), len / 512, out)
            }
        }
    }
}
