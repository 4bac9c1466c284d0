//! How long the requests of a server may be.

ghost use Rattle.std.specs.Prelude.{◌≡◌, ◌+◌, ◌*◌, ◌%◌, ◌<◌, ◌≤◌, length, true};
ghost use Rattle.nbd_client.specs.Sizes.{AreSizes, FitsSizes};

/// What requests a server takes.
#[derive(Clone, Copy, Debug, PartialEq, Eq)]
pub struct RequestSizes {
    /// The most bytes of one: 4,096 to 33,554,432, a multiple of 4,096.
    pub longest: u32,
    /// Whether each begins and ends at a multiple of 4,096 bytes of the export. Else it does at one of 512.
    pub wide: bool,
}

/// How many of the blocks that are left, from block `lba` on, one request can have.
pub(crate) fn run_length(sizes: RequestSizes, lba: u64, left: usize) -> usize
    requires long { 4096 ≤ sizes.longest }
    ensures few { result ≤ left }
    ensures some { 0 < left → 0 < result }
    ensures short { 512 * result ≤ sizes.longest }
    ensures wide { sizes.wide ≡ true → 512 * (lba % 8 + result) ≤ sizes.longest }
{
    let most = (sizes.longest / 512) as usize;
    if sizes.wide {
        left.min(most - (lba % 8) as usize)
    } else {
        left.min(most)
    }
}

/// A request that covers blocks, with blocks before and behind them that nobody asked for.
#[derive(Clone, Copy)]
pub(crate) struct Span {
    /// Its first block.
    pub(crate) first: u64,
    /// Its bytes before the blocks.
    pub(crate) before: usize,
    /// Its bytes behind them.
    pub(crate) behind: usize,
    /// All its bytes.
    pub(crate) size: u32,
}

/// The request that covers `size` bytes of blocks, from block `lba` on, of an export of `count` blocks.
pub(crate) fn span_of(sizes: RequestSizes, count: u64, lba: u64, size: u32) -> Span
    requires sizes { AreSizes sizes count }
    requires whole { size % 512 ≡ 0 }
    requires inside { 512 * lba + size ≤ 512 * count }
    requires short { size ≤ sizes.longest }
    requires wide { sizes.wide ≡ true → 512 * (lba % 8) + size ≤ sizes.longest }
    ensures place { 512 * result.first + result.before ≡ 512 * lba }
    ensures size { result.size ≡ result.before + size + result.behind }
    ensures before { result.before < 4096 }
    ensures behind { result.behind < 4096 }
    ensures front { result.before % 512 ≡ 0 }
    ensures whole { result.size % 512 ≡ 0 }
    ensures inside { 512 * result.first + result.size ≤ 512 * count }
    ensures fits { FitsSizes (512 * result.first) result.size sizes }
{
    if !sizes.wide {
        return Span {
            first: lba,
            before: 0,
            behind: 0,
            size,
        };
    }
    let before = 512 * (lba % 8) as u32;
    let rest = (before + size) % 4096;
    let behind = if rest == 0 { 0 } else { 4096 - rest };
    Span {
        first: lba - lba % 8,
        before: before as usize,
        behind: behind as usize,
        size: before + size + behind,
    }
}
