//! An image that may grow while it is served.

use scsi_file::OpenImage;
use std::fmt::{self, Display, Write};

/// An image, and how many of its blocks are served.
#[derive(Drop)]
pub struct Watched {
    image: OpenImage,
    served: u64,
}

impl Watched {
    /// This image, of which so many blocks are served.
    pub fn new(image: OpenImage, served: u64) -> Watched {
        Watched { image, served }
    }

    /// How it has grown, if it has more blocks by now than are served.
    pub fn grown(&self) -> Option<Grown> {
        let blocks = self.image.blocks()?;
        if blocks > self.served {
            Some(Grown {
                served: self.served,
                blocks,
            })
        } else {
            None
        }
    }

    /// Counts the blocks by which it has grown as served. Says whether there are some.
    pub fn take_growth(&mut self) -> bool {
        match self.grown() {
            Some(grown) => {
                self.served = grown.blocks;
                true
            }
            None => false,
        }
    }
}

/// How an image has grown.
#[derive(Clone, Copy)]
pub struct Grown {
    served: u64,
    blocks: u64,
}

impl Display for Grown {
    fn fmt<W: Write>(&self, f: &mut fmt::Formatter<W>) -> fmt::Result {
        write!(
            f,
            "the image has grown to {} blocks, and {} are served until nobody is connected",
            self.blocks, self.served
        )
    }
}
