//! What is due to be written of a capture.

use crate::fault::CapturesFault;
use crate::scene::Scene;
use iscsi_explain::{Origin, write_remark};
use std::alloc::Global;

/// What is due to be written: PDUs with the objects of remarks among them, and the remarks.
#[derive(Drop)]
pub(crate) struct Told {
    pub(crate) out: Vec<u8>,
    pub(crate) remarks: Vec<CapturesFault>,
}

impl Told {
    /// Nothing is due. It takes no memory.
    pub(crate) fn new(alloc: Global) -> Told {
        Told {
            out: Vec::new(alloc),
            remarks: Vec::new(alloc),
        }
    }

    /// A remark on the connection of a segment, and on one end's direction if one is said.
    pub(crate) fn remark(
        &mut self,
        alloc: Global,
        scene: Scene,
        origin: Option<Origin>,
        fault: CapturesFault,
    ) -> Result<(), CapturesFault> {
        let text = format!(in alloc; "{fault}")?;
        let remark = fault.remark(scene.number, origin);
        write_remark(alloc, scene.form, &remark, text.as_str(), &mut self.out)?;
        Ok(self.remarks.push(fault)?)
    }
}
