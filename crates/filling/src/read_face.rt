// A face as it was read from its record, and what its loops were measured as.
ghost use Rattle.std.specs.Prelude.{◌≡◌};
ghost use Rattle.records.specs.Bytes.{◌=?◌};
ghost use Rattle.records.specs.Face.{segments, sense as sense_of};
ghost use Rattle.measuring.specs.Head.{frame_at, options_at};

use loop_records::LoopRecord;
use measuring::head::{frame_of, options_of};
use records::read::{segments, sense};
use surfaces::patch::Patch;
use surfaces::surface::Surface;

// The corners and the areas of its loops stand beside it: the closed path changes them where they are.
#[derive(Clone, Copy)]
pub(crate) struct ReadFace<'a> {
    pub(crate) bytes: &'a [u8],
    pub(crate) head: &'a [f64],
    pub(crate) counts: &'a [usize],
    pub(crate) loops: &'a [LoopRecord],
    pub(crate) wraps: &'a [i32],
    pub(crate) surface: Surface,
}

impl<'a> ReadFace<'a> {
    // The surface with its frame, which takes roots, and its tolerances.
    pub(crate) fn patch(self) -> Patch
        ensures { result ≡ record { surface = self.entry.surface; frame = frame_at self.entry.head.now; options = options_at self.entry.head.now (segments self.entry.bytes.now) } }
    {
        Patch {
            surface: self.surface,
            frame: frame_of(self.head),
            options: options_of(self.head, segments(self.bytes)),
        }
    }

    // Whether the face's sense is its surface's.
    pub(crate) fn has_sense(self) -> bool
        ensures { result ≡ (sense_of self.entry.bytes.now =? 1) }
    {
        sense(self.bytes) == 1
    }
}
