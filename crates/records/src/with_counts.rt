// A face record of which the header and the counts are there: made where their length was tested, so that
// what reads the counts asks nothing more.
ghost use Rattle.std.specs.Prelude.{◌+◌, ◌*◌, ◌≤◌, length};
ghost use Rattle.records.specs.Face.{header_size, loops};

#[derive(Clone, Copy)]
pub(crate) struct WithCounts<'a> {
    pub(crate) bytes: &'a [u8],
    ghost counts_there: { header_size + 2 * loops bytes.now ≤ length bytes.now },
}
